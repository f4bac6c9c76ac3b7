//! Theorems that other crates may use.

ghost use Rattle.std.specs.Prelude.{◌≡◌, [], ◌∷◌, ℕ, pos, false, List, None, Result, Ok, Some, ◌==◌};
ghost use Rattle.std.specs.FinMap.{get, insert, values};
ghost use Rattle.std.specs.Option.{option_map};
ghost use Rattle.mx_key.specs.Keys.{Key, Integer};
ghost use Rattle.mx_schema.specs.Bootstrap.{first_indexes, first_spaces, first_state, part_of_numbers, rows_of};
ghost use Rattle.mx_schema.specs.Catalogues.{Catalogue, IsCatalogueOf, StandByKey, indexes_of, schema_by, schema_of};
ghost use Rattle.mx_schema.specs.IndexRows.{index_in};
ghost use Rattle.mx_schema.specs.SchemaChanges.{IndexesHaveSpaces, RowsStand, schema_with_index, schema_without_index, with_schema};
ghost use Rattle.mx_schema.specs.SchemaChecks.{IsMade, RowFault};
ghost use Rattle.mx_schema.specs.SpaceRows.{space_in};
ghost use Rattle.mx_schema.specs.declared.index_def.IndexRow.{IndexRow};
ghost use Rattle.mx_schema.specs.declared.schema.Schema.{Schema};
ghost use Rattle.mx_schema.specs.declared.space_def.SpaceDef.{SpaceDef};
ghost use Rattle.mx_schema.specs.State.{State, Tuples, index_rows, space_rows, tuples_in, with_tuple, without_tuple};

/// A theorem, which does nothing when it is called: the rows of a new database make a catalogue, and it
/// is that of its state.
pub fn a_new_database_has_its_catalogue()
    ensures { (result : Result Catalogue RowFault) → IsMade (rows_of first_spaces) (rows_of first_indexes) result
        → (catalogue : Catalogue) × (result ≡ Ok catalogue) × IsCatalogueOf catalogue first_state }
{}

/// A theorem, which does nothing when it is called: rows make one catalogue, or have one first fault.
pub fn rows_make_one_catalogue()
    ensures { (spaces indexes : List (List ℕ)) (one other : Result Catalogue RowFault)
        → IsMade spaces indexes one → IsMade spaces indexes other → one ≡ other }
{}

/// A theorem, which does nothing when it is called: where the rows of spaces and of indexes stand under
/// their primary keys, the catalogue that they make is that of the state.
pub fn a_catalogue_is_that_of_its_state()
    ensures { (state : State) (catalogue : Catalogue)
        → StandByKey (part_of_numbers 0 ∷ []) (tuples_in state space_rows)
        → StandByKey (part_of_numbers 0 ∷ part_of_numbers 1 ∷ []) (tuples_in state index_rows)
        → IsMade (values (tuples_in state space_rows)) (values (tuples_in state index_rows)) (Ok catalogue)
        → IsCatalogueOf catalogue state }
{}

/// A theorem, which does nothing when it is called: what the rows of a state describe after a row of a
/// space or an index is put or taken out. A row of an index that is put isn't there yet.
pub fn rows_change_the_schema()
    ensures space_put { (state : State) (id : ℕ) (row : List ℕ) (def : SpaceDef) → space_in row ≡ Some def
        → (q : ℕ) → schema_of (with_tuple state space_rows (Integer (pos id) ∷ []) row) q ≡ with_schema (schema_of state) id (schema_by state id (Some def)) q }
    ensures new_space { (state : State) (id : ℕ) (row : List ℕ) (def : SpaceDef) → IndexesHaveSpaces state → schema_of state id ≡ None → space_in row ≡ Some def
        → (q : ℕ) → schema_of (with_tuple state space_rows (Integer (pos id) ∷ []) row) q
        ≡ with_schema (schema_of state) id (Some (record { def = def; indexes = [] })) q }
    ensures space_removed { (state : State) (id : ℕ)
        → (q : ℕ) → schema_of (without_tuple state space_rows (Integer (pos id) ∷ [])) q ≡ with_schema (schema_of state) id None q }
    ensures index_put { (state : State) (space id : ℕ) (row : List ℕ) (index : IndexRow) → RowsStand state
        → get (tuples_in state index_rows) (Integer (pos space) ∷ Integer (pos id) ∷ []) ≡ None → index_in row ≡ Some index → index.def.id.0 ≡ id
        → (q : ℕ) → schema_of (with_tuple state index_rows (Integer (pos space) ∷ Integer (pos id) ∷ []) row) q
        ≡ with_schema (schema_of state) space (option_map (schema_with_index index.def) (schema_of state space)) q }
    ensures index_removed { (state : State) (space id : ℕ) → RowsStand state
        → (q : ℕ) → schema_of (without_tuple state index_rows (Integer (pos space) ∷ Integer (pos id) ∷ [])) q
        ≡ with_schema (schema_of state) space (option_map (schema_without_index id) (schema_of state space)) q }
{}

/// A theorem, which does nothing when it is called: the rows of indexes stand under the numbers of their
/// spaces and indexes in a new database, and where they make a catalogue and stand under their primary
/// keys. They stay there when one is put under its own numbers or any is taken out.
pub fn index_rows_stand_under_their_numbers()
    ensures new_database { RowsStand first_state }
    ensures made { (state : State) (catalogue : Catalogue) → StandByKey (part_of_numbers 0 ∷ part_of_numbers 1 ∷ []) (tuples_in state index_rows)
        → IsMade (values (tuples_in state space_rows)) (values (tuples_in state index_rows)) (Ok catalogue) → RowsStand state }
    ensures put { (state : State) (row : List ℕ) (index : IndexRow) → RowsStand state → index_in row ≡ Some index
        → RowsStand (with_tuple state index_rows (Integer (pos index.space.0) ∷ Integer (pos index.def.id.0) ∷ []) row) }
    ensures removed { (state : State) (key : Key) → RowsStand state → RowsStand (without_tuple state index_rows key) }
    ensures elsewhere { (state : State) (space : ℕ) (tuples : Tuples) → (index_rows == space) ≡ false → RowsStand state
        → RowsStand (insert state space tuples) }
{}

/// A theorem, which does nothing when it is called: in a new database each row of an index is one of a
/// space that is there. It stays so where an index is put for a space that is there, and where a space
/// is taken out that has no indexes.
pub fn indexes_have_spaces()
    ensures new_database { IndexesHaveSpaces first_state }
    ensures space_put { (state : State) → IndexesHaveSpaces state → (id : ℕ) (row : List ℕ) (def : SpaceDef) → space_in row ≡ Some def
        → IndexesHaveSpaces (with_tuple state space_rows (Integer (pos id) ∷ []) row) }
    ensures space_removed { (state : State) → IndexesHaveSpaces state → (id : ℕ) → indexes_of state id ≡ []
        → IndexesHaveSpaces (without_tuple state space_rows (Integer (pos id) ∷ [])) }
    ensures index_put { (state : State) → IndexesHaveSpaces state → (space id : ℕ) (row : List ℕ) (index : IndexRow) (schema : Schema) → RowsStand state
        → get (tuples_in state index_rows) (Integer (pos space) ∷ Integer (pos id) ∷ []) ≡ None → index_in row ≡ Some index → index.def.id.0 ≡ id
        → schema_of state space ≡ Some schema → IndexesHaveSpaces (with_tuple state index_rows (Integer (pos space) ∷ Integer (pos id) ∷ []) row) }
    ensures index_removed { (state : State) → IndexesHaveSpaces state → (space id : ℕ) → RowsStand state
        → IndexesHaveSpaces (without_tuple state index_rows (Integer (pos space) ∷ Integer (pos id) ∷ [])) }
    ensures elsewhere { (state : State) → IndexesHaveSpaces state → (space : ℕ) (tuples : Tuples) → (space == space_rows) ≡ false → (space == index_rows) ≡ false
        → IndexesHaveSpaces (insert state space tuples) }
{}
