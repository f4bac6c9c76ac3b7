//! A new database.

ghost use Rattle.std.specs.Prelude.{◌≡◌, ℕ, List, [], ◌∷◌, map, Option, Some, IfOk, OnOk};
ghost use Rattle.mx_key.specs.declared.part.Part.{Part};
ghost use Rattle.mx_key.specs.declared.part.PartKind.TheVariants as kind;
ghost use Rattle.mx_schema.specs.declared.schema.Schema.{Schema};
ghost use Rattle.mx_schema.specs.Bootstrap.{first_state, part_of_numbers, part_of_texts, with_rows};
ghost use Rattle.mx_schema.specs.declared.index_def.IndexDef.{IndexDef};
ghost use Rattle.mx_schema.specs.Catalogues.{IsCatalogueOf, index_with};
ghost use Rattle.mx_schema.specs.State as plain;
ghost use Rattle.mx_space.specs.Stored.{Holds, HoldsBy};

use mx_base::SpaceId;
use mx_key::{KeyDef, Part, PartKind};
use mx_schema::{
    Catalogue, INDEX_ROWS, SETTINGS, SPACE_ROWS, a_new_database_has_its_catalogue,
    first_index_rows, first_setting_rows, first_space_rows, from_row_slices, key_tuple,
};
use mx_space::State;
use std::alloc::{AllocError, Global};

/// What a new database holds: the rows that describe its spaces and indexes, and its settings.
pub fn bootstrap(alloc: Global) -> Result<State, AllocError>
    ensures { IfOk result (λ state. Holds state first_state) }
{
    let catalogue = first_catalogue(alloc)?;
    let mut state = State::new(alloc, catalogue)?;
    let text = parts_of(alloc, &[part(0, PartKind::String)])?;
    let number = parts_of(alloc, &[part(0, PartKind::Unsigned)])?;
    let numbers = parts_of(
        alloc,
        &[part(0, PartKind::Unsigned), part(1, PartKind::Unsigned)],
    )?;
    put_rows(
        alloc,
        &mut state,
        SpaceId(SETTINGS),
        &text,
        &first_setting_rows(),
    )?;
    put_rows(
        alloc,
        &mut state,
        SpaceId(SPACE_ROWS),
        &number,
        &first_space_rows(),
    )?;
    put_rows(
        alloc,
        &mut state,
        SpaceId(INDEX_ROWS),
        &numbers,
        &first_index_rows(),
    )?;
    Ok(state)
}

fn first_catalogue(alloc: Global) -> Result<Catalogue, AllocError>
    ensures { IfOk result (λ catalogue. IsCatalogueOf catalogue first_state) }
{
    a_new_database_has_its_catalogue();
    match from_row_slices(alloc, &first_space_rows(), &first_index_rows()) {
        Ok(catalogue) => Ok(catalogue),
        Err(_) => Err(AllocError),
    }
}

fn part(field: u32, kind: PartKind) -> Part
    ensures { result ≡ record { field = field; kind = kind } }
{
    Part { field, kind }
}

fn parts_of(alloc: Global, parts: &[Part]) -> Result<KeyDef, AllocError>
    ensures { IfOk result (λ def. def ≡ parts.now) }
{
    Ok(KeyDef::from_vec(parts.to_vec(alloc)?))
}

/// Puts rows into a space, each under its key of these parts.
fn put_rows(
    alloc: Global,
    state: &mut State,
    space: SpaceId,
    parts: &KeyDef,
    rows: &[&[u8]],
) -> Result<(), AllocError>
    ensures { (schemas : ℕ → Option Schema) (before : plain.State) (schema : Schema) (primary : IndexDef) → HoldsBy schemas state.old before → schemas space.0 ≡ Some schema
        → index_with 0 schema.indexes ≡ Some primary → primary.key ≡ parts.now
        → OnOk result (HoldsBy schemas state.new (with_rows space.0 parts.now before (map (λ row. row.now) rows.now))) }
{
    for row in rows {
        match key_tuple(alloc, parts, row) {
            Ok(keyed) => state.put(alloc, space, keyed)?,
            Err(_) => return Err(AllocError),
        }
    }
    Ok(())
}
