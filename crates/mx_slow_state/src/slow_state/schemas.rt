//! Spaces and indexes that the plain slow program adds and drops.

ghost use Rattle.std.specs.Prelude.{◌≡◌, ℕ, [], Option, Some, None, OnErr, OnOk, ◌==◌, if◌then◌else◌};
ghost use Rattle.std.specs.BTreeMap.{get_by};
ghost use Rattle.std.specs.FinMap.{empty};
ghost use Rattle.std.specs.Ordering.{nat_cmp};
ghost use Rattle.mx_schema.specs.declared.schema.Schema as described;
ghost use Rattle.mx_schema.specs.SchemaChanges.{schema_with_index, schema_without_index, with_schema, without_index};
ghost use Rattle.mx_schema.specs.State as plain;
ghost use Rattle.mx_schema.specs.State.{tuples_in};
ghost use Rattle.mx_slow_state.specs.SlowSteps.{KeepsBy};

use crate::slow_state::SlowSpace;
use mx_base::{IndexId, SpaceId};
use mx_schema::{IndexDef, IndexDefs, Schema, SpaceDef};
use std::alloc::{AllocError, Global};
use std::collections::BTreeMap;

/// Adds a space without indexes, where there is none of its number.
///
/// # Errors
/// Out of memory. Nothing changed then.
pub(crate) fn add_space(
    alloc: Global,
    spaces: &mut BTreeMap<u32, SlowSpace>,
    def: SpaceDef,
) -> Result<(), AllocError>
    ensures ok { (schemas : ℕ → Option described.Schema) (state : plain.State) → KeepsBy schemas (λ q. get_by (nat_cmp q) spaces.old) state → schemas def.id.0 ≡ None
        → OnOk result (KeepsBy (with_schema schemas def.id.0 (Some (record { def = def; indexes = [] }))) (λ q. get_by (nat_cmp q) spaces.new) state) }
    ensures err { (schemas : ℕ → Option described.Schema) (state : plain.State) → KeepsBy schemas (λ q. get_by (nat_cmp q) spaces.old) state
        → OnErr result (KeepsBy schemas (λ q. get_by (nat_cmp q) spaces.new) state) }
{
    let id = def.id;
    let indexes = IndexDefs::new(alloc);
    let space = SlowSpace {
        schema: Schema { def, indexes },
        tuples: Vec::new(alloc),
    };
    spaces.insert(id.0, space)?;
    Ok(())
}

/// Drops a space that has no tuples, with its indexes.
pub(crate) fn drop_space(spaces: &mut BTreeMap<u32, SlowSpace>, id: SpaceId)
    ensures { (schemas : ℕ → Option described.Schema) (state : plain.State) → KeepsBy schemas (λ q. get_by (nat_cmp q) spaces.old) state → tuples_in state id.0 ≡ empty
        → KeepsBy (with_schema schemas id.0 None) (λ q. get_by (nat_cmp q) spaces.new) state }
{
    spaces.remove(&id.0);
}

/// Adds an index to a space. One that gets a primary index has no tuples.
///
/// # Errors
/// Out of memory. Nothing changed then.
pub(crate) fn add_index(
    spaces: &mut BTreeMap<u32, SlowSpace>,
    id: SpaceId,
    def: IndexDef,
) -> Result<(), AllocError>
    ensures ok { (schemas : ℕ → Option described.Schema) (state : plain.State) (schema : described.Schema) → KeepsBy schemas (λ q. get_by (nat_cmp q) spaces.old) state
        → schemas id.0 ≡ Some schema → (def.id.0 ≡ 0 → tuples_in state id.0 ≡ empty)
        → OnOk result (KeepsBy (with_schema schemas id.0 (Some (schema_with_index def schema))) (λ q. get_by (nat_cmp q) spaces.new) state) }
    ensures err { (schemas : ℕ → Option described.Schema) (state : plain.State) → KeepsBy schemas (λ q. get_by (nat_cmp q) spaces.old) state
        → OnErr result (KeepsBy schemas (λ q. get_by (nat_cmp q) spaces.new) state) }
{
    let Some(found) = spaces.get_mut(&id.0) else {
        return Ok(());
    };
    found.add_index(def)
}

/// Drops an index of a space, and with the primary one all tuples of the space.
pub(crate) fn drop_index(spaces: &mut BTreeMap<u32, SlowSpace>, id: SpaceId, index: IndexId)
    ensures { (schemas : ℕ → Option described.Schema) (state : plain.State) (schema : described.Schema) → KeepsBy schemas (λ q. get_by (nat_cmp q) spaces.old) state
        → schemas id.0 ≡ Some schema
        → KeepsBy (with_schema schemas id.0 (Some (schema_without_index index.0 schema))) (λ q. get_by (nat_cmp q) spaces.new) (without_index state id.0 index.0) }
{
    let Some(found) = spaces.get_mut(&id.0) else {
        return;
    };
    found.drop_index(index);
}

impl SlowSpace {
    /// Adds an index.
    ///
    /// # Errors
    /// Out of memory. Nothing changed then.
    fn add_index(&mut self, def: IndexDef) -> Result<(), AllocError>
        ensures ok { OnOk result (self.new.schema ≡ schema_with_index def self.old.schema) }
        ensures err { OnErr result (self.new.schema ≡ self.old.schema) }
        ensures tuples { self.new.tuples.items ≡ self.old.tuples.items }
    {
        self.schema.indexes.insert(def)
    }

    /// Drops an index, and with the primary one all tuples.
    fn drop_index(&mut self, id: IndexId)
        ensures schema { self.new.schema ≡ schema_without_index id.0 self.old.schema }
        ensures tuples { self.new.tuples.items ≡ (if id.0 == 0 then [] else self.old.tuples.items) }
    {
        self.schema.indexes.remove(id);
        if id.0 == 0 {
            self.tuples.clear();
        }
    }
}
