//! Many changes of a state, which are made ready before the first one is made.

ghost use Rattle.std.specs.Prelude.{◌≡◌, ℕ, List, ◌∷◌, Option, IfOk, OnOk, OnErr};
ghost use Rattle.std.specs.List.{AllByRecursion, AllZip};
ghost use Rattle.mx_schema.specs.declared.schema.Schema as described;
ghost use Rattle.mx_schema.specs.State as plain;
ghost use Rattle.mx_space.specs.Reserved.{all_released, content_under};
ghost use Rattle.mx_entries.specs.PlainChanges.{AreApart, PlainChange, IsApart, MayStand, state_with_all};
ghost use Rattle.mx_space.specs.Reserves.{AreReady, SpellsChange};
ghost use Rattle.mx_space.specs.Stored.{SpacesHold};

use crate::prepared::Prepared;
use crate::spaces::Spaces;
use crate::tuple_changes::{TupleChange, TupleChanges};
use std::alloc::{AllocError, Global};

/// As `State::reserve`. The last change is made ready first, so that the first one is on top.
pub(crate) fn reserve_all(
    alloc: Global,
    spaces: &mut Spaces,
    changes: TupleChanges,
) -> Result<Prepared, AllocError>
    ensures ok { (schemas : ℕ → Option described.Schema) (state : plain.State) (all : List PlainChange) → SpacesHold schemas spaces.old.entries.items state
        → AllZip SpellsChange changes all → AllByRecursion (MayStand schemas) all → AreApart all → IfOk result (λ prepared. AreReady schemas spaces.new.entries.items state prepared all) }
    ensures undo { IfOk result (λ prepared. (q : ℕ) → all_released q prepared (content_under q spaces.new.entries.items) ≡ content_under q spaces.old.entries.items) }
    ensures err { OnErr result ((q : ℕ) → content_under q spaces.new.entries.items ≡ content_under q spaces.old.entries.items) }
{
    let mut prepared = Prepared::with_capacity(alloc, changes.as_slice().len())?;
    let mut left = changes;
    while let Some(change) = left.pop() {
        match reserve_one(alloc, spaces, change, &mut prepared) {
            Ok(()) => {}
            Err(AllocError) => {
                release_all(spaces, prepared);
                return Err(AllocError);
            }
        }
    }
    Ok(prepared)
}

/// Makes a change ready.
///
/// # Errors
/// Out of memory. Nothing changed then.
fn reserve_one(
    alloc: Global,
    spaces: &mut Spaces,
    change: TupleChange,
    prepared: &mut Prepared,
) -> Result<(), AllocError>
    ensures ok { (schemas : ℕ → Option described.Schema) (state : plain.State) (one : PlainChange) (all : List PlainChange) → AreReady schemas spaces.old.entries.items state prepared.old all
        → SpellsChange change one → MayStand schemas one → AllByRecursion (IsApart one) all → OnOk result (AreReady schemas spaces.new.entries.items state prepared.new (one ∷ all)) }
    ensures undo { OnOk result ((q : ℕ) → all_released q prepared.new (content_under q spaces.new.entries.items) ≡ all_released q prepared.old (content_under q spaces.old.entries.items)) }
    ensures same { OnErr result (prepared.new ≡ prepared.old) }
    ensures err { OnErr result ((q : ℕ) → content_under q spaces.new.entries.items ≡ content_under q spaces.old.entries.items) }
{
    let step = spaces.reserve(alloc, change)?;
    match prepared.push(step) {
        Ok(()) => Ok(()),
        Err(step) => {
            spaces.release(step);
            Err(AllocError)
        }
    }
}

/// As `State::install`.
pub(crate) fn install_all(spaces: &mut Spaces, prepared: Prepared)
    ensures { (schemas : ℕ → Option described.Schema) (state : plain.State) (all : List PlainChange) → AreReady schemas spaces.old.entries.items state prepared all
        → SpacesHold schemas spaces.new.entries.items (state_with_all state all) }
{
    let mut left = prepared;
    while let Some(step) = left.pop() {
        spaces.install(step);
    }
}

/// As `State::release`.
pub(crate) fn release_all(spaces: &mut Spaces, prepared: Prepared)
    ensures { (q : ℕ) → content_under q spaces.new.entries.items ≡ all_released q prepared (content_under q spaces.old.entries.items) }
{
    let mut left = prepared;
    while let Some(step) = left.pop() {
        spaces.release(step);
    }
}
