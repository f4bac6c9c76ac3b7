//! Applying the rows of a journal to a state.

ghost use Rattle.std.specs.Prelude.{◌≡◌, ◌⊎◌, None, Some, true, MatchBool, MatchResult};
ghost use Rattle.std.specs.List.{AllByRecursion};
ghost use Rattle.mx_base.specs.declared.refusal.Refusal.TheVariants.{OutOfMemory};
ghost use Rattle.mx_row.specs.Rows.{IsRow};
ghost use Rattle.mx_row.specs.Views.{row_value, row_values};
ghost use Rattle.mx_schema.specs.State as plain;
ghost use Rattle.mx_space.specs.Stored.{Holds};
ghost use Rattle.mx_model.specs.Answers.{state_after_row, state_after_rows};
ghost use Rattle.mx_recover.specs.Applied.{IsApplyFault, IsFaultOf};
ghost use Rattle.mx_directory.specs.Directories.{takes_rows};
ghost use Rattle.mx_write.specs.Judge.{row_refusal};

use mx_base::Refusal;
use mx_judge::{Notes, Scope};
use mx_row::RowRef;
use mx_space::{State, StateView};
use mx_write::{Writer, write_of};
use std::alloc::Global;

/// Applies a row of a journal.
///
/// # Errors
/// Why the state refuses the row, or out of memory. The state is then as it was.
pub fn apply_row(state: &mut State, alloc: Global, row: &RowRef<'_>) -> Result<(), Refusal>
    requires row { IsRow (row_value row.now) }
    ensures { (before : plain.State) → Holds state.old before → MatchResult result
        (λ _. (row_refusal before (row_value row.now) ≡ None) × Holds state.new (state_after_row before (row_value row.now)))
        (λ refusal. ((row_refusal before (row_value row.now) ≡ Some refusal) ⊎ (refusal ≡ OutOfMemory)) × Holds state.new before) }
{
    let write = write_of(row);
    let scope = Scope {
        view: StateView::of(state),
        alloc,
        writer: Writer::Journal,
        space: row.space,
    };
    let made = scope.judge(&write, &mut Notes::off())?;
    match made {
        Some(made) => Ok(made.install(alloc, state, row.space)?),
        None => Ok(()),
    }
}

/// Why the rows of a transaction weren't all applied.
#[derive(Drop)]
pub enum ApplyFault {
    /// The state refuses the row of this place, counted from 0.
    Row { place: usize, refusal: Refusal },
    /// Out of memory.
    NoMemory,
}

/// Applies the rows of a transaction, each to the state that those before it left.
///
/// # Errors
/// The first row that the state refuses, or out of memory. The rows before it are then applied.
pub fn apply_tx(state: &mut State, alloc: Global, rows: &[RowRef<'_>]) -> Result<(), ApplyFault>
    requires rows { AllByRecursion IsRow (row_values rows.now) }
    ensures { (before : plain.State) → Holds state.old before → MatchResult result
        (λ _. (takes_rows before (row_values rows.now) ≡ true) × Holds state.new (state_after_rows before (row_values rows.now)))
        (λ fault. IsApplyFault before (row_values rows.now) state.new fault) }
{
    let mut place = 0;
    for row in rows {
        if let Err(refusal) = apply_row(state, alloc, row) {
            return Err(fault_at(place, refusal));
        }
        place += 1;
    }
    Ok(())
}

fn fault_at(place: usize, refusal: Refusal) -> ApplyFault
    ensures { IsFaultOf place refusal result }
{
    if is_out_of_memory(&refusal) {
        return ApplyFault::NoMemory;
    }
    ApplyFault::Row { place, refusal }
}

fn is_out_of_memory(refusal: &Refusal) -> bool
    ensures { MatchBool result (refusal.now ≡ OutOfMemory) (refusal.now ≡ OutOfMemory → ⊥) }
{
    match refusal {
        Refusal::OutOfMemory => true,
        _ => false,
    }
}
