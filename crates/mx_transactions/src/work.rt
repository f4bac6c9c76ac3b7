//! What an active transaction has done.

ghost use Rattle.std.specs.Prelude.{◌≡◌, ◌∷◌, ◌++◌, [], false, Ok, Some, List, OnOk, MatchResult};
ghost use Rattle.mx_row.specs.declared.row.Row.{Row as PlainRow};
ghost use Rattle.mx_row.specs.Limits.{has_room, row_size as plain_row_size, rows_size, saturated};
ghost use Rattle.mx_row.specs.Views.{row_value};
ghost use Rattle.mx_schema.specs.Catalogues.{schema_of};
ghost use Rattle.mx_schema.specs.State as plain;
ghost use Rattle.mx_schema.specs.Sound.{IsSound};
ghost use Rattle.mx_entries.specs.OwnStates.{AreNoDescriptions, state_with_own};
ghost use Rattle.mx_space.specs.OwnChanges.{HoldsOwn, HoldsView};
ghost use Rattle.mx_space.specs.Stored.{Holds};
ghost use Rattle.mx_write.specs.declared.writable.Writer.TheVariants.{Client};
ghost use Rattle.mx_write.specs.Change.{Change};
ghost use Rattle.mx_write.specs.Judge.{judged_write};
ghost use Rattle.mx_write.specs.Made as spec;
ghost use Rattle.mx_judge.specs.Makes.{MakesWrite};
ghost use Rattle.mx_write.specs.Touches.{AddsTouched, touched_at};
ghost use Rattle.mx_write.specs.Writable.{describes_schema};
ghost use Rattle.mx_write.specs.Writes as statement;
ghost use Rattle.mx_model.specs.RunAlone.{Run, run_with};
ghost use Rattle.mx_model.specs.statements.Answer.{Answer};
ghost use Rattle.mx_model.specs.RunTouches.{changes_of};
ghost use Rattle.mx_transactions.specs.Open.{HasWritten, WritesNothing};
ghost use Rattle.mx_transactions.specs.OpenSteps.{BeginsAs, StandsOn};

use mx_base::SpaceId;
use mx_judge::Made;
use mx_msgpack::Bytes;
use mx_row::{MAX_ROWS, MAX_TRANSACTION_SIZE, ROW_HEADER_SIZE, Row, RowRef, Rows, row_size};
use mx_space::{Overlay, State, StateView};
use mx_tracker::TouchedKeys;
use std::alloc::{AllocError, Global};

/// A primary key of a space, as comparable bytes.
#[derive(Drop)]
pub struct ChangedKey {
    pub space: SpaceId,
    pub key: Bytes,
}

/// What the statements of an active transaction have written: the changes over the newest state, the rows with
/// their size, the keys of the tuples that were put, in each index, and the primary keys that were changed.
#[derive(Drop)]
pub struct Work {
    pub overlay: Overlay,
    pub rows: Rows,
    pub size: usize,
    pub puts: TouchedKeys,
    pub changed: Vec<ChangedKey>,
}

impl Work {
    /// Nothing is written; takes no memory.
    pub(crate) fn new(alloc: Global) -> Work
        ensures { WritesNothing result }
    {
        Work {
            overlay: Overlay::new(alloc),
            rows: Rows::new(alloc),
            size: 0,
            puts: TouchedKeys::new(alloc),
            changed: Vec::new(alloc),
        }
    }

    /// Whether a further row is within the limits of a transaction.
    pub fn has_room(&self, row: &RowRef<'_>) -> bool
        ensures { (rows : List PlainRow) → self.now.rows ≡ rows → self.now.size ≡ saturated (rows_size rows) → result ≡ has_room rows (row_value row.now) }
    {
        self.rows.as_slice().len() < MAX_ROWS
            && self.size.saturating_add(size_of(row)) <= MAX_TRANSACTION_SIZE
    }

    /// Adds a write, which was judged over the state under the earlier ones, and its row of this size.
    ///
    /// # Errors
    /// Out of memory. What was written is then as it was.
    pub(crate) fn add(
        &mut self,
        alloc: Global,
        state: &State,
        space: SpaceId,
        row: Row,
        size: usize,
        made: Made,
    ) -> Result<(), AllocError>
        ensures { (before : plain.State) (run : Run) (answer : Answer) (write : statement.Write) (to : spec.Made) → Holds state.now before → StandsOn before run → HasWritten before run self.old
            → describes_schema space.0 ≡ false → (judged_write Client run.state space.0 write).outcome ≡ Ok to → MakesWrite run.state space.0 write made to
            → to.row ≡ Some row → size ≡ saturated (plain_row_size row) → answer.row ≡ to.row → answer.change ≡ to.change → MatchResult result
            (λ _. HasWritten before (run_with run answer) self.new)
            (λ _. HasWritten before run self.new) }
    {
        let (rows, puts, changed) = (
            self.rows.as_slice().len(),
            self.puts.len(),
            self.changed.len(),
        );
        match self.write(alloc, state, space, row, made) {
            Ok(()) => {
                self.size = self.size.saturating_add(size);
                Ok(())
            }
            Err(fault) => {
                self.rows.truncate(rows);
                self.puts.truncate(puts);
                self.changed.truncate(changed);
                Err(fault)
            }
        }
    }

    /// As `add`, but for the size.
    ///
    /// # Errors
    /// Out of memory. The change wasn't made; of the others some may have been added.
    fn write(
        &mut self,
        alloc: Global,
        state: &State,
        space: SpaceId,
        row: Row,
        made: Made,
    ) -> Result<(), AllocError>
        ensures change { (before : plain.State) (run : Run) (write : statement.Write) (to : spec.Made) → Holds state.now before → StandsOn before run
            → HoldsOwn (schema_of before) self.old.overlay (changes_of run.answers) → describes_schema space.0 ≡ false
            → (judged_write Client run.state space.0 write).outcome ≡ Ok to → MakesWrite run.state space.0 write made to → MatchResult result
            (λ _. (change : Change) × (to.change ≡ Some change) × HoldsOwn (schema_of before) self.new.overlay (change ∷ changes_of run.answers)
            × AddsTouched run.state (touched_at change.space change.key change.tuple) self.old.puts self.new.puts)
            (λ _. HoldsOwn (schema_of before) self.new.overlay (changes_of run.answers)) }
        ensures key { OnOk result (self.new.changed.items ≡ self.old.changed.items ++ record { space = space; key = made.key } ∷ []) }
        ensures row { OnOk result (self.new.rows ≡ self.old.rows ++ row ∷ []) }
        ensures begins { (before : plain.State) (run : Run) (write : statement.Write) (to : spec.Made) → Holds state.now before → StandsOn before run
            → HoldsOwn (schema_of before) self.old.overlay (changes_of run.answers) → MakesWrite run.state space.0 write made to → BeginsAs self.old self.new }
    {
        let view = view_over(state, &self.overlay);
        made.touch_put(alloc, view, space, &mut self.puts)?;
        let key = Bytes::from_slice(alloc, made.key.as_slice())?;
        self.changed.push(ChangedKey { space, key })?;
        self.rows.push(row)?;
        made.stage(alloc, &mut self.overlay, state, space)
    }
}

/// The state under own writes.
fn view_over<'a>(state: &'a State, overlay: &'a Overlay) -> StateView<'a>
    ensures { (before : plain.State) (own : List Change) → Holds state.now before → HoldsOwn (schema_of before) overlay.now own → IsSound (state_with_own before own)
        → AreNoDescriptions own → HoldsView result (state_with_own before own) }
{
    StateView {
        state,
        over: Some(overlay),
    }
}

/// How many bytes a row takes, with those of its header, and `usize::MAX` where there are more.
pub fn size_of(row: &RowRef<'_>) -> usize
    ensures { result ≡ saturated (plain_row_size (row_value row.now)) }
{
    row_size(row).saturating_add(ROW_HEADER_SIZE)
}
