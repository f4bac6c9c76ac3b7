//! The writes: INSERT, REPLACE, UPDATE, DELETE and UPSERT.

ghost use Rattle.std.specs.Prelude.{◌≡◌, ◌+◌, ◌%◌, ◌^◌, ◌∷◌, [], Some, IfOk, OnOk, MatchResult, if◌then◌else◌};
ghost use Rattle.std.specs.Option.{option_copied, option_map};
ghost use Rattle.mx_base.specs.declared.ids.TxnName.{TxnName};
ghost use Rattle.mx_row.specs.Views.{row_value};
ghost use Rattle.mx_judge.specs.Makes.{tuples_shown};
ghost use Rattle.mx_write.specs.Made.{row_with};
ghost use Rattle.mx_write.specs.Views.{AreArrays, write_view};
ghost use Rattle.mx_write.specs.Writable.{describes_schema};
ghost use Rattle.mx_write.specs.Writes.{HasBytes};
ghost use Rattle.mx_write.specs.declared.write.Write as place;
ghost use Rattle.mx_model.specs.Alone.{AllStandAlone};
ghost use Rattle.mx_model.specs.Streams.{Streams, states_alone};
ghost use Rattle.mx_engine.specs.Standing.{HasStreams};
ghost use Rattle.mx_engine.specs.StatementViews.{write_in_space};
ghost use Rattle.mx_engine.specs.Steps as steps;
ghost use Rattle.mx_engine.specs.Steps.{AnswersStatement, CountsCommit, CountsStep, IsWriteOf, Keeps, Prepares, Readies, SameNode, Stores, TellsOrLacks, row_made};
ghost use Rattle.mx_engine.specs.Views.{reply_of};

use crate::answer::Answered;
use crate::engine::Engine;
use crate::transactions::move_others;
use mx_base::{Lsn, Refusal, ReplicaId, SpaceId};
use mx_judge::{Effect, Made, Notes, Scope, row_of};
use mx_model::{WRITABLE_NODE, next_lsn};
use mx_msgpack::Tuples;
use mx_row::{RowRef, Tx};
use mx_space::StateView;
use mx_tracker::{MarkSet, TouchedKeys};
use mx_write::{Write, Writer, describes_schema};
use std::alloc::{AllocError, Global};

impl Engine {
    /// Makes a write by itself, and commits what it changes.
    pub(crate) fn write(
        &mut self,
        space: SpaceId,
        write: &Write<'_>,
        found: &mut Tuples,
    ) -> Result<Answered, Refusal>
        requires arrays { AreArrays write.now }
        ensures answers { (streams : Streams) (name : TxnName) → HasStreams self.old streams → AllStandAlone streams → CountsStep self.old → HasBytes (write_view write.now)
            → AnswersStatement self.old self.new streams name (states_alone streams (write_in_space space write.now)) (reply_of result found.new) }
        ensures keeps { SameNode self.old self.new }
    {
        if !self.is_writable() {
            let writable = ReplicaId(WRITABLE_NODE);
            return Err(Refusal::ReadOnly { writable });
        }
        let scope = Scope {
            view: StateView::of(&self.state),
            alloc: self.alloc,
            writer: Writer::Client,
            space,
        };
        match scope.judge(write, &mut Notes::off())? {
            Some(made) => self.put(space, write, made, found),
            None => {
                found.clear();
                Ok(Answered::Tuples)
            }
        }
    }

    /// Commits what a write makes, and shows the tuple that its reply has.
    fn put(
        &mut self,
        space: SpaceId,
        write: &Write<'_>,
        made: Made,
        found: &mut Tuples,
    ) -> Result<Answered, Refusal>
        ensures answers { (streams : Streams) (name : TxnName) → IsWriteOf self.old streams space write.now made
            → TellsOrLacks self.old self.new streams name (states_alone streams (write_in_space space write.now)) (reply_of result found.new) }
        ensures keeps { SameNode self.old self.new }
    {
        let mut clock = self.clock;
        let Some(lsn) = next_lsn(&mut clock) else {
            return Err(Refusal::LsnsUsedUp);
        };
        match self.commit_alone(lsn, space, write, made, found) {
            Ok(()) => {
                self.clock = clock;
                Ok(Answered::Tuples)
            }
            Err(_) => Err(Refusal::OutOfMemory),
        }
    }

    /// Commits what a write makes, but for the vclock.
    ///
    /// # Errors
    /// Out of memory. Nothing changed then.
    fn commit_alone(
        &mut self,
        lsn: u64,
        space: SpaceId,
        write: &Write<'_>,
        made: Made,
        shown: &mut Tuples,
    ) -> Result<(), AllocError>
        ensures shown { OnOk result (shown.new ≡ tuples_shown made.effect) }
        ensures stores { (streams : Streams) → IsWriteOf self.old streams space write.now made → MatchResult result
            (λ _. Stores self.old self.new streams (steps.transaction_of lsn (row_made space write.now made)))
            (λ _. Keeps self.old self.new streams) }
        ensures keeps { SameNode self.old self.new }
        ensures clock { self.new.clock ≡ self.old.clock }
    {
        let marks = self.ready(lsn, space, write, &made, shown)?;
        match made.install(self.alloc, &mut self.state, space) {
            Ok(()) => {
                self.count_commit(space, &marks);
                Ok(())
            }
            Err(fault) => {
                self.pending.pop();
                Err(fault)
            }
        }
    }

    /// Takes all that the commit of a write needs but for its tuple, puts the commit behind those that wait, and
    /// shows the tuple that its reply has. Gives which slots it overlaps, where a transaction is open.
    ///
    /// # Errors
    /// Out of memory. Nothing changed then but that a state may be kept.
    fn ready(
        &mut self,
        lsn: u64,
        space: SpaceId,
        write: &Write<'_>,
        made: &Made,
        shown: &mut Tuples,
    ) -> Result<Option<Box<MarkSet>>, AllocError>
        ensures shown { OnOk result (shown.new ≡ tuples_shown made.now.effect) }
        ensures readies { (streams : Streams) → IsWriteOf self.old streams space write.now made.now → MatchResult result
            (λ marks. Readies self.old self.new streams (row_made space write.now made.now) (steps.transaction_of lsn (row_made space write.now made.now)) (option_map (λ b. b.value) marks))
            (λ _. Keeps self.old self.new streams) }
        ensures keeps { SameNode self.old self.new }
        ensures clock { self.new.clock ≡ self.old.clock }
    {
        let transaction = transaction_of(
            self.alloc,
            lsn,
            row_of(space, write, made.row_key.as_slice()),
        )?;
        show(&made.effect, shown)?;
        let marks = self.marks_of(space, made)?;
        self.pending.push(transaction)?;
        Ok(marks)
    }

    /// Counts a commit into a space, and moves those that it overlaps, where there are marks.
    fn count_commit(&mut self, space: SpaceId, marks: &Option<Box<MarkSet>>)
        ensures counts { CountsCommit self.old self.new space.0 (option_map (λ b. b.value) marks.now) }
        ensures keeps { SameNode self.old self.new }
    {
        self.schema = version_after(self.schema, space);
        move_others(&mut self.open, marks, describes_schema(space), self.commits);
        self.commits = self.commits.saturating_add(1);
    }

    /// Which slots a write overlaps, where a transaction is open; the state that they will read is kept then.
    ///
    /// # Errors
    /// Out of memory. Nothing is kept then.
    fn marks_of(&mut self, space: SpaceId, made: &Made) -> Result<Option<Box<MarkSet>>, AllocError>
        ensures marks { (streams : Streams) (write : place.Write) → IsWriteOf self.old streams space write made.now → MatchResult result
            (λ marks. Prepares self.old self.new streams (row_made space write made.now) (option_map (λ b. b.value) marks))
            (λ _. Keeps self.old self.new streams) }
        ensures keeps { SameNode self.old self.new }
        ensures clock { self.new.clock ≡ self.old.clock }
    {
        if self.open.is_empty() {
            return Ok(None);
        }
        Ok(Some(self.marks_beside(space, made)?))
    }

    /// As `marks_of`, where a transaction is open. A call, so that a write beside none doesn't pay for the room
    /// that a thousand marks take; and they are in a box, since moving them costs as much as a small commit.
    #[inline(never)]
    fn marks_beside(&mut self, space: SpaceId, made: &Made) -> Result<Box<MarkSet>, AllocError>
        ensures marks { (streams : Streams) (write : place.Write) → IsWriteOf self.old streams space write made.now → MatchResult result
            (λ marks. Prepares self.old self.new streams (row_made space write made.now) (Some marks.value))
            (λ _. Keeps self.old self.new streams) }
        ensures keeps { SameNode self.old self.new }
        ensures clock { self.new.clock ≡ self.old.clock }
    {
        let mut keys = TouchedKeys::new(self.alloc);
        made.touch(self.alloc, StateView::of(&self.state), space, &mut keys)?;
        let marks = self.open.overlapped(&keys);
        let marks = Box::new(self.alloc, marks)?;
        self.open.prepare(&self.state, self.commits, &*marks, None)?;
        Ok(marks)
    }
}

/// The schema's version after a commit into a space.
fn version_after(version: u32, space: SpaceId) -> u32
    ensures { result ≡ (if describes_schema space.0 then (version + 1) % 2 ^ 32 else version) }
{
    if describes_schema(space) {
        version.wrapping_add(1)
    } else {
        version
    }
}

/// Puts the tuple that a reply shows into `shown`, in place of what it had.
pub(crate) fn show(effect: &Effect, shown: &mut Tuples) -> Result<(), AllocError>
    ensures { OnOk result (shown.new ≡ tuples_shown effect.now) }
{
    shown.clear();
    match effect {
        Effect::Put {
            tuple,
            is_shown: true,
        } => Ok(shown.push(tuple.as_slice())?),
        Effect::Put {
            is_shown: false,
            ..
        } => Ok(()),
        Effect::Removed { tuple } => Ok(shown.push(tuple.as_slice())?),
    }
}

fn transaction_of(alloc: Global, lsn: u64, row: RowRef<'_>) -> Result<Tx, AllocError>
    ensures { IfOk result (λ transaction. transaction ≡ steps.transaction_of lsn (row_value row.entry)) }
{
    Tx::alone(alloc, ReplicaId(WRITABLE_NODE), Lsn(lsn), &row)
}
