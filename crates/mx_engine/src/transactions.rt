//! BEGIN, COMMIT and ROLLBACK.

ghost use Rattle.std.specs.Prelude.{◌≡◌, ◌==◌, ◌≤◌, ◌+◌, ◌∷◌, ℕ, List, length, IfOk, MatchOption, MatchResult, nat_lt, slice_index, true, false, Some};
ghost use Rattle.std.specs.List.{AllZip};
ghost use Rattle.std.specs.Option.{option_map};
ghost use Rattle.mx_base.specs.Keys.{stream_key};
ghost use Rattle.mx_base.specs.declared.refusal.Refusal.TheVariants.{IllegalValue};
ghost use Rattle.mx_request.specs.declared.request.Request.TheVariants as request;
ghost use Rattle.mx_row.specs.declared.row.Row.{Row};
ghost use Rattle.mx_schema.specs.State as plain;
ghost use Rattle.mx_space.specs.Stored.{Holds};
ghost use Rattle.mx_tracker.specs.declared.touched.Touched.{Touched};
ghost use Rattle.mx_vclock.specs.Vclocks.{max_lsn};
ghost use Rattle.mx_write.specs.Change.{Change};
ghost use Rattle.mx_write.specs.Touches.{SpellsTouched};
ghost use Rattle.mx_model.specs.declared.reply.Reply.TheVariants.{Empty};
ghost use Rattle.mx_model.specs.Alone.{AllStandAlone};
ghost use Rattle.mx_model.specs.Bases.{writable_node};
ghost use Rattle.mx_model.specs.Overlaps.{Transaction};
ghost use Rattle.mx_model.specs.RunTouches.{stood_under};
ghost use Rattle.mx_model.specs.Streams.{Ends, Streams, commits_rows};
ghost use Rattle.mx_transactions.specs.Open.{HaveOwnSlots, SpellsKey, in_order, newest_state, slot_named};
ghost use Rattle.mx_transactions.specs.OpenSteps.{AreMarks, FindsIn, KeepsMore, Moves, SpellsRows};
ghost use Rattle.mx_engine.specs.Standing.{HasStreams};
ghost use Rattle.mx_engine.specs.Steps.{AnswersCommit, AnswersRequest, CountsStep, IsActiveIn, Keeps, ReadiesOthers, Reserves, SameButOpen, SameNode, TellsOutcome, newest_run};
ghost use Rattle.mx_engine.specs.Views.{reply_of};

use crate::answer::Answered;
use crate::engine::Engine;
use mx_base::{Lsn, Refusal, ReplicaId, TxnName, keys};
use mx_judge::touch_stood;
use mx_model::WRITABLE_NODE;
use mx_row::{Rows, Tx};
use mx_space::{Prepared, State};
use mx_tracker::{MarkSet, TouchedKeys};
use mx_transactions::{ChangedKey, OpenTransactions};
use mx_txn::{Slot, TxnState};
use mx_vclock::MAX_LSN;
use std::alloc::{AllocError, Global};

impl Engine {
    pub(crate) fn begin(&mut self, name: TxnName) -> Result<Answered, Refusal>
        ensures answers { (streams : Streams) (found : List (List ℕ)) → HasStreams self.old streams → AllStandAlone streams → AnswersRequest self.old self.new streams name request.Begin (reply_of result found) }
        ensures keeps { SameNode self.old self.new }
    {
        if name.stream.0 == 0 {
            return Err(no_stream());
        }
        self.open.begin(name, self.commits)?;
        Ok(Answered::Empty)
    }

    pub(crate) fn rollback(&mut self, name: TxnName) -> Result<Answered, Refusal>
        ensures answers { (streams : Streams) (found : List (List ℕ)) → HasStreams self.old streams → AllStandAlone streams → AnswersRequest self.old self.new streams name request.Rollback (reply_of result found) }
        ensures keeps { SameNode self.old self.new }
    {
        if name.stream.0 == 0 {
            return Err(no_stream());
        }
        if let Some((slot, _)) = self.open.find(name) {
            self.open.end(name, slot);
        }
        Ok(Answered::Empty)
    }

    pub(crate) fn commit(&mut self, name: TxnName) -> Result<Answered, Refusal>
        ensures answers { (streams : Streams) (found : List (List ℕ)) → HasStreams self.old streams → AllStandAlone streams → CountsStep self.old → AnswersRequest self.old self.new streams name request.Commit (reply_of result found) }
        ensures keeps { SameNode self.old self.new }
    {
        if name.stream.0 == 0 {
            return Err(no_stream());
        }
        let Some((slot, state)) = self.open.find(name) else {
            return Ok(Answered::Empty);
        };
        self.commit_open(name, slot, state)
    }

    /// Ends the transaction of a slot, which is in this state, with all that it has written.
    fn commit_open(
        &mut self,
        name: TxnName,
        slot: Slot,
        state: TxnState,
    ) -> Result<Answered, Refusal>
        requires { slot_named name self.old.open.names ≡ Some slot }
        ensures answers { (streams : Streams) (found : List (List ℕ)) → HasStreams self.old streams → AllStandAlone streams → CountsStep self.old → HaveOwnSlots self.old.open.names
            → (name.stream.0 == 0) ≡ false → FindsIn streams self.old.open name slot state
            → AnswersRequest self.old self.new streams name request.Commit (reply_of result found) }
        ensures keeps { SameNode self.old self.new }
    {
        match state {
            TxnState::Active { .. } => self.commit_active(name, slot),
            TxnState::View { .. } => {
                self.open.end(name, slot);
                Ok(Answered::Empty)
            }
            TxnState::Aborted { .. } => {
                self.open.end(name, slot);
                Err(Refusal::Conflict)
            }
        }
    }

    /// Ends an active transaction with all that it has written.
    fn commit_active(&mut self, name: TxnName, slot: Slot) -> Result<Answered, Refusal>
        requires { slot_named name self.old.open.names ≡ Some slot }
        ensures answers { (streams : Streams) (one : Transaction) (found : List (List ℕ)) → AllStandAlone streams → IsActiveIn self.old streams name slot one → CountsStep self.old
            → AnswersCommit self.old self.new streams name (commits_rows streams (newest_run streams one).rows) (reply_of result found) }
        ensures keeps { SameNode self.old self.new }
    {
        let rows = self.open.work(slot).rows.as_slice().len();
        if rows == 0 {
            self.open.end(name, slot);
            return Ok(Answered::Empty);
        }
        if !self.is_writable() {
            self.open.end(name, slot);
            let writable = ReplicaId(WRITABLE_NODE);
            return Err(Refusal::ReadOnly { writable });
        }
        let Some(last) = self.last_lsn(rows) else {
            self.open.end(name, slot);
            return Err(Refusal::LsnsUsedUp);
        };
        match self.commit_work(name, slot, rows, last) {
            Ok(()) => Ok(Answered::Empty),
            Err(AllocError) => Err(Refusal::OutOfMemory),
        }
    }

    /// The last one of so many further lsns; `None` where they are used up.
    fn last_lsn(&self, count: usize) -> Option<u64>
        ensures { MatchOption result
            (nat_lt max_lsn (slice_index self.now.clock writable_node + count) ≡ true)
            (λ last. (last ≡ slice_index self.now.clock writable_node + count) × (nat_lt max_lsn last ≡ false) × (last ≤ max_lsn)) }
    {
        let last = self.clock.get(WRITABLE_NODE).saturating_add(count as u64);
        if last > MAX_LSN {
            return None;
        }
        Some(last)
    }

    /// Commits what an active transaction has written, so many rows, of which the last one has this lsn.
    ///
    /// # Errors
    /// Out of memory. Nothing changed then.
    fn commit_work(
        &mut self,
        name: TxnName,
        slot: Slot,
        rows: usize,
        last: u64,
    ) -> Result<(), AllocError>
        requires named { slot_named name self.old.open.names ≡ Some slot }
        requires lsn { (rows ≤ last) × (last ≤ max_lsn) }
        ensures answers { (streams : Streams) (one : Transaction) (row : Row) (others : List Row) → AllStandAlone streams → IsActiveIn self.old streams name slot one → CountsStep self.old
            → (newest_run streams one).rows ≡ row ∷ others → streams.base.ids.me ≡ writable_node → rows ≡ length (row ∷ others)
            → last ≡ slice_index self.old.clock writable_node + rows → MatchResult result
            (λ _. TellsOutcome self.old self.new streams name (record { reply = Empty; rows = row ∷ others; becomes = Ends }) Empty)
            (λ _. Keeps self.old self.new streams) }
        ensures keeps { SameNode self.old self.new }
    {
        let marks = self.ready_others(slot)?;
        let prepared = self.reserve(slot, last + 1 - rows as u64)?;
        self.state.install(prepared);
        let work = self.open.remove(name, slot);
        self.pending.fill_last(work.rows);
        self.clock.set(WRITABLE_NODE, last);
        move_others(&mut self.open, &marks, false, self.commits);
        self.commits = self.commits.saturating_add(1);
        Ok(())
    }

    /// Which slots the writes of an active transaction overlap, where another one is open; the state that those
    /// will read is kept then.
    ///
    /// # Errors
    /// Out of memory. Nothing is kept then.
    #[inline(never)]
    fn ready_others(&mut self, slot: Slot) -> Result<Option<Box<MarkSet>>, AllocError>
        ensures readies { (streams : Streams) (name : TxnName) (one : Transaction) → AllStandAlone streams → IsActiveIn self.old streams name slot one → MatchResult result
            (λ marks. ReadiesOthers self.old self.new streams one slot (option_map (λ b. b.value) marks))
            (λ _. Keeps self.old self.new streams) }
        ensures more { KeepsMore self.old.open self.new.open }
        ensures keeps { SameButOpen self.old self.new }
    {
        if self.open.has_one() {
            return Ok(None);
        }
        let marks = self.marks_of_work(slot)?;
        // In a box, as those of a write by itself.
        let marks = Box::new(self.alloc, marks)?;
        self.open
            .prepare(&self.state, self.commits, &*marks, Some(slot))?;
        Ok(Some(marks))
    }

    /// Takes the memory for what an active transaction has written: in the state, and a place behind the commits
    /// that wait to be written, whose rows are still to come, the first of them with this lsn.
    ///
    /// # Errors
    /// Out of memory. Nothing changed then.
    fn reserve(&mut self, slot: Slot, first: u64) -> Result<Prepared, AllocError>
        ensures reserves { (streams : Streams) (name : TxnName) (one : Transaction) → AllStandAlone streams → IsActiveIn self.old streams name slot one → MatchResult result
            (λ prepared. Reserves self.old self.new streams one first prepared)
            (λ _. Keeps self.old self.new streams) }
        ensures same { self.new.open ≡ self.old.open }
        ensures keeps { SameNode self.old self.new }
    {
        let changes = self.open.work(slot).overlay.changes(self.alloc)?;
        self.pending.push(Tx {
            replica: ReplicaId(WRITABLE_NODE),
            first: Lsn(first),
            rows: Rows::new(self.alloc),
        })?;
        match self.state.reserve(self.alloc, changes) {
            Ok(prepared) => Ok(prepared),
            Err(fault) => {
                self.pending.pop();
                Err(fault)
            }
        }
    }

    /// Which slots read what an active transaction's writes touch.
    fn marks_of_work(&self, slot: Slot) -> Result<MarkSet, AllocError>
        ensures { (streams : Streams) (name : TxnName) (one : Transaction) → AllStandAlone streams → IsActiveIn self.now streams name slot one
            → IfOk result (λ marks. (keys : List Touched) × SpellsRows (newest_state streams) (newest_run streams one).rows keys × AreMarks self.now.open marks keys) }
    {
        let work = self.open.work(slot);
        let stood = stood_keys(self.alloc, &self.state, work.changed.as_slice())?;
        let mut marks = self.open.overlapped(&work.puts);
        marks.add(&self.open.overlapped(&stood));
        Ok(marks)
    }
}

/// Moves the open transactions that a commit overlaps, where there are marks.
pub(crate) fn move_others(
    open: &mut OpenTransactions,
    marks: &Option<Box<MarkSet>>,
    is_schema: bool,
    commits: u64,
)
    ensures { MatchOption (option_map (λ b. b.value) marks.now)
        (open.new ≡ open.old)
        (λ made. Moves open.old open.new made is_schema commits) }
{
    if let Some(marks) = marks {
        open.move_overlapped(marks, is_schema, commits);
    }
}

/// The keys of the tuples that stand under changed primary keys, in each index.
fn stood_keys(
    alloc: Global,
    state: &State,
    changed: &[ChangedKey],
) -> Result<TouchedKeys, AllocError>
    ensures { (before : plain.State) (own : List Change) → Holds state.now before → AllZip SpellsKey changed.now (in_order own)
        → IfOk result (λ keys. SpellsTouched before (stood_under before own) keys) }
{
    let mut keys = TouchedKeys::new(alloc);
    let mut left = changed;
    while let Some((first, others)) = left.split_first() {
        touch_stood(alloc, state, first.space, &first.key, &mut keys)?;
        left = others;
    }
    Ok(keys)
}

/// What BEGIN, COMMIT and ROLLBACK are told that have no stream.
fn no_stream() -> Refusal
    ensures { result ≡ IllegalValue stream_key }
{
    Refusal::IllegalValue { key: keys::STREAM }
}
