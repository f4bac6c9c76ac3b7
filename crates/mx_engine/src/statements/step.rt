//! Statements of open transactions.

ghost use Rattle.std.specs.Prelude.{◌≡◌, ◌≢◌, ℕ, List, false, true, Some, Err, MatchResult};
ghost use Rattle.std.specs.FinMap.{get};
ghost use Rattle.mx_base.specs.declared.ids.TxnName.{TxnName};
ghost use Rattle.mx_base.specs.declared.refusal.Refusal.TheVariants.{OutOfMemory};
ghost use Rattle.mx_msgpack.specs.Items.{IsArray};
ghost use Rattle.mx_row.specs.Limits.{has_room};
ghost use Rattle.mx_schema.specs.State as plain;
ghost use Rattle.mx_space.specs.declared.state.State as memory;
ghost use Rattle.mx_space.specs.KeptStates.{kept_at};
ghost use Rattle.mx_space.specs.OwnChanges.{HoldsView};
ghost use Rattle.mx_space.specs.Stored.{Holds};
ghost use Rattle.mx_txn.specs.Slots.{IsLive};
ghost use Rattle.mx_write.specs.Views.{AreArrays};
ghost use Rattle.mx_model.specs.Alone.{AllStandAlone};
ghost use Rattle.mx_model.specs.Answers.{answer_in_space};
ghost use Rattle.mx_model.specs.Bases.{writable_node};
ghost use Rattle.mx_model.specs.Frame.{IsDataStatement, OperationHasBytes};
ghost use Rattle.mx_model.specs.Overlaps.{Transaction, View};
ghost use Rattle.mx_model.specs.Streams.{Streams, standing_now, states_in};
ghost use Rattle.mx_model.specs.declared.reply.Reply.TheVariants as reply;
ghost use Rattle.mx_model.specs.statements.Statement.{Statement};
ghost use Rattle.mx_engine.specs.StatementViews.{AreKeysArrays, select_view, statement_view, write_in_space};
ghost use Rattle.mx_engine.specs.Steps.{AnswersAlone, AnswersStatement, IsActiveIn, IsMadeIn, IsOpenIn, IsReplyOf, Keeps, SameNode, TellsOutcome, TellsOrLacks, newest_run, row_made};
ghost use Rattle.mx_engine.specs.Views.{reply_of};

use crate::answer::Answered;
use crate::engine::Engine;
use crate::statement::{SelectRef, StatementRef};
use crate::statements::select::select;
use crate::statements::write::show;
use mx_base::{Refusal, ReplicaId, SpaceId, Unsupported, code_of};
use mx_judge::{Made, Notes, Scope, row_of};
use mx_model::WRITABLE_NODE;
use mx_msgpack::Tuples;
use mx_row::Row;
use mx_space::StateView;
use mx_transactions::size_of;
use mx_txn::{Slot, TxnState};
use mx_write::{Write, Writer};
use std::alloc::AllocError;

impl Engine {
    /// Answers a statement of the transaction of a slot, which is in this state.
    #[inline(never)]
    pub(crate) fn step(
        &mut self,
        slot: Slot,
        state: TxnState,
        statement: &StatementRef<'_>,
        found: &mut Tuples,
    ) -> Result<Answered, Refusal>
        requires arrays { AreKeysArrays statement.now }
        requires live { get self.old.open.slots slot ≡ Some state }
        ensures answers { (streams : Streams) (name : TxnName) (one : Transaction) → AllStandAlone streams → IsOpenIn self.old streams name slot one → OperationHasBytes (statement_view statement.now).operation
            → AnswersStatement self.old self.new streams name (states_in streams one (statement_view statement.now)) (reply_of result found.new) }
        ensures keeps { SameNode self.old self.new }
    {
        if statement.writes_schema() {
            let what = Unsupported::SchemaInTransaction;
            return Err(Refusal::Unsupported { what });
        }
        match state {
            TxnState::Active { .. } => self.step_active(slot, statement, found),
            TxnState::View { at } => self.step_in_view(slot, at, statement, found),
            TxnState::Aborted { .. } => Err(Refusal::Conflict),
        }
    }

    /// Answers a statement of a transaction that has a view: a write dooms it.
    fn step_in_view(
        &mut self,
        slot: Slot,
        at: u64,
        statement: &StatementRef<'_>,
        found: &mut Tuples,
    ) -> Result<Answered, Refusal>
        requires arrays { AreKeysArrays statement.now }
        requires live { IsLive self.old.open.slots slot }
        ensures answers { (streams : Streams) (name : TxnName) (one : Transaction) → AllStandAlone streams → IsOpenIn self.old streams name slot one → standing_now streams false one ≡ View at
            → IsDataStatement (statement_view statement.now)
            → AnswersStatement self.old self.new streams name (states_in streams one (statement_view statement.now)) (reply_of result found.new) }
        ensures keeps { SameNode self.old self.new }
    {
        match statement {
            StatementRef::Select(wanted) => self.select_in_view(at, wanted, found),
            StatementRef::Write { .. } => {
                self.open.doom(slot, at);
                Err(Refusal::Conflict)
            }
        }
    }

    /// Answers a SELECT on the state that a view reads.
    fn select_in_view(
        &self,
        at: u64,
        wanted: &SelectRef<'_>,
        found: &mut Tuples,
    ) -> Result<Answered, Refusal>
        requires array { IsArray wanted.now.key.now }
        ensures { (state : plain.State) (memory : memory.State) → kept_at at self.now.open.kept ≡ Some memory → Holds memory state
            → IsReplyOf (reply_of result found.new) (answer_in_space state (select_view wanted.now).space (select_view wanted.now).operation) }
    {
        let Some(state) = self.open.kept(at) else {
            return Err(Refusal::OutOfMemory);
        };
        let view = StateView::of(state);
        select(
            view,
            self.alloc,
            &mut Notes::off(),
            wanted.space,
            wanted.index,
            &wanted.pick(),
            found,
        )
    }

    /// Answers a statement of an active transaction, on the newest state under its own writes.
    fn step_active(
        &mut self,
        slot: Slot,
        statement: &StatementRef<'_>,
        found: &mut Tuples,
    ) -> Result<Answered, Refusal>
        requires arrays { AreKeysArrays statement.now }
        requires live { IsLive self.old.open.slots slot }
        ensures answers { (streams : Streams) (name : TxnName) (one : Transaction) → AllStandAlone streams → IsActiveIn self.old streams name slot one → IsDataStatement (statement_view statement.now)
            → AnswersStatement self.old self.new streams name (states_in streams one (statement_view statement.now)) (reply_of result found.new) }
        ensures keeps { SameNode self.old self.new }
    {
        match statement {
            StatementRef::Select(wanted) => self.select_active(slot, wanted, found),
            StatementRef::Write { space, write } => self.write_active(slot, *space, write, found),
        }
    }

    fn select_active(
        &mut self,
        slot: Slot,
        wanted: &SelectRef<'_>,
        found: &mut Tuples,
    ) -> Result<Answered, Refusal>
        requires array { IsArray wanted.now.key.now }
        requires live { IsLive self.old.open.slots slot }
        ensures answers { (streams : Streams) (name : TxnName) (one : Transaction) → AllStandAlone streams → IsActiveIn self.old streams name slot one
            → AnswersStatement self.old self.new streams name (states_in streams one (select_view wanted.now)) (reply_of result found.new) }
        ensures keeps { SameNode self.old self.new }
    {
        let mut notes = Notes::on(self.alloc);
        let view = self.view_of(slot);
        let result = select(
            view,
            self.alloc,
            &mut notes,
            wanted.space,
            wanted.index,
            &wanted.pick(),
            found,
        );
        self.note(slot, notes, result)
    }

    fn write_active(
        &mut self,
        slot: Slot,
        space: SpaceId,
        write: &Write<'_>,
        found: &mut Tuples,
    ) -> Result<Answered, Refusal>
        requires arrays { AreArrays write.now }
        requires live { IsLive self.old.open.slots slot }
        ensures answers { (streams : Streams) (name : TxnName) (one : Transaction) → AllStandAlone streams → IsActiveIn self.old streams name slot one → IsDataStatement (write_in_space space write.now)
            → AnswersStatement self.old self.new streams name (states_in streams one (write_in_space space write.now)) (reply_of result found.new) }
        ensures keeps { SameNode self.old self.new }
    {
        if !self.is_writable() {
            // Nothing was read, so there is nothing to note.
            let writable = ReplicaId(WRITABLE_NODE);
            return Err(Refusal::ReadOnly { writable });
        }
        let mut notes = Notes::on(self.alloc);
        let scope = Scope {
            view: self.view_of(slot),
            alloc: self.alloc,
            writer: Writer::Client,
            space,
        };
        match scope.judge(write, &mut notes) {
            Ok(Some(made)) => self.put_active(slot, space, write, made, notes, found),
            Ok(None) => {
                found.clear();
                self.note(slot, notes, Ok(Answered::Tuples))
            }
            Err(refusal) => self.note(slot, notes, Err(refusal)),
        }
    }

    /// Adds what a write makes to the transaction, where its row finds room, and shows the tuple that its reply
    /// has.
    fn put_active(
        &mut self,
        slot: Slot,
        space: SpaceId,
        write: &Write<'_>,
        made: Made,
        notes: Notes,
        found: &mut Tuples,
    ) -> Result<Answered, Refusal>
        requires live { IsLive self.old.open.slots slot }
        ensures answers { (streams : Streams) (name : TxnName) (one : Transaction) → AllStandAlone streams → IsActiveIn self.old streams name slot one → IsDataStatement (write_in_space space write.now)
            → self.old.ids.me ≡ writable_node → IsMadeIn streams one space write.now made notes
            → TellsOrLacks self.old self.new streams name (states_in streams one (write_in_space space write.now)) (reply_of result found.new) }
        ensures keeps { SameNode self.old self.new }
    {
        let row = row_of(space, write, made.row_key.as_slice());
        if !self.open.work(slot).has_room(&row) {
            return self.note(slot, notes, Err(Refusal::TransactionTooLong));
        }
        match self.add(slot, space, write, made, notes, found) {
            Ok(()) => Ok(Answered::Tuples),
            Err(AllocError) => Err(Refusal::OutOfMemory),
        }
    }

    fn add(
        &mut self,
        slot: Slot,
        space: SpaceId,
        write: &Write<'_>,
        made: Made,
        notes: Notes,
        shown: &mut Tuples,
    ) -> Result<(), AllocError>
        requires live { IsLive self.old.open.slots slot }
        ensures adds { (streams : Streams) (name : TxnName) (one : Transaction) → AllStandAlone streams → IsActiveIn self.old streams name slot one → IsDataStatement (write_in_space space write.now)
            → self.old.ids.me ≡ writable_node → IsMadeIn streams one space write.now made notes → has_room (newest_run streams one).rows (row_made space write.now made) ≡ true → MatchResult result
            (λ _. TellsOutcome self.old self.new streams name (states_in streams one (write_in_space space write.now)) (reply.Tuples shown.new))
            (λ _. Keeps self.old self.new streams) }
        ensures keeps { SameNode self.old self.new }
    {
        let row = row_of(space, write, made.row_key.as_slice());
        let size = size_of(&row);
        let row = Row::from_ref(self.alloc, &row)?;
        show(&made.effect, shown)?;
        let Some(reads) = notes.into_reads() else {
            return Err(AllocError);
        };
        match self
            .open
            .add(&self.state, slot, reads, space, row, size, made)
        {
            Ok(()) => Ok(()),
            Err(AllocError) => Err(AllocError),
        }
    }

    /// The newest state under the writes of a slot's transaction.
    fn view_of(&self, slot: Slot) -> StateView<'_>
        ensures { (streams : Streams) (name : TxnName) (one : Transaction) → IsActiveIn self.now streams name slot one → AllStandAlone streams → HoldsView result (newest_run streams one).state }
    {
        StateView {
            state: &self.state,
            over: Some(&self.open.work(slot).overlay),
        }
    }

    /// Notes what a statement of an active transaction has read that changes nothing, unless it ran out of
    /// memory.
    ///
    /// # Errors
    /// The statement's own refusal; or out of memory, and nothing is noted.
    fn note(
        &mut self,
        slot: Slot,
        notes: Notes,
        answered: Result<Answered, Refusal>,
    ) -> Result<Answered, Refusal>
        requires live { IsLive self.old.open.slots slot }
        ensures answers { (streams : Streams) (name : TxnName) (one : Transaction) (statement : Statement) (found : List (List ℕ)) → AllStandAlone streams → IsActiveIn self.old streams name slot one
            → IsDataStatement statement → AnswersAlone streams one statement found answered notes
            → TellsOrLacks self.old self.new streams name (states_in streams one statement) (reply_of result found) }
        ensures keeps { SameNode self.old self.new }
    {
        if lacks_memory(&answered) {
            return answered;
        }
        let Some(reads) = notes.into_reads() else {
            return Err(Refusal::OutOfMemory);
        };
        match self.open.note(slot, reads) {
            Ok(()) => answered,
            Err(AllocError) => Err(Refusal::OutOfMemory),
        }
    }
}

/// Whether a statement ran out of memory.
fn lacks_memory(answered: &Result<Answered, Refusal>) -> bool
    ensures lacks { result ≡ true → answered.now ≡ Err OutOfMemory }
    ensures has { result ≡ false → answered.now ≢ Err OutOfMemory }
{
    match answered {
        Ok(_) => false,
        Err(refusal) => code_of(refusal) == 2,
    }
}
