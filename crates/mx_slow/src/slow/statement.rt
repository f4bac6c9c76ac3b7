//! Statements, by themselves or in a transaction.

ghost use Rattle.std.specs.Prelude.{◌≡◌, ◌<◌, ◌≤◌, ◌+◌, ◌&&◌, Option, Some, IfOk, MatchResult, length, slice_index};
ghost use Rattle.mx_base.specs.declared.ids.TxnName.{TxnName};
ghost use Rattle.mx_schema.specs.State as plain;
ghost use Rattle.mx_vclock.specs.Vclocks.{max_lsn};
ghost use Rattle.mx_write.specs.Change.{Change};
ghost use Rattle.mx_write.specs.Writable.{describes_schema};
ghost use Rattle.mx_model.specs.declared.reply.Reply.{Reply};
ghost use Rattle.mx_model.specs.Bases.{CanBeAsked, writable_node};
ghost use Rattle.mx_model.specs.Overlaps.{Transaction, statements_in};
ghost use Rattle.mx_model.specs.RunAlone.{Run, answer_in_run, run_alone, statement_answer, writes};
ghost use Rattle.mx_slow.specs.Slow.{GoesOn, IsNamedAt, IsSlow, KeepsStep, KeepsTransaction, RunStands, Tells, standing_view, streams_with_row, told_standing};
ghost use Rattle.mx_slow_state.specs.SlowState.{HasAnswer, IsSlowMade, IsSlowState};
ghost use Rattle.mx_model.specs.Streams.{Streams, standing_now, state_read, states, states_alone, states_in, transaction_named};
ghost use Rattle.mx_model.specs.Transactions.{state_after};
ghost use Rattle.mx_model.specs.statements.Statement.{Statement, statement_of};

use crate::slow::Slow;
use crate::slow::run::{SlowRun, statement_answer, statement_reads};
use crate::slow::standing::SlowStanding;
use crate::slow::transactions::{SlowStep, SlowTransaction, copy_statement, place_of};
use mx_base::{Refusal, TxnName, Unsupported};
use mx_model::{Ids, Reply, is_write};
use mx_request::Request;
use mx_slow_state::{SlowAnswer, SlowWrite};
use mx_write::{describes_schema, write_of_request};
use std::alloc::AllocError;

/// A statement of a transaction, and what it is told.
#[derive(Drop)]
struct SlowStepTold {
    step: SlowStep,
    reply: Reply,
}

impl Slow {
    /// Answers a statement.
    pub(crate) fn statement(
        &mut self,
        name: TxnName,
        request: &Request,
    ) -> Result<Reply, AllocError>
        ensures { (streams : Streams) (statement : Statement) → IsSlow self.old streams → CanBeAsked request.now → statement_of request.now ≡ Some statement → MatchResult result
            (λ reply. Tells self.new streams name (states streams (transaction_named name streams.transactions) statement) reply)
            (λ _. IsSlow self.new streams) }
    {
        match place_of(self.transactions.as_slice(), name) {
            Some(place) => self.step(place, request),
            None => self.alone(request),
        }
    }

    /// Answers a statement by itself, and commits its row.
    fn alone(&mut self, request: &Request) -> Result<Reply, AllocError>
        ensures { (streams : Streams) (name : TxnName) (statement : Statement) → IsSlow self.old streams → statement_of request.now ≡ Some statement → MatchResult result
            (λ reply. Tells self.new streams name (states_alone streams statement) reply)
            (λ _. IsSlow self.new streams) }
    {
        let newest = self.commits.len();
        let Some(answer) = statement_answer(self.state_at(newest), &self.ids, request)? else {
            return Err(AllocError);
        };
        self.commit_answer(answer)
    }

    /// Commits the row of a statement that is answered so by itself, if it leaves one.
    fn commit_answer(&mut self, answer: SlowAnswer) -> Result<Reply, AllocError>
        ensures { (streams : Streams) (name : TxnName) (statement : Statement) → IsSlow self.old streams
            → HasAnswer answer (state_after streams.base.state streams.journal) statement.space
            (statement_answer streams.base.ids (state_after streams.base.state streams.journal) statement) → MatchResult result
            (λ reply. Tells self.new streams name (states_alone streams statement) reply)
            (λ _. IsSlow self.new streams) }
    {
        let SlowAnswer { reply, write } = answer;
        let Some(write) = write else {
            return Ok(reply);
        };
        let Some(last) = self.last_lsn(1) else {
            return Ok(Reply::Refused(Refusal::LsnsUsedUp));
        };
        self.commit_told(reply, write, last)
    }

    /// Commits a write that the newest state answered, whose row has this lsn, and tells this.
    fn commit_told(
        &mut self,
        reply: Reply,
        write: SlowWrite,
        last: u64,
    ) -> Result<Reply, AllocError>
        requires { last ≤ max_lsn }
        ensures { (streams : Streams) (change : Option Change) → IsSlow self.old streams
            → IsSlowMade (state_after streams.base.state streams.journal) write.space.0 write.row write.made change
            → streams.base.ids.me ≡ writable_node → last ≡ slice_index self.old.clock writable_node + 1 → MatchResult result
            (λ told. (told ≡ reply) × IsSlow self.new (streams_with_row streams write.row))
            (λ _. IsSlow self.new streams) }
    {
        self.commit_write(write, last)?;
        Ok(reply)
    }

    /// Commits such a write.
    fn commit_write(&mut self, write: SlowWrite, last: u64) -> Result<(), AllocError>
        requires { last ≤ max_lsn }
        ensures { (streams : Streams) (change : Option Change) → IsSlow self.old streams
            → IsSlowMade (state_after streams.base.state streams.journal) write.space.0 write.row write.made change
            → streams.base.ids.me ≡ writable_node → last ≡ slice_index self.old.clock writable_node + 1 → MatchResult result
            (λ _. IsSlow self.new (streams_with_row streams write.row))
            (λ _. IsSlow self.new streams) }
    {
        let mut run = self.run(self.commits.len(), &[])?;
        run.take(write)?;
        self.install(run, last)
    }

    /// Answers a statement of an open transaction, and adds it to the transaction.
    fn step(&mut self, place: usize, request: &Request) -> Result<Reply, AllocError>
        requires { place < length self.old.transactions.items }
        ensures { (streams : Streams) (name : TxnName) (one : Transaction) (statement : Statement) → IsSlow self.old streams → IsNamedAt name streams.transactions place one
            → CanBeAsked request.now → statement_of request.now ≡ Some statement → MatchResult result
            (λ reply. Tells self.new streams name (states_in streams one statement) reply)
            (λ _. IsSlow self.new streams) }
    {
        if writes_schema(request) {
            let what = Unsupported::SchemaInTransaction;
            return Ok(Reply::Refused(Refusal::Unsupported { what }));
        }
        let SlowStepTold { step, reply } = self.step_of(&self.transactions[place], request)?;
        self.transactions[place].steps.insert(0, step)?;
        Ok(reply)
    }

    /// What a statement of an open transaction is told.
    fn step_of(
        &self,
        transaction: &SlowTransaction,
        request: &Request,
    ) -> Result<SlowStepTold, AllocError>
        ensures { (streams : Streams) (one : Transaction) (statement : Statement) → IsSlow self.now streams → KeepsTransaction transaction.now one
            → statement_of request.now ≡ Some statement → IfOk result (λ told. GoesOn told streams one statement) }
    {
        let standing = self.standing(is_write(request.kind()), transaction)?;
        let place = self.place_read(transaction);
        let run = self.run(place, transaction.steps.as_slice())?;
        self.step_told(&run, standing, request)
    }

    /// The same where the transaction stands so and its earlier statements have come to this.
    fn step_told(
        &self,
        run: &SlowRun,
        standing: SlowStanding,
        request: &Request,
    ) -> Result<SlowStepTold, AllocError>
        ensures { (streams : Streams) (one : Transaction) (statement : Statement) → IsSlow self.now streams → statement_of request.now ≡ Some statement
            → RunStands run.now (state_read streams one) (run_alone streams.base.ids (state_read streams one) (statements_in one.steps))
            → standing_view standing ≡ standing_now streams (writes statement.operation) one → IfOk result (λ told. GoesOn told streams one statement) }
    {
        let step = self.step_after(run, request)?;
        let reply = reply_after(run, &self.ids, standing, request)?;
        Ok(SlowStepTold { step, reply })
    }

    /// A statement that is made now behind these, with what it reads.
    fn step_after(&self, run: &SlowRun, request: &Request) -> Result<SlowStep, AllocError>
        ensures { (streams : Streams) (ran : Run) (statement : Statement) (reply : Reply) → IsSlow self.now streams → IsSlowState run.now.state ran.state
            → statement_of request.now ≡ Some statement → IfOk result (λ step. KeepsStep step (record {
              statement = statement;
              after = length streams.journal;
              reply = reply;
              reads = (answer_in_run streams.base.ids ran statement).reads;
            })) }
    {
        let reads = statement_reads(self.alloc, &run.state, &self.ids, request)?;
        let Some(request) = copy_statement(self.alloc, request)? else {
            return Err(AllocError);
        };
        let after = self.commits.len();
        Ok(SlowStep {
            request,
            after,
            reads,
        })
    }
}

/// What a statement is told that is made behind these, where its transaction stands so.
fn reply_after(
    run: &SlowRun,
    ids: &Ids,
    standing: SlowStanding,
    request: &Request,
) -> Result<Reply, AllocError>
    ensures { (before : plain.State) (ran : Run) (statement : Statement) → RunStands run.now before ran → statement_of request.now ≡ Some statement
        → IfOk result (λ reply. reply ≡ told_standing (standing_view standing) (answer_in_run ids.now ran statement).reply) }
{
    let Some(answer) = run.answer(ids, request)? else {
        return Err(AllocError);
    };
    Ok(told(standing, answer.reply))
}

/// What a statement is told that is answered so alone.
fn told(standing: SlowStanding, reply: Reply) -> Reply
    ensures { result ≡ told_standing (standing_view standing) reply }
{
    if matches!(standing, SlowStanding::Doomed) {
        return Reply::Refused(Refusal::Conflict);
    }
    reply
}

/// Whether a request writes the rows that describe spaces or indexes.
fn writes_schema(request: &Request) -> bool
    ensures { (statement : Statement) → CanBeAsked request.now → statement_of request.now ≡ Some statement
        → result ≡ (writes statement.operation && describes_schema statement.space) }
{
    match write_of_request(request) {
        Some((space, _)) => describes_schema(space),
        None => false,
    }
}
