//! The engine.

ghost use Rattle.std.specs.Prelude.{◌≡◌, ◌==◌, ℕ, List, None, ◌<◌, ◌-◌, ◌^◌, ◌∷◌, [], length, IfOk};
ghost use Rattle.std.specs.List.{Contains};
ghost use Rattle.mx_space.specs.Stored.{Holds};
ghost use Rattle.mx_base.specs.declared.refusal.Refusal.{Refusal};
ghost use Rattle.mx_request.specs.declared.request.Ask.TheVariants as ask;
ghost use Rattle.mx_request.specs.declared.request.Request.{Request};
ghost use Rattle.mx_request.specs.InPlace.{request_view};
ghost use Rattle.mx_request.specs.Spelling.{IsAskable, type_number};
ghost use Rattle.mx_model.specs.declared.reply.Reply.TheVariants.{Refused};
ghost use Rattle.mx_model.specs.Alone.{AllStandAlone};
ghost use Rattle.mx_model.specs.Frame.{OperationHasBytes};
ghost use Rattle.mx_model.specs.Bases.{Base, writable_node};
ghost use Rattle.mx_model.specs.Histories.{History, Asked, Left, Looked, Took, Confirmed, ledger_of, journal_of, clock_of};
ghost use Rattle.mx_model.specs.Streams.{AllHaveStreams, Streams, states, states_alone, transaction_named};
ghost use Rattle.mx_model.specs.Transactions.{schema_version};
ghost use Rattle.mx_model.specs.statements.Statement.{statement_of};
ghost use Rattle.mx_engine.specs.Standing.{EngineStandsFor, HasStreams};
ghost use Rattle.mx_engine.specs.StatementViews.{AreKeysArrays, statement_view};
ghost use Rattle.mx_engine.specs.Steps.{AnswersRequest, AnswersStatement, CountsStep, SameNode};
ghost use Rattle.mx_engine.specs.Views.{reply_of, reply_view};

use crate::answer::{Answer, Answered};
use crate::pending::Pending;
use crate::statement::{StatementRef, statement_in, statement_of};
use crate::txs::Txs;
use mx_base::{ConnId, Refusal, TxnName};
use mx_judge::not_built;
use mx_model::{Ids, WRITABLE_NODE};
use mx_msgpack::Tuples;
use mx_request::{Request, RequestRef};
use mx_space::State;
use mx_transactions::OpenTransactions;
use mx_vclock::Vclock;
use std::alloc::{AllocError, Global};

// The numbers of the types of requests that are no statements.
const NOP: u8 = 12;

const BEGIN: u8 = 14;

const COMMIT: u8 = 15;

const ROLLBACK: u8 = 16;

const PING: u8 = 64;

const ID: u8 = 73;

/// A database in memory. Each call that changes it is one step, which the engine counts.
///
/// The clauses speak of each history of which the engine is the state: after a call it is the state
/// of that history and the call's step.
#[derive(Drop)]
pub struct Engine {
    pub(crate) alloc: Global,
    pub(crate) state: State,
    pub(crate) clock: Vclock,
    ids: Ids,
    /// How many commits were made.
    pub(crate) commits: u64,
    pub(crate) open: OpenTransactions,
    pub(crate) pending: Txs,
    count: u64,
    durable: u64,
    /// The schema's version.
    pub(crate) schema: u32,
}

impl Engine {
    /// An engine that goes on from a state and its vclock, as the node with these identifiers.
    pub fn from_state(
        alloc: Global,
        state: State,
        clock: Vclock,
        ids: Ids,
    ) -> Result<Engine, AllocError>
        ensures { (base : Base) → Holds state base.state → clock ≡ base.clock → ids ≡ base.ids
            → IfOk result (λ engine. EngineStandsFor engine base []) }
    {
        Ok(Engine {
            alloc,
            state,
            clock,
            ids,
            commits: 0,
            open: OpenTransactions::new(alloc)?,
            pending: Txs::new(alloc),
            count: 0,
            durable: 0,
            schema: 0,
        })
    }

    /// Answers a request.
    ///
    /// # Errors
    /// The request is refused, and the state is as it was.
    pub fn request(&mut self, name: TxnName, request: &Request) -> Result<Answer, Refusal>
        requires { self.old.count < 2 ^ 63 - 1 }
        ensures { (base : Base) (history : History) → EngineStandsFor self.old base history → IsAskable request.now
            → EngineStandsFor self.new base (Asked name (ask.Request request.now) (reply_view result) ∷ history) }
    {
        let mut found = Tuples::new(self.alloc);
        match self.request_into(name, request, &mut found) {
            Ok(answered) => Ok(answered.with(found)),
            Err(refusal) => Err(refusal),
        }
    }

    fn request_into(
        &mut self,
        name: TxnName,
        request: &Request,
        found: &mut Tuples,
    ) -> Result<Answered, Refusal>
        requires { self.old.count < 2 ^ 63 - 1 }
        ensures { (base : Base) (history : History) → EngineStandsFor self.old base history → IsAskable request.now
            → EngineStandsFor self.new base (Asked name (ask.Request request.now) (reply_of result found.new) ∷ history) }
    {
        self.count += 1;
        match statement_of(request) {
            Some(statement) => self.statement(name, &statement, found),
            None => self.other(name, request.kind()),
        }
    }

    /// As `request`, of a request that stands in its packet. The answer's tuples go into `found`, in place
    /// of what it had, which is of no use after a refusal.
    ///
    /// # Errors
    /// The request is refused, and the state is as it was.
    pub fn request_in_place(
        &mut self,
        name: TxnName,
        request: &RequestRef<'_>,
        found: &mut Tuples,
    ) -> Result<Answered, Refusal>
        requires room { self.old.count < 2 ^ 63 - 1 }
        requires askable { IsAskable (request_view request.now) }
        ensures { (base : Base) (history : History) → EngineStandsFor self.old base history
            → EngineStandsFor self.new base (Asked name (ask.Request (request_view request.now)) (reply_of result found.new) ∷ history) }
    {
        self.count += 1;
        match statement_in(request) {
            Some(statement) => self.statement(name, &statement, found),
            None => self.other(name, request.kind()),
        }
    }

    /// Counts a step that changes nothing: a look at what there is, or a request that was refused before
    /// it came here.
    pub fn look(&mut self)
        requires { self.old.count < 2 ^ 63 - 1 }
        ensures looked { (base : Base) (history : History) → EngineStandsFor self.old base history → EngineStandsFor self.new base (Looked ∷ history) }
        ensures refused { (base : Base) (history : History) (name : TxnName) (refusal : Refusal) → EngineStandsFor self.old base history
            → EngineStandsFor self.new base (Asked name (ask.Refused refusal) (Refused refusal) ∷ history) }
    {
        // The refusal itself was returned where the request was read.
        self.count += 1;
    }

    /// Rolls the transactions of a connection back that disconnects.
    pub fn leave(&mut self, conn: ConnId)
        requires { self.old.count < 2 ^ 63 - 1 }
        ensures { (base : Base) (history : History) → EngineStandsFor self.old base history
            → EngineStandsFor self.new base (Left conn.0 ∷ history) }
    {
        self.count += 1;
        self.open.leave(conn);
    }

    /// Hands out the commits that weren't taken before, to be written.
    pub fn take_pending(&mut self) -> Pending
        requires { self.old.count < 2 ^ 63 - 1 }
        ensures { (base : Base) (history : History) → EngineStandsFor self.old base history
            → EngineStandsFor self.new base (Took result.txs result.upto ∷ history) }
    {
        let upto = self.count;
        self.count += 1;
        Pending {
            txs: self.pending.take(),
            upto,
        }
    }

    /// Notes that all commits among the first `upto` steps are durable, where `upto` is the number of
    /// steps when some commits were taken.
    pub fn confirm(&mut self, upto: u64)
        requires { self.old.count < 2 ^ 63 - 1 }
        ensures { (base : Base) (history : History) → EngineStandsFor self.old base history → Contains (ledger_of base history).takes upto
            → EngineStandsFor self.new base (Confirmed upto ∷ history) }
    {
        self.count += 1;
        self.durable = self.durable.max(upto);
    }

    /// Among how many steps all commits are durable.
    pub fn durable(&self) -> u64
        ensures { (base : Base) (history : History) → EngineStandsFor self.now base history → result ≡ (ledger_of base history).durable }
    {
        self.durable
    }

    /// How many steps there were.
    pub fn count(&self) -> u64
        ensures value { result ≡ self.now.count }
        ensures steps { (base : Base) (history : History) → EngineStandsFor self.now base history → result ≡ length history }
    {
        self.count
    }

    /// The schema's version: how many commits since the start changed a space or an index, in 32 bits.
    pub fn schema(&self) -> u32
        ensures { (base : Base) (history : History) → EngineStandsFor self.now base history → result ≡ schema_version (journal_of base history) }
    {
        self.schema
    }

    /// How far the commits have come.
    pub fn clock(&self) -> Vclock
        ensures { (base : Base) (history : History) → EngineStandsFor self.now base history → result ≡ clock_of base history }
    {
        self.clock
    }

    /// The identifiers of the node.
    pub fn ids(&self) -> &Ids
        ensures { (base : Base) (history : History) → EngineStandsFor self.now base history → result.now ≡ base.ids }
    {
        &self.ids
    }

    /// Whether this node takes writes. Every node takes reads.
    pub(crate) fn is_writable(&self) -> bool
        ensures { result ≡ (self.now.ids.me == writable_node) }
    {
        self.ids.me == WRITABLE_NODE
    }

    /// Answers a statement, by itself or in the transaction that is open under the name.
    fn statement(
        &mut self,
        name: TxnName,
        statement: &StatementRef<'_>,
        found: &mut Tuples,
    ) -> Result<Answered, Refusal>
        requires arrays { AreKeysArrays statement.now }
        ensures answers { (streams : Streams) → HasStreams self.old streams → AllStandAlone streams → AllHaveStreams streams.transactions → CountsStep self.old → OperationHasBytes (statement_view statement.now).operation
            → AnswersStatement self.old self.new streams name (states streams (transaction_named name streams.transactions) (statement_view statement.now)) (reply_of result found.new) }
        ensures keeps { SameNode self.old self.new }
    {
        let is_outside = name.stream.0 == 0;
        if is_outside {
            return self.alone(statement, found);
        }
        match self.open.find(name) {
            Some((slot, state)) => self.step(slot, state, statement, found),
            None => self.alone(statement, found),
        }
    }

    /// Answers a statement by itself, and commits its row.
    fn alone(
        &mut self,
        statement: &StatementRef<'_>,
        found: &mut Tuples,
    ) -> Result<Answered, Refusal>
        requires arrays { AreKeysArrays statement.now }
        ensures answers { (streams : Streams) (name : TxnName) → HasStreams self.old streams → AllStandAlone streams → CountsStep self.old → OperationHasBytes (statement_view statement.now).operation
            → AnswersStatement self.old self.new streams name (states_alone streams (statement_view statement.now)) (reply_of result found.new) }
        ensures keeps { SameNode self.old self.new }
    {
        match statement {
            StatementRef::Select(wanted) => self.select(
                wanted.space,
                wanted.index,
                &wanted.pick(),
                found,
            ),
            StatementRef::Write { space, write } => self.write(*space, write, found),
        }
    }

    /// Answers a request of this type that is no statement.
    #[inline(never)]
    fn other(&mut self, name: TxnName, kind: u8) -> Result<Answered, Refusal>
        ensures answers { (streams : Streams) (asked : Request) (found : List (List ℕ)) → HasStreams self.old streams → AllStandAlone streams → CountsStep self.old → kind ≡ type_number asked → statement_of asked ≡ None
            → AnswersRequest self.old self.new streams name asked (reply_of result found) }
        ensures keeps { SameNode self.old self.new }
    {
        match kind {
            BEGIN => self.begin(name),
            COMMIT => self.commit(name),
            ROLLBACK => self.rollback(name),
            NOP | PING => Ok(Answered::Empty),
            ID => Ok(Answered::Id),
            _ => Err(not_built(kind)),
        }
    }
}
