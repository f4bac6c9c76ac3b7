//! The plain slow program: it answers every request as the definitions say, and keeps the state after each
//! commit.

ghost use Rattle.std.specs.Prelude.{◌≡◌, [], IfOk, MatchResult};
ghost use Rattle.mx_space.specs.Stored.{Holds};
ghost use Rattle.mx_model.specs.Bases.{Base, CanBeAsked};
ghost use Rattle.mx_slow.specs.Slow.{Answers, IsSlow, statement_reads};
ghost use Rattle.mx_slow.specs.SlowReads.{HasRead};
ghost use Rattle.mx_model.specs.Streams.{Streams, streams_left};
ghost use Rattle.mx_model.specs.Transactions.{state_after};

mod begin;
mod commit;
mod run;
mod standing;
mod statement;
mod transactions;

use crate::read_ranges::ReadRanges;
use crate::slow::run::statement_reads;
use crate::slow::transactions::SlowTransaction;
use crate::touched::TouchedKeys;
use mx_base::{ConnId, TxnName};
use mx_judge::not_built;
use mx_model::{Ids, Reply};
use mx_request::Request;
use mx_slow_state::SlowState;
use mx_space::State;
use mx_vclock::Vclock;
use std::alloc::{AllocError, Global};

/// A database that keeps all that it was: its first state, and the state after each commit, each with the
/// tuples of a space in one list.
#[derive(Drop)]
pub struct Slow {
    alloc: Global,
    ids: Ids,
    clock: Vclock,
    first: SlowState,
    commits: Vec<SlowCommit>,
    /// The newest first.
    transactions: Vec<SlowTransaction>,
}

/// A commit: the state after it, the keys that it touched, and whether it changed a space or an index.
#[derive(Drop)]
pub struct SlowCommit {
    state: SlowState,
    touched: TouchedKeys,
    is_schema: bool,
}

impl Slow {
    /// A database that goes on from a state that has come to a vclock, on the node with these identifiers.
    pub fn new(alloc: Global, state: State, clock: Vclock, ids: Ids) -> Result<Slow, AllocError>
        ensures { (base : Base) → Holds state base.state → clock ≡ base.clock → ids ≡ base.ids
            → IfOk result (λ slow. IsSlow slow (record { base = base; journal = []; transactions = [] })) }
    {
        Ok(Slow {
            alloc,
            ids,
            clock,
            first: SlowState::new(alloc, state)?,
            commits: Vec::new(alloc),
            transactions: Vec::new(alloc),
        })
    }

    /// Answers a request.
    ///
    /// # Errors
    /// Out of memory. The database is then as it was.
    pub fn ask(&mut self, name: TxnName, request: &Request) -> Result<Reply, AllocError>
        ensures { (streams : Streams) → IsSlow self.old streams → CanBeAsked request.now → MatchResult result
            (λ reply. Answers self.new streams name request.now reply)
            (λ _. IsSlow self.new streams) }
    {
        match request {
            Request::Begin => self.begin(name),
            Request::Commit => self.commit(name),
            Request::Rollback => Ok(self.rollback(name)),
            Request::Select { .. } => self.statement(name, request),
            Request::Insert { .. } => self.statement(name, request),
            Request::Replace { .. } => self.statement(name, request),
            Request::Update { .. } => self.statement(name, request),
            Request::Delete { .. } => self.statement(name, request),
            Request::Upsert { .. } => self.statement(name, request),
            Request::Nop | Request::Ping => Ok(Reply::Empty),
            Request::Id => Ok(Reply::Id),
            Request::Join { .. } | Request::Subscribe { .. } | Request::Ack { .. } => {
                Ok(Reply::Refused(not_built(request.kind())))
            }
        }
    }

    /// Drops the transactions of a connection that disconnects.
    pub fn leave(&mut self, connection: ConnId)
        ensures { (streams : Streams) → IsSlow self.old streams → IsSlow self.new (streams_left streams connection.0) }
    {
        self.transactions
            .retain(|one| one.name.conn.0 != connection.0);
    }

    /// What a statement by itself would read now, in order, a refused one's reads included; nothing where
    /// the request is no statement.
    ///
    /// # Errors
    /// Out of memory.
    pub fn reads(&self, request: &Request) -> Result<ReadRanges, AllocError>
        ensures { (streams : Streams) → IsSlow self.now streams → IfOk result (λ reads.
            HasRead reads (statement_reads streams.base.ids (state_after streams.base.state streams.journal) request.now)) }
    {
        statement_reads(
            self.alloc,
            self.state_at(self.commits.len()),
            &self.ids,
            request,
        )
    }
}
