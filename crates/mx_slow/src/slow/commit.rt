//! COMMIT.

ghost use Rattle.std.specs.Prelude.{◌≡◌, ◌≤◌, ◌+◌, ◌++◌, ◌∷◌, List, MatchOption, MatchResult, length, nat_lt, slice_index, true, false};
ghost use Rattle.std.specs.List.{list_any};
ghost use Rattle.mx_request.specs.declared.request.Request.TheVariants as request;
ghost use Rattle.mx_row.specs.declared.row.Row.{Row};
ghost use Rattle.mx_vclock.specs.Vclocks.{max_lsn};
ghost use Rattle.mx_model.specs.Bases.{writable_node};
ghost use Rattle.mx_model.specs.RunAlone.{Run};
ghost use Rattle.mx_slow.specs.Slow.{Answers, IsSlow, RunStands, Tells};
ghost use Rattle.mx_model.specs.Streams.{Streams, commit_with, commits_rows};
ghost use Rattle.mx_model.specs.Transactions.{is_schema_row, state_after};

use crate::slow::begin::no_stream;
use crate::slow::run::SlowRun;
use crate::slow::standing::SlowStanding;
use crate::slow::transactions::place_of;
use crate::slow::{Slow, SlowCommit};
use mx_base::{Refusal, ReplicaId, TxnName};
use mx_model::{Reply, WRITABLE_NODE};
use mx_row::Row;
use mx_vclock::MAX_LSN;
use mx_write::describes_schema;
use std::alloc::AllocError;

impl Slow {
    pub(crate) fn commit(&mut self, name: TxnName) -> Result<Reply, AllocError>
        ensures { (streams : Streams) → IsSlow self.old streams → MatchResult result
            (λ reply. Answers self.new streams name request.Commit reply)
            (λ _. IsSlow self.new streams) }
    {
        if name.stream.0 == 0 {
            return Ok(no_stream());
        }
        let Some(place) = place_of(self.transactions.as_slice(), name) else {
            return Ok(Reply::Empty);
        };
        let transaction = &self.transactions[place];
        match self.standing(false, transaction)? {
            SlowStanding::Active => {
                let run = self.run(self.commits.len(), transaction.steps.as_slice())?;
                self.commit_rows(name, run)
            }
            SlowStanding::View { .. } => {
                self.end(name);
                Ok(Reply::Empty)
            }
            SlowStanding::Doomed => {
                self.end(name);
                Ok(Reply::Refused(Refusal::Conflict))
            }
        }
    }

    /// Ends a transaction with all that it has written.
    fn commit_rows(&mut self, name: TxnName, run: SlowRun) -> Result<Reply, AllocError>
        ensures { (streams : Streams) (plain : Run) → IsSlow self.old streams → RunStands run (state_after streams.base.state streams.journal) plain → MatchResult result
            (λ reply. Tells self.new streams name (commits_rows streams plain.rows) reply)
            (λ _. IsSlow self.new streams) }
    {
        let count = run.rows.as_slice().len();
        if count == 0 {
            self.end(name);
            return Ok(Reply::Empty);
        }
        if self.ids.me != WRITABLE_NODE {
            self.end(name);
            let writable = ReplicaId(WRITABLE_NODE);
            return Ok(Reply::Refused(Refusal::ReadOnly { writable }));
        }
        let Some(last) = self.last_lsn(count) else {
            self.end(name);
            return Ok(Reply::Refused(Refusal::LsnsUsedUp));
        };
        self.install(run, last)?;
        self.end(name);
        Ok(Reply::Empty)
    }

    /// The last one of so many further lsns; `None` where they are used up.
    pub(crate) fn last_lsn(&self, count: usize) -> Option<u64>
        ensures { MatchOption result
            (nat_lt max_lsn (slice_index self.now.clock writable_node + count) ≡ true)
            (λ last. (last ≡ slice_index self.now.clock writable_node + count) × (nat_lt max_lsn last ≡ false) × (last ≤ max_lsn)) }
    {
        let last = self.clock.get(WRITABLE_NODE).saturating_add(count as u64);
        if last > MAX_LSN {
            return None;
        }
        Some(last)
    }

    /// Adds a commit of what a run has come to on the newest state, whose last row has this lsn.
    ///
    /// # Errors
    /// Out of memory. The database is then as it was.
    pub(crate) fn install(&mut self, run: SlowRun, last: u64) -> Result<(), AllocError>
        requires { last ≤ max_lsn }
        ensures { (streams : Streams) (plain : Run) (row : Row) (rows : List Row) → IsSlow self.old streams → RunStands run (state_after streams.base.state streams.journal) plain
            → plain.rows ≡ row ∷ rows → streams.base.ids.me ≡ writable_node → last ≡ slice_index self.old.clock writable_node + length plain.rows → MatchResult result
            (λ _. IsSlow self.new (record { base = streams.base; journal = streams.journal ++ commit_with streams plain.rows; transactions = streams.transactions }))
            (λ _. IsSlow self.new streams) }
    {
        let is_schema = has_schema_row(run.rows.as_slice());
        self.commits.push(SlowCommit {
            state: run.state,
            touched: run.touched,
            is_schema,
        })?;
        self.clock.set(WRITABLE_NODE, last);
        Ok(())
    }
}

fn has_schema_row(rows: &[Row]) -> bool
    ensures { result ≡ list_any is_schema_row rows.now }
{
    rows.iter().any(|row| describes_schema(row.space))
}
