//! BEGIN and ROLLBACK.

ghost use Rattle.std.specs.Prelude.{◌≡◌, None, MatchResult};
ghost use Rattle.mx_base.specs.Keys.{stream_key};
ghost use Rattle.mx_base.specs.declared.refusal.Refusal.TheVariants.{IllegalValue};
ghost use Rattle.mx_request.specs.declared.request.Request.TheVariants as request;
ghost use Rattle.mx_slow.specs.Slow.{Answers, IsSlow, Tells};
ghost use Rattle.mx_model.specs.Streams.{Streams, begins_beside, transaction_named, without_named};
ghost use Rattle.mx_model.specs.declared.reply.Reply.TheVariants.{Refused};

use crate::slow::Slow;
use crate::slow::transactions::{SlowTransaction, count_of, is_name, place_of};
use mx_base::{Refusal, TxnName, keys};
use mx_model::Reply;
use std::alloc::AllocError;

/// How many transactions may be open, and on one connection.
const MAX_TRANSACTIONS: usize = 1024;

const MAX_TRANSACTIONS_OF_CONNECTION: usize = 64;

impl Slow {
    pub(crate) fn begin(&mut self, name: TxnName) -> Result<Reply, AllocError>
        ensures { (streams : Streams) → IsSlow self.old streams → MatchResult result
            (λ reply. Answers self.new streams name request.Begin reply)
            (λ _. IsSlow self.new streams) }
    {
        if name.stream.0 == 0 {
            return Ok(no_stream());
        }
        match place_of(self.transactions.as_slice(), name) {
            Some(_) => Ok(Reply::Refused(Refusal::TransactionOpen)),
            None => self.open(name),
        }
    }

    /// Opens a transaction of this name, where none is open.
    fn open(&mut self, name: TxnName) -> Result<Reply, AllocError>
        ensures { (streams : Streams) → IsSlow self.old streams → transaction_named name streams.transactions ≡ None → MatchResult result
            (λ reply. Tells self.new streams name (begins_beside streams.transactions name.conn.0 None) reply)
            (λ _. IsSlow self.new streams) }
    {
        if count_of(self.transactions.as_slice(), name.conn) >= MAX_TRANSACTIONS_OF_CONNECTION {
            return Ok(Reply::Refused(Refusal::AllOfConnectionOpen));
        }
        if self.transactions.len() >= MAX_TRANSACTIONS {
            return Ok(Reply::Refused(Refusal::AllTransactionsOpen));
        }
        let transaction = SlowTransaction {
            name,
            begun: self.commits.len(),
            steps: Vec::new(self.alloc),
        };
        self.transactions.insert(0, transaction)?;
        Ok(Reply::Empty)
    }

    pub(crate) fn rollback(&mut self, name: TxnName) -> Reply
        ensures { (streams : Streams) → IsSlow self.old streams → Answers self.new streams name request.Rollback result }
    {
        if name.stream.0 == 0 {
            return no_stream();
        }
        self.end(name);
        Reply::Empty
    }

    /// Drops the transaction of this name.
    pub(crate) fn end(&mut self, name: TxnName)
        ensures { (streams : Streams) → IsSlow self.old streams → IsSlow self.new (record { base = streams.base; journal = streams.journal; transactions = without_named name streams.transactions }) }
    {
        self.transactions.retain(|one| !is_name(one.name, name));
    }
}

/// What BEGIN, COMMIT and ROLLBACK are told that have no stream.
pub(crate) fn no_stream() -> Reply
    ensures { result ≡ Refused (IllegalValue stream_key) }
{
    Reply::Refused(Refusal::IllegalValue { key: keys::STREAM })
}
