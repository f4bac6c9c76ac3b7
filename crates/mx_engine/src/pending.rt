//! Commits that wait to be written.

use crate::txs::Txs;

/// The commits that weren't taken before.
#[derive(Drop)]
pub struct Pending {
    /// The transactions, the first of them first.
    pub txs: Txs,
    /// How many steps the engine had made. Once the transactions are durable, these steps are confirmed.
    pub upto: u64,
}
