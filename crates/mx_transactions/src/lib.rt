//! Open transactions: what each has read and written, and what commits make of it.
#![tactic(auto)]

mod laws;
mod names;
mod open;
mod work;

pub use laws::{a_commit_moves_open_transactions, a_run_stands_on_its_state};
pub use names::Named;
pub use open::OpenTransactions;
pub use work::{ChangedKey, Work, size_of};
