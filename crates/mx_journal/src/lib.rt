//! The journal: each commit is written to a file of a directory, and synced.
#![tactic(auto)]

mod fault;
mod journal;
mod making;
mod pack;

pub use fault::JournalFault;
pub use journal::Journal;
