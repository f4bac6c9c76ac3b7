//! The files of a directory: their names, and which of them recovery reads.
#![tactic(auto)]

mod file_kind;
mod names;

pub use file_kind::{is_draft, is_journal, is_snapshot, newest_snapshot};
pub use names::{draft_name, journal_name};
