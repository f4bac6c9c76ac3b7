//! The entries of a space's indexes as plain lists: their order, ranges and windows of them, and what writes
//! over them leave.
#![tactic(auto)]

mod build_fault;
mod pick;

pub use build_fault::BuildFault;
pub use pick::{MAX_RESULT_SIZE, Pick, SelectFault, SelectStop};
