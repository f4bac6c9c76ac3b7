//! What tests of several layers expect or send: the rows of a new database, and the numbers of iterators.
#![tactic(auto)]

mod iterators;
mod rows;

pub use iterators::{ALL, EQ, GE, GT, LE, LT, REQ};
pub use rows::{FIRST_INDEXES, FIRST_SPACES};
