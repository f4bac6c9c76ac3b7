//! Byte strings that are owned, which contracts see as lists of numbers.
#![tactic(auto)]

mod bytes;
mod short_bytes;
mod storage;
mod tuples;

pub use bytes::Bytes;
pub use tuples::Tuples;
