//! Calls on the crates that read and write bytes, one module for each crate.
#![tactic(auto)]

pub mod base;
pub mod completion;
pub mod frame;
pub mod key;
pub mod msgpack;
pub mod reply;
pub mod request;
pub mod row;
pub mod tuple;
pub mod vclock;
pub mod xlog;
