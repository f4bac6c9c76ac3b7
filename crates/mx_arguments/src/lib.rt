//! The arguments of calls on test vectors, why a call has no answer, and how answers show bytes.
#![tactic(auto)]

mod arguments;
mod display;
mod fault;

pub use arguments::{Arguments, no_call};
pub use display::{Ends, Hex, Text};
pub use fault::Fault;
