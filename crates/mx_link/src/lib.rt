//! One connection: its jobs are answered in order, and the replies wait until they may be sent.
#![tactic(auto)]

mod asker;
mod buffers;
mod replying;

pub use asker::{Asker, Given, answer_all};
pub use buffers::Buffers;
pub use replying::write_answer;
