//! A connection's session: bytes in, jobs out; replies in, bytes out once they may be sent (IPROTO, "Packet structure").
#![tactic(auto)]

mod job;
mod laws;
mod link_turn;
mod outbox;
mod session;

pub use job::{AskRef, Job, JobRef};
pub use laws::jobs_are_those_of_the_stream;
pub use link_turn::LinkTurn;
pub use session::{Next, NextRef, Session};
