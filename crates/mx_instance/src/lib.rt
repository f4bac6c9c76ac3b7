//! The engine in turns: threads ask it, and all that they do is one history.
#![tactic(auto)]

mod asking;
mod instance;
mod journal;
mod outcome;
mod recorded;
mod rounds;

pub use asking::Turns;
pub use instance::{Instance, Pass};
pub use mx_session::LinkTurn;
pub use outcome::{Outcome, TryStop};
pub use rounds::LinkBuffers;
