//! The workers of a server: a queue of links for them, and turns for the links that each keeps.
#![tactic(auto)]

mod gated;
mod handler;
mod links;
mod queue;
mod work;

pub use handler::Handler;
pub use queue::Queue;
pub use work::worker;
