//! What a call comes to.

use mx_model::Reply;

/// What a job was replied, and where its step stands.
#[derive(Drop)]
pub struct Outcome {
    pub reply: Reply,
    /// How many steps the history has with the job's.
    pub front: u64,
    /// Among how many steps all commits are durable.
    pub durable: u64,
    /// The schema's version then.
    pub schema: u32,
}

/// Why a job wasn't asked.
#[derive(Clone, Copy, PartialEq, Eq)]
pub enum TryStop {
    /// Another pass held the turn, when the history had so many steps.
    Busy { count: u64 },
}
