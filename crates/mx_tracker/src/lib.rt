//! Which ranges of keys each slot has read, and which slots the keys of a commit overlap.
#![tactic(auto)]

mod mark_set;
mod read;
mod touched;
mod tracker;

pub use mark_set::{MarkSet, SLOTS};
pub use mx_key::Edge;
pub use read::{Read, Reads};
pub use touched::{Touched, TouchedKeys};
pub use tracker::Tracker;
