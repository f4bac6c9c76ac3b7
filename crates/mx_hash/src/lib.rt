//! A hash map from byte strings to numbers.
#![tactic(auto)]

mod hash;
mod keys;

pub use hash::Hash;
pub use keys::Keys;
