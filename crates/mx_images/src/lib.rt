//! Crash images of the journals and snapshots of a directory.
#![tactic(auto)]

mod laws;

pub use laws::images_are_fair;
