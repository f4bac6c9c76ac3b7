//! A directory that is opened, and the journal that goes on from it: what they have of a history.
#![tactic(auto)]

mod laws;
mod opening;
mod writing;

pub use laws::{
    a_durable_directory_recovers, an_empty_directory_recovers, what_a_crash_leaves_recovers,
    what_a_kill_leaves_recovers,
};
pub use mx_recover::RecoverFault;
pub use opening::{Opened, open};
pub use writing::write_taken;
