//! A node in one thread: it opens a directory, answers what its connections ask, and journals commits.
#![tactic(auto)]

mod commits;
mod jobs;
mod laws;
mod out_units;
mod sessions;
mod single;
mod unit;

pub use jobs::Arrival;
pub use laws::{
    answers_have_the_order_of_units, what_is_sent_ends_with_what_is_due, what_is_sent_is_determined,
};
pub use mx_recover::RecoverFault;
pub use out_units::{OutUnit, OutUnits};
pub use single::Single;
pub use unit::{MAX_CONNECTION, Unit};
