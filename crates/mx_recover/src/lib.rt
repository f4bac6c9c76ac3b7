//! Recovery of a directory: its journals are read and replayed, and what was read is made durable.
#![tactic(auto)]

mod apply;
mod durability;
mod fault;
mod load;
mod new_database;
mod recovery;
mod replay;

pub use apply::{ApplyFault, apply_row, apply_tx};
pub use durability::make_durable;
pub use fault::RecoverFault;
pub use new_database::bootstrap;
pub use recovery::recover;
pub use replay::Recovered;
