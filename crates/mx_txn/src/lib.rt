//! The slots of open transactions.
#![tactic(auto)]

mod scans;
mod slot;
mod slots;
mod state;

pub use slot::{MAX_OPEN, Slot};
pub use slots::{Full, Slots};
pub use state::TxnState;
