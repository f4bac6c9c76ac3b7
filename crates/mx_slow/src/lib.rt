//! The plain slow program: transactions beside others over its state, and what a statement reads and touches.
#![tactic(auto)]

mod read_ranges;
mod reads;
mod slow;
mod touched;
mod write_reads;

pub use mx_slow_state::{SlowAnswer, SlowState, SlowWrite};
pub use read_ranges::{ReadRange, ReadRanges};
pub use slow::Slow;
pub use touched::{TouchedKey, TouchedKeys};
