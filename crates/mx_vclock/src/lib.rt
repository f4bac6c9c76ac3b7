//! Vclocks: for each replica the lsn that its journal has reached.
#![tactic(auto)]

mod gap;
mod place;
mod reading;
mod spelling;
mod text;
mod vclock;

pub use gap::Gap;
pub use reading::BadText;
pub use vclock::{MAX_LSN, REPLICAS, Vclock};
