//! The top call: what the program does, over any source, sink and directories.
#![tactic(auto)]

mod arguments;
mod delivery;
mod ids;
mod intake;
mod laws;
mod output_unit;
mod status;
mod stop;
mod top_call;
mod trace;
mod units;

pub use arguments::directory_argument;
pub use laws::no_reply_is_missing;
pub use status::Status;
pub use top_call::run;
