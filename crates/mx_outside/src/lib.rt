//! The outside of a server: the source and the sink of its bytes, the directory of its files, and the
//! connections, threads and points of a server of many connections.
//!
//! Each object counts its faults. A call returns `Failed` only where that count rose, and at any other
//! return the count is as it was. What may have to wait counts its waits in the same way, and returns
//! `NotReady` only where that count rose. A count that stands at its last value counts as risen.
#![tactic(auto)]

mod acceptor;
mod dir;
mod failed;
mod gate;
mod link;
mod names;
mod sink;
mod source;
mod spawner;

pub use acceptor::{Accepted, Acceptor};
pub use dir::{Dir, DirFault};
pub use failed::Failed;
pub use gate::Gate;
pub use link::{Link, LinkStop};
pub use names::Names;
pub use sink::Sink;
pub use source::Source;
pub use spawner::{Spawner, Work};
