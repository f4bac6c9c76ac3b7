//! The outside of a server in memory, for tests. Each object has a list of its calls that fail, and the
//! contents of sources, sinks, directories and links are known. What starts threads starts real ones.
#![tactic(auto)]

mod acceptor;
mod calls;
mod change;
mod dir;
mod files;
mod gate;
mod link;
mod peer;
mod sink;
mod source;
mod spawner;
mod stored;
mod tables;

pub use acceptor::MemoryAcceptor;
pub use dir::MemoryDir;
pub use gate::{Holding, HoldingGate, Point};
pub use link::MemoryLink;
pub use peer::{MemoryPeer, Received};
pub use sink::MemorySink;
pub use source::MemorySource;
pub use spawner::ThreadSpawner;
