//! The outside of a server over std and the system: readers and writers, folders, TCP and threads.
#![tactic(auto)]

mod acceptor;
mod folder;
mod gate;
mod hub;
mod link;
mod listen_fault;
mod no_link;
mod open_fault;
mod open_folder;
mod room;
mod side;
mod spawner;
mod streams;

pub use acceptor::TcpAcceptor;
pub use folder::FolderDir;
pub use gate::OpenGate;
pub use link::TcpLink;
pub use listen_fault::ListenFault;
pub use open_fault::OpenFault;
pub use spawner::SystemSpawner;
pub use streams::{ReaderSource, WriterSink};
