//! What a turn of a connection comes to.

/// How a connection stands after its turn.
#[derive(Clone, Copy, PartialEq, Eq)]
pub enum LinkTurn {
    /// It goes on, once its link is ready or more commits are durable.
    Again,
    /// All was sent after the end of what came, or after the packet that ended the connection.
    Closed,
    /// Its link failed.
    LinkFault,
    /// Out of memory. Its session is of no use any more.
    NoMemory,
}
