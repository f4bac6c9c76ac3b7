//! What comes to a node.

use mx_base::ConnId;

/// The greatest number of a connection.
pub const MAX_CONNECTION: u32 = 1023;

/// What comes to a node on one of its connections, whose numbers are at most 1,023.
#[derive(Clone, Copy)]
pub enum Unit<'a> {
    /// Bytes, cut anywhere. The first bytes open the connection.
    Bytes { conn: ConnId, bytes: &'a [u8] },
    /// The connection is closed.
    Close { conn: ConnId },
}
