//! The identifiers of a node.

use uuid::Uuid;

/// The identifiers of a node.
#[derive(Clone, Copy, Drop)]
pub struct Ids {
    /// Its replica id, from 0 to 31.
    pub me: u8,
    /// Its own identifier.
    pub instance: Uuid,
    /// The identifier of its replica set.
    pub set: Uuid,
}
