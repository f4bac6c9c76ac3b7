//! What the header of a journal or snapshot file says.

use mx_vclock::Vclock;
use uuid::Uuid;

/// What a file's header says: which file it is, who wrote it, and where it begins.
#[derive(Clone, Copy, Drop)]
pub struct Head {
    /// Whether it is a snapshot, and not a journal.
    pub snapshot: bool,
    /// The instance that wrote the file.
    pub instance: Uuid,
    /// The replica set that the instance belongs to.
    pub set: Uuid,
    /// The instance's replica id, from 0 to 31.
    pub replica: u8,
    /// The vclock of the journal where the file begins.
    pub clock: Vclock,
}
