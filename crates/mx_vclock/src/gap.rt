//! The error of an lsn that isn't the next one.

use thiserror::Error;

/// The lsn that a replica id has, and the one that doesn't follow it.
#[derive(Clone, Copy, Debug, Drop, PartialEq, Eq, Error)]
#[error("lsn {got} does not follow {has}")]
pub struct Gap {
    /// The lsn that the vclock has.
    pub has: u64,
    /// The lsn that doesn't follow it.
    pub got: u64,
}
