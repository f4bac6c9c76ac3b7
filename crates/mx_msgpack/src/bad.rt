//! Why bytes spell no value.

use thiserror::Error;

/// The first fault from the left. A place counts bytes from 0.
#[derive(Clone, Copy, Debug, Drop, PartialEq, Eq, Error)]
pub enum Bad {
    /// A leading byte that begins no value.
    #[error("no value begins with the byte at {0}")]
    Unused(usize),
    /// The bytes end inside a value.
    #[error("the bytes end inside a value")]
    Short,
    /// An array or a map inside 64 others.
    #[error("more than 64 containers one inside the other at {0}")]
    Deep(usize),
    /// A length above 2,097,152.
    #[error("the length announced at {0} is above 2097152")]
    Long(usize),
}
