//! How a run ended.

use mx_directory::Damage;
use thiserror::Error;

/// The status of a run. Its name and the values that it carries are printed, and its number is the
/// program's exit status.
#[derive(Debug, Drop, Error)]
pub enum Status {
    /// The input was read to its end and answered.
    #[error("Ok")]
    Ok,
    /// The first malformed unit of the input begins at byte `at`, counted from 0.
    #[error("BadInput {at}")]
    BadInput { at: u64 },
    /// The arguments are unrecognised.
    #[error("BadWords")]
    BadWords,
    /// The input failed.
    #[error("ReadFault")]
    ReadFault,
    /// The output failed.
    #[error("WriteFault")]
    WriteFault,
    /// The directory failed.
    #[error("DiskFault")]
    DiskFault,
    /// An allocation failed.
    #[error("NoMemory")]
    NoMemory,
    /// The directory is corrupt or inconsistent.
    #[error("Damaged {0}")]
    Damaged(Damage),
}
