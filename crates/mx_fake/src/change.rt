//! The changes of a directory in memory.

ghost use Rattle.std.specs.Prelude.{◌≡◌, IfOk};
ghost use Rattle.mx_outside.specs.Disks.{created, appended, file_synced, renamed, removed};
ghost use Rattle.mx_fake.specs.Changes.{step};

use std::alloc::{AllocError, Global};

/// A call that changed a directory in memory.
#[derive(Drop)]
pub(crate) enum Change {
    /// A file was created, or emptied.
    Create { name: String },
    /// Bytes were appended to a file.
    Append { name: String, bytes: Vec<u8> },
    /// A file's bytes were synced.
    Sync { name: String },
    /// All names were synced.
    SyncNames,
    /// A file was renamed.
    Rename { from: String, to: String },
    /// A file was removed.
    Remove { name: String },
    /// The directory crashed.
    Crash { choice: u32 },
}

impl Change {
    pub(crate) fn create(alloc: Global, name: &str) -> Result<Change, AllocError>
        ensures { IfOk result (λ change. step change ≡ created name.now) }
    {
        let name = String::from_str(alloc, name)?;
        Ok(Change::Create { name })
    }

    pub(crate) fn append(alloc: Global, name: &str, bytes: &[u8]) -> Result<Change, AllocError>
        ensures { IfOk result (λ change. step change ≡ appended name.now bytes.now) }
    {
        let name = String::from_str(alloc, name)?;
        let bytes = Vec::from_slice(alloc, bytes)?;
        Ok(Change::Append { name, bytes })
    }

    pub(crate) fn sync(alloc: Global, name: &str) -> Result<Change, AllocError>
        ensures { IfOk result (λ change. step change ≡ file_synced name.now) }
    {
        let name = String::from_str(alloc, name)?;
        Ok(Change::Sync { name })
    }

    pub(crate) fn rename(alloc: Global, from: &str, to: &str) -> Result<Change, AllocError>
        ensures { IfOk result (λ change. step change ≡ renamed from.now to.now) }
    {
        let from = String::from_str(alloc, from)?;
        let to = String::from_str(alloc, to)?;
        Ok(Change::Rename { from, to })
    }

    pub(crate) fn remove(alloc: Global, name: &str) -> Result<Change, AllocError>
        ensures { IfOk result (λ change. step change ≡ removed name.now) }
    {
        let name = String::from_str(alloc, name)?;
        Ok(Change::Remove { name })
    }
}
