//! A file in memory.

ghost use Rattle.std.specs.Prelude.{◌≡◌, [], OnOk, IfOk};
ghost use Rattle.mx_outside.specs.Disks.{synced_file, longer_by};
ghost use Rattle.mx_fake.specs.MemoryCrashes.{crash_file};

use std::alloc::{AllocError, Global};
use std::marker::Model;

/// A file: its bytes, and the length of their prefix that is synced.
#[derive(Drop)]
pub(crate) struct Stored {
    bytes: Vec<u8>,
    synced: usize,
}

impl Model for Stored {
    ghost use Rattle.mx_outside.specs.Disks.{File};
    ghost use Rattle.mx_fake.specs.FileMaps.{file_code};

    ghost Value = { File };

    ghost coded = { file_code };

    ghost view = { λ s. record { bytes = s.bytes.items; synced = s.synced } };
}

impl Stored {
    pub(crate) fn new(alloc: Global) -> Stored
        ensures { result ≡ synced_file [] }
    {
        Stored {
            bytes: Vec::new(alloc),
            synced: 0,
        }
    }

    pub(crate) fn bytes(&self) -> &[u8]
        ensures { result.now ≡ self.now.bytes }
    {
        &self.bytes
    }

    pub(crate) fn copied(&self, alloc: Global) -> Result<Stored, AllocError>
        ensures { IfOk result (λ copy. copy ≡ self.now) }
    {
        Ok(Stored {
            bytes: Vec::from_slice(alloc, &self.bytes)?,
            synced: self.synced,
        })
    }

    pub(crate) fn append(&mut self, more: &[u8]) -> Result<(), AllocError>
        ensures { OnOk result (self.new ≡ longer_by more.now self.old) }
    {
        self.bytes.extend_from_slice(more)?;
        Ok(())
    }

    pub(crate) fn sync(&mut self)
        ensures { self.new ≡ synced_file self.old.bytes }
    {
        self.synced = self.bytes.len();
    }

    /// Keeps the synced bytes, and up to `more` of those after them.
    pub(crate) fn crash(&mut self, more: usize)
        ensures { self.new ≡ crash_file more self.old }
    {
        let synced = self.synced.min(self.bytes.len());
        self.bytes.truncate(synced.saturating_add(more));
        self.sync();
    }
}
