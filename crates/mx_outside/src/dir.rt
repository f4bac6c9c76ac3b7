//! A directory of files on a disk.

ghost use Rattle.std.specs.Prelude.{◌≡◌, ℕ, Bool, List, Option, IfOk, MatchResult, length};
ghost use Rattle.std.specs.Cmp.Lexicographic.{slice_cmp};
ghost use Rattle.std.specs.FinMap as map;
ghost use Rattle.std.specs.List.Sorted.{IsStrictlySortedBy};
ghost use Rattle.std.specs.Ordering.{nat_cmp};
ghost use Rattle.mx_outside.specs.Causes.{HasCauseOf, SyncsOnlyWhole};
ghost use Rattle.mx_outside.specs.declared.dir.DirFault.TheVariants.{NoMemory};
ghost use Rattle.mx_outside.specs.Disks.{Disk, AnyEnd, IsImage, IfKnown, KnownAlike, IsThere, OfFile, Became, Stayed, Makes, MayMake, Appends, ReadsAt, created, file_synced, names_synced, renamed, removed};

use crate::names::Names;
use std::alloc::{AllocError, Global};
use thiserror::Error;

/// Why a call on a directory failed.
#[derive(Clone, Copy, Debug, Drop, PartialEq, Eq, Error)]
pub enum DirFault {
    /// A call on the directory failed.
    #[error("the disk failed")]
    Failed,
    /// An allocation failed.
    #[error("memory ran out")]
    NoMemory,
}

impl From<AllocError> for DirFault {
    ghost from_gives = { λ _ fault. fault ≡ NoMemory };

    fn from(_: AllocError) -> DirFault {
        DirFault::NoMemory
    }
}

/// A directory of files on a disk, with no folders in it.
///
/// After any crash a file has its synced bytes, and then any bytes in any number. A name that was
/// created, renamed or removed since the names were synced may be as before or as after.
///
/// A call returns `DirFault::Failed` only where the count of faults rose, and at any other return the
/// count is as it was. A file that a call names has to be there, where the files are known; in a real
/// directory a missing file is a fault.
///
/// Once a sync has failed, of a file or of the names, no sync succeeds any more: a system may report a
/// later one as done though bytes were lost. So what had been written and wasn't durable never becomes
/// so through this object.
pub trait Dir {
    /// The states that it has had, the newest first, where they are known.
    ghost states: { Self → Option (List Disk) };

    /// How often a call failed.
    ghost faults: { Self → ℕ };

    /// Whether a sync failed.
    ghost has_lost: { Self → Bool };

    /// The names of the files, each once, in ascending order of their bytes.
    fn list(&mut self, alloc: Global) -> Result<Names, DirFault>
        ensures states { states self.new ≡ states self.old }
        ensures order { IfOk result (λ names. IsStrictlySortedBy (slice_cmp nat_cmp) names) }
        ensures names { IfKnown (states self.old) (λ disk past. IfOk result (λ names. names ≡ map.keys disk.now)) }
        ensures lost { has_lost self.new ≡ has_lost self.old }
        ensures cause { HasCauseOf DirFault.Failed (faults self.old) (faults self.new) result };

    /// The size of a file in bytes.
    fn size(&mut self, alloc: Global, name: &str) -> Result<u64, DirFault>
        requires { IsThere (states self.old) name.now }
        ensures states { states self.new ≡ states self.old }
        ensures size { OfFile (states self.old) name.now (λ file. IfOk result (λ size. size ≡ length file.bytes)) }
        ensures lost { has_lost self.new ≡ has_lost self.old }
        ensures cause { HasCauseOf DirFault.Failed (faults self.old) (faults self.new) result };

    /// Reads bytes of a file from the offset `at` into a prefix of `into`, and returns how many: 0 for
    /// a buffer that isn't empty is the file's end.
    fn read(
        &mut self,
        alloc: Global,
        name: &str,
        at: u64,
        into: &mut [u8],
    ) -> Result<usize, DirFault>
        requires { IsThere (states self.old) name.now }
        ensures states { states self.new ≡ states self.old }
        ensures bytes { OfFile (states self.old) name.now (λ file. IfOk result (λ count. ReadsAt file at into.old into.new count)) }
        ensures lost { has_lost self.new ≡ has_lost self.old }
        ensures cause { HasCauseOf DirFault.Failed (faults self.old) (faults self.new) result };

    /// Creates an empty file, or empties the one of this name.
    ///
    /// # Errors
    /// The file may have been created even so.
    fn create(&mut self, alloc: Global, name: &str) -> Result<(), DirFault>
        ensures told { KnownAlike (states self.old) (states self.new) }
        ensures made { MayMake (created name.now) (states self.old) (states self.new) result }
        ensures lost { has_lost self.new ≡ has_lost self.old }
        ensures cause { HasCauseOf DirFault.Failed (faults self.old) (faults self.new) result };

    /// Appends bytes to a file.
    ///
    /// # Errors
    /// A prefix of the bytes may have been appended even so.
    fn append(&mut self, alloc: Global, name: &str, bytes: &[u8]) -> Result<(), DirFault>
        requires { IsThere (states self.old) name.now }
        ensures told { KnownAlike (states self.old) (states self.new) }
        ensures bytes { Appends name.now bytes.now (states self.old) (states self.new) result }
        ensures lost { has_lost self.new ≡ has_lost self.old }
        ensures cause { HasCauseOf DirFault.Failed (faults self.old) (faults self.new) result };

    /// Makes a file's bytes durable.
    fn sync(&mut self, alloc: Global, name: &str) -> Result<(), DirFault>
        requires { IsThere (states self.old) name.now }
        ensures told { KnownAlike (states self.old) (states self.new) }
        ensures synced { Makes (file_synced name.now) (states self.old) (states self.new) result }
        ensures lost { SyncsOnlyWhole DirFault.Failed (has_lost self.old) (has_lost self.new) result }
        ensures cause { HasCauseOf DirFault.Failed (faults self.old) (faults self.new) result };

    /// Makes all names durable, as they are now.
    fn sync_names(&mut self, alloc: Global) -> Result<(), DirFault>
        ensures told { KnownAlike (states self.old) (states self.new) }
        ensures synced { Makes names_synced (states self.old) (states self.new) result }
        ensures lost { SyncsOnlyWhole DirFault.Failed (has_lost self.old) (has_lost self.new) result }
        ensures cause { HasCauseOf DirFault.Failed (faults self.old) (faults self.new) result };

    /// Gives a file another name, and removes the file that had it.
    ///
    /// # Errors
    /// The file may have the other name even so.
    fn rename(&mut self, alloc: Global, from: &str, to: &str) -> Result<(), DirFault>
        requires { IsThere (states self.old) from.now }
        ensures told { KnownAlike (states self.old) (states self.new) }
        ensures renamed { MayMake (renamed from.now to.now) (states self.old) (states self.new) result }
        ensures lost { has_lost self.new ≡ has_lost self.old }
        ensures cause { HasCauseOf DirFault.Failed (faults self.old) (faults self.new) result };

    /// Removes a file.
    ///
    /// # Errors
    /// The file may be gone even so.
    fn remove(&mut self, alloc: Global, name: &str) -> Result<(), DirFault>
        requires { IsThere (states self.old) name.now }
        ensures told { KnownAlike (states self.old) (states self.new) }
        ensures removed { MayMake (removed name.now) (states self.old) (states self.new) result }
        ensures lost { has_lost self.new ≡ has_lost self.old }
        ensures cause { HasCauseOf DirFault.Failed (faults self.old) (faults self.new) result };

    /// Crashes, in memory: the directory becomes the crash image that `choice` picks. A real one
    /// leaves its files as they are.
    ///
    /// # Errors
    /// There was no crash.
    fn restart(&mut self, alloc: Global, choice: u32) -> Result<(), DirFault>
        ensures told { KnownAlike (states self.old) (states self.new) }
        ensures crashed { IfKnown (states self.old) (λ disk past. MatchResult result
            (λ _. (image : Disk) × IsImage AnyEnd disk image × Became (states self.new) image disk past)
            (λ _. Stayed (states self.new) disk past)) }
        ensures cause { HasCauseOf DirFault.Failed (faults self.old) (faults self.new) result };
}
