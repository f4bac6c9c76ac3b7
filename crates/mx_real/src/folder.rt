//! A directory that is a folder of the system.

ghost use Rattle.std.specs.Prelude.{◌≡◌, None, Ok, Err, IfOk, IsOk, MatchResult, false};
ghost use Rattle.mx_outside.specs.Causes.{HasCauseOf, SyncsOnlyWhole};
ghost use Rattle.mx_real.specs.Faults.{dir_fault_of};

use crate::open_fault::OpenFault;
use crate::open_folder::OpenFolder;
use mx_outside::{Dir, DirFault, Names};
use std::alloc::Global;
use std::fs::{File, Files};
use std::io;
use std::io::ErrorKind;

/// A folder of the system as a directory. No other process opens it while this value lives.
///
/// Its files aren't known to contracts. A name is that of a plain file right in the folder: one that
/// is empty, `.` or `..`, or that has a `/` or a NUL, is a fault, and so is a file that is missing.
///
/// Once a sync has failed, none is asked of the system any more, and each is a fault.
#[derive(Drop)]
pub struct FolderDir<R> {
    folder: OpenFolder<R>,
    faults: u64,
    has_lost: bool,
}

impl<R: Files<File = File> + Clone + Drop> FolderDir<R> {
    /// Opens a folder, which is created if it is missing; its parent has to exist. The parent is
    /// synced, so that the folder survives a crash.
    pub fn open(alloc: Global, files: R, path: &str) -> Result<FolderDir<R>, OpenFault>
        ensures faults { IfOk result (λ dir. dir.faults ≡ 0) }
        ensures lost { IfOk result (λ dir. dir.has_lost ≡ false) }
    {
        let folder = OpenFolder::open(alloc, files, path)?;
        Ok(FolderDir {
            folder,
            faults: 0,
            has_lost: false,
        })
    }

    /// Counts the fault of a sync, after which none succeeds.
    fn count_sync(&mut self, answer: io::Result<()>) -> Result<(), DirFault>
        requires { self.old.has_lost ≡ false }
        ensures fault { MatchResult answer (λ _. IsOk result) (λ error. result ≡ Err (dir_fault_of error)) }
        ensures lost { SyncsOnlyWhole DirFault.Failed self.old.has_lost self.new.has_lost result }
        ensures cause { HasCauseOf DirFault.Failed self.old.faults self.new.faults result }
    {
        match count(&mut self.faults, answer) {
            Ok(()) => Ok(()),
            Err(DirFault::Failed) => {
                self.has_lost = true;
                Err(DirFault::Failed)
            }
            Err(DirFault::NoMemory) => Err(DirFault::NoMemory),
        }
    }

    /// A sync where one has failed: a fault.
    fn refuse_sync(&mut self) -> Result<(), DirFault>
        ensures lost { self.new.has_lost ≡ self.old.has_lost }
        ensures refused { result ≡ Err DirFault.Failed }
        ensures cause { HasCauseOf DirFault.Failed self.old.faults self.new.faults result }
    {
        self.faults = self.faults.saturating_add(1);
        Err(DirFault::Failed)
    }
}

/// Counts a fault of the system. An allocation failure is none.
fn count<T>(faults: &mut u64, answer: io::Result<T>) -> Result<T, DirFault>
    ensures value { MatchResult answer (λ value. result ≡ Ok value) (λ error. result ≡ Err (dir_fault_of error)) }
    ensures cause { HasCauseOf DirFault.Failed faults.old faults.new result }
{
    match answer {
        Ok(value) => Ok(value),
        Err(error) if error.kind() == ErrorKind::OutOfMemory => Err(DirFault::NoMemory),
        Err(_) => {
            *faults = faults.saturating_add(1);
            Err(DirFault::Failed)
        }
    }
}

impl<R: Files<File = File> + Clone + Drop> Dir for FolderDir<R> {
    ghost states = { λ d. None };

    ghost faults = { λ d. d.faults };

    ghost has_lost = { λ d. d.has_lost };

    fn list(&mut self, alloc: Global) -> Result<Names, DirFault> {
        count(&mut self.faults, self.folder.list(alloc))
    }

    fn size(&mut self, alloc: Global, name: &str) -> Result<u64, DirFault> {
        count(&mut self.faults, self.folder.size(alloc, name))
    }

    fn read(
        &mut self,
        alloc: Global,
        name: &str,
        at: u64,
        into: &mut [u8],
    ) -> Result<usize, DirFault> {
        count(&mut self.faults, self.folder.read(alloc, name, at, into))
    }

    fn create(&mut self, alloc: Global, name: &str) -> Result<(), DirFault> {
        count(&mut self.faults, self.folder.create(alloc, name))
    }

    fn append(&mut self, alloc: Global, name: &str, bytes: &[u8]) -> Result<(), DirFault> {
        count(&mut self.faults, self.folder.append(alloc, name, bytes))
    }

    fn sync(&mut self, alloc: Global, name: &str) -> Result<(), DirFault> {
        if self.has_lost {
            return self.refuse_sync();
        }
        let answer = self.folder.sync(alloc, name);
        self.count_sync(answer)
    }

    fn sync_names(&mut self, _alloc: Global) -> Result<(), DirFault> {
        if self.has_lost {
            return self.refuse_sync();
        }
        let answer = self.folder.sync_names();
        self.count_sync(answer)
    }

    fn rename(&mut self, alloc: Global, from: &str, to: &str) -> Result<(), DirFault> {
        count(&mut self.faults, self.folder.rename(alloc, from, to))
    }

    fn remove(&mut self, alloc: Global, name: &str) -> Result<(), DirFault> {
        count(&mut self.faults, self.folder.remove(alloc, name))
    }

    fn restart(&mut self, _alloc: Global, _choice: u32) -> Result<(), DirFault> {
        self.folder.give_up();
        Ok(())
    }
}
