//! The files of a folder, by calls of the system.

ghost use Rattle.std.specs.Prelude.{◌≡◌, ◌++◌, ◌∷◌, IsTrue, IfOk, OnOk};
ghost use Rattle.std.specs.Cmp.Lexicographic.{slice_cmp};
ghost use Rattle.std.specs.Io.KnownBytes.{Appends};
ghost use Rattle.std.specs.List.Sorted.{IsStrictlySortedBy};
ghost use Rattle.std.specs.Ordering.{nat_cmp};
ghost use Rattle.std.specs.String.{string_bytes};
ghost use Rattle.mx_real.specs.FileNames.{IsFileName};

use crate::open_fault::OpenFault;
use mx_outside::Names;
use std::alloc::{AllocError, Global};
use std::fs::{File, Files, OpenOptions, TryLockError};
use std::io::{ErrorKind, Write};
use std::os::unix::fs::FileExt;
use std::path::Path;
use std::{fs, io};

/// The files of a folder, which is locked while this is there.
///
/// The file that was last created or appended to stays open, until its name goes to another file or
/// a sync of it fails.
#[derive(Drop)]
pub(crate) struct OpenFolder<R> {
    files: R,
    path: String,
    handle: File,
    held: Option<Held>,
}

/// An open file, whose writes go to its end, and its name.
#[derive(Drop)]
struct Held {
    name: String,
    file: File,
    ghost named: { IsFileName (string_bytes name) },
}

impl<R: Files<File = File> + Clone + Drop> OpenFolder<R> {
    /// Opens and locks a folder, which is created if it is missing, and makes its name durable.
    pub(crate) fn open(alloc: Global, files: R, path: &str) -> Result<OpenFolder<R>, OpenFault> {
        make_folder(&files, path)?;
        // Tested first, since opening a pipe waits for its other end.
        if !fs::metadata(&files, path)?.is_dir() {
            return Err(OpenFault::NotFolder);
        }
        let handle = File::open(&files, path)?;
        match handle.try_lock() {
            Ok(()) => {}
            Err(TryLockError::WouldBlock) => return Err(OpenFault::InUse),
            Err(TryLockError::Error(error)) => return Err(OpenFault::from(error)),
        }
        // At each opening, since a run that created the folder may have crashed before its own sync.
        sync_parent(&files, path)?;
        Ok(OpenFolder {
            files,
            path: String::from_str(alloc, path)?,
            handle,
            held: None,
        })
    }

    /// The names of the plain files, without those that aren't UTF-8.
    pub(crate) fn list(&self, alloc: Global) -> io::Result<Names>
        ensures order { IfOk result (λ names. IsStrictlySortedBy (slice_cmp nat_cmp) names) }
    {
        let mut names = Vec::new(alloc);
        for entry in fs::read_dir(&(self.files.clone()?, alloc), self.path.as_str())? {
            match entry {
                Ok(entry) => {
                    if entry.file_type()?.is_file() {
                        names.push(String::from_str(alloc, entry.file_name())?)?;
                    }
                }
                // The name isn't UTF-8.
                Err(error) if error.kind() == ErrorKind::InvalidFilename => {}
                Err(error) => return Err(error),
            }
        }
        Ok(names_in_order(names)?)
    }

    /// The size of a file in bytes.
    pub(crate) fn size(&self, alloc: Global, name: &str) -> io::Result<u64>
        ensures named { IfOk result (λ _. IsFileName name.now) }
    {
        let found = fs::metadata(&self.files, self.path_of(alloc, name)?.as_str())?;
        if !found.is_file() {
            return Err(io::Error::from(ErrorKind::InvalidInput));
        }
        Ok(found.len())
    }

    /// Reads from the offset `at`, and returns how many bytes.
    pub(crate) fn read(
        &self,
        alloc: Global,
        name: &str,
        at: u64,
        into: &mut [u8],
    ) -> io::Result<usize>
        ensures named { IfOk result (λ _. IsFileName name.now) }
    {
        match &self.held {
            Some(held) if held.name.as_str() == name => held.file.read_at(into, at),
            _ => self.open_to_read(alloc, name)?.read_at(into, at),
        }
    }

    /// Creates an empty file, or empties the one of this name.
    pub(crate) fn create(&mut self, alloc: Global, name: &str) -> io::Result<()>
        ensures named { IfOk result (λ _. IsFileName name.now) }
    {
        self.held = None;
        let held = self.open_to_append(alloc, name, true)?;
        held.file.set_len(0)?;
        self.held = Some(held);
        Ok(())
    }

    /// Writes bytes to the end of a file, in one call where the system takes them all.
    pub(crate) fn append(&mut self, alloc: Global, name: &str, bytes: &[u8]) -> io::Result<()>
        ensures named { IfOk result (λ _. IsFileName name.now) }
    {
        let held = match self.held.take() {
            Some(held) if held.name.as_str() == name => held,
            _ => self.open_to_append(alloc, name, false)?,
        };
        append_all(&mut self.held.insert(held).file, bytes)
    }

    /// Syncs a file's bytes. A handle whose sync failed isn't used again.
    pub(crate) fn sync(&mut self, alloc: Global, name: &str) -> io::Result<()>
        ensures named { IfOk result (λ _. IsFileName name.now) }
    {
        match self.held.take() {
            Some(held) if held.name.as_str() == name => {
                held.file.sync_data()?;
                self.held = Some(held);
            }
            other => {
                self.held = other;
                self.open_to_read(alloc, name)?.sync_data()?;
            }
        }
        Ok(())
    }

    pub(crate) fn sync_names(&self) -> io::Result<()> {
        self.handle.sync_all()
    }

    pub(crate) fn rename(&mut self, alloc: Global, from: &str, to: &str) -> io::Result<()>
        ensures named { IfOk result (λ _. IsFileName from.now × IsFileName to.now) }
    {
        let (old_path, new_path) = (self.path_of(alloc, from)?, self.path_of(alloc, to)?);
        if self.holds(from) || self.holds(to) {
            self.held = None;
        }
        fs::rename(&self.files, old_path.as_str(), new_path.as_str())
    }

    pub(crate) fn remove(&mut self, alloc: Global, name: &str) -> io::Result<()>
        ensures named { IfOk result (λ _. IsFileName name.now) }
    {
        let path = self.path_of(alloc, name)?;
        if self.holds(name) {
            self.held = None;
        }
        fs::remove_file(&self.files, path.as_str())
    }

    /// Closes the file that is open.
    pub(crate) fn give_up(&mut self) {
        self.held = None;
    }

    /// Whether this file is open.
    fn holds(&self, name: &str) -> bool {
        match &self.held {
            Some(held) => held.name.as_str() == name,
            None => false,
        }
    }

    fn open_to_read(&self, alloc: Global, name: &str) -> io::Result<File>
        ensures named { IfOk result (λ _. IsFileName name.now) }
    {
        File::open(&self.files, self.path_of(alloc, name)?.as_str())
    }

    /// Opens a file to append to, and with `create` creates it if it is missing.
    fn open_to_append(&self, alloc: Global, name: &str, create: bool) -> io::Result<Held>
        ensures named { IfOk result (λ _. IsFileName name.now) }
    {
        let path = self.path_of(alloc, name)?;
        let name = String::from_str(alloc, name)?;
        let file = OpenOptions::new()
            .read(true)
            .append(true)
            .create(create)
            .open(&self.files, path.as_str())?;
        Ok(Held { name, file })
    }

    /// The path of a file.
    fn path_of(&self, alloc: Global, name: &str) -> io::Result<String>
        ensures named { IfOk result (λ path. IsFileName name.now) }
        ensures path { IfOk result (λ path. string_bytes path ≡ string_bytes self.now.path ++ 47 ∷ name.now) }
    {
        if !is_file_name(name) {
            return Err(io::Error::from(ErrorKind::InvalidFilename));
        }
        let length = self.path.len().saturating_add(name.len()).saturating_add(1);
        let mut path = String::with_capacity(alloc, length)?;
        path.push_str(self.path.as_str())?;
        path.push('/')?;
        path.push_str(name)?;
        Ok(path)
    }
}

/// Writes all of the bytes behind what the file holds.
///
/// # Errors
/// A prefix of them may have been written even so.
fn append_all<W: Write>(file: &mut W, bytes: &[u8]) -> io::Result<()>
    ensures bytes { OnOk result (Appends (W.contents file.old) (W.contents file.new) bytes.now) }
{
    file.write_all(bytes)
}

/// These names in ascending order, each once.
fn names_in_order(mut names: Vec<String>) -> Result<Names, AllocError>
    ensures order { IfOk result (λ names. IsStrictlySortedBy (slice_cmp nat_cmp) names) }
{
    names.sort()?;
    // A folder that changes while it is listed may give a name twice.
    names.dedup();
    Ok(Names::from_vec(names))
}

/// Whether a file right in a folder may have this name.
fn is_file_name(name: &str) -> bool
    ensures { IsTrue result → IsFileName name.now }
{
    let bytes = name.as_bytes();
    !name.is_empty() && name != "." && name != ".." && !bytes.contains(&b'/') && !bytes.contains(&0)
}

/// Creates a folder where nothing has its name.
fn make_folder(files: &impl Files, path: &str) -> io::Result<()> {
    match fs::create_dir(files, path) {
        Ok(()) => Ok(()),
        Err(error) if error.kind() == ErrorKind::AlreadyExists => Ok(()),
        Err(error) => Err(error),
    }
}

/// Syncs the folder that a path lies in, so that the path survives a crash.
fn sync_parent<R: Files<File = File>>(files: &R, path: &str) -> io::Result<()> {
    let parent = match Path::new(path).parent() {
        Some(parent) if !parent.as_str().is_empty() => parent.as_str(),
        Some(_) => ".",
        None => return Ok(()),
    };
    File::open(files, parent)?.sync_all()
}
