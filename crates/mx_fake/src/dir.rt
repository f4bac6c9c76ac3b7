//! A directory in memory.

ghost use Rattle.std.specs.Prelude.{◌≡◌, ◌≢◌, ◌↔◌, ◌∷◌, ◌++◌, [], Some, Err, IfOk, OnOk, OnErr, IsTrue, List, drop, false};
ghost use Rattle.mx_outside.specs.Causes.{HasCauseOf, SyncsOnlyWhole};
ghost use Rattle.mx_outside.specs.Disks.{Disk, IsThere, Makes, KnownAlike};
ghost use Rattle.mx_outside.specs.declared.dir.DirFault.TheVariants.{Failed};
ghost use Rattle.mx_fake.specs.Changes.{step, no_files, MayLeave, MakesOrLeaves};
ghost use Rattle.mx_fake.specs.Dirs.{dir_states, dir_faults};
ghost use Rattle.mx_fake.specs.Tables.{IsTablesOf};

use crate::calls::Calls;
use crate::change::Change;
use crate::tables::Tables;
use mx_outside::{Dir, DirFault, Names};
use std::alloc::{AllocError, Global};

/// A directory in memory, for tests. It keeps the list of its changes and replays them for each
/// question, which takes time in proportion to the changes.
///
/// A restart is a crash. The names that changed since the names were synced count from 0 in ascending
/// order, and number `i` is as it was then where the bit `i % 8` of the choice is set, and else as it
/// is now. `choice / 256` is how many bytes of each file stay beyond its synced ones.
#[derive(Drop)]
pub struct MemoryDir {
    calls: Calls,
    done: u32,
    lost: bool,
    changes: Vec<Change>,
}

impl MemoryDir {
    /// An empty directory, of whose calls those that `failing` lists fail, counted from 1. A call that
    /// fails changes nothing.
    pub fn new(alloc: Global, failing: Vec<u64>) -> MemoryDir
        ensures states { dir_states result ≡ Some (no_files ∷ []) }
        ensures faults { dir_faults result ≡ 0 }
        ensures failing { result.calls.failing ≡ failing }
    {
        MemoryDir::failing_midway(alloc, failing, 0)
    }

    /// An empty directory whose calls fail midway. Where `done` isn't 0, an append that fails has
    /// appended a prefix of its bytes, up to `done` of them, and a create, rename or remove that fails
    /// has happened. Out of memory nothing has.
    pub fn failing_midway(alloc: Global, failing: Vec<u64>, done: u32) -> MemoryDir
        ensures states { dir_states result ≡ Some (no_files ∷ []) }
        ensures faults { dir_faults result ≡ 0 }
        ensures failing { result.calls.failing ≡ failing }
    {
        MemoryDir {
            calls: Calls::new(failing),
            done,
            lost: false,
            changes: Vec::new(alloc),
        }
    }

    /// Whether there is a file of this name. This call isn't counted, and fails only out of memory.
    pub fn has(&self, alloc: Global, name: &str) -> Result<bool, AllocError>
        ensures { IfOk result (λ there. IsTrue there ↔ IsThere (dir_states self.now) name.now) }
    {
        let tables = self.tables(alloc)?;
        let there = tables.files().get(name).is_some();
        Ok(there)
    }

    /// The same files as another process finds them, whose syncs may succeed though one failed here.
    pub fn reopen(&mut self)
        ensures states { dir_states self.new ≡ dir_states self.old }
        ensures faults { dir_faults self.new ≡ dir_faults self.old }
        ensures lost { self.new.lost ≡ false }
    {
        self.lost = false;
    }

    fn begin(&mut self) -> Result<(), DirFault>
        ensures changes { self.new.changes.items ≡ self.old.changes.items }
        ensures lost { self.new.lost ≡ self.old.lost }
        ensures cause { HasCauseOf Failed (dir_faults self.old) (dir_faults self.new) result }
    {
        match self.calls.make() {
            Ok(()) => Ok(()),
            Err(_) => Err(DirFault::Failed),
        }
    }

    fn note(&mut self, change: Change) -> Result<(), AllocError>
        ensures calls { self.new.calls ≡ self.old.calls }
        ensures lost { self.new.lost ≡ self.old.lost }
        ensures ok { OnOk result (self.new.changes.items ≡ self.old.changes.items ++ change ∷ []) }
        ensures err { OnErr result (self.new.changes.items ≡ self.old.changes.items) }
    {
        self.changes.push(change)?;
        Ok(())
    }

    /// Makes the change of a call that was counted.
    fn finish(&mut self, change: Result<Change, AllocError>) -> Result<(), DirFault>
        ensures calls { self.new.calls ≡ self.old.calls }
        ensures lost { self.new.lost ≡ self.old.lost }
        ensures made { (f : Disk → Disk) → IfOk change (λ change. step change ≡ f) → Makes f (dir_states self.old) (dir_states self.new) result }
        ensures fault { result ≢ Err Failed }
    {
        let Ok(change) = change else {
            return Err(DirFault::NoMemory);
        };
        match self.note(change) {
            Ok(()) => Ok(()),
            Err(_) => Err(DirFault::NoMemory),
        }
    }

    /// Makes what a call that failed has done.
    fn leave(&mut self, part: Result<Change, AllocError>)
        ensures calls { self.new.calls ≡ self.old.calls }
        ensures lost { self.new.lost ≡ self.old.lost }
        ensures left { (f : Disk → Disk) → IfOk part (λ part. step part ≡ f) → MayLeave f (dir_states self.old) (dir_states self.new) }
        ensures none { self.old.done ≡ 0 → dir_states self.new ≡ dir_states self.old }
    {
        if self.done == 0 {
            return;
        }
        if let Ok(part) = part {
            let _ = self.note(part);
        }
    }

    /// Counts a call, and makes its change. If it fails, it changes nothing.
    fn make(&mut self, change: Result<Change, AllocError>) -> Result<(), DirFault>
        ensures told { KnownAlike (dir_states self.old) (dir_states self.new) }
        ensures made { (f : Disk → Disk) → IfOk change (λ change. step change ≡ f) → Makes f (dir_states self.old) (dir_states self.new) result }
        ensures lost { self.new.lost ≡ self.old.lost }
        ensures cause { HasCauseOf Failed (dir_faults self.old) (dir_faults self.new) result }
    {
        self.begin()?;
        self.finish(change)
    }

    /// Counts a call that fails.
    fn refuse(&mut self) -> Result<(), DirFault>
        ensures told { KnownAlike (dir_states self.old) (dir_states self.new) }
        ensures states { dir_states self.new ≡ dir_states self.old }
        ensures lost { self.new.lost ≡ self.old.lost }
        ensures refused { result ≡ Err Failed }
        ensures cause { HasCauseOf Failed (dir_faults self.old) (dir_faults self.new) result }
    {
        let _ = self.begin();
        self.calls.fail();
        Err(DirFault::Failed)
    }

    /// Counts a sync, and makes its change. Once one has failed, each fails.
    fn make_durable(&mut self, change: Result<Change, AllocError>) -> Result<(), DirFault>
        ensures told { KnownAlike (dir_states self.old) (dir_states self.new) }
        ensures made { (f : Disk → Disk) → IfOk change (λ change. step change ≡ f) → Makes f (dir_states self.old) (dir_states self.new) result }
        ensures lost { SyncsOnlyWhole Failed self.old.lost self.new.lost result }
        ensures cause { HasCauseOf Failed (dir_faults self.old) (dir_faults self.new) result }
    {
        if self.lost {
            return self.refuse();
        }
        match self.make(change) {
            Ok(()) => Ok(()),
            Err(DirFault::Failed) => {
                self.lost = true;
                Err(DirFault::Failed)
            }
            Err(DirFault::NoMemory) => Err(DirFault::NoMemory),
        }
    }

    /// Counts a call, and makes its change, or if it fails perhaps a part of it.
    fn make_or_leave(
        &mut self,
        change: Result<Change, AllocError>,
        part: Result<Change, AllocError>,
    ) -> Result<(), DirFault>
        ensures told { KnownAlike (dir_states self.old) (dir_states self.new) }
        ensures made { (f g : Disk → Disk) → IfOk change (λ change. step change ≡ f) → IfOk part (λ part. step part ≡ g)
            → MakesOrLeaves f g (dir_states self.old) (dir_states self.new) result }
        ensures lost { self.new.lost ≡ self.old.lost }
        ensures cause { HasCauseOf Failed (dir_faults self.old) (dir_faults self.new) result }
    {
        match self.begin() {
            Ok(()) => self.finish(change),
            Err(fault) => {
                self.leave(part);
                Err(fault)
            }
        }
    }

    /// Counts a call that asks about the state, and gives the state.
    fn look(&mut self, alloc: Global) -> Result<Tables, DirFault>
        ensures changes { self.new.changes.items ≡ self.old.changes.items }
        ensures tables { IfOk result (λ tables. (disk : Disk) (past : List Disk) → dir_states self.old ≡ Some (disk ∷ past) → IsTablesOf disk tables) }
        ensures lost { self.new.lost ≡ self.old.lost }
        ensures cause { HasCauseOf Failed (dir_faults self.old) (dir_faults self.new) result }
    {
        self.begin()?;
        match self.tables(alloc) {
            Ok(tables) => Ok(tables),
            Err(_) => Err(DirFault::NoMemory),
        }
    }

    fn tables(&self, alloc: Global) -> Result<Tables, AllocError>
        ensures { IfOk result (λ tables. (disk : Disk) (past : List Disk) → dir_states self.now ≡ Some (disk ∷ past) → IsTablesOf disk tables) }
    {
        let mut tables = Tables::new(alloc);
        for change in &self.changes {
            tables.apply(alloc, change)?;
        }
        Ok(tables)
    }
}

fn behind(bytes: &[u8], at: u64) -> &[u8]
    ensures { result.now ≡ drop at bytes.now }
{
    bytes.get(at as usize..).unwrap_or(&[])
}

impl Dir for MemoryDir {
    ghost states = { dir_states };

    ghost faults = { dir_faults };

    ghost has_lost = { λ d. d.lost };

    fn list(&mut self, alloc: Global) -> Result<Names, DirFault> {
        let tables = self.look(alloc)?;
        match tables.files().names(alloc) {
            Ok(names) => Ok(names),
            Err(_) => Err(DirFault::NoMemory),
        }
    }

    fn size(&mut self, alloc: Global, name: &str) -> Result<u64, DirFault> {
        let tables = self.look(alloc)?;
        Ok(tables.bytes(name).len() as u64)
    }

    fn read(
        &mut self,
        alloc: Global,
        name: &str,
        at: u64,
        into: &mut [u8],
    ) -> Result<usize, DirFault> {
        let tables = self.look(alloc)?;
        let rest = behind(tables.bytes(name), at);
        let count = rest.len().min(into.len());
        into[..count].copy_from_slice(&rest[..count]);
        Ok(count)
    }

    fn create(&mut self, alloc: Global, name: &str) -> Result<(), DirFault> {
        self.make_or_leave(Change::create(alloc, name), Change::create(alloc, name))
    }

    fn append(&mut self, alloc: Global, name: &str, bytes: &[u8]) -> Result<(), DirFault> {
        let (part, _) = bytes.split_at(bytes.len().min(self.done as usize));
        self.make_or_leave(
            Change::append(alloc, name, bytes),
            Change::append(alloc, name, part),
        )
    }

    fn sync(&mut self, alloc: Global, name: &str) -> Result<(), DirFault> {
        self.make_durable(Change::sync(alloc, name))
    }

    fn sync_names(&mut self, _alloc: Global) -> Result<(), DirFault> {
        self.make_durable(Ok(Change::SyncNames))
    }

    fn rename(&mut self, alloc: Global, from: &str, to: &str) -> Result<(), DirFault> {
        self.make_or_leave(
            Change::rename(alloc, from, to),
            Change::rename(alloc, from, to),
        )
    }

    fn remove(&mut self, alloc: Global, name: &str) -> Result<(), DirFault> {
        self.make_or_leave(Change::remove(alloc, name), Change::remove(alloc, name))
    }

    fn restart(&mut self, _alloc: Global, choice: u32) -> Result<(), DirFault> {
        self.reopen();
        self.make(Ok(Change::Crash { choice }))
    }
}
