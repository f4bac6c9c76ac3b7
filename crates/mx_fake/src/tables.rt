//! The state of a directory in memory.

ghost use Rattle.std.specs.Prelude.{◌≡◌, OnOk, IfSome};
ghost use Rattle.std.specs.FinMap as map;
ghost use Rattle.mx_outside.specs.Disks.{Disk, created, appended, file_synced, names_synced, renamed, removed, unsynced};
ghost use Rattle.mx_fake.specs.MemoryCrashes.{crash_disk};
ghost use Rattle.mx_fake.specs.Changes.{step, no_files};
ghost use Rattle.mx_fake.specs.Tables.{IsTablesOf};

use crate::change::Change;
use crate::files::Files;
use crate::stored::Stored;
use std::alloc::{AllocError, Global};
use std::collections::BTreeMap;
use std::mem;

/// The files, and of each name that changed since the names were synced what it was then.
#[derive(Drop)]
pub(crate) struct Tables {
    files: Files,
    before: BTreeMap<String, Option<Stored>>,
}

impl Tables {
    pub(crate) fn new(alloc: Global) -> Tables
        ensures { IsTablesOf no_files result }
    {
        Tables {
            files: Files::new(alloc),
            before: BTreeMap::new(alloc),
        }
    }

    pub(crate) fn files(&self) -> &Files
        ensures { (disk : Disk) → IsTablesOf disk self.now → result.now ≡ disk.now }
    {
        &self.files
    }

    pub(crate) fn bytes(&self, name: &str) -> &[u8]
        ensures { (disk : Disk) → IsTablesOf disk self.now → IfSome (map.get disk.now name.now) (λ file. result.now ≡ file.bytes) }
    {
        match self.files.get(name) {
            Some(file) => file.bytes(),
            None => &[],
        }
    }

    pub(crate) fn apply(&mut self, alloc: Global, change: &Change) -> Result<(), AllocError>
        ensures { OnOk result ((disk : Disk) → IsTablesOf disk self.old → IsTablesOf (step change.now disk) self.new) }
    {
        match change {
            Change::Create { name } => self.create(alloc, name),
            Change::Append { name, bytes } => self.append(name, bytes),
            Change::Sync { name } => {
                self.files.sync(name);
                Ok(())
            }
            Change::SyncNames => {
                self.before.clear();
                Ok(())
            }
            Change::Rename { from, to } => self.rename(alloc, from, to),
            Change::Remove { name } => self.remove(alloc, name),
            Change::Crash { choice } => self.crash(alloc, *choice),
        }
    }

    fn save(&mut self, alloc: Global, name: &str) -> Result<(), AllocError>
        ensures { OnOk result ((disk : Disk) → IsTablesOf disk self.old → IsTablesOf (unsynced name.now disk) self.new) }
    {
        if self.before.contains_key(name) {
            return Ok(());
        }
        let file = self.files.copied(alloc, name)?;
        self.before.insert(String::from_str(alloc, name)?, file)?;
        Ok(())
    }

    fn create(&mut self, alloc: Global, name: &str) -> Result<(), AllocError>
        ensures { OnOk result ((disk : Disk) → IsTablesOf disk self.old → IsTablesOf (created name.now disk) self.new) }
    {
        self.save(alloc, name)?;
        self.files
            .insert(String::from_str(alloc, name)?, Stored::new(alloc))?;
        Ok(())
    }

    fn append(&mut self, name: &str, bytes: &[u8]) -> Result<(), AllocError>
        ensures { OnOk result ((disk : Disk) → IsTablesOf disk self.old → IsTablesOf (appended name.now bytes.now disk) self.new) }
    {
        self.files.append(name, bytes)?;
        Ok(())
    }

    fn rename(&mut self, alloc: Global, from: &str, to: &str) -> Result<(), AllocError>
        ensures { OnOk result ((disk : Disk) → IsTablesOf disk self.old → IsTablesOf (renamed from.now to.now disk) self.new) }
    {
        self.save(alloc, from)?;
        self.save(alloc, to)?;
        if let Some(file) = self.files.remove(from) {
            self.files.insert(String::from_str(alloc, to)?, file)?;
        }
        Ok(())
    }

    fn remove(&mut self, alloc: Global, name: &str) -> Result<(), AllocError>
        ensures { OnOk result ((disk : Disk) → IsTablesOf disk self.old → IsTablesOf (removed name.now disk) self.new) }
    {
        self.save(alloc, name)?;
        self.files.remove(name);
        Ok(())
    }

    fn crash(&mut self, alloc: Global, choice: u32) -> Result<(), AllocError>
        ensures { OnOk result ((disk : Disk) → IsTablesOf disk self.old → IsTablesOf (crash_disk choice disk) self.new) }
    {
        let before = mem::replace(&mut self.before, BTreeMap::new(alloc));
        self.files.put_back(choice, before)?;
        let files = mem::replace(&mut self.files, Files::new(alloc));
        self.files = files.crash(alloc, (choice / 256) as usize)?;
        Ok(())
    }
}
