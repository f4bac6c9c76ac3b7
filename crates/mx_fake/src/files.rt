//! The files of a directory in memory.

ghost use Rattle.std.specs.Prelude.{◌≡◌, OnOk, IfOk, cond, string_bytes};
ghost use Rattle.std.specs.Option.{option_copied};
ghost use Rattle.std.specs.FinMap as map;
ghost use Rattle.mx_outside.specs.Disks.{change_file, longer_by, synced_file};
ghost use Rattle.mx_fake.specs.FileMaps.{by_bytes};
ghost use Rattle.mx_fake.specs.MemoryCrashes.{crash_files, put_back, set_file};

use crate::stored::Stored;
use mx_outside::Names;
use std::alloc::{AllocError, Global};
use std::collections::BTreeMap;
use std::marker::Model;

/// Files by name.
#[derive(Drop)]
pub(crate) struct Files {
    stored: BTreeMap<String, Stored>,
}

impl Model for Files {
    ghost use Rattle.mx_outside.specs.Disks.{Files};
    ghost use Rattle.mx_fake.specs.FileMaps.{files_code, map_of};

    ghost Value = { Files };

    ghost coded = { files_code };

    ghost view = { λ f. map_of f.stored.entries };
}

impl Files {
    pub(crate) fn new(alloc: Global) -> Files
        ensures { result ≡ map.empty }
    {
        Files {
            stored: BTreeMap::new(alloc),
        }
    }

    pub(crate) fn get(&self, name: &str) -> Option<&Stored>
        ensures { option_copied result ≡ map.get self.now name.now }
    {
        self.stored.get(name)
    }

    pub(crate) fn copied(&self, alloc: Global, name: &str) -> Result<Option<Stored>, AllocError>
        ensures { IfOk result (λ file. file ≡ map.get self.now name.now) }
    {
        match self.get(name) {
            Some(file) => Ok(Some(file.copied(alloc)?)),
            None => Ok(None),
        }
    }

    pub(crate) fn names(&self, alloc: Global) -> Result<Names, AllocError>
        ensures { IfOk result (λ names. names ≡ map.keys self.now) }
    {
        let mut names = Names::new(alloc);
        for name in self.stored.keys() {
            names.push(name.clone()?)?;
        }
        Ok(names)
    }

    pub(crate) fn insert(&mut self, name: String, file: Stored) -> Result<(), AllocError>
        ensures { OnOk result (self.new ≡ map.insert self.old (string_bytes name) file) }
    {
        self.stored.insert(name, file)?;
        Ok(())
    }

    pub(crate) fn remove(&mut self, name: &str) -> Option<Stored>
        ensures file { result ≡ map.get self.old name.now }
        ensures rest { self.new ≡ map.remove self.old name.now }
    {
        self.stored.remove(name)
    }

    fn set(&mut self, name: String, file: Option<Stored>) -> Result<(), AllocError>
        ensures { OnOk result (self.new ≡ set_file (string_bytes name) file self.old) }
    {
        match file {
            Some(file) => self.insert(name, file),
            None => {
                self.remove(&name);
                Ok(())
            }
        }
    }

    /// Gives a name this file, or none, if it is chosen.
    fn set_if(&mut self, chosen: bool, name: String, file: Option<Stored>) -> Result<(), AllocError>
        ensures { OnOk result (self.new ≡ cond chosen (set_file (string_bytes name) file self.old) self.old) }
    {
        if !chosen {
            return Ok(());
        }
        self.set(name, file)
    }

    /// Puts those of the names back to what they were whose bits the choice has.
    pub(crate) fn put_back(
        &mut self,
        choice: u32,
        before: BTreeMap<String, Option<Stored>>,
    ) -> Result<(), AllocError>
        ensures { OnOk result (self.new ≡ put_back choice 0 (by_bytes before.entries) self.old) }
    {
        let mut left = before;
        let mut bit = 0u32;
        while let Some((name, file)) = left.pop_first() {
            self.set_if((choice >> bit) % 2 == 1, name, file)?;
            bit = (bit + 1) % 8;
        }
        Ok(())
    }

    pub(crate) fn append(&mut self, name: &str, more: &[u8]) -> Result<(), AllocError>
        ensures { OnOk result (self.new ≡ change_file (longer_by more.now) name.now self.old) }
    {
        if let Some(file) = self.stored.get_mut(name) {
            file.append(more)?;
        }
        Ok(())
    }

    pub(crate) fn sync(&mut self, name: &str)
        ensures { self.new ≡ change_file (λ file. synced_file file.bytes) name.now self.old }
    {
        if let Some(file) = self.stored.get_mut(name) {
            file.sync();
        }
    }

    /// The files after a crash, each with up to `more` bytes beyond its synced ones.
    pub(crate) fn crash(self, alloc: Global, more: usize) -> Result<Files, AllocError>
        ensures { IfOk result (λ files. files ≡ crash_files more self) }
    {
        let Files { mut stored } = self;
        let mut kept = Files::new(alloc);
        while let Some((name, mut file)) = stored.pop_first() {
            file.crash(more);
            kept.insert(name, file)?;
        }
        Ok(kept)
    }
}
