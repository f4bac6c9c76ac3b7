//! A hash map from byte strings to numbers, which inserts without taking memory once it has reserved.

ghost use Rattle.std.specs.Prelude.{◌≡◌, ◌≤◌, ◌+◌, if◌then◌else◌, is_some, IfOk, OnOk, OnErr};
ghost use Rattle.std.specs.FinMap as finite;
ghost use Rattle.std.specs.HashMap as stored;
ghost use Rattle.std.specs.Str.{bytes_eq};

use crate::keys::Keys;
use mx_msgpack::Bytes;
use std::alloc::{AllocError, Global};
use std::collections::HashMap;
use std::marker::Model;

/// A number for each of some byte strings.
#[derive(Drop)]
pub struct Hash {
    alloc: Global,
    numbers: HashMap<Bytes, u64>,
    // Counted here, since a reservation that fails may still leave the map more room than it had.
    spare: usize,
}

impl Model for Hash {
    ghost use Rattle.std.specs.Prelude.{◌≤◌};
    ghost use Rattle.std.specs.HashMap as stored;
    ghost use Rattle.mx_hash.specs.Tables.{Table};
    ghost use Rattle.mx_hash.specs.Views.{table, table_code, map_of};

    ghost Value = { Table };

    ghost coded = { table_code };

    ghost view = { λ h. table (map_of h.numbers.entries) h.spare };

    ghost invariant = { λ h. h.spare ≤ stored.spare h.numbers };
}

impl Hash {
    /// An empty map.
    pub fn new(alloc: Global) -> Result<Hash, AllocError>
        ensures { IfOk result (λ hash. hash.map ≡ finite.empty) }
    {
        Ok(Hash {
            alloc,
            numbers: HashMap::new(alloc),
            spare: 0,
        })
    }

    /// Makes room for so many further inserts. Where the memory grows, it at least doubles.
    ///
    /// # Errors
    /// Out of memory; the map and its room are as they were.
    pub fn reserve(&mut self, inserts: usize) -> Result<(), AllocError>
        ensures map { self.new.map ≡ self.old.map }
        ensures ok { OnOk result ((inserts ≤ self.new.spare) × (self.old.spare ≤ self.new.spare)) }
        ensures err { OnErr result (self.new ≡ self.old) }
    {
        self.numbers.reserve(inserts)?;
        self.spare = self.spare.max(inserts);
        Ok(())
    }

    /// Gives a key a number, and returns the one before. It takes no memory, and a key that was
    /// there uses no room.
    pub fn insert(&mut self, key: Bytes, value: u64) -> Option<u64>
        requires { 1 ≤ self.old.spare }
        ensures before { result ≡ finite.get self.old.map key }
        ensures map { self.new.map ≡ finite.insert self.old.map key value }
        ensures spare { self.new.spare + (if is_some result then 0 else 1) ≡ self.old.spare }
    {
        if let Some(number) = self.numbers.get_mut(&key) {
            let before = *number;
            *number = value;
            return Some(before);
        }
        self.spare -= 1;
        let before: Result<_, _> = self.numbers.insert(key, value);
        before.unwrap()
    }

    /// Removes a key, and returns its number.
    pub fn remove(&mut self, key: &Bytes) -> Option<u64>
        ensures before { result ≡ finite.get self.old.map key.now }
        ensures map { self.new.map ≡ finite.remove self.old.map key.now }
        ensures spare { self.new.spare ≡ self.old.spare }
    {
        self.numbers.remove(key)
    }

    /// The number of a key.
    pub fn get(&self, key: &Bytes) -> Option<u64>
        ensures { result ≡ finite.get self.now.map key.now }
    {
        self.numbers.get(key).copied()
    }

    /// All keys in ascending order of their bytes.
    pub fn sorted(&self) -> Result<Keys, AllocError>
        ensures { IfOk result (λ keys. keys ≡ finite.keys self.now.map) }
    {
        let mut keys = copied_keys(self.alloc, &self.numbers)?;
        keys.sort_unstable();
        Ok(Keys::from_vec(keys))
    }
}

fn copied_keys(alloc: Global, numbers: &HashMap<Bytes, u64>) -> Result<Vec<Bytes>, AllocError>
    ensures keys { IfOk result (λ keys. keys.items ≡ stored.keys numbers.now) }
    ensures unique { IfOk result (λ _. stored.IsUnique bytes_eq numbers.now) }
{
    let mut keys = Vec::with_capacity(alloc, numbers.len())?;
    for key in numbers.keys() {
        keys.push_reserved(Bytes::from_slice(alloc, key.as_slice())?);
    }
    Ok(keys)
}
