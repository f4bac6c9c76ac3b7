//! Indexes, as their rows describe them.

ghost use Rattle.std.specs.Prelude.{◌≡◌, [], IfOk, OnErr, OnOk};
ghost use Rattle.std.specs.Option.{option_copied};
ghost use Rattle.mx_schema.specs.Catalogues.{index_with};
ghost use Rattle.mx_schema.specs.RowParts.{index_place};
ghost use Rattle.mx_schema.specs.SchemaChanges.{indexes_without};
ghost use Rattle.mx_schema.specs.SchemaChecks.{has_name, indexes_with};

use mx_base::{IndexId, Name, SpaceId};
use mx_key::KeyDef;
use std::alloc::{AllocError, Global};
use std::marker::Model;

/// How an index finds its tuples.
#[derive(Clone, Copy, Drop, PartialEq, Eq)]
pub enum IndexKind {
    /// In the order of their keys.
    Tree,
    /// By a whole key.
    Hash,
}

/// An index of a space: its number, its name, its type, whether no two tuples have one key, and the
/// parts of its keys.
#[derive(Drop)]
pub struct IndexDef {
    pub id: IndexId,
    pub name: Name,
    pub kind: IndexKind,
    pub unique: bool,
    pub key: KeyDef,
}

impl IndexDef {
    fn copy(&self, alloc: Global) -> Result<IndexDef, AllocError>
        ensures { IfOk result (λ copy. copy ≡ self.now) }
    {
        Ok(IndexDef {
            id: self.id,
            name: Name::from_slice(alloc, self.name.as_slice())?,
            kind: self.kind,
            unique: self.unique,
            key: KeyDef::from_vec(self.key.as_slice().to_vec(alloc)?),
        })
    }
}

/// An index, and its space.
#[derive(Drop)]
pub struct IndexRow {
    pub space: SpaceId,
    pub def: IndexDef,
}

/// The indexes of a space, by ascending numbers.
#[derive(Drop)]
pub struct IndexDefs {
    items: Vec<IndexDef>,
}

impl Model for IndexDefs {
    ghost use Rattle.std.specs.Prelude.{List};
    ghost use Rattle.mx_schema.specs.declared.index_def.IndexDef.{IndexDef};

    ghost Value = { List IndexDef };

    ghost view = { λ d. d.items.items };
}

impl IndexDefs {
    /// No index.
    pub fn new(alloc: Global) -> IndexDefs
        ensures { result ≡ [] }
    {
        IndexDefs {
            items: Vec::new(alloc),
        }
    }

    /// The indexes in place.
    pub fn as_slice(&self) -> &[IndexDef]
        ensures { result.now ≡ self.now }
    {
        self.items.as_slice()
    }

    /// The index of this number; `None` where there is none.
    pub fn with_id(&self, id: IndexId) -> Option<&IndexDef>
        ensures { option_copied result ≡ index_with id.0 self.now }
    {
        for def in self.items.as_slice() {
            if def.id.0 == id.0 {
                return Some(def);
            }
        }
        None
    }

    /// Adds an index behind those of smaller numbers and of its own.
    ///
    /// # Errors
    /// Out of memory. Nothing changed then.
    pub fn insert(&mut self, def: IndexDef) -> Result<(), AllocError>
        ensures ok { OnOk result (self.new ≡ indexes_with def self.old) }
        ensures err { OnErr result (self.new ≡ self.old) }
    {
        let place = place_of(self.items.as_slice(), def.id);
        self.items.insert(place, def)?;
        Ok(())
    }

    /// Takes the index of this number out, where there is one.
    pub fn remove(&mut self, id: IndexId)
        ensures { self.new ≡ indexes_without id.0 self.old }
    {
        self.items.retain(|def| def.id.0 != id.0);
    }

    pub(crate) fn copy(&self, alloc: Global) -> Result<IndexDefs, AllocError>
        ensures { IfOk result (λ copy. copy ≡ self.now) }
    {
        Ok(IndexDefs {
            items: copies_of(alloc, self.items.as_slice())?,
        })
    }

    pub(crate) fn has_name(&self, name: &Name) -> bool
        ensures { result ≡ has_name name.now self.now }
    {
        for def in self.items.as_slice() {
            if def.name == *name {
                return true;
            }
        }
        false
    }
}

fn copies_of(alloc: Global, defs: &[IndexDef]) -> Result<Vec<IndexDef>, AllocError>
    ensures { IfOk result (λ copies. copies.items ≡ defs.now) }
{
    let mut copies = Vec::with_capacity(alloc, defs.len())?;
    for def in defs {
        copies.push_reserved(def.copy(alloc)?);
    }
    Ok(copies)
}

/// The place behind the indexes whose numbers aren't greater.
fn place_of(defs: &[IndexDef], id: IndexId) -> usize
    ensures { result ≡ index_place id.0 defs.now }
{
    for (place, def) in defs.iter().enumerate() {
        if id.0 < def.id.0 {
            return place;
        }
    }
    defs.len()
}
