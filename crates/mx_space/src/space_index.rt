//! The entries of an index of a space.

ghost use Rattle.std.specs.Prelude.{◌≡◌, [], IfOk};
ghost use Rattle.mx_space.specs.IndexViews.{ordered_index};

use crate::hash_index::HashIndex;
use crate::index::Index;
use crate::kept_entries::KeptEntries;
use crate::ordered_index::OrderedIndex;
use crate::tree_index::TreeIndex;
use mx_msgpack::Bytes;
use mx_schema::IndexKind;
use std::alloc::{AllocError, Global};
use std::marker::Model;

/// The entries of an index. A contract sees them in the order of their keys.
#[derive(Drop)]
pub struct SpaceIndex {
    kept: KeptEntries,
}

impl Model for SpaceIndex {
    ghost use Rattle.std.specs.Prelude.{List};
    ghost use Rattle.mx_entries.specs.Entries.{IndexEntry};
    ghost use Rattle.mx_space.specs.IndexViews.{entries_kept};

    ghost Value = { List IndexEntry };

    ghost view = { λ i. entries_kept i.kept };
}

impl SpaceIndex {
    /// No entries, for an index of this type, whose keys have so many parts.
    pub(crate) fn new(alloc: Global, kind: IndexKind, parts: usize) -> SpaceIndex
        ensures { result ≡ [] }
    {
        let kept = match kind {
            IndexKind::Tree => KeptEntries::Tree(TreeIndex::new(alloc)),
            IndexKind::Hash => KeptEntries::Hash(HashIndex::new(alloc, parts)),
        };
        SpaceIndex { kept }
    }

    pub(crate) fn copy(&self) -> Result<SpaceIndex, AllocError>
        ensures { IfOk result (λ copy. copy ≡ self.now) }
    {
        let kept = match &self.kept {
            KeptEntries::Tree(index) => KeptEntries::Tree(index.copy()?),
            KeptEntries::Hash(index) => KeptEntries::Hash(index.copy()?),
        };
        Ok(SpaceIndex { kept })
    }

    /// The entries in the order of their keys: copies of them, where they are kept in no order.
    pub(crate) fn in_order(&self, alloc: Global) -> Result<OrderedIndex<'_>, AllocError>
        ensures { IfOk result (λ ordered. ordered_index ordered ≡ self.now) }
    {
        match &self.kept {
            KeptEntries::Tree(index) => Ok(OrderedIndex::Kept(index)),
            KeptEntries::Hash(index) => Ok(OrderedIndex::Made(index.in_order(alloc)?)),
        }
    }
}

impl Index for SpaceIndex {
    ghost entries = { λ i. i };

    fn insert(&mut self, key: Bytes, primary: &[u8]) -> Result<bool, AllocError> {
        match &mut self.kept {
            KeptEntries::Tree(index) => index.insert(key, primary),
            KeptEntries::Hash(index) => index.insert(key, primary),
        }
    }

    fn remove(&mut self, key: &Bytes) {
        match &mut self.kept {
            KeptEntries::Tree(index) => index.remove(key),
            KeptEntries::Hash(index) => index.remove(key),
        }
    }

    fn clear(&mut self) {
        match &mut self.kept {
            KeptEntries::Tree(index) => index.clear(),
            KeptEntries::Hash(index) => index.clear(),
        }
    }

    fn find<'a>(&'a self, key: &Bytes) -> Option<(&'a [u8], &'a [u8])> {
        match &self.kept {
            KeptEntries::Tree(index) => index.find(key),
            KeptEntries::Hash(index) => index.find(key),
        }
    }
}
