//! A transaction's own writes in a space.

ghost use Rattle.std.specs.Prelude.{◌≡◌, Option, Some, None, Ok, IfOk, OnOk, OnErr};
ghost use Rattle.std.specs.FinMap as finite;
ghost use Rattle.mx_key.specs.Comparable.{comparable_of};
ghost use Rattle.mx_key.specs.Keys.{Key, AreFit};
ghost use Rattle.mx_schema.specs.declared.index_def.IndexDef as indexed;
ghost use Rattle.mx_schema.specs.declared.schema.Schema as described;
ghost use Rattle.mx_schema.specs.Catalogues.{index_with};
ghost use Rattle.mx_schema.specs.State.{key_in};
ghost use Rattle.mx_entries.specs.OwnWrites.{OwnWrites};
ghost use Rattle.mx_space.specs.Overlays.{StoresWritten, hides};

use crate::space::Space;
use mx_msgpack::Bytes;
use mx_schema::{Keyed, Schema};
use std::alloc::{AllocError, Global};
use std::collections::BTreeSet;

/// A transaction's own writes in a space: the tuples that it put, with their entries in each index, and the
/// primary keys whose tuples it took out, where it may have put others since.
#[derive(Drop)]
pub struct OverlaidSpace {
    own: Space,
    removed: BTreeSet<Bytes>,
}

impl OverlaidSpace {
    /// No writes, in a space that is described so.
    pub fn new(alloc: Global, schema: Schema) -> Result<OverlaidSpace, AllocError>
        ensures { IfOk result (λ over. StoresWritten (Some schema) over finite.empty) }
    {
        Ok(OverlaidSpace {
            own: Space::of_trees(alloc, schema)?,
            removed: BTreeSet::new(alloc),
        })
    }

    /// Puts a tuple, in the place of the one that the transaction or the state has under its primary key. The
    /// space has an index of the number 0, and the key is the tuple's in it.
    ///
    /// # Errors
    /// Out of memory. Nothing changed then.
    pub fn put(&mut self, alloc: Global, keyed: Keyed) -> Result<(), AllocError>
        ensures ok { (schema : described.Schema) (written : OwnWrites) (primary : indexed.IndexDef) (key : Key) → StoresWritten (Some schema) self.old written
            → index_with 0 schema.indexes ≡ Some primary → key_in primary.key keyed.tuple ≡ Ok key → AreFit key → keyed.key ≡ comparable_of key
            → OnOk result (StoresWritten (Some schema) self.new (finite.insert written key (Some keyed.tuple))) }
        ensures err { (schema : Option described.Schema) (written : OwnWrites) → StoresWritten schema self.old written → OnErr result (StoresWritten schema self.new written) }
    {
        self.own.put(alloc, keyed)
    }

    /// Takes the tuple of a primary key out, whether the transaction put it or the state has it.
    ///
    /// # Errors
    /// Out of memory. Nothing changed then.
    pub fn remove(&mut self, alloc: Global, key: &Bytes) -> Result<(), AllocError>
        ensures ok { (schema : described.Schema) (written : OwnWrites) (primary : indexed.IndexDef) (wanted : Key) → StoresWritten (Some schema) self.old written
            → index_with 0 schema.indexes ≡ Some primary → AreFit wanted → key.now ≡ comparable_of wanted
            → OnOk result (StoresWritten (Some schema) self.new (finite.insert written wanted None)) }
        ensures err { (schema : Option described.Schema) (written : OwnWrites) → StoresWritten schema self.old written → OnErr result (StoresWritten schema self.new written) }
    {
        let copy = Bytes::from_slice(alloc, key.as_slice())?;
        let is_new = self.removed.insert(copy)?;
        if let Err(fault) = self.own.remove(alloc, key) {
            if is_new {
                self.removed.remove(key);
            }
            return Err(fault);
        }
        Ok(())
    }

    /// The tuples that the transaction put.
    pub(crate) fn own(&self) -> &Space
        ensures { result.now ≡ self.now.own }
    {
        &self.own
    }

    /// The primary keys whose tuples the transaction took out, where it may have put others since.
    pub(crate) fn removed(&self) -> &BTreeSet<Bytes>
        ensures { result.now ≡ self.now.removed }
    {
        &self.removed
    }

    /// Whether the transaction put or took out the tuple whose primary key has these comparable bytes.
    pub(crate) fn hides(&self, key: &Bytes) -> bool
        ensures { result ≡ hides self.now key.now }
    {
        self.own.tuples().contains_key(key) || self.removed.contains(key)
    }
}
