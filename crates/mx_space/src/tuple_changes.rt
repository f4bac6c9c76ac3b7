//! The changes that a commit makes.

ghost use Rattle.std.specs.Prelude.{◌≡◌, List, [], ◌∷◌, ◌++◌, OnOk, OnErr, MatchOption};

use mx_base::SpaceId;
use mx_msgpack::Bytes;
use std::alloc::{AllocError, Global};
use std::marker::Model;

/// What a commit changes: the tuple that stands afterwards under a primary key of a space, by the key's
/// comparable bytes, or none.
#[derive(Drop)]
pub struct TupleChange {
    pub space: SpaceId,
    pub key: Bytes,
    pub tuple: Option<Bytes>,
}

/// Changes in the order in which a commit makes them.
#[derive(Drop)]
pub struct TupleChanges {
    items: Vec<TupleChange>,
}

impl Model for TupleChanges {
    ghost use Rattle.std.specs.Prelude.{List};
    ghost use Rattle.mx_space.specs.declared.tuple_changes.TupleChange.{TupleChange};

    ghost Value = { List TupleChange };

    ghost view = { λ t. t.items.items };
}

impl TupleChanges {
    /// No change.
    pub fn new(alloc: Global) -> TupleChanges
        ensures { result ≡ [] }
    {
        TupleChanges {
            items: Vec::new(alloc),
        }
    }

    /// The changes in place.
    pub fn as_slice(&self) -> &[TupleChange]
        ensures { result.now ≡ self.now }
    {
        self.items.as_slice()
    }

    /// Takes room for so many further changes.
    ///
    /// # Errors
    /// Out of memory.
    pub(crate) fn reserve(&mut self, additional: usize) -> Result<(), AllocError>
        ensures { self.new ≡ self.old }
    {
        self.items.reserve(additional)?;
        Ok(())
    }

    /// Adds a change at the end.
    ///
    /// # Errors
    /// Out of memory. The changes are then as they were.
    pub fn push(&mut self, change: TupleChange) -> Result<(), AllocError>
        ensures ok { OnOk result (self.new ≡ self.old ++ change ∷ []) }
        ensures err { OnErr result (self.new ≡ self.old) }
    {
        self.items.push(change)?;
        Ok(())
    }

    /// Takes the last change off.
    pub(crate) fn pop(&mut self) -> Option<TupleChange>
        ensures { MatchOption result ((self.old ≡ []) × (self.new ≡ [])) (λ last. self.old ≡ self.new ++ last ∷ []) }
    {
        self.items.pop()
    }
}
