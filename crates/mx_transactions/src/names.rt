//! The names of open transactions.

ghost use Rattle.std.specs.Prelude.{◌≡◌, ◌<◌, ◌==◌, not, [], ◌∷◌, length, IfOk, IsTrue, ◌↔◌};
ghost use Rattle.std.specs.List.{filter, find};
ghost use Rattle.mx_model.specs.Streams.{is_name};
ghost use Rattle.mx_txn.specs.Slots.{max_open};
ghost use Rattle.mx_transactions.specs.Open.{slot_named};

use mx_base::{ConnId, TxnName};
use mx_txn::{MAX_OPEN, Slot};
use std::alloc::{AllocError, Global};
use std::marker::Model;

/// An open transaction's name, and its slot.
#[derive(Clone, Copy, Drop)]
pub struct Named {
    pub name: TxnName,
    pub slot: Slot,
}

/// The names of open transactions, the newest first, with room for all that may be open.
#[derive(Drop)]
pub struct OpenNames {
    items: Vec<Named>,
}

impl Model for OpenNames {
    ghost use Rattle.std.specs.Prelude.{List, ◌≤◌};
    ghost use Rattle.std.specs.Vec.{vec_capacity};
    ghost use Rattle.mx_txn.specs.Slots.{max_open};
    ghost use Rattle.mx_transactions.specs.declared.names.Named.{Named};

    ghost Value = { List Named };

    ghost view = { λ n. n.items.items };

    ghost invariant = { λ n. max_open ≤ vec_capacity n.items };
}

impl OpenNames {
    /// No name.
    pub(crate) fn new(alloc: Global) -> Result<OpenNames, AllocError>
        ensures { IfOk result (λ names. names ≡ []) }
    {
        Ok(OpenNames {
            items: Vec::with_capacity(alloc, MAX_OPEN as usize)?,
        })
    }

    /// Adds the newest name; takes no memory.
    pub(crate) fn insert(&mut self, named: Named)
        requires { length self.old < max_open }
        ensures { self.new ≡ named ∷ self.old }
    {
        match self.items.insert(0, named) {
            Ok(()) => {}
            Err(_) => {}
        }
    }

    /// The slot of the transaction of a name, where one is open.
    pub(crate) fn find(&self, name: TxnName) -> Option<Slot>
        ensures { result ≡ slot_named name self.now }
    {
        for named in &self.items {
            if is_name(named.name, name) {
                return Some(named.slot);
            }
        }
        None
    }

    /// The newest of a connection.
    pub(crate) fn find_of(&self, connection: ConnId) -> Option<Named>
        ensures { result ≡ find (λ one. one.name.conn.0 == connection.0) self.now }
    {
        for named in &self.items {
            if named.name.conn.0 == connection.0 {
                return Some(*named);
            }
        }
        None
    }

    /// How many are of a connection.
    pub(crate) fn count(&self, connection: ConnId) -> usize
        ensures { result ≡ length (filter (λ one. one.name.conn.0 == connection.0) self.now) }
    {
        self.items
            .iter()
            .filter(|one| one.name.conn.0 == connection.0)
            .count()
    }

    /// Whether there is none.
    pub(crate) fn is_empty(&self) -> bool
        ensures { IsTrue result ↔ (self.now ≡ []) }
    {
        self.items.is_empty()
    }

    /// How many there are.
    pub(crate) fn len(&self) -> usize
        ensures { result ≡ length self.now }
    {
        self.items.len()
    }

    /// The names in place, the newest first.
    pub(crate) fn as_slice(&self) -> &[Named]
        ensures { result.now ≡ self.now }
    {
        self.items.as_slice()
    }

    /// Drops those of a name.
    pub(crate) fn remove(&mut self, name: TxnName)
        ensures { self.new ≡ filter (λ one. not (is_name one.name name)) self.old }
    {
        self.items.retain(|one| !is_name(one.name, name));
    }
}

/// Whether two names are one.
pub(crate) fn is_name(one: TxnName, other: TxnName) -> bool
    ensures { result ≡ is_name one other }
{
    one.conn.0 == other.conn.0 && one.stream.0 == other.stream.0
}
