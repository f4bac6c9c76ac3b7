//! Transactions in order, which a contract sees as a list.

ghost use Rattle.std.specs.Prelude.{◌≡◌, List, [], ◌∷◌, ◌++◌, Some, OnOk, OnErr, IsTrue, ◌↔◌};

use mx_row::{Rows, Tx};
use std::alloc::{AllocError, Global};
use std::marker::Model;

/// Transactions in order.
#[derive(Drop)]
pub struct Txs {
    items: Vec<Tx>,
}

impl Model for Txs {
    ghost use Rattle.std.specs.Prelude.{List};
    ghost use Rattle.mx_row.specs.declared.tx.Tx.{Tx};

    ghost Value = { List Tx };

    ghost view = { λ t. t.items.items };
}

impl Txs {
    /// No transaction.
    pub fn new(alloc: Global) -> Txs
        ensures { result ≡ [] }
    {
        Txs {
            items: Vec::new(alloc),
        }
    }

    /// The transactions in place.
    pub fn as_slice(&self) -> &[Tx]
        ensures { result.now ≡ self.now }
    {
        self.items.as_slice()
    }

    /// Adds a transaction at the end.
    ///
    /// # Errors
    /// Out of memory. The transactions are then as they were.
    pub fn push(&mut self, tx: Tx) -> Result<(), AllocError>
        ensures ok { OnOk result (self.new ≡ self.old ++ tx ∷ []) }
        ensures err { OnErr result (self.new ≡ self.old) }
    {
        self.items.push(tx)?;
        Ok(())
    }

    /// Gives the last transaction these rows, in place of its own.
    pub fn fill_last(&mut self, rows: Rows)
        ensures { (prefix : List Tx) (last : Tx) → self.old ≡ prefix ++ last ∷ [] → self.new ≡ prefix ++ record last { rows = rows } ∷ [] }
    {
        if let Some(last) = self.items.last_mut() {
            last.rows = rows;
        }
    }

    /// Takes the last transaction off.
    pub fn pop(&mut self) -> Option<Tx>
        ensures { (prefix : List Tx) (last : Tx) → self.old ≡ prefix ++ last ∷ [] → (result ≡ Some last) × (self.new ≡ prefix) }
    {
        self.items.pop()
    }

    /// Takes all transactions out.
    pub fn take(&mut self) -> Txs
        ensures taken { result ≡ self.old }
        ensures left { self.new ≡ [] }
    {
        let alloc = *self.items.allocator();
        std::mem::replace(self, Txs::new(alloc))
    }

    /// Whether there is no transaction.
    pub fn is_empty(&self) -> bool
        ensures { IsTrue result ↔ (self.now ≡ []) }
    {
        self.items.is_empty()
    }
}
