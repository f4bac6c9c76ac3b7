//! Rows in order, which a contract sees as a list.

ghost use Rattle.std.specs.Prelude.{◌≡◌, [], ◌∷◌, ◌++◌, take, IfOk, OnOk, OnErr};
ghost use Rattle.mx_row.specs.Views.{row_values};

use crate::row::Row;
use crate::row_ref::RowRef;
use std::alloc::{AllocError, Global};
use std::marker::Model;

/// Rows in order.
#[derive(Drop)]
pub struct Rows {
    items: Vec<Row>,
}

impl Model for Rows {
    ghost use Rattle.std.specs.Prelude.{List};
    ghost use Rattle.mx_row.specs.declared.row.Row.{Row};

    ghost Value = { List Row };

    ghost view = { λ r. r.items.items };
}

impl Rows {
    /// No row.
    pub fn new(alloc: Global) -> Rows
        ensures { result ≡ [] }
    {
        Rows {
            items: Vec::new(alloc),
        }
    }

    /// The rows with parts of their own.
    pub fn from_refs(alloc: Global, refs: &[RowRef<'_>]) -> Result<Rows, AllocError>
        ensures { IfOk result (λ rows. rows ≡ row_values refs.now) }
    {
        let mut items = Vec::with_capacity(alloc, refs.len())?;
        for row in refs {
            items.push(Row::from_ref(alloc, row)?)?;
        }
        Ok(Rows { items })
    }

    /// The rows in place.
    pub fn as_slice(&self) -> &[Row]
        ensures { result.now ≡ self.now }
    {
        self.items.as_slice()
    }

    /// Adds a row at the end.
    ///
    /// # Errors
    /// Out of memory. The rows are then as they were.
    pub fn push(&mut self, row: Row) -> Result<(), AllocError>
        ensures ok { OnOk result (self.new ≡ self.old ++ row ∷ []) }
        ensures err { OnErr result (self.new ≡ self.old) }
    {
        self.items.push(row)?;
        Ok(())
    }

    /// Keeps the first `len` rows; does nothing where there are no more.
    pub fn truncate(&mut self, len: usize)
        ensures { self.new ≡ take len self.old }
    {
        self.items.truncate(len);
    }
}
