//! Transactions of a journal.

ghost use Rattle.std.specs.Prelude.{◌≡◌, [], ◌∷◌, IfOk};
ghost use Rattle.mx_row.specs.Clocks.{last_lsn};
ghost use Rattle.mx_row.specs.Rows.{IsTransaction};
ghost use Rattle.mx_row.specs.Views.{row_value};

use crate::row_ref::RowRef;
use crate::rows::Rows;
use mx_base::{Lsn, ReplicaId};
use std::alloc::{AllocError, Global};
use std::slice;

/// The rows of one commit. They have the lsns of one replica from the first one on.
#[derive(Drop)]
pub struct Tx {
    /// The replica id, from 0 to 31.
    pub replica: ReplicaId,
    /// The lsn of the first row.
    pub first: Lsn,
    /// What the commit changed, in order.
    pub rows: Rows,
}

impl Tx {
    /// The transaction of one row.
    pub fn alone(
        alloc: Global,
        replica: ReplicaId,
        lsn: Lsn,
        row: &RowRef<'_>,
    ) -> Result<Tx, AllocError>
        ensures { IfOk result (λ tx. tx ≡ record { replica = replica; first = lsn; rows = row_value row.now ∷ [] }) }
    {
        Ok(Tx {
            replica,
            first: lsn,
            rows: Rows::from_refs(alloc, slice::from_ref(row))?,
        })
    }
    /// The lsn of the last row.
    pub fn last_lsn(&self) -> Lsn
        requires { IsTransaction self.now }
        ensures { result.0 ≡ last_lsn self.now }
    {
        Lsn(self.first.0 + (self.rows.as_slice().len() as u64 - 1))
    }
}
