//! A transaction in place.

ghost use Rattle.std.specs.Prelude.{◌≡◌, IfOk};
ghost use Rattle.mx_row.specs.Clocks.{last_lsn};
ghost use Rattle.mx_row.specs.Rows.{IsTransaction};
ghost use Rattle.mx_row.specs.Views.{tx_view};

use crate::row_refs::RowRefs;
use crate::rows::Rows;
use crate::tx::Tx;
use mx_base::{Lsn, ReplicaId};
use std::alloc::{AllocError, Global};

/// A transaction where it lies in a block. Its fields are those of `Tx`.
#[derive(Drop)]
pub struct TxRef<'a> {
    pub replica: ReplicaId,
    pub first: Lsn,
    pub rows: RowRefs<'a>,
}

impl TxRef<'_> {
    /// The lsn of the last row.
    pub fn last_lsn(&self) -> Lsn
        requires { IsTransaction (tx_view self.now) }
        ensures { result.0 ≡ last_lsn (tx_view self.now) }
    {
        Lsn(self.first.0 + (self.rows.as_slice().len() as u64 - 1))
    }
}

/// The transaction with rows of its own.
///
/// # Errors
/// Out of memory.
pub fn to_owned(alloc: Global, tx: &TxRef<'_>) -> Result<Tx, AllocError>
    ensures { IfOk result (λ owned. owned ≡ tx_view tx.now) }
{
    Ok(Tx {
        replica: tx.replica,
        first: tx.first,
        rows: Rows::from_refs(alloc, tx.rows.as_slice())?,
    })
}
