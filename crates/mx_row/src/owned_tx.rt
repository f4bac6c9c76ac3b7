//! Transactions of a journal, read as values.

ghost use Rattle.std.specs.Prelude.{◌≡◌, ◌⊎◌, ◌≤◌, ◌++◌, ◌-◌, ℕ, List, length, drop, Ok, Err, Some, None, IfOk, IfSome};
ghost use Rattle.mx_row.specs.declared.row_fault.RowFault.TheVariants.{Bad, NoMemory};
ghost use Rattle.mx_row.specs.declared.tx.Tx.{Tx};
ghost use Rattle.mx_msgpack.specs.Spelling.{AreBytes};
ghost use Rattle.mx_row.specs.Cuts.{IsProperPrefix, RowsStopAt};
ghost use Rattle.mx_row.specs.Rows.{transaction_at};

use crate::cut::stop_in;
use crate::reading::read_tx_in_place;
use crate::row_fault::RowFault;
use crate::tx::Tx;
use crate::tx_ref::to_owned;
use std::alloc::Global;

/// The transaction that stands first, in all spellings, and how many bytes it takes; `None` exactly where the
/// bytes are a proper prefix of a transaction.
///
/// # Errors
/// `Bad` exactly where they aren't and begin with none, with the place of the row that no transaction has
/// there; or out of memory.
pub fn read_tx(alloc: Global, bytes: &[u8]) -> Result<Option<(Tx, usize)>, RowFault>
    ensures whole { IfOk result (λ found. IfSome found (λ tx. (tx.1 ≤ length bytes.now) × (transaction_at bytes.now ≡ Some (tx.0, drop tx.1 bytes.now)))) }
    ensures cut { result ≡ Ok None → IsProperPrefix bytes.now }
    ensures prefix { IsProperPrefix bytes.now → (result ≡ Ok None) ⊎ (result ≡ Err NoMemory) }
    ensures bad { (at : ℕ) → result ≡ Err (Bad at) → (more : List ℕ) → AreBytes more → transaction_at (bytes.now ++ more) ≡ None }
    ensures place { (at : ℕ) → result ≡ Err (Bad at) → RowsStopAt bytes.now at }
{
    let Some((tx, rest)) = read_tx_in_place(alloc, bytes)? else {
        return match stop_in(bytes) {
            Some(rest) => Err(RowFault::Bad {
                at: bytes.len() - rest.len(),
            }),
            None => Ok(None),
        };
    };
    Ok(Some((to_owned(alloc, &tx)?, bytes.len() - rest.len())))
}
