//! The limits of a transaction.

ghost use Rattle.std.specs.Prelude.{◌≡◌, ◌≤◌, ◌<◌, ◌^◌, ◌-◌, nat_le};
ghost use Rattle.mx_row.specs.Limits.{max_transaction_size, rows_size};
ghost use Rattle.mx_row.specs.Views.{row_values};

use crate::row_ref::RowRef;
use crate::size::row_size;

/// How many rows a transaction may have.
pub const MAX_ROWS: usize = 4096;

/// How many bytes the rows of a transaction may take, each with `ROW_HEADER_SIZE`.
pub const MAX_TRANSACTION_SIZE: usize = 4_194_304;

/// What each row counts besides its body.
pub const ROW_HEADER_SIZE: usize = 32;

/// Whether the rows take no more bytes than those of a transaction may.
pub(crate) fn are_short(rows: &[RowRef<'_>]) -> bool
    ensures { result ≡ nat_le (rows_size (row_values rows.now)) max_transaction_size }
{
    rows_size(rows) <= MAX_TRANSACTION_SIZE
}

/// How many bytes the rows take, and `usize::MAX` where there are more.
fn rows_size(rows: &[RowRef<'_>]) -> usize
    ensures exact { rows_size (row_values rows.now) < 2 ^ 64 → result ≡ rows_size (row_values rows.now) }
    ensures most { 2 ^ 64 ≤ rows_size (row_values rows.now) → result ≡ 2 ^ 64 - 1 }
{
    let mut size: usize = 0;
    for row in rows {
        size = size
            .saturating_add(row_size(row))
            .saturating_add(ROW_HEADER_SIZE);
    }
    size
}
