//! Where bytes stop being a transaction, or end inside one.

ghost use Rattle.std.specs.Prelude.{◌≡◌, ◌≤◌, ◌-◌, IfSome, length, None};
ghost use Rattle.mx_row.specs.Cuts.{IsProperPrefix, RowsStopAt};
ghost use Rattle.mx_row.specs.Rows.{transaction_at};

use crate::completion::can_fit;
use crate::progress::Progress;
use crate::reading::whole_row_at;

/// Where bytes that begin no transaction stop being one: the bytes from the row on that it can't have. `None`
/// where they end inside one.
pub(crate) fn stop_in(bytes: &[u8]) -> Option<&[u8]>
    requires { transaction_at bytes.now ≡ None }
    ensures inside { result ≡ None → IsProperPrefix bytes.now }
    ensures within { IfSome result (λ rest. length rest.now ≤ length bytes.now) }
    ensures stop { IfSome result (λ rest. RowsStopAt bytes.now (length bytes.now - length rest.now)) }
{
    let mut rows = Progress::none();
    let mut rest = bytes;
    while let Some((header, row, others)) = whole_row_at(rest) {
        if !rows.leads_on(&header, &row) {
            return Some(rest);
        }
        rows = rows.with_row(header, &row);
        rest = others;
    }
    if can_fit(&rows, rest) {
        None
    } else {
        Some(rest)
    }
}
