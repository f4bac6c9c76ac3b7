//! Transactions of a journal, read in place.

ghost use Rattle.std.specs.Prelude.{◌≡◌, ◌==◌, suc, ◌-◌, IfOk, IfSome};
ghost use Rattle.std.specs.List.{AllByRecursion};
ghost use Rattle.std.specs.Option.{option_copied, option_map};
ghost use Rattle.mx_msgpack.specs.Readers.{in_front};
ghost use Rattle.mx_row.specs.Rows.{IsRow, IsTransaction, comes_next, ends_transaction, header_at, header_by, row_place_by, row_number, rows_behind, transaction_at, tx_behind, whole_row_at};
ghost use Rattle.mx_row.specs.Limits.{max_rows};
ghost use Rattle.mx_row.specs.Views.{row_value, row_values, tx_view};

use crate::bodies::row_at;
use crate::header::{Header, Place};
use crate::limits::{MAX_ROWS, are_short};
use crate::row_ref::RowRef;
use crate::row_refs::RowRefs;
use crate::tx_ref::TxRef;
use crate::values::{held_lsn, held_number, held_number_to};
use mx_base::{Lsn, ReplicaId, keys};
use mx_msgpack::{unsigned_in, values_at};
use std::alloc::{AllocError, Global};

/// The greatest replica id.
pub(crate) const MAX_REPLICA: u64 = 31;

/// The transaction that stands first, in all spellings, and the bytes after it. Each header and each body
/// is read in one pass.
///
/// # Errors
/// Out of memory. Only a transaction of several rows takes some.
pub fn read_tx_in_place(
    alloc: Global,
    bytes: &[u8],
) -> Result<Option<(TxRef<'_>, &[u8])>, AllocError>
    ensures tx { IfOk result (λ found. option_map (λ x. (tx_view x.0, x.1.now)) found ≡ transaction_at bytes.now) }
    ensures sound { IfOk result (λ found. IfSome found (λ x. IsTransaction (tx_view x.0))) }
    ensures rows { IfOk result (λ found. IfSome found (λ x. AllByRecursion IsRow (row_values x.0.rows))) }
{
    let Some((header, row, rest)) = whole_row_at(bytes) else {
        return Ok(None);
    };
    if row_number(header.place) != 0 {
        return Ok(None);
    }
    if ends_transaction(header.place) {
        let tx = TxRef {
            replica: header.replica,
            first: header.lsn,
            rows: RowRefs::one(row),
        };
        return Ok(Some((tx, rest)));
    }
    read_several(alloc, &header, row, rest)
}

/// The transaction of several rows whose first one was read, and the bytes after it.
#[inline(never)]
fn read_several<'a>(
    alloc: Global,
    header: &Header,
    first: RowRef<'a>,
    rest: &'a [u8],
) -> Result<Option<(TxRef<'a>, &'a [u8])>, AllocError>
    ensures { IfOk result (λ found. option_map (λ x. (tx_view x.0, x.1.now)) found ≡ tx_behind header.now (row_value first.entry) rest.entry.now) }
{
    let Some((rows, rest)) = read_behind(alloc, *header, first, rest)? else {
        return Ok(None);
    };
    if !are_short(rows.as_slice()) {
        return Ok(None);
    }
    let tx = TxRef {
        replica: header.replica,
        first: header.lsn,
        rows: RowRefs::several(rows),
    };
    Ok(Some((tx, rest)))
}

/// The rows from the first one to the last of its transaction, and the bytes after it.
fn read_behind<'a>(
    alloc: Global,
    header: Header,
    first: RowRef<'a>,
    bytes: &'a [u8],
) -> Result<Option<(Vec<RowRef<'a>>, &'a [u8])>, AllocError>
    ensures { IfOk result (λ found. option_map (λ x. (row_values x.0.items, x.1.now)) found
        ≡ option_map (in_front (row_value first.entry)) (rows_behind (max_rows - 1) header bytes.entry.now)) }
{
    let mut rows = Vec::with_capacity(alloc, 4)?;
    rows.push(first)?;
    let mut last = header;
    let mut rest = bytes;
    while !ends_transaction(last.place) {
        if rows.len() >= MAX_ROWS {
            return Ok(None);
        }
        let Some((next, row, others)) = whole_row_at(rest) else {
            return Ok(None);
        };
        if !comes_next(&last, &next) {
            return Ok(None);
        }
        rows.push(row)?;
        last = next;
        rest = others;
    }
    Ok(Some((rows, rest)))
}

/// The row that stands first with its header, and the bytes after it.
#[inline]
#[tactic(auto, unfolding(crate::specs::Rows::whole_row_at))]
pub(crate) fn whole_row_at(bytes: &[u8]) -> Option<(Header, RowRef<'_>, &[u8])>
    ensures { option_map (λ x. ((x.0, row_value x.1), x.2.now)) result ≡ whole_row_at bytes.now }
{
    let (header, rest) = header_at(bytes)?;
    let (row, rest) = row_at(header.kind, rest)?;
    Some((header, row, rest))
}

/// The number of a row in its transaction.
pub(crate) fn row_number(place: Place) -> u64
    ensures { result ≡ row_number place }
{
    match place {
        Place::Alone => 0,
        Place::Numbered { number, .. } => number,
    }
}

/// Whether the row ends its transaction.
pub(crate) fn ends_transaction(place: Place) -> bool
    ensures { result ≡ ends_transaction place }
{
    match place {
        Place::Alone => true,
        Place::Numbered { is_last, .. } => is_last,
    }
}

/// Whether the second header is that of the row after the first one's.
pub(crate) fn comes_next(header: &Header, next: &Header) -> bool
    ensures { result ≡ comes_next header.now next.now }
{
    next.replica.0 == header.replica.0
        && is_next(header.lsn.0, next.lsn.0)
        && is_next(row_number(header.place), row_number(next.place))
}

fn is_next(number: u64, next: u64) -> bool
    ensures { result ≡ (next == suc number) }
{
    number.checked_add(1) == Some(next)
}

#[inline]
#[tactic(auto, unfolding(crate::specs::Rows::header_at))]
pub(crate) fn header_at(bytes: &[u8]) -> Option<(Header, &[u8])>
    ensures { option_map (λ x. (x.0, x.1.now)) result ≡ header_at bytes.now }
{
    let mut values = [None; 5];
    let rest = values_at(
        &[
            keys::TYPE,
            keys::REPLICA,
            keys::LSN,
            keys::ROW_NUMBER,
            keys::IS_LAST,
        ],
        bytes,
        &mut values,
    )?;
    let [request_type, replica, lsn, row_number, is_last] = values;
    let header = header_of(request_type, replica, lsn, row_number, is_last)?;
    Some((header, rest))
}

#[inline]
#[tactic(auto, unfolding(crate::specs::Rows::header_by))]
fn header_of<'a>(
    request_type: Option<&'a [u8]>,
    replica: Option<&'a [u8]>,
    lsn: Option<&'a [u8]>,
    row_number: Option<&'a [u8]>,
    is_last: Option<&'a [u8]>,
) -> Option<Header>
    ensures { result ≡ header_by (option_copied request_type.entry) (option_copied replica.entry) (option_copied lsn.entry)
        (option_copied row_number.entry) (option_copied is_last.entry) }
{
    let kind = held_number(request_type)?;
    let id = held_number_to(MAX_REPLICA, replica)?;
    let lsn = held_lsn(lsn)?;
    let place = place_of(row_number, is_last)?;
    Some(Header {
        kind,
        replica: ReplicaId(id as u8),
        lsn: Lsn(lsn),
        place,
    })
}

/// The place of a row by its number, and by what says that it is the last one.
#[inline]
fn place_of(row_number: Option<&[u8]>, is_last: Option<&[u8]>) -> Option<Place>
    ensures { result ≡ row_place_by (option_copied row_number.entry) (option_copied is_last.entry) }
{
    let Some(number) = row_number else {
        return Some(Place::Alone);
    };
    Some(Place::Numbered {
        number: unsigned_in(number)?,
        is_last: held_number(is_last) == Some(1),
    })
}
