//! Whether bytes can become the header of a row, and then the row.

ghost use Rattle.std.specs.Prelude.{◌≡◌, ◌≤◌, ◌<◌, ◌^◌, ◌||◌, None, nat_lt, suc, true};
ghost use Rattle.mx_completion.specs.declared.field.Form.TheVariants.{Number};
ghost use Rattle.mx_msgpack.specs.Maps.{map_at};
ghost use Rattle.mx_row.specs.Cuts.{has_room_behind, is_lsn_left};
ghost use Rattle.mx_row.specs.Limits.{max_rows};
ghost use Rattle.mx_row.specs.Rows.{ends_transaction, row_number};
ghost use Rattle.mx_row.specs.Stops.{CanFit, CanHave, Decides, HeaderFits, IsKind, IsNumbered, KindFits, header_fields, last_form, least_body, lowest_lsn, lowest_replica, highest_lsn, highest_replica};

use crate::completion::{KEYS_OF_THREE, KEYS_OF_TWO, body_room, can_have, field};
use crate::header::{Header, Place};
use crate::limits::MAX_ROWS;
use crate::progress::Progress;
use crate::reading::{MAX_REPLICA, ends_transaction};
use crate::row_types;
use mx_base::keys;
use mx_completion::Form;
use mx_vclock::MAX_LSN;

/// Whether the bytes, which end inside a header, can become a row that may follow the rows.
pub(crate) fn header_can_fit(rows: &Progress, bytes: &[u8]) -> bool
    requires room { has_room_behind rows.now ≡ true }
    requires numbered { IsNumbered rows.now }
    requires part { map_at bytes.now ≡ None }
    ensures { Decides (CanFit rows.now bytes.now) result }
{
    if kind_can_fit(rows, row_types::INSERT, bytes) {
        return true;
    }
    if kind_can_fit(rows, row_types::REPLACE, bytes) {
        return true;
    }
    if kind_can_fit(rows, row_types::UPDATE, bytes) {
        return true;
    }
    if kind_can_fit(rows, row_types::DELETE, bytes) {
        return true;
    }
    kind_can_fit(rows, row_types::UPSERT, bytes)
}

/// As `header_can_fit`, of a row of this type.
fn kind_can_fit(rows: &Progress, kind: u8, bytes: &[u8]) -> bool
    requires room { has_room_behind rows.now ≡ true }
    requires numbered { IsNumbered rows.now }
    requires part { map_at bytes.now ≡ None }
    requires kind { IsKind kind }
    ensures { Decides (KindFits rows.now kind bytes.now) result }
{
    let number = rows.count as u64;
    if place_can_fit(
        rows,
        kind,
        Place::Numbered {
            number,
            is_last: true,
        },
        bytes,
    ) {
        return true;
    }
    if place_can_fit(
        rows,
        kind,
        Place::Numbered {
            number,
            is_last: false,
        },
        bytes,
    ) {
        return true;
    }
    if rows.count > 0 {
        return false;
    }
    place_can_fit(rows, kind, Place::Alone, bytes)
}

/// As `kind_can_fit`, of a row in this place.
fn place_can_fit(rows: &Progress, kind: u8, place: Place, bytes: &[u8]) -> bool
    requires room { has_room_behind rows.now ≡ true }
    requires numbered { IsNumbered rows.now }
    requires part { map_at bytes.now ≡ None }
    requires kind { IsKind kind }
    requires place { row_number place ≡ rows.now.count }
    ensures { Decides (HeaderFits rows.now kind place bytes.now) result }
{
    if !has_place(rows, place) {
        return false;
    }
    if least_body(kind) > body_room(rows, ends_transaction(place)) {
        return false;
    }
    can_be_header(rows, kind, place, bytes)
}

/// Whether the place is that of the last row, or one more row may follow it.
fn has_place(rows: &Progress, place: Place) -> bool
    requires { has_room_behind rows.now ≡ true }
    ensures { result ≡ (ends_transaction place || nat_lt (suc rows.now.count) max_rows) }
{
    ends_transaction(place) || rows.count + 1 < MAX_ROWS
}

/// How many bytes the smallest body of a row of this type takes.
fn least_body(kind: u8) -> usize
    ensures { result ≡ least_body kind }
{
    match kind {
        row_types::UPDATE => KEYS_OF_THREE + 3,
        row_types::UPSERT => KEYS_OF_THREE + 3,
        _ => KEYS_OF_TWO + 2,
    }
}

/// Whether the bytes can become the header of a row of this type in this place, with the replica id and an lsn
/// that the next row has.
fn can_be_header(rows: &Progress, kind: u8, place: Place, bytes: &[u8]) -> bool
    requires room { has_room_behind rows.now ≡ true }
    requires kind { IsKind kind }
    requires place { row_number place < 2 ^ 64 }
    ensures { Decides (CanHave 0 (header_fields rows.now kind place) bytes.now) result }
{
    let kind = u64::from(kind);
    let first = field(
        keys::TYPE,
        Form::Number {
            least: kind,
            most: kind,
        },
    );
    let replica = field(keys::REPLICA, replicas(rows.last));
    let lsn = field(keys::LSN, lsns(rows.last, ends_transaction(place)));
    match place {
        Place::Alone => {
            let number = field(keys::ROW_NUMBER, Form::Absent);
            can_have(0, 0, &[first, replica, lsn, number], bytes)
        }
        Place::Numbered { number, is_last } => {
            let number = field(
                keys::ROW_NUMBER,
                Form::Number {
                    least: number,
                    most: number,
                },
            );
            let last = field(keys::IS_LAST, last_form(is_last));
            can_have(0, 0, &[first, replica, lsn, number, last], bytes)
        }
    }
}

/// What says that a row is the last one, or isn't.
fn last_form(is_last: bool) -> Form
    ensures { result ≡ last_form is_last }
{
    if is_last {
        Form::Number { least: 1, most: 1 }
    } else {
        Form::NotOne
    }
}

/// The replica ids that the next row may have.
fn replicas(last: Option<Header>) -> Form
    ensures { result ≡ Number (lowest_replica last) (highest_replica last) }
{
    match last {
        Some(last) => {
            let id = u64::from(last.replica.0);
            Form::Number {
                least: id,
                most: id,
            }
        }
        None => Form::Number {
            least: 0,
            most: MAX_REPLICA,
        },
    }
}

/// The lsns that the next row may have, where it ends the transaction or doesn't.
fn lsns(last: Option<Header>, ends: bool) -> Form
    requires { is_lsn_left last ≡ true }
    ensures { result ≡ Number (lowest_lsn last) (highest_lsn ends last) }
{
    let most = if ends { MAX_LSN } else { MAX_LSN - 1 };
    match last {
        Some(last) => Form::Number {
            least: last.lsn.0 + 1,
            most: most.min(last.lsn.0 + 1),
        },
        None => Form::Number { least: 1, most },
    }
}
