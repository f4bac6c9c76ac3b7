//! Whether bytes behind a header can become the body of a row.

ghost use Rattle.std.specs.Prelude.{◌≡◌, ◌≤◌, ◌-◌, ◌&&◌, ◌||◌, None, nat_lt, suc, true};
ghost use Rattle.mx_msgpack.specs.Maps.{map_at};
ghost use Rattle.mx_vclock.specs.Vclocks.{max_lsn};
ghost use Rattle.mx_row.specs.Bodies.{delete_type, insert_type, max_body_size, update_type, upsert_type};
ghost use Rattle.mx_row.specs.Cuts.{has_room_behind};
ghost use Rattle.mx_row.specs.Limits.{max_rows};
ghost use Rattle.mx_row.specs.Rows.{ends_transaction};
ghost use Rattle.mx_row.specs.Stops.{BodyFits, CanBeBody, CanHave, Decides, delete_fields, keys_size, tuple_fields, update_fields, upsert_fields};

use crate::completion::{KEYS_OF_THREE, KEYS_OF_TWO, body_room, can_have, field};
use crate::header::Header;
use crate::limits::MAX_ROWS;
use crate::progress::Progress;
use crate::reading::ends_transaction;
use crate::row_types;
use mx_base::keys;
use mx_completion::Form;
use mx_vclock::MAX_LSN;

/// The types of rows, as headers have them.
const INSERT: u64 = row_types::INSERT as u64;

const REPLACE: u64 = row_types::REPLACE as u64;

const UPDATE: u64 = row_types::UPDATE as u64;

const DELETE: u64 = row_types::DELETE as u64;

const UPSERT: u64 = row_types::UPSERT as u64;

/// Whether the bytes behind this header can become a body with which the row may follow the rows.
pub(crate) fn body_can_fit(rows: &Progress, header: &Header, bytes: &[u8]) -> bool
    requires room { has_room_behind rows.now ≡ true }
    requires part { map_at bytes.now ≡ None }
    ensures { Decides (BodyFits rows.now header.now bytes.now) result }
{
    if !rows.may_follow(header) {
        return false;
    }
    if !allows_next(rows, header) {
        return false;
    }
    can_be_body(
        header.kind,
        body_room(rows, ends_transaction(header.place)),
        bytes,
    )
}

/// Whether a row with this header is the last one, or one more may follow by the limits on rows and lsns.
fn allows_next(rows: &Progress, header: &Header) -> bool
    requires { has_room_behind rows.now ≡ true }
    ensures { result ≡ (ends_transaction header.now.place || (nat_lt (suc rows.now.count) max_rows && nat_lt header.now.lsn.0 max_lsn)) }
{
    ends_transaction(header.place) || (rows.count + 1 < MAX_ROWS && header.lsn.0 < MAX_LSN)
}

/// Whether the bytes can become the body of a row of this type that takes no more than this.
fn can_be_body(kind: u64, most: usize, bytes: &[u8]) -> bool
    requires most { most ≤ max_body_size }
    requires part { map_at bytes.now ≡ None }
    ensures { Decides (CanBeBody kind most bytes.now) result }
{
    if kind == INSERT {
        return tuple_can_fit(most, bytes);
    }
    if kind == REPLACE {
        return tuple_can_fit(most, bytes);
    }
    if kind == UPDATE {
        return update_can_fit(most, bytes);
    }
    if kind == DELETE {
        return delete_can_fit(most, bytes);
    }
    if kind == UPSERT {
        return upsert_can_fit(most, bytes);
    }
    false
}

fn tuple_can_fit(most: usize, bytes: &[u8]) -> bool
    ensures { Decides ((keys_size insert_type ≤ most) × CanHave (most - keys_size insert_type) tuple_fields bytes.now) result }
{
    let fields = [
        field(keys::SPACE, Form::Space),
        field(keys::TUPLE, Form::Array),
    ];
    can_have(most, KEYS_OF_TWO, &fields, bytes)
}

fn update_can_fit(most: usize, bytes: &[u8]) -> bool
    ensures { Decides ((keys_size update_type ≤ most) × CanHave (most - keys_size update_type) update_fields bytes.now) result }
{
    let fields = [
        field(keys::SPACE, Form::Space),
        field(keys::BASE, Form::Base),
        field(keys::PARTS, Form::Array),
        field(keys::TUPLE, Form::Operations),
    ];
    can_have(most, KEYS_OF_THREE, &fields, bytes)
}

fn delete_can_fit(most: usize, bytes: &[u8]) -> bool
    ensures { Decides ((keys_size delete_type ≤ most) × CanHave (most - keys_size delete_type) delete_fields bytes.now) result }
{
    let fields = [
        field(keys::SPACE, Form::Space),
        field(keys::PARTS, Form::Array),
    ];
    can_have(most, KEYS_OF_TWO, &fields, bytes)
}

fn upsert_can_fit(most: usize, bytes: &[u8]) -> bool
    ensures { Decides ((keys_size upsert_type ≤ most) × CanHave (most - keys_size upsert_type) upsert_fields bytes.now) result }
{
    let fields = [
        field(keys::SPACE, Form::Space),
        field(keys::BASE, Form::Base),
        field(keys::TUPLE, Form::Array),
        field(keys::OPERATIONS, Form::Operations),
    ];
    can_have(most, KEYS_OF_THREE, &fields, bytes)
}
