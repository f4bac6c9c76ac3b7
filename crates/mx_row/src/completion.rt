//! Whether bytes in which no whole row stands first can become one.

ghost use Rattle.std.specs.Prelude.{◌≡◌, ◌≤◌, ◌-◌, None, is_some, length, true};
ghost use Rattle.mx_completion.specs.Costs.{AreKeys};
ghost use Rattle.mx_msgpack.specs.Reading.{first_fault};
ghost use Rattle.mx_row.specs.Cuts.{has_room_behind};
ghost use Rattle.mx_row.specs.Rows.{whole_row_at};
ghost use Rattle.mx_row.specs.Stops.{CanFit, CanHave, Decides, IsNumbered, body_room};

use crate::body_completion::body_can_fit;
use crate::header_completion::header_can_fit;
use crate::limits::{MAX_TRANSACTION_SIZE, ROW_HEADER_SIZE};
use crate::progress::{MIN_ROW_SIZE, Progress};
use crate::reading::header_at;
use crate::size::MAX_BODY_SIZE;
use mx_completion::{Field, Form, least_cost};
use mx_msgpack::skip;

/// How many bytes the body of a row takes without its values.
pub(crate) const KEYS_OF_TWO: usize = 3;

pub(crate) const KEYS_OF_THREE: usize = 4;

/// Whether some bytes that follow make a row of the bytes that may follow the rows.
pub(crate) fn can_fit(rows: &Progress, bytes: &[u8]) -> bool
    requires room { has_room_behind rows.now ≡ true }
    requires numbered { IsNumbered rows.now }
    requires none { whole_row_at bytes.now ≡ None }
    ensures { Decides (CanFit rows.now bytes.now) result }
{
    match header_at(bytes) {
        Some((header, rest)) => is_part(rest) && body_can_fit(rows, &header, rest),
        None => is_part(bytes) && header_can_fit(rows, bytes),
    }
}

/// Whether no whole value stands first.
fn is_part(bytes: &[u8]) -> bool
    ensures { result ≡ is_some (first_fault bytes.now) }
{
    skip(bytes).is_err()
}

/// How many bytes a body may take behind the rows.
pub(crate) fn body_room(rows: &Progress, ends: bool) -> usize
    requires { has_room_behind rows.now ≡ true }
    ensures { result ≡ body_room rows.now ends }
{
    let taken = if ends {
        ROW_HEADER_SIZE
    } else {
        ROW_HEADER_SIZE + MIN_ROW_SIZE
    };
    MAX_BODY_SIZE.min(MAX_TRANSACTION_SIZE.saturating_sub(rows.size + taken))
}

/// Whether the bytes can become a map that has the fields and takes no more than this, its keys included.
pub(crate) fn can_have(most: usize, keys: usize, fields: &[Field], bytes: &[u8]) -> bool
    requires keys { AreKeys fields.now }
    requires few { length fields.now ≤ 8 }
    ensures { Decides ((keys ≤ most) × CanHave (most - keys) fields.now bytes.now) result }
{
    keys <= most && least_cost(most - keys, fields, bytes).is_some()
}

pub(crate) fn field(key: u8, form: Form) -> Field
    ensures { result ≡ record { key = key; form = form } }
{
    Field { key, form }
}
