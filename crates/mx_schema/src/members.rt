//! The rows of the space of the nodes of a replica set.

ghost use Rattle.std.specs.Prelude.{◌≡◌};
ghost use Rattle.mx_msgpack.specs.Projections.{as_text, first_as};
ghost use Rattle.mx_msgpack.specs.Readers.{unsigned_in};
ghost use Rattle.mx_schema.specs.Members as spec;

use mx_msgpack::{array_of, parted, text_in, unsigned_in};

/// How the text of a UUID looks in lower case, by RFC 9562; x stands for any hexadecimal digit.
const UUID_FORM: &[u8] = b"xxxxxxxx-xxxx-xxxx-xxxx-xxxxxxxxxxxx";

/// Whether a row is that of a node that joined the replica set: its replica id, from 2 to 31, and its UUID
/// as a text in lower case.
pub fn is_member(row: &[u8]) -> bool
    ensures { result ≡ spec.is_member row.now }
{
    let Some(fields) = array_of(row) else {
        return false;
    };
    if fields.count != 2 {
        return false;
    }
    let (id, rest) = parted(fields.bytes);
    let (uuid, _) = parted(rest);
    is_member_id(id) && is_member_uuid(uuid)
}

fn is_member_id(field: &[u8]) -> bool
    ensures { result ≡ spec.is_member_id (unsigned_in field.now) }
{
    match unsigned_in(field) {
        Some(id) => 2 <= id && id <= 31,
        None => false,
    }
}

fn is_member_uuid(field: &[u8]) -> bool
    ensures { result ≡ spec.is_member_uuid (first_as as_text field.now) }
{
    match text_in(field) {
        Some(text) => has_form(UUID_FORM, text),
        None => false,
    }
}

fn has_form(form: &[u8], text: &[u8]) -> bool
    ensures { result ≡ spec.has_form form.now text.now }
{
    let Some((mark, other_marks)) = form.split_first() else {
        return text.is_empty();
    };
    let Some((code, other_codes)) = text.split_first() else {
        return false;
    };
    let fits = match *mark {
        b'x' => matches!(*code, b'0'..=b'9' | b'a'..=b'f'),
        mark => *code == mark,
    };
    fits && has_form(other_marks, other_codes)
}
