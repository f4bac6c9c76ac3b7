//! A field of a tuple that is updated.

ghost use Rattle.std.specs.Prelude.{◌≡◌};
ghost use Rattle.std.specs.Option.{option_copied};
ghost use Rattle.mx_msgpack.specs.Projections.{as_int, first_as};
ghost use Rattle.mx_update.specs.Updates.{field_number, field_text};
ghost use Rattle.mx_update.specs.Views.{field_view};

use crate::number::Number;
use mx_msgpack::{Bytes, ValueRef, read_ref, text_in};

/// A field: as it was sent, by its spelling, or as it was computed.
#[derive(Drop)]
pub(crate) enum Field<'a> {
    Sent(&'a [u8]),
    Number(Number),
    Text(Bytes),
}

/// The text of a field that is one.
pub(crate) fn text_of<'a>(field: &'a Field<'_>) -> Option<&'a [u8]>
    ensures { option_copied result ≡ field_text (field_view field.now) }
{
    match field {
        Field::Sent(spelling) => text_in(spelling),
        Field::Number(_) => None,
        Field::Text(text) => Some(text.as_slice()),
    }
}

/// The number of a field that is one.
pub(crate) fn number_of(field: &Field<'_>) -> Option<Number>
    ensures { result ≡ field_number (field_view field.now) }
{
    match field {
        Field::Sent(spelling) => number_in(spelling),
        Field::Number(number) => Number::new(&number.value()),
        Field::Text(_) => None,
    }
}

fn number_in(spelling: &[u8]) -> Option<Number>
    ensures { result ≡ first_as as_int spelling.now }
{
    match read_ref(spelling) {
        Ok((ValueRef::Int(number), _)) => Number::new(&number),
        _ => None,
    }
}
