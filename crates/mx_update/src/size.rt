//! How many bytes fields take.

ghost use Rattle.std.specs.Prelude.{◌≡◌, length, IfSome};
ghost use Rattle.mx_msgpack.specs.Spelling.{array_head, str_head};
ghost use Rattle.mx_update.specs.Updates.{field_spelling, tuple_of_fields};
ghost use Rattle.mx_update.specs.Views.{field_view};

use crate::field::Field;
use crate::fields::Fields;

/// The size of the tuple of these fields; `None` where it is more than memory can hold.
pub(crate) fn tuple_size(fields: &Fields<'_>) -> Option<usize>
    ensures { IfSome result (λ size. size ≡ length (tuple_of_fields fields.now)) }
{
    let mut size = array_head_size(fields.len());
    for field in fields.as_slice() {
        size = size.checked_add(field_size(field)?)?;
    }
    Some(size)
}

#[tactic(auto, unfolding(mx_msgpack::specs::Spelling::array_head))]
fn array_head_size(count: usize) -> usize
    ensures { result ≡ length (array_head count) }
{
    match count {
        0..0x10 => 1,
        0x10..0x1_0000 => 3,
        _ => 5,
    }
}

#[tactic(auto, unfolding(mx_msgpack::specs::Spelling::str_head))]
fn text_head_size(size: usize) -> usize
    ensures { result ≡ length (str_head size) }
{
    match size {
        0..0x20 => 1,
        0x20..0x100 => 2,
        0x100..0x1_0000 => 3,
        _ => 5,
    }
}

fn field_size(field: &Field<'_>) -> Option<usize>
    ensures { IfSome result (λ size. size ≡ length (field_spelling (field_view field.now))) }
{
    match field {
        Field::Sent(spelling) => Some(spelling.len()),
        Field::Number(number) => Some(number.size()),
        Field::Text(text) => text_head_size(text.len()).checked_add(text.len()),
    }
}
