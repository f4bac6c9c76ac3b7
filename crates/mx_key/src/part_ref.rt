//! A part of a key where it stands in its bytes.

ghost use Rattle.std.specs.Prelude.{◌≡◌, Some, IfSome};
ghost use Rattle.std.specs.Option.{option_map};
ghost use Rattle.mx_msgpack.specs.Items.{after_value, first_value};
ghost use Rattle.mx_msgpack.specs.View.{view};
ghost use Rattle.mx_key.specs.Arrays.{IsShort};
ghost use Rattle.mx_key.specs.Keys.{IsFit};
ghost use Rattle.mx_key.specs.Parts.{part_in, part_of_type, part_shown};
ghost use Rattle.mx_key.specs.declared.part_ref.PartRef.{PartRef};
ghost use Rattle.mx_key.specs.PartViews.{part_view};

use crate::part::PartKind;
use mx_msgpack::{ValueRef, read_ref};

/// A part in place.
#[derive(Clone, Copy)]
pub enum PartRef<'a> {
    Boolean(bool),
    Integer(i128),
    Text(&'a [u8]),
    Binary(&'a [u8]),
}

/// The part of this type that a value's spelling is.
#[tactic(auto, unfolding(crate::specs::Parts::part_in))]
pub fn part_in(kind: PartKind, spelling: &[u8]) -> Option<PartRef<'_>>
    ensures exact { option_map part_view result ≡ part_in kind spelling.now }
    ensures fit { (part : PartRef) → result ≡ Some part → IsFit (part_view part) }
{
    let Ok((value, _)) = read_ref(spelling) else {
        return None;
    };
    part_of_type(kind, value)
}

/// The part of this type that stands first among values in a row, and the bytes after it.
pub fn part_at(kind: PartKind, bytes: &[u8]) -> Option<(PartRef<'_>, &[u8])>
    ensures exact { option_map (λ x. part_view x.0) result ≡ part_in kind (first_value bytes.now) }
    ensures after { IfSome result (λ x. x.1.now ≡ after_value bytes.now) }
    ensures fit { IfSome result (λ x. IsFit (part_view x.0)) }
    ensures short { IfSome result (λ x. IsShort (part_view x.0)) }
{
    let Ok((value, size)) = read_ref(bytes) else {
        return None;
    };
    let part = part_of_type(kind, value)?;
    let (_, after) = bytes.split_at(size);
    Some((part, after))
}

fn part_of_type(kind: PartKind, value: ValueRef<'_>) -> Option<PartRef<'_>>
    ensures { option_map part_view result ≡ part_of_type kind (view value.entry) }
{
    if kind.value_type().takes(&value) {
        part_of(value)
    } else {
        None
    }
}

fn part_of(value: ValueRef<'_>) -> Option<PartRef<'_>>
    ensures { option_map part_view result ≡ part_shown (view value.entry) }
{
    match value {
        ValueRef::Bool(truth) => Some(PartRef::Boolean(truth)),
        ValueRef::Int(number) => Some(PartRef::Integer(number)),
        ValueRef::Str(text) => Some(PartRef::Text(text)),
        ValueRef::Bin(content) => Some(PartRef::Binary(content)),
        ValueRef::Nil => None,
        ValueRef::Array { .. } => None,
        ValueRef::Map { .. } => None,
        ValueRef::Opaque(_) => None,
    }
}
