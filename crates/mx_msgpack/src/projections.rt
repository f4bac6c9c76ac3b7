//! The value that stands first in some bytes, as a value of one type.

ghost use Rattle.std.specs.Prelude.{◌≡◌};
ghost use Rattle.std.specs.Option.{option_copied, option_map};
ghost use Rattle.mx_msgpack.specs.Projections.{as_array, as_bool, as_int, as_map, as_text, first_as};

use crate::items::Items;
use crate::maps::PairsRef;
use crate::value_ref::{ValueRef, read_ref};

/// The Bool that stands first; `None` where another value stands there, or none.
pub fn bool_in(bytes: &[u8]) -> Option<bool>
    ensures { result ≡ first_as as_bool bytes.now }
{
    match read_ref(bytes) {
        Ok((ValueRef::Bool(truth), _)) => Some(truth),
        _ => None,
    }
}

/// The Int that stands first.
pub fn int_in(bytes: &[u8]) -> Option<i128>
    ensures { result ≡ first_as as_int bytes.now }
{
    match read_ref(bytes) {
        Ok((ValueRef::Int(number), _)) => Some(number),
        _ => None,
    }
}

/// The bytes of the Str that stands first.
pub fn text_in(bytes: &[u8]) -> Option<&[u8]>
    ensures { option_copied result ≡ first_as as_text bytes.now }
{
    match read_ref(bytes) {
        Ok((ValueRef::Str(text), _)) => Some(text),
        _ => None,
    }
}

/// The items of the Array that stands first.
pub fn array_in(bytes: &[u8]) -> Option<Items<'_>>
    ensures { option_map (λ items. (items.count, items.bytes.now)) result ≡ first_as as_array bytes.now }
{
    match read_ref(bytes) {
        Ok((ValueRef::Array { count, items }, _)) => Some(Items {
            count,
            bytes: items,
        }),
        _ => None,
    }
}

/// The pairs of the Map that stands first.
pub fn map_in(bytes: &[u8]) -> Option<PairsRef<'_>>
    ensures { option_map (λ pairs. (pairs.count, pairs.bytes.now)) result ≡ first_as as_map bytes.now }
{
    match read_ref(bytes) {
        Ok((ValueRef::Map { count, items }, _)) => Some(PairsRef {
            count,
            bytes: items,
        }),
        _ => None,
    }
}
