//! Values that stand in a row, and the items of an array, in place.

ghost use Rattle.std.specs.Prelude.{◌≡◌, ℕ, Some, is_some};
ghost use Rattle.std.specs.Option.{option_map};
ghost use Rattle.mx_msgpack.specs.declared.head.Head.TheVariants.{Array};
ghost use Rattle.mx_msgpack.specs.Items.{IsArray, IsOneValue, array_of, first_value, after_value};
ghost use Rattle.mx_msgpack.specs.Lookups.{is_array_head};
ghost use Rattle.mx_msgpack.specs.Projections.{as_array, first_as};

use crate::head::{Head, head_at, short_head};
use crate::size::skip;
use crate::value_ref::{ValueRef, read_ref};

/// So many values, and the bytes in which they stand in a row.
#[derive(Clone, Copy, Drop)]
pub struct Items<'a> {
    pub count: u32,
    pub bytes: &'a [u8],
}

/// The spelling of the value that stands first, and the bytes after it; no bytes where none does.
#[inline]
pub fn parted(bytes: &[u8]) -> (&[u8], &[u8])
    ensures first { result.0.now ≡ first_value bytes.now }
    ensures after { result.1.now ≡ after_value bytes.now }
{
    match skip(bytes) {
        Ok(size) => bytes.split_at(size),
        Err(_) => (&[], &[]),
    }
}

/// The items of the array that these bytes are; `None` where they aren't one array and nothing else.
#[tactic(auto, unfolding(crate::specs::Items::array_of))]
pub fn array_of(bytes: &[u8]) -> Option<Items<'_>>
    ensures { option_map (λ items. (items.count, items.bytes.now)) result ≡ array_of bytes.now }
{
    match read_ref(bytes) {
        Ok((ValueRef::Array { count, items }, size)) if size == bytes.len() => Some(Items {
            count,
            bytes: items,
        }),
        _ => None,
    }
}

/// The items of the array that these bytes are, by its head alone.
#[inline]
pub fn known_array(bytes: &[u8]) -> Items<'_>
    requires array { IsArray bytes.now }
    ensures { array_of bytes.now ≡ Some (result.count, result.bytes.now) }
{
    if let Some((head, items)) = short_head(bytes) {
        return Items {
            count: item_count(head),
            bytes: items,
        };
    }
    match head_at(0, bytes) {
        Ok((head, items)) => Items {
            count: item_count(head),
            bytes: items,
        },
        Err(_) => Items {
            count: 0,
            bytes: &[],
        },
    }
}

/// How many items follow the head, where it is an array's.
#[inline(always)]
fn item_count(head: Head) -> u32
    ensures { (count : ℕ) → head ≡ Array count → result ≡ count }
{
    match head {
        Head::Array(count) => count,
        Head::Nil => 0,
        Head::Bool(_) => 0,
        Head::Int(_) => 0,
        Head::Str(_) => 0,
        Head::Bin(_) => 0,
        Head::Map(_) => 0,
        Head::Fixed(_) => 0,
        Head::Extension(_) => 0,
    }
}

/// Whether the value that these bytes are is an array, by its head.
#[inline]
pub fn is_array(value: &[u8]) -> bool
    requires { IsOneValue value.now }
    ensures { result ≡ is_some (first_as as_array value.now) }
{
    match short_head(value) {
        Some((head, _)) => is_array_head(head),
        None => is_long_array(value),
    }
}

#[inline(never)]
fn is_long_array(value: &[u8]) -> bool
    requires { IsOneValue value.now }
    ensures { result ≡ is_some (first_as as_array value.now) }
{
    match head_at(0, value) {
        Ok((head, _)) => is_array_head(head),
        Err(_) => false,
    }
}

#[inline(always)]
fn is_array_head(head: Head) -> bool
    ensures { result ≡ is_array_head head }
{
    matches!(head, Head::Array(_))
}
