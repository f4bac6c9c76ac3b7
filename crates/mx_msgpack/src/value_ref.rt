//! A value where it stands in its bytes.

ghost use Rattle.std.specs.Prelude.{◌≡◌, ◌≤◌, Ok, take, length, IfOk};
ghost use Rattle.mx_msgpack.specs.Grammar.{Value, Spells, max_nesting};
ghost use Rattle.mx_msgpack.specs.Reading.{Gives, head_at, reading_of, shown};
ghost use Rattle.mx_msgpack.specs.View.{view, Shows};

use crate::bad::Bad;
use crate::head::{Head, head_at, short_head};
use crate::size::measure_behind;

/// A value in place. A container is its count and the bytes of all that it holds.
#[derive(Clone, Copy)]
pub enum ValueRef<'a> {
    Nil,
    Bool(bool),
    /// A number from -2^63 up to 2^64 - 1.
    Int(i128),
    /// The bytes of a text, which need not be UTF-8.
    Str(&'a [u8]),
    Bin(&'a [u8]),
    /// `count` values.
    Array { count: u32, items: &'a [u8] },
    /// `count` pairs, each a key and then a value.
    Map { count: u32, items: &'a [u8] },
    /// The whole spelling of a float or an extension, its leading byte included.
    Opaque(&'a [u8]),
}

/// Reads the value that stands first, and how many bytes it takes, its head included.
/// Bytes may follow it.
///
/// # Errors
/// The first fault from the left, where no value stands first.
pub fn read_ref(bytes: &[u8]) -> Result<(ValueRef<'_>, usize), Bad>
    ensures spelled { IfOk result (λ x. (x.1 ≤ length bytes.now) × (value : Value)
        × Spells max_nesting value (take x.1 bytes.now) × Shows (view x.0) value) }
    ensures exact { Gives (λ x. (view x.0, x.1)) result (reading_of bytes.now) }
{
    if let Some((head, rest)) = short_head(bytes) {
        return read_behind(head, rest, bytes);
    }
    let (head, rest) = head_at(0, bytes)?;
    read_behind(head, rest, bytes)
}

/// As `read_ref`, from a head on that is read already.
#[inline(always)]
fn read_behind<'a>(
    head: Head,
    rest: &'a [u8],
    bytes: &'a [u8],
) -> Result<(ValueRef<'a>, usize), Bad>
    requires head { head_at 0 bytes.now ≡ Ok (head, rest.now) }
    requires within { length rest.now ≤ length bytes.now }
    ensures spelled { IfOk result (λ x. (x.1 ≤ length bytes.now) × (value : Value)
        × Spells max_nesting value (take x.1 bytes.now) × Shows (view x.0) value) }
    ensures exact { Gives (λ x. (view x.0, x.1)) result (reading_of bytes.now) }
{
    if let Head::Int(_) = head {
        return Ok((value_of(head, rest, bytes), bytes.len() - rest.len()));
    }
    let size = measure_behind(head, rest, bytes)?;
    let (whole, _) = bytes.split_at(size);
    let (content, _) = rest.split_at(size - (bytes.len() - rest.len()));
    Ok((value_of(head, content, whole), size))
}

#[inline(always)]
fn value_of<'a>(head: Head, content: &'a [u8], whole: &'a [u8]) -> ValueRef<'a>
    ensures { view result ≡ shown head content.now whole.now }
{
    match head {
        Head::Nil => ValueRef::Nil,
        Head::Bool(truth) => ValueRef::Bool(truth),
        Head::Int(number) => ValueRef::Int(number),
        Head::Str(_) => ValueRef::Str(content),
        Head::Bin(_) => ValueRef::Bin(content),
        Head::Array(count) => ValueRef::Array {
            count,
            items: content,
        },
        Head::Map(count) => ValueRef::Map {
            count,
            items: content,
        },
        Head::Fixed(_) => ValueRef::Opaque(whole),
        Head::Extension(_) => ValueRef::Opaque(whole),
    }
}
