//! What the leading byte of a value says (MessagePack specification, "Formats").

ghost use Rattle.std.specs.Prelude.{◌≡◌, ◌⊎◌, ◌≤◌, ◌<◌, ◌*◌, ◌^◌, slice_index, IfSome};
ghost use Rattle.byteorder.specs.Endian.{big_number};
ghost use Rattle.mx_msgpack.specs.Grammar.{max_length};
ghost use Rattle.mx_completion.specs.LeadingBytes.{IsSized, follow_count, holds_values, leading_of, leads, low_leading, number_leading, sized_leading};

/// The type of a value.
#[derive(Clone, Copy, PartialEq, Eq)]
pub(crate) enum Kind {
    Int,
    Text,
    Array,
    Map,
    Extension,
    /// Nil, a Bool, a Bin or a float, or an extension of a fixed length.
    Other,
}

/// A value's type, and how many bytes behind the leading byte its length takes, or the length where it
/// takes none.
#[derive(Clone, Copy, PartialEq, Eq)]
pub(crate) struct Leading {
    pub(crate) kind: Kind,
    pub(crate) width: usize,
    pub(crate) length: usize,
}

/// `None` for a byte that begins no value.
#[tactic(auto, unfolding(crate::specs::LeadingBytes::leading_of))]
pub(crate) fn leading_of(byte: u8) -> Option<Leading>
    ensures exact { result ≡ leading_of byte }
    ensures sized { IfSome result IsSized }
{
    match byte {
        0x00..=0x7f => leads(Kind::Int, 0, 0),
        0x80..=0x8f => leads(Kind::Map, 0, usize::from(byte - 0x80)),
        0x90..=0x9f => leads(Kind::Array, 0, usize::from(byte - 0x90)),
        0xa0..=0xbf => leads(Kind::Text, 0, usize::from(byte - 0xa0)),
        0xc0..=0xc9 => low_leading(byte),
        0xca..=0xd8 => number_leading(byte),
        0xd9..=0xdf => sized_leading(byte),
        0xe0..=0xff => leads(Kind::Int, 0, 0),
    }
}

#[inline(always)]
fn leads(kind: Kind, width: usize, length: usize) -> Option<Leading>
    ensures { result ≡ leads kind width length }
{
    Some(Leading {
        kind,
        width,
        length,
    })
}

/// A leading byte from c0 to c9.
fn low_leading(byte: u8) -> Option<Leading>
    ensures exact { result ≡ low_leading byte }
    ensures sized { IfSome result IsSized }
{
    match byte {
        0xc0 => leads(Kind::Other, 0, 0),
        0xc2 => leads(Kind::Other, 0, 0),
        0xc3 => leads(Kind::Other, 0, 0),
        0xc4 => leads(Kind::Other, 1, 0),
        0xc5 => leads(Kind::Other, 2, 0),
        0xc6 => leads(Kind::Other, 4, 0),
        0xc7 => leads(Kind::Extension, 1, 0),
        0xc8 => leads(Kind::Extension, 2, 0),
        0xc9 => leads(Kind::Extension, 4, 0),
        _ => None,
    }
}

/// A leading byte from ca to d8: of a number, a float or an extension of a fixed length.
fn number_leading(byte: u8) -> Option<Leading>
    ensures exact { result ≡ number_leading byte }
    ensures sized { IfSome result IsSized }
{
    match byte {
        0xca => leads(Kind::Other, 0, 4),
        0xcb => leads(Kind::Other, 0, 8),
        0xcc => leads(Kind::Int, 0, 1),
        0xcd => leads(Kind::Int, 0, 2),
        0xce => leads(Kind::Int, 0, 4),
        0xcf => leads(Kind::Int, 0, 8),
        0xd0 => leads(Kind::Int, 0, 1),
        0xd1 => leads(Kind::Int, 0, 2),
        0xd2 => leads(Kind::Int, 0, 4),
        0xd3 => leads(Kind::Int, 0, 8),
        0xd4 => leads(Kind::Other, 0, 2),
        0xd5 => leads(Kind::Other, 0, 3),
        0xd6 => leads(Kind::Other, 0, 5),
        0xd7 => leads(Kind::Other, 0, 9),
        _ => leads(Kind::Other, 0, 17),
    }
}

/// A leading byte from d9 to df.
fn sized_leading(byte: u8) -> Option<Leading>
    ensures exact { result ≡ sized_leading byte }
    ensures sized { IfSome result IsSized }
{
    match byte {
        0xd9 => leads(Kind::Text, 1, 0),
        0xda => leads(Kind::Text, 2, 0),
        0xdb => leads(Kind::Text, 4, 0),
        0xdc => leads(Kind::Array, 2, 0),
        0xdd => leads(Kind::Array, 4, 0),
        0xde => leads(Kind::Map, 2, 0),
        _ => leads(Kind::Map, 4, 0),
    }
}

/// The number in the first bytes, as if zeros followed them.
pub(crate) fn padded_number(width: usize, bytes: &[u8]) -> usize
    requires { (width ≡ 0) ⊎ (width ≡ 1) ⊎ (width ≡ 2) ⊎ (width ≡ 4) }
    ensures exact { result ≡ big_number width bytes.now }
    ensures small { result < 2 ^ 32 }
{
    match width {
        0 => 0,
        1 => digit(bytes, 0),
        2 => 0x100 * digit(bytes, 0) + digit(bytes, 1),
        _ => {
            0x100_0000 * digit(bytes, 0)
                + 0x1_0000 * digit(bytes, 1)
                + 0x100 * digit(bytes, 2)
                + digit(bytes, 3)
        }
    }
}

fn digit(bytes: &[u8], place: usize) -> usize
    ensures exact { result ≡ slice_index bytes.now place }
    ensures small { result < 0x100 }
{
    if place < bytes.len() {
        usize::from(bytes[place])
    } else {
        0
    }
}

/// Whether what follows is values.
pub(crate) fn holds_values(kind: Kind) -> bool
    ensures { result ≡ holds_values kind }
{
    match kind {
        Kind::Int => false,
        Kind::Text => false,
        Kind::Array => true,
        Kind::Map => true,
        Kind::Extension => false,
        Kind::Other => false,
    }
}

/// How many bytes or values follow a head of this length.
pub(crate) fn follow_count(kind: Kind, length: usize) -> usize
    requires { length ≤ max_length }
    ensures exact { result ≡ follow_count kind length }
    ensures few { result ≤ 2 * max_length }
{
    match kind {
        Kind::Int => length,
        Kind::Text => length,
        Kind::Array => length,
        Kind::Map => 2 * length,
        // Its type stands before its bytes.
        Kind::Extension => length + 1,
        Kind::Other => length,
    }
}
