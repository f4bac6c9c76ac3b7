//! What the leading byte of a value says (MessagePack specification, "Formats").

ghost use Rattle.std.specs.Prelude.{◌≡◌, ◌⊎◌, ◌≤◌, ◌<◌, length, Ok, Err, IfOk, IfSome};
ghost use Rattle.byteorder.specs.Endian.{big_number};
ghost use Rattle.mx_msgpack.specs.Reading.{Gives, head_at, kind_head, low_head, number_head, signed_head, sized_at, sized_head, unsigned_head};

use crate::bad::Bad;
use byteorder::{BigEndian, ByteOrder};

/// The type of a value, and its number or how much follows.
#[derive(Clone, Copy, PartialEq, Eq)]
pub(crate) enum Head {
    Nil,
    Bool(bool),
    /// A number from -2^63 up to 2^64 - 1.
    Int(i128),
    /// A text of so many bytes.
    Str(u32),
    /// So many bytes.
    Bin(u32),
    /// So many values.
    Array(u32),
    /// So many pairs.
    Map(u32),
    /// A float or an extension, of which so many bytes follow.
    Fixed(u8),
    /// An extension: its type, and so many bytes.
    Extension(u32),
}

/// What a length after a leading byte counts.
#[derive(Clone, Copy, PartialEq, Eq)]
pub(crate) enum Kind {
    Str,
    Bin,
    Array,
    Map,
    Extension,
}

/// `at` is the place of the leading byte.
#[inline]
#[tactic(auto, unfolding(crate::specs::Reading::head_at))]
pub(crate) fn head_at(at: usize, bytes: &[u8]) -> Result<(Head, &[u8]), Bad>
    ensures exact { Gives (λ x. (x.0, x.1.now)) result (head_at at bytes.now) }
    ensures shorter { IfOk result (λ x. length x.1.now < length bytes.now) }
{
    let Some((leading, rest)) = bytes.split_first() else {
        return Err(Bad::Short);
    };
    match *leading {
        0x00..=0x7f => Ok((Head::Int(i128::from(*leading)), rest)),
        0x80..=0x8f => Ok((Head::Map(u32::from(*leading - 0x80)), rest)),
        0x90..=0x9f => Ok((Head::Array(u32::from(*leading - 0x90)), rest)),
        0xa0..=0xbf => Ok((Head::Str(u32::from(*leading - 0xa0)), rest)),
        0xc0..=0xc9 => low_head(at, *leading, rest),
        0xca..=0xd8 => number_head(*leading, rest),
        0xd9..=0xdf => sized_head(*leading, rest),
        0xe0..=0xff => Ok((Head::Int(i128::from(*leading) - 0x100), rest)),
    }
}

/// The head that stands first, where the leading byte alone has its number or length.
#[inline(always)]
#[tactic(auto, unfolding(crate::specs::Reading::head_at))]
pub(crate) fn short_head(bytes: &[u8]) -> Option<(Head, &[u8])>
    ensures head { IfSome result (λ x. head_at 0 bytes.now ≡ Ok (x.0, x.1.now)) }
    ensures shorter { IfSome result (λ x. length x.1.now < length bytes.now) }
{
    let Some((leading, rest)) = bytes.split_first() else {
        return None;
    };
    match *leading {
        0x00..=0x7f => Some((Head::Int(i128::from(*leading)), rest)),
        0x80..=0x8f => Some((Head::Map(u32::from(*leading - 0x80)), rest)),
        0x90..=0x9f => Some((Head::Array(u32::from(*leading - 0x90)), rest)),
        0xa0..=0xbf => Some((Head::Str(u32::from(*leading - 0xa0)), rest)),
        _ => None,
    }
}

/// The head of a leading byte from c0 to c9.
#[inline]
fn low_head(at: usize, leading: u8, rest: &[u8]) -> Result<(Head, &[u8]), Bad>
    ensures exact { Gives (λ x. (x.0, x.1.now)) result (low_head at leading rest.now) }
    ensures shorter { IfOk result (λ x. length x.1.now ≤ length rest.now) }
{
    match leading {
        0xc0 => Ok((Head::Nil, rest)),
        0xc2 => Ok((Head::Bool(false), rest)),
        0xc3 => Ok((Head::Bool(true), rest)),
        0xc4 => sized_at(Kind::Bin, 1, rest),
        0xc5 => sized_at(Kind::Bin, 2, rest),
        0xc6 => sized_at(Kind::Bin, 4, rest),
        0xc7 => sized_at(Kind::Extension, 1, rest),
        0xc8 => sized_at(Kind::Extension, 2, rest),
        0xc9 => sized_at(Kind::Extension, 4, rest),
        _ => Err(Bad::Unused(at)),
    }
}

/// The head of a leading byte from ca to d8.
#[inline]
fn number_head(leading: u8, rest: &[u8]) -> Result<(Head, &[u8]), Bad>
    ensures exact { Gives (λ x. (x.0, x.1.now)) result (number_head leading rest.now) }
    ensures shorter { IfOk result (λ x. length x.1.now ≤ length rest.now) }
{
    match leading {
        0xca => Ok((Head::Fixed(4), rest)),
        0xcb => Ok((Head::Fixed(8), rest)),
        0xcc => unsigned_head(1, rest),
        0xcd => unsigned_head(2, rest),
        0xce => unsigned_head(4, rest),
        0xcf => unsigned_head(8, rest),
        0xd0 => signed_head(1, rest),
        0xd1 => signed_head(2, rest),
        0xd2 => signed_head(4, rest),
        0xd3 => signed_head(8, rest),
        0xd4 => Ok((Head::Fixed(2), rest)),
        0xd5 => Ok((Head::Fixed(3), rest)),
        0xd6 => Ok((Head::Fixed(5), rest)),
        0xd7 => Ok((Head::Fixed(9), rest)),
        _ => Ok((Head::Fixed(17), rest)),
    }
}

/// The head of a leading byte from d9 to df.
#[inline]
fn sized_head(leading: u8, rest: &[u8]) -> Result<(Head, &[u8]), Bad>
    ensures exact { Gives (λ x. (x.0, x.1.now)) result (sized_head leading rest.now) }
    ensures shorter { IfOk result (λ x. length x.1.now ≤ length rest.now) }
{
    match leading {
        0xd9 => sized_at(Kind::Str, 1, rest),
        0xda => sized_at(Kind::Str, 2, rest),
        0xdb => sized_at(Kind::Str, 4, rest),
        0xdc => sized_at(Kind::Array, 2, rest),
        0xdd => sized_at(Kind::Array, 4, rest),
        0xde => sized_at(Kind::Map, 2, rest),
        _ => sized_at(Kind::Map, 4, rest),
    }
}

#[inline]
fn sized_at(kind: Kind, width: usize, rest: &[u8]) -> Result<(Head, &[u8]), Bad>
    requires width { (width ≡ 1) ⊎ (width ≡ 2) ⊎ (width ≡ 4) }
    ensures exact { Gives (λ x. (x.0, x.1.now)) result (sized_at kind width rest.now) }
    ensures shorter { IfOk result (λ x. length x.1.now ≤ length rest.now) }
{
    if rest.len() < width {
        return Err(Bad::Short);
    }
    let (digits, rest) = rest.split_at(width);
    let size = match width {
        1 => u32::from(digits[0]),
        2 => u32::from(BigEndian::read_u16(digits)),
        _ => BigEndian::read_u32(digits),
    };
    Ok((kind_head(kind, size), rest))
}

#[inline]
fn kind_head(kind: Kind, size: u32) -> Head
    ensures { result ≡ kind_head kind size }
{
    match kind {
        Kind::Str => Head::Str(size),
        Kind::Bin => Head::Bin(size),
        Kind::Array => Head::Array(size),
        Kind::Map => Head::Map(size),
        Kind::Extension => Head::Extension(size),
    }
}

#[inline]
fn unsigned_head(width: usize, rest: &[u8]) -> Result<(Head, &[u8]), Bad>
    requires width { (width ≡ 1) ⊎ (width ≡ 2) ⊎ (width ≡ 4) ⊎ (width ≡ 8) }
    ensures exact { Gives (λ x. (x.0, x.1.now)) result (unsigned_head width rest.now) }
    ensures shorter { IfOk result (λ x. length x.1.now ≤ length rest.now) }
{
    if rest.len() < width {
        return Err(Bad::Short);
    }
    let (digits, rest) = rest.split_at(width);
    Ok((Head::Int(i128::from(number_of(digits))), rest))
}

fn signed_head(width: usize, rest: &[u8]) -> Result<(Head, &[u8]), Bad>
    requires width { (width ≡ 1) ⊎ (width ≡ 2) ⊎ (width ≡ 4) ⊎ (width ≡ 8) }
    ensures exact { Gives (λ x. (x.0, x.1.now)) result (signed_head width rest.now) }
    ensures shorter { IfOk result (λ x. length x.1.now ≤ length rest.now) }
{
    if rest.len() < width {
        return Err(Bad::Short);
    }
    let (digits, rest) = rest.split_at(width);
    let number = i128::from(number_of(digits));
    let limit: i128 = match width {
        1 => 1 << 7,
        2 => 1 << 15,
        4 => 1 << 31,
        _ => 1 << 63,
    };
    let signed = if number < limit {
        number
    } else {
        number - 2 * limit
    };
    Ok((Head::Int(signed), rest))
}

#[inline(always)]
pub(crate) fn number_of(digits: &[u8]) -> u64
    requires width { (length digits.now ≡ 1) ⊎ (length digits.now ≡ 2) ⊎ (length digits.now ≡ 4) ⊎ (length digits.now ≡ 8) }
    ensures { result ≡ big_number (length digits.now) digits.now }
{
    match digits.len() {
        1 => u64::from(digits[0]),
        2 => u64::from(BigEndian::read_u16(digits)),
        4 => u64::from(BigEndian::read_u32(digits)),
        _ => BigEndian::read_u64(digits),
    }
}
