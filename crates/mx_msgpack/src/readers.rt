//! Small pieces that stand first in some bytes, each with the bytes after it.

ghost use Rattle.std.specs.Prelude.{◌≡◌, ◌⊎◌, IfSome, Some};
ghost use Rattle.std.specs.Option.{option_map};
ghost use Rattle.mx_msgpack.specs.Readers.{number_at, unsigned_at, unsigned_in, unsigned_32_at};

use crate::head::number_of;
use crate::value_ref::{ValueRef, read_ref};
use byteorder::{BigEndian, ByteOrder};

/// A number of 4 bytes, the highest first, and the bytes after it; `None` where there are fewer than 4.
pub fn number_at(bytes: &[u8]) -> Option<(u32, &[u8])>
    ensures { option_map (λ x. (x.0, x.1.now)) result ≡ number_at 4 bytes.now }
{
    if bytes.len() < 4 {
        return None;
    }
    let (digits, rest) = bytes.split_at(4);
    Some((BigEndian::read_u32(digits), rest))
}

/// An Int of MessagePack from 0 to `u64::MAX` in any of its spellings, and the bytes after it; `None` where
/// another value stands first, or none.
#[inline(always)]
pub fn unsigned_at(bytes: &[u8]) -> Option<(u64, &[u8])>
    ensures { option_map (λ x. (x.0, x.1.now)) result ≡ unsigned_at bytes.now }
{
    let Some((leading, rest)) = bytes.split_first() else {
        return unsigned_read(bytes);
    };
    match *leading {
        0x00..=0x7f => Some((u64::from(*leading), rest)),
        0xcc => wide_at(1, rest),
        0xcd => wide_at(2, rest),
        0xce => wide_at(4, rest),
        0xcf => wide_at(8, rest),
        _ => unsigned_read(bytes),
    }
}

#[inline(always)]
fn wide_at(width: usize, bytes: &[u8]) -> Option<(u64, &[u8])>
    requires width { (width ≡ 1) ⊎ (width ≡ 2) ⊎ (width ≡ 4) ⊎ (width ≡ 8) }
    ensures { option_map (λ x. (x.0, x.1.now)) result ≡ number_at width bytes.now }
{
    if bytes.len() < width {
        return None;
    }
    let (digits, rest) = bytes.split_at(width);
    Some((number_of(digits), rest))
}

/// As `unsigned_at`, by the value that stands first.
#[inline(never)]
#[tactic(auto, unfolding(crate::specs::Readers::unsigned_at))]
fn unsigned_read(bytes: &[u8]) -> Option<(u64, &[u8])>
    ensures { option_map (λ x. (x.0, x.1.now)) result ≡ unsigned_at bytes.now }
{
    match read_ref(bytes) {
        Ok((ValueRef::Int(number), size)) => match u64::try_from(number) {
            Ok(number) => Some((number, bytes.split_at(size).1)),
            Err(_) => None,
        },
        _ => None,
    }
}

/// The number that stands first as a byte, and the bytes after it.
#[inline(always)]
pub(crate) fn small_at(bytes: &[u8]) -> Option<(u64, &[u8])>
    ensures { IfSome result (λ x. unsigned_at bytes.now ≡ Some (x.0, x.1.now)) }
{
    let Some((leading, rest)) = bytes.split_first() else {
        return None;
    };
    if *leading >= 0x80 {
        return None;
    }
    Some((u64::from(*leading), rest))
}

/// As `unsigned_at`, without the bytes after it.
#[inline]
pub fn unsigned_in(bytes: &[u8]) -> Option<u64>
    ensures { result ≡ unsigned_in bytes.now }
{
    match small_at(bytes) {
        Some((number, _)) => Some(number),
        None => wide_in(bytes),
    }
}

#[inline(never)]
fn wide_in(bytes: &[u8]) -> Option<u64>
    ensures { result ≡ unsigned_in bytes.now }
{
    let Some((leading, rest)) = bytes.split_first() else {
        return read_in(bytes);
    };
    match *leading {
        0xcc => digits_in(1, rest),
        0xcd => digits_in(2, rest),
        0xce => digits_in(4, rest),
        0xcf => digits_in(8, rest),
        _ => read_in(bytes),
    }
}

#[inline(always)]
fn digits_in(width: usize, bytes: &[u8]) -> Option<u64>
    requires width { (width ≡ 1) ⊎ (width ≡ 2) ⊎ (width ≡ 4) ⊎ (width ≡ 8) }
    ensures { result ≡ option_map (λ found. found.0) (number_at width bytes.now) }
{
    if bytes.len() < width {
        return None;
    }
    Some(number_of(bytes.split_at(width).0))
}

#[inline(never)]
fn read_in(bytes: &[u8]) -> Option<u64>
    ensures { result ≡ unsigned_in bytes.now }
{
    let (number, _) = unsigned_read(bytes)?;
    Some(number)
}

/// As `unsigned_at`, from 0 to `u32::MAX`; `None` where a greater number stands first.
#[tactic(auto, unfolding(crate::specs::Readers::unsigned_32_at))]
pub fn unsigned_32_at(bytes: &[u8]) -> Option<(u32, &[u8])>
    ensures { option_map (λ x. (x.0, x.1.now)) result ≡ unsigned_32_at bytes.now }
{
    let (number, rest) = unsigned_at(bytes)?;
    match u32::try_from(number) {
        Ok(number) => Some((number, rest)),
        Err(_) => None,
    }
}
