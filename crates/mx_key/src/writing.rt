//! Writing the comparable bytes of one part.

ghost use Rattle.std.specs.Prelude.{◌≡◌, ◌++◌, ◌∷◌, ◌<◌, ◌^◌, Some, None, OnOk, IfOk, MatchOption};
ghost use Rattle.mx_msgpack.specs.Items.{after_value, first_value};
ghost use Rattle.mx_msgpack.specs.Writing.{Fits64};
ghost use Rattle.mx_key.specs.Comparable.{part_bytes, number_above_least, content_bytes, with_escapes};
ghost use Rattle.mx_key.specs.declared.part.PartKind.TheVariants.{Unsigned};
ghost use Rattle.mx_key.specs.Keys.{KeyPart, IsFit, Boolean, Integer};
ghost use Rattle.mx_key.specs.Parts.{part_in};
ghost use Rattle.mx_key.specs.PartViews.{part_view};

use crate::part::PartKind;
use crate::part_ref::{PartRef, part_at};
use byteorder::{BigEndian, ByteOrder};
use memchr::memchr;
use mx_msgpack::{Bytes, unsigned_at};
use std::alloc::AllocError;

/// The first byte of a Boolean, by which it stands before parts of other kinds.
pub const BOOLEAN: u8 = 2;

/// The first byte of a number.
pub const NUMBER: u8 = 3;

/// How many bytes a Boolean has, its kind included.
pub const BOOLEAN_SIZE: usize = 2;

/// How many bytes a number has, its kind included.
pub const NUMBER_SIZE: usize = 10;

/// Stands behind each byte 0 of a text or of other bytes.
pub const ESCAPE: u8 = 255;

/// How many numbers 8 bytes spell.
const WIDE: u128 = 0x1_0000_0000_0000_0000;

/// Adds a part's comparable bytes.
///
/// # Errors
/// A prefix of the bytes may have been added.
pub fn write_part(part: PartRef<'_>, out: &mut Bytes) -> Result<(), AllocError>
    ensures { OnOk result (IsFit (part_view part.entry) → out.new ≡ out.old ++ part_bytes (part_view part.entry)) }
{
    write_before(part, 0, out)
}

/// Adds the comparable bytes of the part of this type that stands first among values in a row, and makes
/// room for so many bytes behind them. Returns the bytes after the part; `None` where no such part stands
/// first.
///
/// # Errors
/// A prefix of the bytes may have been added.
#[inline]
pub fn write_first<'a>(
    kind: PartKind,
    bytes: &'a [u8],
    behind: usize,
    out: &mut Bytes,
) -> Result<Option<&'a [u8]>, AllocError>
    ensures { IfOk result (λ found. MatchOption found
        (part_in kind (first_value bytes.now) ≡ None)
        (λ after. (part : KeyPart) × (part_in kind (first_value bytes.now) ≡ Some part) × IsFit part
        × (after.now ≡ after_value bytes.now) × (out.new ≡ out.old ++ part_bytes part))) }
{
    match kind {
        PartKind::Unsigned => write_unsigned(bytes, behind, out),
        PartKind::Integer
        | PartKind::String
        | PartKind::Boolean
        | PartKind::Varbinary
        | PartKind::Scalar => write_any(kind, bytes, behind, out),
    }
}

/// As `write_first`, of a number of 0 or more.
#[inline]
fn write_unsigned<'a>(
    bytes: &'a [u8],
    behind: usize,
    out: &mut Bytes,
) -> Result<Option<&'a [u8]>, AllocError>
    ensures { IfOk result (λ found. MatchOption found
        (part_in Unsigned (first_value bytes.now) ≡ None)
        (λ after. (part : KeyPart) × (part_in Unsigned (first_value bytes.now) ≡ Some part) × IsFit part
        × (after.now ≡ after_value bytes.now) × (out.new ≡ out.old ++ part_bytes part))) }
{
    let Some((number, after)) = unsigned_at(bytes) else {
        return Ok(None);
    };
    write_number(i128::from(number), behind, out)?;
    Ok(Some(after))
}

/// As `write_first`, by the value that stands first.
#[inline(never)]
fn write_any<'a>(
    kind: PartKind,
    bytes: &'a [u8],
    behind: usize,
    out: &mut Bytes,
) -> Result<Option<&'a [u8]>, AllocError>
    ensures { IfOk result (λ found. MatchOption found
        (part_in kind (first_value bytes.now) ≡ None)
        (λ after. (part : KeyPart) × (part_in kind (first_value bytes.now) ≡ Some part) × IsFit part
        × (after.now ≡ after_value bytes.now) × (out.new ≡ out.old ++ part_bytes part))) }
{
    let Some((part, after)) = part_at(kind, bytes) else {
        return Ok(None);
    };
    write_before(part, behind, out)?;
    Ok(Some(after))
}

/// As `write_part`, and makes room for so many bytes behind the part.
fn write_before(part: PartRef<'_>, behind: usize, out: &mut Bytes) -> Result<(), AllocError>
    ensures { OnOk result (IsFit (part_view part.entry) → out.new ≡ out.old ++ part_bytes (part_view part.entry)) }
{
    match part {
        PartRef::Boolean(truth) => write_truth(truth, behind, out),
        PartRef::Integer(number) => write_number(number, behind, out),
        PartRef::Text(text) => write_content(4, text, behind, out),
        PartRef::Binary(content) => write_content(5, content, behind, out),
    }
}

fn write_truth(truth: bool, behind: usize, out: &mut Bytes) -> Result<(), AllocError>
    ensures { OnOk result (out.new ≡ out.old ++ part_bytes (Boolean truth)) }
{
    out.reserve(behind.saturating_add(BOOLEAN_SIZE))?;
    out.extend_from_slice(&[BOOLEAN, u8::from(truth)])
}

#[inline]
fn write_number(number: i128, behind: usize, out: &mut Bytes) -> Result<(), AllocError>
    ensures { OnOk result (Fits64 number → out.new ≡ out.old ++ part_bytes (Integer number)) }
{
    let above = number_above_least(number);
    let mut spelled = [NUMBER, (above / WIDE) as u8, 0, 0, 0, 0, 0, 0, 0, 0];
    BigEndian::write_u64(&mut spelled[2..], (above % WIDE) as u64);
    out.reserve(behind.saturating_add(NUMBER_SIZE))?;
    out.extend_from_slice(&spelled)?;
    Ok(())
}

/// How far a number of 64 bits is above the least one; 0 for other numbers.
#[inline]
fn number_above_least(number: i128) -> u128
    ensures exact { Fits64 number → result ≡ number_above_least number }
    ensures fits { result < 2 ^ 65 }
{
    if number < -0x8000_0000_0000_0000 || number > 0xffff_ffff_ffff_ffff {
        return 0;
    }
    (number + 0x8000_0000_0000_0000) as u128
}

fn write_content(kind: u8, content: &[u8], behind: usize, out: &mut Bytes) -> Result<(), AllocError>
    ensures { OnOk result (out.new ≡ out.old ++ kind ∷ content_bytes content.now) }
{
    out.reserve(behind.saturating_add(content.len() + 3))?;
    out.extend_from_slice(&[kind])?;
    write_escaped(content, out)?;
    out.extend_from_slice(&[0, 0])
}

/// Each byte 0 with its escape.
fn write_escaped(content: &[u8], out: &mut Bytes) -> Result<(), AllocError>
    ensures { OnOk result (out.new ≡ out.old ++ with_escapes content.now) }
{
    let mut rest = content;
    while let Some(place) = memchr(0, rest) {
        let (front, zero) = rest.split_at(place);
        out.extend_from_slice(front)?;
        out.extend_from_slice(&[0, ESCAPE])?;
        (_, rest) = zero.split_at(1);
    }
    out.extend_from_slice(rest)?;
    Ok(())
}
