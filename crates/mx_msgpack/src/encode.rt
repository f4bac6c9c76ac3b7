//! Encoding values, each in its shortest spelling (MessagePack specification, "Formats").

ghost use Rattle.std.specs.Prelude.{◌≡◌, ◌++◌, ◌∷◌, ◌<◌, ◌≤◌, ◌^◌, length, take, MatchResult};
ghost use Rattle.byteorder.specs.Endian.{big_bytes};
ghost use Rattle.mx_msgpack.specs.Grammar.{max_length};
ghost use Rattle.mx_msgpack.specs.Owned.{list_view, pair_list_view, value_view};
ghost use Rattle.mx_msgpack.specs.Spelling.{array_head, bin_head, IsSpellable, map_head, shortest, shortest_all, shortest_int, shortest_negative, shortest_pairs, shortest_unsigned, str_head};
ghost use Rattle.mx_msgpack.specs.Writing.{ArePairsWritable, AreWritable, Fits64, IsWritable};

use crate::value::Value;
use byteorder::{BigEndian, ByteOrder};
use mx_bytes::Bytes;
use std::alloc::{AllocError, Global};

/// As `write_int`, of an Int of 0 or more.
///
/// # Errors
/// Out of memory; nothing is added.
#[tactic(auto, unfolding(crate::specs::Spelling::shortest_unsigned))]
pub fn write_unsigned(number: u64, out: &mut Bytes) -> Result<(), AllocError>
    ensures { MatchResult result (λ _. out.new ≡ out.old ++ shortest_unsigned number) (λ _. out.new ≡ out.old) }
{
    match number {
        0..0x80 => out.extend_from_slice(&[number as u8])?,
        0x80..0x100 => out.extend_from_slice(&[0xcc, number as u8])?,
        0x100..0x1_0000 => {
            let mut spelled = [0xcd, 0, 0];
            BigEndian::write_u16(&mut spelled[1..], number as u16);
            out.extend_from_slice(&spelled)?;
        }
        0x1_0000..0x1_0000_0000 => {
            let mut spelled = [0xce, 0, 0, 0, 0];
            BigEndian::write_u32(&mut spelled[1..], number as u32);
            out.extend_from_slice(&spelled)?;
        }
        _ => {
            let mut spelled = [0xcf, 0, 0, 0, 0, 0, 0, 0, 0];
            BigEndian::write_u64(&mut spelled[1..], number);
            out.extend_from_slice(&spelled)?;
        }
    }
    Ok(())
}

/// Adds a value in the fewest bytes that spell it.
///
/// # Errors
/// Out of memory; nothing is added.
pub fn write_value(_alloc: Global, value: &Value, out: &mut Bytes) -> Result<(), AllocError>
    requires { IsSpellable (value_view value.now) }
    ensures { MatchResult result (λ _. out.new ≡ out.old ++ shortest (value_view value.now)) (λ _. out.new ≡ out.old) }
{
    let before = out.len();
    let written = write_any(value, out);
    if written.is_err() {
        out.truncate(before);
    }
    written
}

/// As `write_value`, but at an error a prefix of the spelling may have been added.
#[cycle(write)]
fn write_any(value: &Value, out: &mut Bytes) -> Result<(), AllocError>
    requires { IsWritable (value_view value.now) }
    ensures { MatchResult result (λ _. out.new ≡ out.old ++ shortest (value_view value.now)) (λ _. take (length out.old) out.new ≡ out.old) }
{
    match value {
        Value::Nil => out.extend_from_slice(&[0xc0])?,
        Value::Bool(truth) => out.extend_from_slice(&[if *truth { 0xc3 } else { 0xc2 }])?,
        Value::Int(number) => write_int(*number, out)?,
        Value::Str(text) => {
            write_str_head(text.len(), out)?;
            out.extend_from_slice(text.as_slice())?;
        }
        Value::Bin(content) => {
            write_bin_head(content.len(), out)?;
            out.extend_from_slice(content.as_slice())?;
        }
        Value::Array(values) => {
            write_array_head(values.len(), out)?;
            write_all(values.as_slice(), out)?;
        }
        Value::Map(pairs) => {
            write_map_head(pairs.len(), out)?;
            write_pairs(pairs.as_slice(), out)?;
        }
        Value::Opaque(spelling) => out.extend_from_slice(spelling.as_slice())?,
    }
    Ok(())
}

#[cycle(write)]
fn write_all(values: &[Value], out: &mut Bytes) -> Result<(), AllocError>
    requires { AreWritable (list_view values.now) }
    ensures { MatchResult result (λ _. out.new ≡ out.old ++ shortest_all (list_view values.now)) (λ _. take (length out.old) out.new ≡ out.old) }
{
    for value in values {
        write_any(value, out)?;
    }
    Ok(())
}

#[cycle(write)]
fn write_pairs(pairs: &[(Value, Value)], out: &mut Bytes) -> Result<(), AllocError>
    requires { ArePairsWritable (pair_list_view pairs.now) }
    ensures { MatchResult result (λ _. out.new ≡ out.old ++ shortest_pairs (pair_list_view pairs.now)) (λ _. take (length out.old) out.new ≡ out.old) }
{
    for (key, value) in pairs {
        write_any(key, out)?;
        write_any(value, out)?;
    }
    Ok(())
}

/// Adds an Int in the fewest bytes that spell it, which are 1 to 9.
///
/// # Errors
/// Out of memory; nothing is added.
pub fn write_int(number: i128, out: &mut Bytes) -> Result<(), AllocError>
    requires { Fits64 number }
    ensures { MatchResult result (λ _. out.new ≡ out.old ++ shortest_int number) (λ _. out.new ≡ out.old) }
{
    if number >= 0 {
        write_unsigned(number as u64, out)
    } else {
        write_negative((-1 - number) as u64, out)
    }
}

#[tactic(auto, unfolding(crate::specs::Spelling::shortest_negative))]
fn write_negative(below: u64, out: &mut Bytes) -> Result<(), AllocError>
    requires { below < 2 ^ 63 }
    ensures { MatchResult result (λ _. out.new ≡ out.old ++ shortest_negative below) (λ _. out.new ≡ out.old) }
{
    match below {
        0..0x20 => out.extend_from_slice(&[0xff - below as u8])?,
        0x20..0x80 => write_8(0xd0, 0xff - below as u8, out)?,
        0x80..0x8000 => write_16(0xd1, 0xffff - below as u16, out)?,
        0x8000..0x8000_0000 => write_32(0xd2, 0xffff_ffff - below as u32, out)?,
        _ => write_64(0xd3, 0xffff_ffff_ffff_ffff - below, out)?,
    }
    Ok(())
}

/// Adds the shortest head of a Str whose text has `size` bytes. The head has 1, 2, 3 or 5 bytes, and
/// the text is to follow.
///
/// # Errors
/// Out of memory; nothing is added.
#[tactic(auto, unfolding(crate::specs::Spelling::str_head))]
pub fn write_str_head(size: usize, out: &mut Bytes) -> Result<(), AllocError>
    requires { size ≤ max_length }
    ensures { MatchResult result (λ _. out.new ≡ out.old ++ str_head size) (λ _. out.new ≡ out.old) }
{
    match size {
        0..0x20 => out.extend_from_slice(&[0xa0 + size as u8])?,
        0x20..0x100 => write_8(0xd9, size as u8, out)?,
        0x100..0x1_0000 => write_16(0xda, size as u16, out)?,
        _ => write_32(0xdb, size as u32, out)?,
    }
    Ok(())
}

#[tactic(auto, unfolding(crate::specs::Spelling::bin_head))]
fn write_bin_head(size: usize, out: &mut Bytes) -> Result<(), AllocError>
    requires { size ≤ max_length }
    ensures { MatchResult result (λ _. out.new ≡ out.old ++ bin_head size) (λ _. out.new ≡ out.old) }
{
    match size {
        0..0x100 => write_8(0xc4, size as u8, out)?,
        0x100..0x1_0000 => write_16(0xc5, size as u16, out)?,
        _ => write_32(0xc6, size as u32, out)?,
    }
    Ok(())
}

/// Adds the shortest head of an Array of `count` values. The head has 1, 3 or 5 bytes, and the values
/// are to follow.
///
/// # Errors
/// Out of memory; nothing is added.
#[tactic(auto, unfolding(crate::specs::Spelling::array_head))]
pub fn write_array_head(count: usize, out: &mut Bytes) -> Result<(), AllocError>
    requires { count ≤ max_length }
    ensures { MatchResult result (λ _. out.new ≡ out.old ++ array_head count) (λ _. out.new ≡ out.old) }
{
    match count {
        0..0x10 => out.extend_from_slice(&[0x90 + count as u8])?,
        0x10..0x1_0000 => write_16(0xdc, count as u16, out)?,
        _ => write_32(0xdd, count as u32, out)?,
    }
    Ok(())
}

/// Adds the shortest head of a Map of `count` pairs. The head has 1, 3 or 5 bytes, and the pairs are
/// to follow, each a key and then a value.
///
/// # Errors
/// Out of memory; nothing is added.
#[tactic(auto, unfolding(crate::specs::Spelling::map_head))]
pub fn write_map_head(count: usize, out: &mut Bytes) -> Result<(), AllocError>
    requires { count ≤ max_length }
    ensures { MatchResult result (λ _. out.new ≡ out.old ++ map_head count) (λ _. out.new ≡ out.old) }
{
    match count {
        0..0x10 => out.extend_from_slice(&[0x80 + count as u8])?,
        0x10..0x1_0000 => write_16(0xde, count as u16, out)?,
        _ => write_32(0xdf, count as u32, out)?,
    }
    Ok(())
}

fn write_8(leading: u8, number: u8, out: &mut Bytes) -> Result<(), AllocError>
    ensures { MatchResult result (λ _. out.new ≡ out.old ++ leading ∷ big_bytes 1 number) (λ _. out.new ≡ out.old) }
{
    out.extend_from_slice(&[leading, number])
}

fn write_16(leading: u8, number: u16, out: &mut Bytes) -> Result<(), AllocError>
    ensures { MatchResult result (λ _. out.new ≡ out.old ++ leading ∷ big_bytes 2 number) (λ _. out.new ≡ out.old) }
{
    let mut spelled = [leading, 0, 0];
    BigEndian::write_u16(&mut spelled[1..], number);
    out.extend_from_slice(&spelled)
}

fn write_32(leading: u8, number: u32, out: &mut Bytes) -> Result<(), AllocError>
    ensures { MatchResult result (λ _. out.new ≡ out.old ++ leading ∷ big_bytes 4 number) (λ _. out.new ≡ out.old) }
{
    let mut spelled = [leading, 0, 0, 0, 0];
    BigEndian::write_u32(&mut spelled[1..], number);
    out.extend_from_slice(&spelled)
}

fn write_64(leading: u8, number: u64, out: &mut Bytes) -> Result<(), AllocError>
    ensures { MatchResult result (λ _. out.new ≡ out.old ++ leading ∷ big_bytes 8 number) (λ _. out.new ≡ out.old) }
{
    let mut spelled = [leading, 0, 0, 0, 0, 0, 0, 0, 0];
    BigEndian::write_u64(&mut spelled[1..], number);
    out.extend_from_slice(&spelled)
}
