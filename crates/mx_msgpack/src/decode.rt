//! Decoding a value that is owned.

ghost use Rattle.std.specs.Prelude.{◌≡◌, ◌≤◌, ◌<◌, ◌+◌, ◌-◌, ◌*◌, ◌⊎◌, ℕ, List, suc, take, drop, length, Some, Err, Ok, IfOk, IfErr};
ghost use Rattle.mx_msgpack.specs.declared.bad.Bad.{Bad};
ghost use Rattle.mx_msgpack.specs.declared.bad.Bad.TheVariants.{Deep, Long};
ghost use Rattle.mx_msgpack.specs.declared.decode.ReadBad.TheVariants.{Bad as Faulty, NoMemory};
ghost use Rattle.mx_msgpack.specs.Grammar.{Spells, max_length, max_nesting};
ghost use Rattle.mx_msgpack.specs.Reading.{after_all, after_bytes, after_first, first_fault};
ghost use Rattle.mx_msgpack.specs.Spelling.{IsSpellable};
ghost use Rattle.mx_msgpack.specs.Owned.{SpelledUpTo, AllSpelledUpTo, PairsSpelledUpTo, list_view, pair_list_view, pair_list, value_view, value_list};

use crate::bad::Bad;
use crate::head::{Head, head_at};
use crate::size::{MAX_LENGTH, MAX_NESTING, skip};
use crate::value::{Pairs, Value, Values};
use mx_bytes::Bytes;
use std::alloc::{AllocError, Global};
use thiserror::Error;

/// Why no value was read.
#[derive(Clone, Copy, Debug, Drop, PartialEq, Eq, Error)]
pub enum ReadBad {
    /// No value stands first.
    #[error("{0}")]
    Bad(Bad),
    #[error("memory ran out")]
    NoMemory,
}

impl From<Bad> for ReadBad {
    ghost from_gives = { λ bad e. e ≡ Faulty bad };

    fn from(bad: Bad) -> ReadBad {
        ReadBad::Bad(bad)
    }
}

impl From<AllocError> for ReadBad {
    ghost from_gives = { λ _ e. e ≡ NoMemory };

    fn from(_: AllocError) -> ReadBad {
        ReadBad::NoMemory
    }
}

/// Reads the value that stands first, and how many bytes it takes, its head included.
/// Bytes may follow it. Nothing is allocated where no value stands first.
///
/// # Errors
/// The first fault from the left, where no value stands first; or out of memory.
pub fn read_value(alloc: Global, bytes: &[u8]) -> Result<(Value, usize), ReadBad>
    ensures spelled { IfOk result (λ x. (x.1 ≤ length bytes.now)
        × Spells max_nesting (value_view x.0) (take x.1 bytes.now)) }
    ensures spellable { IfOk result (λ x. IsSpellable (value_view x.0)) }
    ensures fault { (bad : Bad) → result ≡ Err (Faulty bad) → first_fault bytes.now ≡ Some bad }
{
    skip(bytes)?;
    let (value, rest) = read_any(alloc, bytes.len(), MAX_NESTING, bytes)?;
    Ok((value, bytes.len() - rest.len()))
}

/// `bytes` is the end of `total` bytes, and at most `room` containers may stand one inside the other.
#[cycle(read)]
fn read_any(
    alloc: Global,
    total: usize,
    room: usize,
    bytes: &[u8],
) -> Result<(Value, &[u8]), ReadBad>
    requires { length bytes.now ≤ total }
    ensures found { IfOk result (λ x. SpelledUpTo room (value_view x.0) bytes.now x.1.now) }
    ensures shorter { IfOk result (λ x. length x.1.now ≤ length bytes.now) }
    ensures fault { (bad : Bad) → result ≡ Err (Faulty bad) → after_first total room bytes.now ≡ Err bad }
{
    let at = total - bytes.len();
    let (head, after) = head_at(at, bytes)?;
    match head {
        Head::Nil => Ok((Value::Nil, after)),
        Head::Bool(truth) => Ok((Value::Bool(truth), after)),
        Head::Int(number) => Ok((Value::Int(number), after)),
        Head::Str(size) => {
            let (text, rest) = read_bytes(alloc, at, size, after)?;
            Ok((Value::Str(text), rest))
        }
        Head::Bin(size) => {
            let (content, rest) = read_bytes(alloc, at, size, after)?;
            Ok((Value::Bin(content), rest))
        }
        Head::Array(count) => {
            let inner = room_inside(at, room, count)?;
            let (values, rest) = read_values(alloc, total, inner, count, after)?;
            Ok((Value::Array(values), rest))
        }
        Head::Map(count) => {
            let inner = room_inside(at, room, count)?;
            let (pairs, rest) = read_pairs(alloc, total, inner, count, after)?;
            Ok((Value::Map(pairs), rest))
        }
        Head::Fixed(size) => {
            let (spelling, rest) = read_opaque(
                alloc,
                at,
                u32::from(size),
                usize::from(size),
                bytes,
                after,
            )?;
            Ok((Value::Opaque(spelling), rest))
        }
        Head::Extension(size) => {
            let (spelling, rest) = read_opaque(alloc, at, size, size as usize + 1, bytes, after)?;
            Ok((Value::Opaque(spelling), rest))
        }
    }
}

#[cycle(read)]
fn read_values(
    alloc: Global,
    total: usize,
    room: usize,
    count: u32,
    bytes: &[u8],
) -> Result<(Values, &[u8]), ReadBad>
    requires { length bytes.now ≤ total }
    ensures found { IfOk result (λ x. (length (value_list x.0) ≡ count)
        × AllSpelledUpTo room (list_view (value_list x.0)) bytes.now x.1.now) }
    ensures shorter { IfOk result (λ x. length x.1.now ≤ length bytes.now) }
    ensures fault { (bad : Bad) → result ≡ Err (Faulty bad) → after_all (after_first total room) count bytes.now ≡ Err bad }
{
    let mut values = Values::new(alloc);
    let mut rest = bytes;
    let mut left = count;
    while left > 0 {
        let (value, after) = read_any(alloc, total, room, rest)?;
        values.push(value)?;
        rest = after;
        left -= 1;
    }
    Ok((values, rest))
}

#[cycle(read)]
fn read_pairs(
    alloc: Global,
    total: usize,
    room: usize,
    count: u32,
    bytes: &[u8],
) -> Result<(Pairs, &[u8]), ReadBad>
    requires { length bytes.now ≤ total }
    ensures found { IfOk result (λ x. (length (pair_list x.0) ≡ count)
        × PairsSpelledUpTo room (pair_list_view (pair_list x.0)) bytes.now x.1.now) }
    ensures shorter { IfOk result (λ x. length x.1.now ≤ length bytes.now) }
    ensures fault { (bad : Bad) → result ≡ Err (Faulty bad) → after_all (after_first total room) (2 * count) bytes.now ≡ Err bad }
{
    let mut pairs = Pairs::new(alloc);
    let mut rest = bytes;
    let mut left = count;
    while left > 0 {
        let (key, middle) = read_any(alloc, total, room, rest)?;
        let (value, after) = read_any(alloc, total, room, middle)?;
        pairs.push((key, value))?;
        rest = after;
        left -= 1;
    }
    Ok((pairs, rest))
}

fn room_inside(at: usize, room: usize, count: u32) -> Result<usize, Bad>
    ensures found { IfOk result (λ inner. (room ≡ suc inner) × (count ≤ max_length)) }
    ensures fault { IfErr result (λ bad. ((room ≡ 0) × (bad ≡ Deep at))
        ⊎ ((room ≡ suc (room - 1)) × (max_length < count) × (bad ≡ Long at))) }
{
    if room == 0 {
        return Err(Bad::Deep(at));
    }
    if count > MAX_LENGTH {
        return Err(Bad::Long(at));
    }
    Ok(room - 1)
}

fn read_bytes(alloc: Global, at: usize, size: u32, after: &[u8]) -> Result<(Bytes, &[u8]), ReadBad>
    ensures found { IfOk result (λ x. (size ≤ max_length) × (size ≤ length after.now)
        × (x.0 ≡ take size after.now) × (x.1.now ≡ drop size after.now)) }
    ensures fault { (bad : Bad) → result ≡ Err (Faulty bad) → after_bytes at size size after.now ≡ Err bad }
{
    if size > MAX_LENGTH {
        return Err(ReadBad::Bad(Bad::Long(at)));
    }
    if after.len() < size as usize {
        return Err(ReadBad::Bad(Bad::Short));
    }
    let (content, rest) = after.split_at(size as usize);
    Ok((Bytes::from_slice(alloc, content)?, rest))
}

fn read_opaque<'a>(
    alloc: Global,
    at: usize,
    announced: u32,
    size: usize,
    bytes: &'a [u8],
    after: &'a [u8],
) -> Result<(Bytes, &'a [u8]), ReadBad>
    requires { length after.now ≤ length bytes.now }
    ensures found { IfOk result (λ x. (announced ≤ max_length) × (size ≤ length after.now)
        × (x.0 ≡ take (length bytes.now - length after.now + size) bytes.now) × (x.1.now ≡ drop size after.now)) }
    ensures fault { (bad : Bad) → result ≡ Err (Faulty bad) → after_bytes at announced size after.now ≡ Err bad }
{
    if announced > MAX_LENGTH {
        return Err(ReadBad::Bad(Bad::Long(at)));
    }
    if after.len() < size {
        return Err(ReadBad::Bad(Bad::Short));
    }
    let (whole, _) = bytes.split_at(bytes.len() - after.len() + size);
    let (_, rest) = after.split_at(size);
    Ok((Bytes::from_slice(alloc, whole)?, rest))
}
