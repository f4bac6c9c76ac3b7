//! The length of a value, found without recursion.

ghost use Rattle.std.specs.Prelude.{◌≡◌, ◌-◌, ◌<◌, ◌≤◌, ℕ, true, List, ◌∷◌, Ok, take, length, IfOk, IfErr, IfSome, Some, None};
ghost use Rattle.std.specs.Option.{option_copied};
ghost use Rattle.mx_msgpack.specs.Grammar.{Value, Spells, max_nesting};
ghost use Rattle.mx_msgpack.specs.Reading.{Gives, after_bytes, after_first, head_at, measured, first_fault};
ghost use Rattle.mx_msgpack.specs.Steps.{IsPlain, after_inner, fixed_size, step_behind, step_over};

use crate::bad::Bad;
use crate::head::{Head, head_at};

/// How many containers may stand one inside the other.
pub(crate) const MAX_NESTING: usize = 64;

/// How many bytes a text, bytes or an extension may have, and how many values or pairs a container.
pub const MAX_LENGTH: u32 = 2_097_152;

/// The maximum number of bytes after a leading byte that alone gives the value's length.
const MAX_PLAIN: usize = 31;

/// What a container announces: so many values, or pairs of two of them.
#[derive(Clone, Copy)]
pub(crate) struct Inside {
    announced: u32,
    each: u32,
}

/// How many bytes the value takes that stands first, its head included. Bytes may follow it.
///
/// # Errors
/// The first fault from the left, where no value stands first.
#[inline]
pub fn skip(bytes: &[u8]) -> Result<usize, Bad>
    ensures spelled { IfOk result (λ size. (size ≤ length bytes.now) × (value : Value) × Spells max_nesting value (take size bytes.now)) }
    ensures only { (value : Value) (size : ℕ) → size ≤ length bytes.now → Spells max_nesting value (take size bytes.now) → result ≡ Ok size }
    ensures fault { IfErr result (λ bad. first_fault bytes.now ≡ Some bad) }
    ensures exact { result ≡ measured bytes.now }
{
    measure(bytes)
}

/// As `skip`: a value without values inside by its leading byte, and a container by a walk through it.
#[inline]
fn measure(bytes: &[u8]) -> Result<usize, Bad>
    ensures { result ≡ measured bytes.now }
{
    match plain_after(bytes) {
        Some(rest) => Ok(bytes.len() - rest.len()),
        None => measure_walked(bytes),
    }
}

#[inline]
fn measure_walked(bytes: &[u8]) -> Result<usize, Bad>
    ensures { result ≡ measured bytes.now }
{
    if let Some(rest) = walk(bytes) {
        return Ok(bytes.len() - rest.len());
    }
    let rest = walk_nested(0, bytes)?;
    Ok(bytes.len() - rest.len())
}

/// The bytes after the value that stands first in a container, where one does.
#[inline(always)]
pub(crate) fn after_inner(bytes: &[u8]) -> Option<&[u8]>
    ensures exact { option_copied result ≡ after_inner bytes.now }
    ensures within { IfSome result (λ rest. length rest.now ≤ length bytes.now) }
{
    match plain_after(bytes) {
        Some(rest) => Some(rest),
        None => inner_walked(bytes),
    }
}

#[inline(always)]
fn inner_walked(bytes: &[u8]) -> Option<&[u8]>
    ensures exact { option_copied result ≡ after_inner bytes.now }
    ensures within { IfSome result (λ rest. length rest.now ≤ length bytes.now) }
{
    if let Some(rest) = walk(bytes) {
        return Some(rest);
    }
    match walk_nested(1, bytes) {
        Ok(rest) => Some(rest),
        Err(_) => None,
    }
}

/// As `skip`, from a head on that is read already.
#[inline(always)]
pub(crate) fn measure_behind(head: Head, rest: &[u8], bytes: &[u8]) -> Result<usize, Bad>
    requires head { head_at 0 bytes.now ≡ Ok (head, rest.now) }
    requires within { length rest.now ≤ length bytes.now }
    ensures { result ≡ measured bytes.now }
{
    let (inside, after) = step_behind(0, head, rest)?;
    match inside {
        None => Ok(bytes.len() - after.len()),
        Some(_) => measure_walked(bytes),
    }
}

/// The bytes after the value that stands first, from head to head, with one counter for all open
/// containers; `None` also where so many are opened that they might stand too deep one inside the other,
/// in a container around them.
#[inline(never)]
fn walk(bytes: &[u8]) -> Option<&[u8]>
    ensures inner { IfSome result (λ rest. after_inner bytes.now ≡ Some rest.now) }
    ensures within { IfSome result (λ rest. length rest.now ≤ length bytes.now) }
{
    // How many values are still to come, in the bytes themselves one and then in the open containers,
    // and how many were opened, the one around the value too.
    let mut left: u32 = 1;
    let mut opened = 1;
    let mut rest = bytes;
    while left > 0 {
        left -= 1;
        if let Some(after) = plain_after(rest) {
            rest = after;
            continue;
        }
        let Ok((inside, after)) = step_over(bytes.len() - rest.len(), rest) else {
            return None;
        };
        rest = after;
        if let Some(inside) = inside {
            if opened == MAX_NESTING || inside.announced > MAX_LENGTH {
                return None;
            }
            left += inside.each * inside.announced;
            opened += 1;
        }
    }
    Some(rest)
}

/// The bytes after the value that stands first, from head to head, with a counter for each open
/// container, of which so many are open around the bytes.
#[inline(never)]
fn walk_nested(around: usize, bytes: &[u8]) -> Result<&[u8], Bad>
    requires { around ≤ 1 }
    ensures exact { Gives (λ rest. rest.now) result (after_first (length bytes.now) (64 - around) bytes.now) }
    ensures within { IfOk result (λ rest. length rest.now ≤ length bytes.now) }
{
    // How many values are still to come: in the bytes themselves one, then in each open container.
    let mut left = [0u32; MAX_NESTING + 1];
    left[around] = 1;
    let mut depth = around + 1;
    let mut rest = bytes;
    while depth > 0 {
        if left[depth - 1] == 0 {
            depth -= 1;
            continue;
        }
        left[depth - 1] -= 1;
        let at = bytes.len() - rest.len();
        let (inside, after) = step_over(at, rest)?;
        rest = after;
        if let Some(inside) = inside {
            if depth > MAX_NESTING {
                return Err(Bad::Deep(at));
            }
            if inside.announced > MAX_LENGTH {
                return Err(Bad::Long(at));
            }
            left[depth] = inside.each * inside.announced;
            depth += 1;
        }
    }
    Ok(rest)
}

#[inline(always)]
#[tactic(auto, unfolding(crate::specs::Reading::head_at))]
fn step_over(at: usize, bytes: &[u8]) -> Result<(Option<Inside>, &[u8]), Bad>
    ensures exact { Gives (λ x. (x.0, x.1.now)) result (step_over at bytes.now) }
    ensures shorter { IfOk result (λ x. length x.1.now < length bytes.now) }
    ensures each { IfOk result (λ x. IfSome x.0 (λ inside. inside.each ≤ 2)) }
{
    let Some((leading, rest)) = bytes.split_first() else {
        return Err(Bad::Short);
    };
    match *leading {
        0x80..=0x8f => Ok((
            Some(Inside {
                announced: u32::from(*leading - 0x80),
                each: 2,
            }),
            rest,
        )),
        0x90..=0x9f => Ok((
            Some(Inside {
                announced: u32::from(*leading - 0x90),
                each: 1,
            }),
            rest,
        )),
        _ => step_headed(at, bytes),
    }
}

/// As `step_over`, by the head's type and number.
#[inline(never)]
fn step_headed(at: usize, bytes: &[u8]) -> Result<(Option<Inside>, &[u8]), Bad>
    ensures exact { Gives (λ x. (x.0, x.1.now)) result (step_over at bytes.now) }
    ensures shorter { IfOk result (λ x. length x.1.now < length bytes.now) }
    ensures each { IfOk result (λ x. IfSome x.0 (λ inside. inside.each ≤ 2)) }
{
    let (head, rest) = head_at(at, bytes)?;
    step_behind(at, head, rest)
}

#[inline(always)]
fn step_behind(at: usize, head: Head, rest: &[u8]) -> Result<(Option<Inside>, &[u8]), Bad>
    ensures exact { Gives (λ x. (x.0, x.1.now)) result (step_behind at head rest.now) }
    ensures shorter { IfOk result (λ x. length x.1.now ≤ length rest.now) }
    ensures each { IfOk result (λ x. IfSome x.0 (λ inside. inside.each ≤ 2)) }
{
    match head {
        Head::Nil => Ok((None, rest)),
        Head::Bool(_) => Ok((None, rest)),
        Head::Int(_) => Ok((None, rest)),
        Head::Str(size) => Ok((None, after_bytes(at, size, size as usize, rest)?)),
        Head::Bin(size) => Ok((None, after_bytes(at, size, size as usize, rest)?)),
        Head::Array(announced) => Ok((Some(Inside { announced, each: 1 }), rest)),
        Head::Map(announced) => Ok((Some(Inside { announced, each: 2 }), rest)),
        Head::Fixed(size) => Ok((
            None,
            after_bytes(at, u32::from(size), usize::from(size), rest)?,
        )),
        Head::Extension(size) => Ok((None, after_bytes(at, size, size as usize + 1, rest)?)),
    }
}

#[inline(always)]
fn plain_after(bytes: &[u8]) -> Option<&[u8]>
    ensures plain { IfSome result (λ after. (at : ℕ) → step_over at bytes.now ≡ Ok (None, after.now)) }
    ensures shorter { IfSome result (λ after. length after.now < length bytes.now) }
{
    let Some((leading, rest)) = bytes.split_first() else {
        return None;
    };
    let size = plain_size(*leading);
    if size > MAX_PLAIN || rest.len() < size {
        return None;
    }
    let (_, after) = rest.split_at(size);
    Some(after)
}

/// How many bytes follow a leading byte that alone gives the value's length; more than `MAX_PLAIN` for
/// another one.
#[inline(always)]
fn plain_size(leading: u8) -> usize
    ensures { result ≤ 31 → IsPlain leading result }
{
    if leading < 0x80 {
        return 0;
    }
    match leading {
        0xa0..=0xbf => usize::from(leading - 0xa0),
        0xc0 => 0,
        0xc2 => 0,
        0xc3 => 0,
        0xca..=0xd8 => fixed_size(leading),
        0xe0..=0xff => 0,
        _ => MAX_PLAIN + 1,
    }
}

/// How many bytes follow a leading byte from ca to d8: of a number, a float or an extension.
#[inline(always)]
fn fixed_size(leading: u8) -> usize
    ensures { result ≡ fixed_size leading }
{
    match leading {
        0xca => 4,
        0xcb => 8,
        0xcc => 1,
        0xcd => 2,
        0xce => 4,
        0xcf => 8,
        0xd0 => 1,
        0xd1 => 2,
        0xd2 => 4,
        0xd3 => 8,
        0xd4 => 2,
        0xd5 => 3,
        0xd6 => 5,
        0xd7 => 9,
        _ => 17,
    }
}

#[inline(always)]
fn after_bytes(at: usize, announced: u32, size: usize, rest: &[u8]) -> Result<&[u8], Bad>
    ensures exact { Gives (λ x. x.now) result (after_bytes at announced size rest.now) }
    ensures shorter { IfOk result (λ x. length x.now ≤ length rest.now) }
{
    if announced > MAX_LENGTH {
        return Err(Bad::Long(at));
    }
    if rest.len() < size {
        return Err(Bad::Short);
    }
    let (_, after) = rest.split_at(size);
    Ok(after)
}
