//! The values under several keys of a map, in one pass over it.

ghost use Rattle.std.specs.Prelude.{◌≡◌, ◌≤◌, ℕ, suc, ◌∷◌, IfSome, map, length};
ghost use Rattle.std.specs.Option.{option_copied, option_map};
ghost use Rattle.mx_msgpack.specs.Lookups.{map_head, noted};
ghost use Rattle.mx_msgpack.specs.Maps.{AreValues, map_at, pairs_from, pairs_in, value_under};
ghost use Rattle.mx_msgpack.specs.Readers.{unsigned_in};
ghost use Rattle.mx_msgpack.specs.Steps.{after_inner, after_inners};

use crate::head::{Head, head_at, short_head};
use crate::maps::PairRef;
use crate::readers::{small_at, unsigned_at};
use crate::size::{MAX_LENGTH, after_inner};

/// The bytes after the map that stands first, whose values under these keys are each put into its key's
/// place, in one pass. Of a key that comes more than once the last value counts. `None` where another
/// value stands first, or none, and then no key has a value.
#[inline(always)]
pub fn values_at<'a>(
    keys: &[u8],
    bytes: &'a [u8],
    values: &mut [Option<&'a [u8]>],
) -> Option<&'a [u8]>
    requires { map option_copied values.old ≡ map (λ key. None) keys.now }
    ensures rest { option_copied result ≡ option_map (λ x. x.1) (map_at bytes.now) }
    ensures values { map option_copied values.new ≡ map (λ key. value_under key (pairs_in bytes.now)) keys.now }
    ensures whole { AreValues (map option_copied values.new) }
{
    if let Some(rest) = values_before(keys, bytes, values) {
        return Some(rest);
    }
    clear(values);
    None
}

/// As `values_at`, but at `None` the values may be those of pairs before the fault.
#[inline(always)]
fn values_before<'a>(
    keys: &[u8],
    bytes: &'a [u8],
    values: &mut [Option<&'a [u8]>],
) -> Option<&'a [u8]>
    requires { map option_copied values.old ≡ map (λ key. None) keys.now }
    ensures rest { option_copied result ≡ option_map (λ x. x.1) (map_at bytes.now) }
    ensures values { IfSome result (λ _. map option_copied values.new ≡ map (λ key. value_under key (pairs_in bytes.now)) keys.now) }
{
    let (count, behind) = map_head(bytes)?;
    let mut left = count;
    let mut rest = behind;
    while left > 0 {
        let (pair, others) = inner_pair(rest)?;
        if let Some(key) = pair.key {
            note(keys, key, pair.value, values);
        }
        rest = others;
        left -= 1;
    }
    Some(rest)
}

#[inline(never)]
fn clear(values: &mut [Option<&[u8]>])
    ensures { map option_copied values.new ≡ map (λ value. None) values.old }
{
    for place in 0..values.len() {
        values[place] = None;
    }
}

#[inline(always)]
fn note<'a>(keys: &[u8], key: u64, value: &'a [u8], values: &mut [Option<&'a [u8]>])
    requires { length values.old ≡ length keys.now }
    ensures { map option_copied values.new ≡ noted key value.now keys.now (map option_copied values.old) }
{
    for (place, wanted) in keys.iter().enumerate() {
        if key == u64::from(*wanted) {
            values[place] = Some(value);
        }
    }
}

/// How many pairs the map announces that stands first, and the bytes after its head.
#[inline(always)]
fn map_head(bytes: &[u8]) -> Option<(u32, &[u8])>
    ensures { option_map (λ x. (x.0, x.1.now)) result ≡ map_head bytes.now }
{
    match short_head(bytes) {
        Some((Head::Map(count), behind)) if count <= MAX_LENGTH => Some((count, behind)),
        _ => long_map_head(bytes),
    }
}

#[inline(never)]
fn long_map_head(bytes: &[u8]) -> Option<(u32, &[u8])>
    ensures { option_map (λ x. (x.0, x.1.now)) result ≡ map_head bytes.now }
{
    match head_at(0, bytes) {
        Ok((Head::Map(count), behind)) if count <= MAX_LENGTH => Some((count, behind)),
        _ => None,
    }
}

/// The pair of a map that stands first, and the bytes after it; `None` where none does.
#[inline(always)]
fn inner_pair(bytes: &[u8]) -> Option<(PairRef<'_>, &[u8])>
    ensures pair { IfSome result (λ x. (others : ℕ) → pairs_from (suc others) bytes.now
        ≡ record { key = x.0.key; value = x.0.value.now } ∷ pairs_from others x.1.now) }
    ensures after { option_map (λ x. x.1.now) result ≡ after_inners 2 bytes.now }
{
    let (key, behind) = inner_key(bytes)?;
    let rest = after_inner(behind)?;
    let (value, others) = behind.split_at(behind.len() - rest.len());
    Some((PairRef { key, value }, others))
}

#[inline(always)]
fn inner_key(bytes: &[u8]) -> Option<(Option<u64>, &[u8])>
    ensures key { IfSome result (λ x. x.0 ≡ unsigned_in bytes.now) }
    ensures after { option_map (λ x. x.1.now) result ≡ after_inner bytes.now }
{
    match small_at(bytes) {
        Some((number, rest)) => Some((Some(number), rest)),
        None => other_key(bytes),
    }
}

#[inline(never)]
fn other_key(bytes: &[u8]) -> Option<(Option<u64>, &[u8])>
    ensures key { IfSome result (λ x. x.0 ≡ unsigned_in bytes.now) }
    ensures after { option_map (λ x. x.1.now) result ≡ after_inner bytes.now }
{
    match unsigned_at(bytes) {
        Some((number, rest)) => Some((Some(number), rest)),
        None => Some((None, after_inner(bytes)?)),
    }
}
