//! Maps in place, by their keys.

ghost use Rattle.std.specs.Prelude.{◌≡◌, ℕ, suc, ◌∷◌};
ghost use Rattle.mx_msgpack.specs.Items.{after_value};
ghost use Rattle.mx_msgpack.specs.Maps.{pairs_from};
ghost use Rattle.mx_msgpack.specs.Readers.{unsigned_in};

use crate::items::parted;
use crate::readers::unsigned_at;

/// So many pairs of a map, each a key and then a value, and the bytes in which they stand in a row.
#[derive(Clone, Copy, Drop)]
pub struct PairsRef<'a> {
    pub count: u32,
    pub bytes: &'a [u8],
}

/// A pair of a map.
#[derive(Clone, Copy, Drop)]
pub struct PairRef<'a> {
    /// The key, where it is a number of 0 or more.
    pub key: Option<u64>,
    /// The value's spelling.
    pub value: &'a [u8],
}

/// The pair that stands first, and the bytes after it.
#[inline]
pub fn first_pair(bytes: &[u8]) -> (PairRef<'_>, &[u8])
    ensures { (others : ℕ) → pairs_from (suc others) bytes.now
        ≡ record { key = result.0.key; value = result.0.value.now } ∷ pairs_from others result.1.now }
{
    let (key, behind) = first_key(bytes);
    let (value, rest) = parted(behind);
    (PairRef { key, value }, rest)
}

#[inline(always)]
fn first_key(bytes: &[u8]) -> (Option<u64>, &[u8])
    ensures key { result.0 ≡ unsigned_in bytes.now }
    ensures after { result.1.now ≡ after_value bytes.now }
{
    match unsigned_at(bytes) {
        Some((number, rest)) => (Some(number), rest),
        None => (None, parted(bytes).1),
    }
}
