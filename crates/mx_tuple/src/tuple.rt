//! Tuples: arrays of MessagePack that keep the bytes that were sent.

ghost use Rattle.std.specs.Prelude.{◌≡◌, ◌⊎◌, ◌+◌, ◌^◌, ◌<◌, length, None, Some, IfOk, MatchResult};
ghost use Rattle.std.specs.List.{slice_get};
ghost use Rattle.std.specs.Option.{option_copied};
ghost use Rattle.mx_msgpack.specs.Items.{items_of, values_from};
ghost use Rattle.mx_tuple.specs.declared.tuple.TupleBad.TheVariants.{Bad, NoMemory};
ghost use Rattle.mx_tuple.specs.Fields.{HasPlaces, places_from};

use mx_msgpack::{Bytes, array_of, parted};
use std::alloc::{AllocError, Global};
use std::marker::Model;

/// The maximum size of a tuple, in bytes.
pub const MAX_TUPLE_SIZE: usize = 1_048_576;

/// A tuple: its bytes, and the places in them where its fields begin, with the place where the last
/// one ends.
#[derive(Drop)]
pub struct Tuple {
    bytes: Bytes,
    places: Vec<usize>,
}

impl Model for Tuple {
    ghost use Rattle.mx_tuple.specs.Fields.{TupleValue, HasPlaces, tuple_of};

    ghost Value = { TupleValue };

    ghost view = { λ t. tuple_of t.bytes };

    ghost invariant = { λ t. HasPlaces (tuple_of t.bytes) t.places.items };
}

/// Why there is no tuple.
#[derive(Clone, Copy, Drop, PartialEq, Eq)]
pub enum TupleBad {
    /// The bytes aren't one array.
    Bad,
    /// Out of memory.
    NoMemory,
}

impl From<AllocError> for TupleBad {
    ghost from_gives = { λ _ e. e ≡ NoMemory };

    fn from(_fault: AllocError) -> TupleBad {
        TupleBad::NoMemory
    }
}

/// The tuple of these bytes, which it copies.
///
/// # Errors
/// `Bad` where the bytes aren't one array.
pub fn from_bytes(alloc: Global, bytes: &[u8]) -> Result<Tuple, TupleBad>
    ensures { MatchResult result
        (λ tuple. (tuple.bytes ≡ bytes.now) × (items_of bytes.now ≡ Some tuple.fields))
        (λ fault. ((fault ≡ Bad) × (items_of bytes.now ≡ None)) ⊎ (fault ≡ NoMemory)) }
{
    let Some(items) = array_of(bytes) else {
        return Err(TupleBad::Bad);
    };
    let start = bytes.len() - items.bytes.len();
    let places = places_of(alloc, start, items.count, items.bytes)?;
    let bytes = Bytes::from_slice(alloc, bytes)?;
    Ok(Tuple { bytes, places })
}

/// The places where so many values in a row begin, the first of them at `start`, and the place where
/// the last one ends.
fn places_of(
    alloc: Global,
    start: usize,
    count: u32,
    values: &[u8],
) -> Result<Vec<usize>, AllocError>
    requires fits { start + length values.now < 2 ^ 64 }
    ensures { IfOk result (λ places. places.items ≡ places_from start (values_from count values.now)) }
{
    let mut places = Vec::with_capacity(alloc, count as usize + 1)?;
    let mut at = start;
    let mut rest = values;
    let mut left = count;
    while left > 0 {
        places.push(at)?;
        let (value, after) = parted(rest);
        at += value.len();
        rest = after;
        left -= 1;
    }
    places.push(at)?;
    Ok(places)
}

impl Tuple {
    /// The bytes of a field, counted from 0; `None` where there are no more.
    pub fn field(&self, n: u32) -> Option<&[u8]>
        ensures { option_copied result ≡ slice_get self.now.fields n }
    {
        let n = n as usize;
        let from = *self.places.get(n)?;
        let to = *self.places.get(n + 1)?;
        self.bytes.as_slice().get(from..to)
    }

    /// How many fields there are.
    pub fn count(&self) -> u32
        ensures { result ≡ length self.now.fields }
    {
        // An array has fewer items than 32 bits count.
        u32::try_from(self.places.len().saturating_sub(1)).unwrap_or(0)
    }

    /// The bytes in place.
    pub fn bytes(&self) -> &[u8]
        ensures { result.now ≡ self.now.bytes }
    {
        self.bytes.as_slice()
    }

    /// The tuple's bytes.
    pub fn into_bytes(self) -> Bytes
        ensures { result ≡ self.bytes }
    {
        self.bytes
    }

    /// The places in the bytes where the fields begin, and the one where the last field ends.
    pub fn places(&self) -> &[usize]
        ensures { HasPlaces self.now result.now }
    {
        self.places.as_slice()
    }
}
