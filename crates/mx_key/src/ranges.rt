//! The range that an iterator scans from a key.

ghost use Rattle.std.specs.Prelude.{◌≡◌, ◌⊎◌, ◌≤◌, ◌++◌, length, Ok, Err, IfOk, MatchOption, MatchResult};
ghost use Rattle.std.specs.BTreeMap.Range.{IsLeBy, IsLtBy};
ghost use Rattle.std.specs.Cmp.Lexicographic.{slice_cmp};
ghost use Rattle.std.specs.Ordering.{nat_cmp};
ghost use Rattle.std.specs.Range.Bound.{IsForward};
ghost use Rattle.mx_msgpack.specs.Items.{IsArray, values_from};
ghost use Rattle.mx_key.specs.declared.fault.Misfit.{Misfit};
ghost use Rattle.mx_key.specs.declared.fault.RangeFault.TheVariants as faults;
ghost use Rattle.mx_key.specs.Comparable.{bound_of, comparable_of, edges_of};
ghost use Rattle.mx_key.specs.Parts.{key_of_array, parts_of_items, whole_key};
ghost use Rattle.mx_key.specs.Keys.{Key, AreFit};
ghost use Rattle.mx_key.specs.Ranges.{range_by, range_of};

use crate::edge::{Edge, KeyRange, prefix_end};
use crate::fault::{Misfit, RangeFault};
use crate::iterator::IterKind;
use crate::key_def::KeyDef;
use crate::part::Part;
use crate::part_ref::part_at;
use crate::writing::{NUMBER_SIZE, write_first};
use mx_msgpack::{Bytes, Items, array_of, known_array};
use std::alloc::{AllocError, Global};

/// Why a key, which is an array, doesn't fit an index of these parts: it is too long, or its first
/// part of another type. `None` where it fits.
pub fn misfit(def: &KeyDef, key: &[u8]) -> Option<Misfit>
    ensures { MatchOption result
        ((fitting : Key) × (key_of_array def.now key.now ≡ Ok fitting) × AreFit fitting)
        (λ misfit. key_of_array def.now key.now ≡ Err misfit) }
{
    let items = array_of(key)?;
    let parts = def.as_slice();
    if items.count as usize > parts.len() {
        return Some(Misfit::TooLong { parts: items.count });
    }
    wrong_part(parts, items)
}

fn wrong_part(parts: &[Part], items: Items<'_>) -> Option<Misfit>
    requires { items.count ≤ length parts.now }
    ensures { MatchOption result
        ((fitting : Key) × (parts_of_items 0 parts.now (values_from items.entry.count items.entry.bytes.now) ≡ Ok fitting) × AreFit fitting)
        (λ misfit. parts_of_items 0 parts.now (values_from items.entry.count items.entry.bytes.now) ≡ Err misfit) }
{
    let mut rest = items.bytes;
    for place in 0..items.count {
        let expected = parts[place as usize].kind;
        let Some((_, after)) = part_at(expected, rest) else {
            return Some(Misfit::WrongPart {
                part: place,
                expected,
            });
        };
        rest = after;
    }
    None
}

/// The range that an iterator scans from a key, which is an array that fits an index of these parts.
pub fn range(
    alloc: Global,
    def: &KeyDef,
    iterator: IterKind,
    key: &[u8],
) -> Result<KeyRange, AllocError>
    ensures picked { (fitting : Key) → key_of_array def.now key.now ≡ Ok fitting → IfOk result (λ range. range ≡ edges_of (range_of iterator fitting)) }
    ensures forward { IfOk result (λ range. IsForward (IsLeBy (slice_cmp nat_cmp)) (IsLtBy (slice_cmp nat_cmp)) (bound_of range.low) (bound_of range.high)) }
{
    let bytes = key_bytes(alloc, def, key)?;
    range_from(alloc, iterator, bytes)
}

/// The range that an iterator scans from a key, which is an array. Reads the key once, where `misfit` and
/// `range` read it one after the other.
///
/// # Errors
/// `Misfit` where it doesn't fit an index of these parts.
pub fn range_of_key(
    alloc: Global,
    def: &KeyDef,
    iterator: IterKind,
    key: &[u8],
) -> Result<KeyRange, RangeFault>
    requires array { IsArray key.now }
    ensures picked { MatchResult result
        (λ range. (fitting : Key) × (key_of_array def.now key.now ≡ Ok fitting) × AreFit fitting × (range ≡ edges_of (range_of iterator fitting)))
        (λ fault. ((misfit : Misfit) × (fault ≡ faults.Misfit misfit) × (key_of_array def.now key.now ≡ Err misfit)) ⊎ (fault ≡ faults.NoMemory)) }
    ensures forward { IfOk result (λ range. IsForward (IsLeBy (slice_cmp nat_cmp)) (IsLtBy (slice_cmp nat_cmp)) (bound_of range.low) (bound_of range.high)) }
{
    let items = known_array(key);
    let parts = def.as_slice();
    if items.count as usize > parts.len() {
        return Err(RangeFault::Misfit(Misfit::TooLong { parts: items.count }));
    }
    let mut bytes = Bytes::new(alloc);
    write_items(parts, items, &mut bytes)?;
    Ok(range_from(alloc, iterator, bytes)?)
}

/// The comparable bytes of a key with all parts of an index, which is an array.
///
/// # Errors
/// `Misfit` where it has another number of parts, or its first part that is of another type.
pub fn whole_key(alloc: Global, def: &KeyDef, key: &[u8]) -> Result<Bytes, RangeFault>
    requires array { IsArray key.now }
    ensures { MatchResult result
        (λ bytes. (whole : Key) × (whole_key def.now key.now ≡ Ok whole) × AreFit whole × (bytes ≡ comparable_of whole))
        (λ fault. ((misfit : Misfit) × (fault ≡ faults.Misfit misfit) × (whole_key def.now key.now ≡ Err misfit)) ⊎ (fault ≡ faults.NoMemory)) }
{
    let items = known_array(key);
    let parts = def.as_slice();
    if items.count as usize != parts.len() {
        return Err(RangeFault::Misfit(Misfit::TooLong { parts: items.count }));
    }
    let mut bytes = Bytes::new(alloc);
    write_items(parts, items, &mut bytes)?;
    Ok(bytes)
}

/// By the comparable bytes of a key.
fn range_from(alloc: Global, iterator: IterKind, key: Bytes) -> Result<KeyRange, AllocError>
    ensures picked { (fitting : Key) → key ≡ comparable_of fitting → IfOk result (λ range. range ≡ edges_of (range_of iterator fitting)) }
    ensures forward { IfOk result (λ range. IsForward (IsLeBy (slice_cmp nat_cmp)) (IsLtBy (slice_cmp nat_cmp)) (bound_of range.low) (bound_of range.high)) }
{
    if key.is_empty() {
        return Ok(KeyRange {
            low: Edge::Open,
            high: Edge::Open,
        });
    }
    range_by(alloc, iterator, key)
}

/// The key has one part or more.
#[tactic(auto, using(crate::proofs::RangeLaws::not_above_prefix_end))]
fn range_by(alloc: Global, iterator: IterKind, key: Bytes) -> Result<KeyRange, AllocError>
    ensures picked { (fitting : Key) → key ≡ comparable_of fitting → IfOk result (λ range. range ≡ edges_of (range_by iterator fitting)) }
    ensures forward { IfOk result (λ range. IsForward (IsLeBy (slice_cmp nat_cmp)) (IsLtBy (slice_cmp nat_cmp)) (bound_of range.low) (bound_of range.high)) }
{
    let (low, high) = match iterator {
        IterKind::Eq | IterKind::Req => {
            let low = Bytes::from_slice(alloc, key.as_slice())?;
            (Edge::Inclusive(low), Edge::Exclusive(prefix_end(key)?))
        }
        IterKind::All | IterKind::Ge => (Edge::Inclusive(key), Edge::Open),
        IterKind::Gt => (Edge::Exclusive(prefix_end(key)?), Edge::Open),
        IterKind::Le => (Edge::Open, Edge::Exclusive(prefix_end(key)?)),
        IterKind::Lt => (Edge::Open, Edge::Exclusive(key)),
    };
    Ok(KeyRange { low, high })
}

/// Of a key that is no array there are no bytes.
fn key_bytes(alloc: Global, def: &KeyDef, key: &[u8]) -> Result<Bytes, AllocError>
    ensures { (fitting : Key) → key_of_array def.now key.now ≡ Ok fitting → IfOk result (λ bytes. bytes ≡ comparable_of fitting) }
{
    let mut bytes = Bytes::new(alloc);
    let Some(items) = array_of(key) else {
        return Ok(bytes);
    };
    let parts = def.as_slice();
    if items.count as usize > parts.len() {
        return Ok(bytes);
    }
    match write_items(parts, items, &mut bytes) {
        Ok(()) => Ok(bytes),
        Err(RangeFault::Misfit(_)) => Ok(bytes),
        Err(RangeFault::NoMemory) => Err(AllocError),
    }
}

/// Adds the items' comparable bytes, and makes room for the end of a prefix. At an error some may have
/// been added.
fn write_items(parts: &[Part], items: Items<'_>, out: &mut Bytes) -> Result<(), RangeFault>
    requires { items.count ≤ length parts.now }
    ensures { MatchResult result
        (λ _. (fitting : Key) × (parts_of_items 0 parts.now (values_from items.entry.count items.entry.bytes.now) ≡ Ok fitting) × AreFit fitting
        × (out.new ≡ out.old ++ comparable_of fitting))
        (λ fault. ((misfit : Misfit) × (fault ≡ faults.Misfit misfit) × (parts_of_items 0 parts.now (values_from items.entry.count items.entry.bytes.now) ≡ Err misfit))
        ⊎ (fault ≡ faults.NoMemory)) }
{
    let mut rest = items.bytes;
    for place in 0..items.count {
        let expected = parts[place as usize].kind;
        let others = (items.count - 1 - place) as usize;
        let Some(after) = write_first(expected, rest, NUMBER_SIZE * others + 1, out)? else {
            return Err(RangeFault::Misfit(Misfit::WrongPart {
                part: place,
                expected,
            }));
        };
        rest = after;
    }
    Ok(())
}
