//! The keys of tuples.

ghost use Rattle.std.specs.Prelude.{◌≡◌, ◌⊎◌, ◌<◌, ◌≤◌, [], Ok, Err, IfOk, MatchOption, MatchResult};
ghost use Rattle.std.specs.Option.{option_copied, unwrap_or};
ghost use Rattle.mx_msgpack.specs.Items.{IsArray, items_of};
ghost use Rattle.mx_msgpack.specs.Reading.{Gives};
ghost use Rattle.mx_key.specs.declared.fault.KeyFault.TheVariants.{NoMemory};
ghost use Rattle.mx_key.specs.declared.fault.NoKey.{NoKey};
ghost use Rattle.mx_key.specs.Comparable.{comparable_of};
ghost use Rattle.mx_key.specs.Faults.{key_fault_of};
ghost use Rattle.mx_key.specs.Parts as parts;
ghost use Rattle.mx_key.specs.Parts.{part_of};
ghost use Rattle.mx_key.specs.PartViews.{part_view};
ghost use Rattle.mx_key.specs.Places.{after_values};
ghost use Rattle.mx_key.specs.Keys.{Key, AreFit, IsFit};

use crate::fault::{KeyFault, NoKey};
use crate::fields::FieldSlices;
use crate::key_def::KeyDef;
use crate::part::Part;
use crate::part_ref::{PartRef, part_in};
use crate::writing::{NUMBER_SIZE, write_first, write_part};
use mx_msgpack::{Bytes, Items, known_array, parted};
use std::alloc::Global;

/// The comparable bytes of the key that a tuple's fields make.
///
/// # Errors
/// The first part whose field is missing or of another type.
pub fn key_of(alloc: Global, def: &KeyDef, fields: &FieldSlices<'_>) -> Result<Bytes, KeyFault>
    ensures { MatchResult result
        (λ bytes. (key : Key) × (parts.key_of def.now fields.now ≡ Ok key) × AreFit key × (bytes ≡ comparable_of key))
        (λ fault. ((why : NoKey) × (fault ≡ key_fault_of why) × (parts.key_of def.now fields.now ≡ Err why)) ⊎ (fault ≡ NoMemory)) }
{
    let mut key = Bytes::new(alloc);
    for part in def.as_slice() {
        let found = part_of(*part, fields.field(part.field))?;
        write_part(found, &mut key)?;
    }
    Ok(key)
}

fn part_of(part: Part, field: Option<&[u8]>) -> Result<PartRef<'_>, NoKey>
    ensures exact { Gives (λ found. part_view found) result (part_of part (option_copied field.entry)) }
    ensures fit { IfOk result (λ found. IsFit (part_view found)) }
{
    let Some(spelling) = field else {
        return Err(NoKey::Missing { field: part.field });
    };
    match part_in(part.kind, spelling) {
        Some(found) => Ok(found),
        None => Err(NoKey::Wrong {
            field: part.field,
            expected: part.kind,
        }),
    }
}

/// The comparable bytes of the key that a tuple has, which is an array.
///
/// # Errors
/// The first part whose field is missing or of another type.
pub fn key_of_tuple(alloc: Global, def: &KeyDef, tuple: &[u8]) -> Result<Bytes, KeyFault>
    requires array { IsArray tuple.now }
    ensures { MatchResult result
        (λ bytes. (key : Key) × (parts.key_of def.now (unwrap_or (items_of tuple.now) []) ≡ Ok key) × AreFit key × (bytes ≡ comparable_of key))
        (λ fault. ((why : NoKey) × (fault ≡ key_fault_of why) × (parts.key_of def.now (unwrap_or (items_of tuple.now) []) ≡ Err why)) ⊎ (fault ≡ NoMemory)) }
{
    let items = known_array(tuple);
    let mut key = Bytes::new(alloc);
    let mut place = Place {
        field: 0,
        bytes: items.bytes,
    };
    let mut rest = def.as_slice();
    while let Some((part, others)) = rest.split_first() {
        let Some(bytes) = bytes_from(items, place, part.field) else {
            return Err(KeyFault::Missing { field: part.field });
        };
        let behind = others.len().saturating_mul(NUMBER_SIZE);
        let Some(after) = write_first(part.kind, bytes, behind, &mut key)? else {
            return Err(KeyFault::Wrong {
                field: part.field,
                expected: part.kind,
            });
        };
        place = Place {
            field: part.field + 1,
            bytes: after,
        };
        rest = others;
    }
    Ok(key)
}

/// The bytes of an array's items from this field on.
#[derive(Clone, Copy)]
pub(crate) struct Place<'a> {
    pub(crate) field: u32,
    pub(crate) bytes: &'a [u8],
}

/// The bytes of the items from a field on, which may lie before the place; `None` where there is no such
/// field.
#[inline]
pub(crate) fn bytes_from<'a>(items: Items<'a>, place: Place<'a>, field: u32) -> Option<&'a [u8]>
    requires { place.bytes.now ≡ after_values place.field items.bytes.now }
    ensures { MatchOption result
        (items.entry.count ≤ field)
        (λ bytes. (field < items.entry.count) × (bytes.now ≡ after_values field items.entry.bytes.now)) }
{
    if field >= items.count {
        return None;
    }
    if field == place.field {
        return Some(place.bytes);
    }
    if field < place.field {
        return Some(pass_over(items.bytes, field));
    }
    Some(pass_over(place.bytes, field - place.field))
}

/// The bytes after so many values in a row.
#[inline(never)]
fn pass_over(bytes: &[u8], count: u32) -> &[u8]
    ensures { result.now ≡ after_values count bytes.now }
{
    let mut rest = bytes;
    let mut left = count;
    while left > 0 {
        let (_, after) = parted(rest);
        rest = after;
        left -= 1;
    }
    rest
}
