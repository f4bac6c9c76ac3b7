//! Whether another tuple has a tuple's key in a unique index.

ghost use Rattle.std.specs.Prelude.{◌≡◌, ◌≢◌, Option, Some, None, IfOk};
ghost use Rattle.std.specs.Option.{option_copied};
ghost use Rattle.mx_key.specs.Keys.{Key};
ghost use Rattle.mx_schema.specs.State as plain;
ghost use Rattle.mx_write.specs.Lookup.{all_indexes, other_indexes};
ghost use Rattle.mx_write.specs.Stages.{HasOwnKey, IsReplaced, refusal_of};
ghost use Rattle.mx_write.specs.Unique as spec;
ghost use Rattle.mx_slow_state.specs.SlowWrites.{IsSite};

use crate::slow_state::list::find;
use crate::slow_state::site::{Site, holder};
use mx_base::{Name, Refusal};
use mx_judge::described_space;
use mx_msgpack::Bytes;
use mx_schema::{IndexDef, SPACE_ROWS, parts_or_none};
use std::alloc::{AllocError, Global};

/// The refusal of a new tuple whose key another one has in a unique index, where this is its primary key.
pub(crate) fn duplicate(
    site: &Site<'_>,
    key: &Bytes,
    tuple: &[u8],
) -> Result<Option<Refusal>, AllocError>
    ensures { (before : plain.State) → IsSite before site.now → HasOwnKey site.now.primary.now tuple.now key.now
        → IfOk result (λ found. found ≡ refusal_of (spec.are_free before site.now.space.0 site.now.schema.now site.now.primary.now None tuple.now
        (all_indexes site.now.primary.now site.now.schema.now)).outcome) }
{
    match find(site.tuples, key) {
        Some(one) => Ok(Some(duplicate_refusal(site, site.primary, one.tuple.as_slice())?)),
        None => duplicate_in_others(site, None, tuple),
    }
}

/// The refusal of a tuple whose key another one has in a unique index but the primary one. The tuple that
/// has the primary key `replaced` is no other one.
pub(crate) fn duplicate_in_others(
    site: &Site<'_>,
    replaced: Option<&Bytes>,
    tuple: &[u8],
) -> Result<Option<Refusal>, AllocError>
    ensures { (before : plain.State) (key : Option Key) → IsSite before site.now → IsReplaced (option_copied replaced.entry) key
        → IfOk result (λ found. found ≡ refusal_of (spec.are_free before site.now.space.0 site.now.schema.now site.now.primary.now key tuple.now
        (other_indexes site.now.schema.now.indexes)).outcome) }
{
    for def in site.schema.indexes.as_slice() {
        if def.id.0 == 0 || !def.unique {
            continue;
        }
        if let Some(refusal) = duplicate_in(site, replaced, tuple, def)? {
            return Ok(Some(refusal));
        }
    }
    Ok(None)
}

/// The same by one index, of another number than 0.
fn duplicate_in(
    site: &Site<'_>,
    replaced: Option<&Bytes>,
    tuple: &[u8],
    def: &IndexDef,
) -> Result<Option<Refusal>, AllocError>
    ensures { (before : plain.State) (key : Option Key) → IsSite before site.now → def.now.id.0 ≢ 0 → IsReplaced (option_copied replaced.entry) key
        → IfOk result (λ found. found ≡ refusal_of (spec.is_free before site.now.space.0 site.now.schema.now site.now.primary.now key tuple.now def.now).outcome) }
{
    let key = parts_or_none(site.alloc, &def.key, tuple)?;
    let Some(holder) = holder(site, def, &key)? else {
        return Ok(None);
    };
    if !is_another(site, replaced, holder.as_slice())? {
        return Ok(None);
    }
    Ok(Some(duplicate_refusal(site, def, holder.as_slice())?))
}

/// Whether a tuple isn't the one that is replaced.
///
/// # Errors
/// Out of memory.
pub fn is_another(
    site: &Site<'_>,
    replaced: Option<&Bytes>,
    holder: &[u8],
) -> Result<bool, AllocError>
    ensures { (key : Option Key) → IsReplaced (option_copied replaced.entry) key → IfOk result (λ is. is ≡ spec.is_another site.now.primary.now key (Some holder.now)) }
{
    let Some(replaced) = replaced else {
        return Ok(true);
    };
    let own = parts_or_none(site.alloc, &site.primary.key, holder)?;
    Ok(own != *replaced)
}

/// The refusal of a tuple whose key this other one has in an index.
fn duplicate_refusal(site: &Site<'_>, def: &IndexDef, holder: &[u8]) -> Result<Refusal, AllocError>
    ensures { IfOk result (λ refusal. refusal ≡ spec.duplicate_refusal site.now.space.0 site.now.schema.now def.now (Some holder.now)) }
{
    if site.space.0 == SPACE_ROWS {
        let space = described_name(site.alloc, holder)?;
        return Ok(Refusal::SpaceExists { space });
    }
    Ok(Refusal::DuplicateKey {
        index: Name::from_slice(site.alloc, def.name.as_slice())?,
        space: Name::from_slice(site.alloc, site.schema.def.name.as_slice())?,
    })
}

/// The name of the space that a row describes; an empty one where it describes none.
fn described_name(alloc: Global, row: &[u8]) -> Result<Name, AllocError>
    ensures { IfOk result (λ name. name ≡ spec.described_name (Some row.now)) }
{
    match described_space(alloc, row)? {
        Some(def) => Ok(def.name),
        None => Name::from_slice(alloc, &[]),
    }
}
