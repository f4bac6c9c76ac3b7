//! Whether another tuple has a new tuple's key in a unique index.

ghost use Rattle.std.specs.Prelude.{◌≡◌, Option, Some, true, IfOk};
ghost use Rattle.std.specs.Option.{option_copied};
ghost use Rattle.mx_key.specs.Keys.{Key};
ghost use Rattle.mx_schema.specs.Catalogues.{index_with};
ghost use Rattle.mx_schema.specs.State as plain;
ghost use Rattle.mx_write.specs.Stages.{IsReplaced, refusal_of};
ghost use Rattle.mx_judge.specs.Scopes.{IsTarget};
ghost use Rattle.mx_write.specs.Lookup.{other_indexes};
ghost use Rattle.mx_write.specs.Notes.{AddsReads};
ghost use Rattle.mx_write.specs.Unique as spec;

use crate::descriptions::described_space;
use crate::notes::Notes;
use crate::scope::Target;
use mx_base::{Name, Refusal};
use mx_msgpack::Bytes;
use mx_schema::{IndexDef, SPACE_ROWS, parts_or_none};
use std::alloc::{AllocError, Global};

/// The refusal of a tuple whose key another one has in a unique index but the primary one. The tuple that
/// has the primary key `replaced` is no other one.
pub(crate) fn duplicate_in_others(
    target: &Target<'_>,
    replaced: Option<&Bytes>,
    tuple: &[u8],
    notes: &mut Notes,
) -> Result<Option<Refusal>, AllocError>
    ensures finds { (before : plain.State) (key : Option Key) → IsTarget before target.now → IsReplaced (option_copied replaced.entry) key
        → IfOk result (λ found. found ≡ refusal_of (spec.are_free before target.now.scope.space.0 target.now.schema.now target.now.primary.now key tuple.now
        (other_indexes target.now.schema.now.indexes)).outcome) }
    ensures notes { (before : plain.State) (key : Option Key) → IsTarget before target.now → IsReplaced (option_copied replaced.entry) key
        → IfOk result (λ found. AddsReads notes.old notes.new (spec.are_free before target.now.scope.space.0 target.now.schema.now target.now.primary.now key tuple.now
        (other_indexes target.now.schema.now.indexes)).reads) }
{
    for def in target.schema.indexes.as_slice() {
        if def.id.0 == 0 || !def.unique {
            continue;
        }
        if let Some(refusal) = duplicate_in(target, replaced, tuple, def, notes)? {
            return Ok(Some(refusal));
        }
    }
    Ok(None)
}

fn duplicate_in(
    target: &Target<'_>,
    replaced: Option<&Bytes>,
    tuple: &[u8],
    def: &IndexDef,
    notes: &mut Notes,
) -> Result<Option<Refusal>, AllocError>
    ensures finds { (before : plain.State) (key : Option Key) → IsTarget before target.now → IsReplaced (option_copied replaced.entry) key
        → index_with def.now.id.0 target.now.schema.now.indexes ≡ Some def.now → def.now.unique ≡ true
        → IfOk result (λ found. found ≡ refusal_of (spec.is_free before target.now.scope.space.0 target.now.schema.now target.now.primary.now key tuple.now def.now).outcome) }
    ensures notes { (before : plain.State) (key : Option Key)
        → IfOk result (λ found. AddsReads notes.old notes.new (spec.is_free before target.now.scope.space.0 target.now.schema.now target.now.primary.now key tuple.now def.now).reads) }
{
    let alloc = target.scope.alloc;
    let key = parts_or_none(alloc, &def.key, tuple)?;
    notes.note_key(alloc, target.scope.space, def.id, key.as_slice())?;
    let Some(holder) = target.stored.holder(alloc, def, &key)? else {
        return Ok(None);
    };
    if !is_another(target, replaced, holder)? {
        return Ok(None);
    }
    Ok(Some(duplicate_refusal(target, def, holder)?))
}

/// Whether a tuple isn't the one that is replaced.
fn is_another(
    target: &Target<'_>,
    replaced: Option<&Bytes>,
    holder: &[u8],
) -> Result<bool, AllocError>
    ensures { (key : Option Key) → IsReplaced (option_copied replaced.entry) key → IfOk result (λ is. is ≡ spec.is_another target.now.primary.now key (Some holder.now)) }
{
    let Some(replaced) = replaced else {
        return Ok(true);
    };
    let own = parts_or_none(target.scope.alloc, &target.primary.key, holder)?;
    Ok(own != *replaced)
}

/// The refusal of a tuple whose key this other one has in an index.
pub(crate) fn duplicate_refusal(
    target: &Target<'_>,
    def: &IndexDef,
    holder: &[u8],
) -> Result<Refusal, AllocError>
    ensures { IfOk result (λ refusal. refusal ≡ spec.duplicate_refusal target.now.scope.space.0 target.now.schema.now def.now (Some holder.now)) }
{
    let alloc = target.scope.alloc;
    if target.scope.space.0 == SPACE_ROWS {
        let space = described_name(alloc, holder)?;
        return Ok(Refusal::SpaceExists { space });
    }
    Ok(Refusal::DuplicateKey {
        index: Name::from_slice(alloc, def.name.as_slice())?,
        space: Name::from_slice(alloc, target.schema.def.name.as_slice())?,
    })
}

/// The name of the space that a row describes; an empty one where it describes none.
fn described_name(alloc: Global, row: &[u8]) -> Result<Name, AllocError>
    ensures { IfOk result (λ name. name ≡ spec.described_name (Some row.now)) }
{
    match described_space(alloc, row)? {
        Some(def) => Ok(def.name),
        None => Name::from_slice(alloc, &[]),
    }
}
