//! The tuple that has a key in a unique index.

ghost use Rattle.std.specs.Prelude.{◌≡◌, ◌⊎◌, ◌∷◌, [], true, Option, None, Some, Ok, IfOk, MatchOption, MatchResult};
ghost use Rattle.mx_base.specs.declared.refusal.Refusal.TheVariants.{OutOfMemory};
ghost use Rattle.mx_key.specs.Arrays.{key_array};
ghost use Rattle.mx_key.specs.Comparable.{comparable_of};
ghost use Rattle.mx_key.specs.Keys.{Key, AreFit};
ghost use Rattle.mx_msgpack.specs.Items.{IsArray};
ghost use Rattle.std.specs.Option.{option_copied};
ghost use Rattle.mx_schema.specs.declared.index_def.IndexDef.{IndexDef};
ghost use Rattle.mx_schema.specs.Catalogues.{index_with};
ghost use Rattle.mx_schema.specs.declared.schema.Schema.{Schema};
ghost use Rattle.mx_schema.specs.Picks.{Indexed};
ghost use Rattle.mx_schema.specs.State as plain;
ghost use Rattle.mx_schema.specs.State.{key_in};
ghost use Rattle.mx_write.specs.Judged.{Judged, reads_of, unless, ◌>>=◌ as ◌and_then◌};
ghost use Rattle.mx_write.specs.Lookup as lookup;
ghost use Rattle.mx_write.specs.Lookup.{entry_with, is_unique, the_key, the_primary, the_space, the_unique_index};
ghost use Rattle.mx_write.specs.Made.{Made};
ghost use Rattle.mx_write.specs.Stages.{IsRefusedBy, IsKeyOf, in_entry};
ghost use Rattle.mx_write.specs.Notes.{AddsReads, IsNotedUpTo};
ghost use Rattle.mx_write.specs.Reads.{key_read};
ghost use Rattle.mx_judge.specs.Scopes.{IsTarget, SeesState};
ghost use Rattle.mx_write.specs.Writable as writable;

use crate::lookup::{find_index, find_key, find_space, find_unique_index};
use crate::notes::Notes;
use crate::scope::{Scope, Target};
use mx_base::{IndexId, Refusal};
use mx_key::{KeyFault, key_array_of_tuple, key_of_tuple};
use mx_msgpack::Bytes;
use mx_schema::{IndexDef, array_or_empty};
use mx_write::{primary_name, write_refusal};
use std::alloc::AllocError;

/// A tuple of a space, with the comparable bytes of its primary key.
#[derive(Drop)]
pub(crate) struct Entry<'a> {
    pub key: Bytes,
    pub tuple: &'a [u8],
}

impl<'a> Scope<'a> {
    /// Where a write of this type by a key of a unique index is made, and the tuple that has the key there.
    /// The key is an array.
    ///
    /// # Errors
    /// Why it is refused, whatever the tuple is.
    pub(crate) fn find(
        self,
        kind: u8,
        index: IndexId,
        key: &[u8],
        notes: &mut Notes,
    ) -> Result<(Target<'a>, Option<Entry<'a>>), Refusal>
        requires array { IsArray key.now }
        ensures judges { (before : plain.State) (rest : Schema → IndexDef → Option Indexed → Judged Made) → SeesState before self.entry → MatchResult result
            (λ found. (found.0.scope ≡ self.entry) × IsTarget before found.0 × MatchOption found.1
            ((in_entry self.entry.writer before self.entry.space.0 kind index.0 key.now rest).outcome ≡ (rest found.0.schema.now found.0.primary.now None).outcome)
            (λ entry. (own : Key) × ((in_entry self.entry.writer before self.entry.space.0 kind index.0 key.now rest).outcome ≡ (rest found.0.schema.now found.0.primary.now (Some (own, entry.tuple.now))).outcome)
            × AreFit own × (entry.key ≡ comparable_of own) × (key_in found.0.primary.now.key entry.tuple.now ≡ Ok own)))
            (λ refusal. IsRefusedBy refusal (in_entry self.entry.writer before self.entry.space.0 kind index.0 key.now rest)) }
        ensures notes { (before : plain.State) (rest : Schema → IndexDef → Option Indexed → Judged Made) → SeesState before self.entry → MatchResult result
            (λ found. MatchOption found.1
            (IsNotedUpTo notes.old notes.new (in_entry self.entry.writer before self.entry.space.0 kind index.0 key.now rest) (rest found.0.schema.now found.0.primary.now None))
            (λ entry. (own : Key) → key_in found.0.primary.now.key entry.tuple.now ≡ Ok own
            → IsNotedUpTo notes.old notes.new (in_entry self.entry.writer before self.entry.space.0 kind index.0 key.now rest) (rest found.0.schema.now found.0.primary.now (Some (own, entry.tuple.now)))))
            (λ refusal. (refusal ≡ OutOfMemory) ⊎ AddsReads notes.old notes.new (in_entry self.entry.writer before self.entry.space.0 kind index.0 key.now rest).reads) }
    {
        notes.note_space(self.alloc, self.space)?;
        let stored = find_space(self.view, self.space)?;
        let named = primary_name(index, key);
        if let Some(refusal) = write_refusal(self.writer, self.space, kind, named) {
            return Err(refusal);
        }
        notes.note_indexes(self.alloc, self.space)?;
        let schema = stored.schema();
        let def = find_unique_index(self.alloc, schema, index)?;
        let primary = find_index(self.alloc, schema, IndexId(0))?;
        let asked = find_key(self.alloc, def, key)?;
        notes.note_key(self.alloc, self.space, index, asked.as_slice())?;
        let target = Target {
            scope: self,
            stored,
            schema,
            primary,
        };
        let entry = find_entry(&target, def, asked)?;
        Ok((target, entry))
    }
}

/// The tuple that has the key of these comparable bytes in a unique index.
fn find_entry<'a>(
    target: &Target<'a>,
    def: &IndexDef,
    key: Bytes,
) -> Result<Option<Entry<'a>>, AllocError>
    ensures { (before : plain.State) (wanted : Key) → IsTarget before target.now → index_with def.now.id.0 target.now.schema.now.indexes ≡ Some def.now → is_unique def.now ≡ true
        → AreFit wanted → key ≡ comparable_of wanted → IfOk result (λ found. MatchOption found
        (entry_with before target.now.scope.space.0 target.now.primary.now def.now wanted ≡ None)
        (λ entry. (own : Key) × (entry_with before target.now.scope.space.0 target.now.primary.now def.now wanted ≡ Some (own, entry.tuple.now))
        × AreFit own × (entry.key ≡ comparable_of own) × (key_in target.now.primary.now.key entry.tuple.now ≡ Ok own))) }
{
    let Some(key) = primary_key_with(target, def, key)? else {
        return Ok(None);
    };
    let Some(tuple) = target.stored.tuple(&key) else {
        return Ok(None);
    };
    Ok(Some(Entry { key, tuple }))
}

/// The primary key of the tuple that has the key of these comparable bytes in a unique index.
fn primary_key_with(
    target: &Target<'_>,
    def: &IndexDef,
    key: Bytes,
) -> Result<Option<Bytes>, AllocError>
    ensures { (before : plain.State) (wanted : Key) → IsTarget before target.now → index_with def.now.id.0 target.now.schema.now.indexes ≡ Some def.now → is_unique def.now ≡ true
        → AreFit wanted → key ≡ comparable_of wanted → IfOk result (λ found. IsKeyOf found (lookup.primary_key_with before target.now.scope.space.0 target.now.primary.now def.now wanted)) }
{
    if def.id.0 == 0 {
        return Ok(Some(key));
    }
    let holder = target.stored.holder(target.scope.alloc, def, &key)?;
    primary_key_of(target, holder)
}

fn primary_key_of(target: &Target<'_>, holder: Option<&[u8]>) -> Result<Option<Bytes>, AllocError>
    ensures { IfOk result (λ found. IsKeyOf found (lookup.primary_key_of target.now.primary.now (option_copied holder.entry))) }
{
    let Some(tuple) = holder else {
        return Ok(None);
    };
    let array = array_or_empty(tuple);
    match key_of_tuple(target.scope.alloc, &target.primary.key, array) {
        Ok(key) => Ok(Some(key)),
        Err(KeyFault::Missing { .. }) => Ok(None),
        Err(KeyFault::Wrong { .. }) => Ok(None),
        Err(KeyFault::NoMemory) => Err(AllocError),
    }
}

/// The primary key of a tuple, which is an array, as an array. A tuple without one, which no space has, is
/// taken as one for which there is no memory.
pub(crate) fn row_key(target: &Target<'_>, tuple: &[u8]) -> Result<Bytes, AllocError>
    requires array { IsArray tuple.now }
    ensures { (own : Key) → key_in target.now.primary.now.key tuple.now ≡ Ok own → IfOk result (λ array. array ≡ key_array own) }
{
    match key_array_of_tuple(target.scope.alloc, &target.primary.key, tuple) {
        Ok(key) => Ok(key),
        Err(KeyFault::Missing { .. }) => Err(AllocError),
        Err(KeyFault::Wrong { .. }) => Err(AllocError),
        Err(KeyFault::NoMemory) => Err(AllocError),
    }
}
