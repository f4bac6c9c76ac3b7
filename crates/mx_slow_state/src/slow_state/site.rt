//! Where the plain slow program judges a write, and the tuple that a key finds there.

ghost use Rattle.std.specs.Prelude.{◌≡◌, ◌≢◌, Option, IfOk, MatchResult};
ghost use Rattle.std.specs.Option.{option_copied};
ghost use Rattle.mx_key.specs.Arrays.{key_array};
ghost use Rattle.mx_key.specs.Comparable.{comparable_of};
ghost use Rattle.mx_key.specs.Keys.{Key, AreFit};
ghost use Rattle.mx_schema.specs.declared.index_def.IndexDef as plain_index;
ghost use Rattle.mx_schema.specs.declared.schema.Schema as plain_schema;
ghost use Rattle.mx_schema.specs.Catalogues.{schema_of};
ghost use Rattle.mx_schema.specs.Picks.{Indexed};
ghost use Rattle.mx_schema.specs.State as plain;
ghost use Rattle.mx_schema.specs.State.{key_in, tuples_in};
ghost use Rattle.mx_schema.specs.Stored.{StoresSpace, stored_list};
ghost use Rattle.mx_write.specs.Judged.{Judged};
ghost use Rattle.mx_write.specs.Lookup.{entry_with, holder_of};
ghost use Rattle.mx_write.specs.Made as spec;
ghost use Rattle.mx_write.specs.Stages.{IsRefusedBy, HasOwnKey};
ghost use Rattle.mx_slow_state.specs.SlowState.{KeepsTuples};
ghost use Rattle.mx_slow_state.specs.SlowWrites.{IsEntry, IsSite, in_writable, of_key, of_tuple};

use crate::slow_state::list::{copy_tuple, find};
use crate::slow_state::{SlowSpace, SlowState, index_tuples};
use mx_base::{IndexId, Refusal, SpaceId};
use mx_judge::{find_index, find_key, find_unique_index};
use mx_key::{KeyFault, key_array_of_tuple, key_of_tuple};
use mx_msgpack::Bytes;
use mx_schema::{IndexDef, Keyed, Schema, array_or_empty};
use mx_write::{Writer, check_bytes, primary_name, write_refusal};
use std::alloc::{AllocError, Global};

/// A space, which is there and has a primary index, and its tuples.
#[derive(Clone, Copy)]
pub struct Site<'a> {
    pub alloc: Global,
    pub space: SpaceId,
    pub schema: &'a Schema,
    pub primary: &'a IndexDef,
    pub tuples: &'a [Keyed],
}

impl SlowState {
    /// Where a write of this type puts a tuple, and the comparable bytes of its primary key.
    ///
    /// # Errors
    /// Why the space doesn't take the tuple.
    pub(crate) fn site_of_tuple(
        &self,
        kind: u8,
        space: SpaceId,
        tuple: &[u8],
    ) -> Result<(Site<'_>, Bytes), Refusal>
        ensures { (before : plain.State) (rest : plain_schema.Schema → plain_index.IndexDef → Judged spec.Made) → KeepsTuples self.now before → MatchResult result
            (λ found. (found.0.space ≡ space) × IsSite before found.0 × HasOwnKey found.0.primary.now tuple.now found.1
            × ((of_tuple before space.0 kind tuple.now rest).outcome ≡ (rest found.0.schema.now found.0.primary.now).outcome))
            (λ refusal. IsRefusedBy refusal (of_tuple before space.0 kind tuple.now rest)) }
    {
        let found = self.writable_space(kind, space, Some(tuple))?;
        let schema = &found.schema;
        let primary = find_index(self.alloc, schema, IndexId(0))?;
        let key = check_bytes(self.alloc, schema, primary, tuple)?;
        let site = Site {
            alloc: self.alloc,
            space,
            schema,
            primary,
            tuples: found.tuples.as_slice(),
        };
        Ok((site, key))
    }

    /// Where a write of this type by a key of a unique index is made, and the tuple that has the key there.
    ///
    /// # Errors
    /// Why it is refused, whatever the tuple is.
    pub(crate) fn site_of_key(
        &self,
        kind: u8,
        space: SpaceId,
        index: IndexId,
        key: &[u8],
    ) -> Result<(Site<'_>, Option<&Keyed>), Refusal>
        ensures { (before : plain.State) (rest : plain_schema.Schema → plain_index.IndexDef → Option Indexed → Judged spec.Made) → KeepsTuples self.now before → MatchResult result
            (λ found. (found.0.space ≡ space) × IsSite before found.0 × (entry : Option Indexed) × IsEntry found.0.primary.now (option_copied found.1) entry
            × ((of_key before space.0 kind index.0 key.now rest).outcome ≡ (rest found.0.schema.now found.0.primary.now entry).outcome))
            (λ refusal. IsRefusedBy refusal (of_key before space.0 kind index.0 key.now rest)) }
    {
        let found = self.writable_space(kind, space, primary_name(index, key))?;
        let schema = &found.schema;
        let def = find_unique_index(self.alloc, schema, index)?;
        let primary = find_index(self.alloc, schema, IndexId(0))?;
        let asked = find_key(self.alloc, def, array_or_empty(key))?;
        let site = Site {
            alloc: self.alloc,
            space,
            schema,
            primary,
            tuples: found.tuples.as_slice(),
        };
        let entry = find_entry(&site, def, &asked)?;
        Ok((site, entry))
    }

    /// The space in which a write of this type is made of the row that is named so.
    ///
    /// # Errors
    /// There is no such space, or it takes no such write.
    pub fn writable_space(
        &self,
        kind: u8,
        space: SpaceId,
        named: Option<&[u8]>,
    ) -> Result<&SlowSpace, Refusal>
        ensures { (before : plain.State) (rest : plain_schema.Schema → Judged spec.Made) → KeepsTuples self.now before → MatchResult result
            (λ found. StoresSpace (schema_of before space.0) found.now.schema (stored_list found.now.tuples.items) (tuples_in before space.0)
            × ((in_writable before space.0 kind (option_copied named.entry) rest).outcome ≡ (rest found.now.schema).outcome))
            (λ refusal. IsRefusedBy refusal (in_writable before space.0 kind (option_copied named.entry) rest)) }
    {
        let Some(found) = self.spaces.get(&space.0) else {
            return Err(Refusal::SpaceMissing { space });
        };
        match write_refusal(Writer::Client, space, kind, named) {
            Some(refusal) => Err(refusal),
            None => Ok(found),
        }
    }
}

/// The tuple that has the key of these comparable bytes in a unique index.
///
/// # Errors
/// Out of memory.
pub fn find_entry<'a>(
    site: &Site<'a>,
    def: &IndexDef,
    key: &Bytes,
) -> Result<Option<&'a Keyed>, AllocError>
    ensures { (before : plain.State) (wanted : Key) → IsSite before site.now → AreFit wanted → key.now ≡ comparable_of wanted
        → IfOk result (λ found. IsEntry site.now.primary.now (option_copied found) (entry_with before site.now.space.0 site.now.primary.now def.now wanted)) }
{
    if def.id.0 == 0 {
        return Ok(find(site.tuples, key));
    }
    let Some(tuple) = holder(site, def, key)? else {
        return Ok(None);
    };
    match key_of_tuple(
        site.alloc,
        &site.primary.key,
        array_or_empty(tuple.as_slice()),
    ) {
        Ok(own) => Ok(find(site.tuples, &own)),
        Err(KeyFault::Missing { .. }) => Ok(None),
        Err(KeyFault::Wrong { .. }) => Ok(None),
        Err(KeyFault::NoMemory) => Err(AllocError),
    }
}

/// A copy of the tuple that has the key of these comparable bytes in an index of another number than 0.
///
/// # Errors
/// Out of memory.
pub fn holder(site: &Site<'_>, def: &IndexDef, key: &Bytes) -> Result<Option<Bytes>, AllocError>
    ensures { (before : plain.State) (wanted : Key) → IsSite before site.now → def.now.id.0 ≢ 0 → AreFit wanted → key.now ≡ comparable_of wanted
        → IfOk result (λ found. found ≡ holder_of before site.now.space.0 def.now wanted) }
{
    let indexed = index_tuples(site.alloc, def, site.tuples)?;
    copy_tuple(site.alloc, find(indexed.as_slice(), key))
}

/// The primary key of a tuple as an array. A tuple without one, which no space has, is taken as one for
/// which there is no memory.
pub(crate) fn row_key(alloc: Global, primary: &IndexDef, tuple: &[u8]) -> Result<Bytes, AllocError>
    ensures { (own : Key) → key_in primary.now.key tuple.now ≡ Ok own → IfOk result (λ array. array ≡ key_array own) }
{
    match key_array_of_tuple(alloc, &primary.key, array_or_empty(tuple)) {
        Ok(key) => Ok(key),
        Err(KeyFault::Missing { .. }) => Err(AllocError),
        Err(KeyFault::Wrong { .. }) => Err(AllocError),
        Err(KeyFault::NoMemory) => Err(AllocError),
    }
}
