//! Writes of the plain slow program that change a tuple by operations: UPDATE and UPSERT.

ghost use Rattle.std.specs.Prelude.{◌≡◌, None, Ok, Some};
ghost use Rattle.mx_key.specs.Arrays.{key_array};
ghost use Rattle.mx_key.specs.Comparable.{comparable_of};
ghost use Rattle.mx_key.specs.Keys.{Key, AreFit};
ghost use Rattle.mx_schema.specs.State as plain;
ghost use Rattle.mx_schema.specs.State.{key_in};
ghost use Rattle.mx_write.specs.declared.writable.Writer.TheVariants.{Client};
ghost use Rattle.mx_write.specs.Made.{row_with};
ghost use Rattle.mx_judge.specs.Makes.{JudgesFound, JudgesMade};
ghost use Rattle.mx_write.specs.Stages.{shown_if, HasOwnKey};
ghost use Rattle.mx_write.specs.Update as spec;
ghost use Rattle.mx_write.specs.Update.{updates};
ghost use Rattle.mx_write.specs.Upsert as spec_upsert;
ghost use Rattle.mx_write.specs.Upsert.{upserts};
ghost use Rattle.mx_write.specs.Views.{write_view};
ghost use Rattle.mx_write.specs.Writes as statement;
ghost use Rattle.mx_slow_state.specs.SlowState.{KeepsTuples};
ghost use Rattle.mx_slow_state.specs.SlowWrites.{IsSite};

use crate::slow_state::SlowState;
use crate::slow_state::duplicates::duplicate_in_others;
use crate::slow_state::list::find;
use crate::slow_state::site::{Site, row_key};
use crate::slow_state::writes::put_copy;
use mx_base::{IndexId, Name, Refusal, SpaceId};
use mx_judge::{Effect, Made, make};
use mx_msgpack::Bytes;
use mx_schema::{Keyed, array_or_empty};
use mx_write::{
    UPDATE, UPSERT, Write, Writer, check_bytes, update_tuple, upsert_tuple, write_refusal,
};

impl SlowState {
    pub(crate) fn update(
        &self,
        space: SpaceId,
        index: IndexId,
        base: u32,
        key: &[u8],
        operations: &[u8],
    ) -> Result<Option<Made>, Refusal>
        ensures { (before : plain.State) → KeepsTuples self.now before
            → JudgesFound before space.0 (statement.Update index.0 base key.now operations.now) result (updates Client before space.0 index.0 base key.now operations.now) }
    {
        let (site, found) = self.site_of_key(UPDATE, space, index, key)?;
        match found {
            Some(one) => Ok(Some(update_found(&site, index, base, key, operations, one)?)),
            None => Ok(None),
        }
    }

    pub(crate) fn upsert(
        &self,
        space: SpaceId,
        base: u32,
        tuple: &[u8],
        operations: &[u8],
    ) -> Result<Made, Refusal>
        ensures { (before : plain.State) → KeepsTuples self.now before
            → JudgesMade before space.0 (statement.Upsert base tuple.now operations.now) result (upserts Client before space.0 base tuple.now operations.now) }
    {
        let (site, key) = self.site_of_tuple(UPSERT, space, tuple)?;
        match find(site.tuples, &key) {
            Some(one) => upsert_found(&site, base, tuple, operations, key, one.tuple.as_slice()),
            None => upsert_new(&site, base, tuple, operations, key),
        }
    }
}

/// What an UPDATE makes of the tuple that it found.
fn update_found(
    site: &Site<'_>,
    index: IndexId,
    base: u32,
    key: &[u8],
    operations: &[u8],
    one: &Keyed,
) -> Result<Made, Refusal>
    ensures { (before : plain.State) (own : Key) → IsSite before site.now → AreFit own → one.now.key ≡ comparable_of own
        → key_in site.now.primary.now.key one.now.tuple ≡ Ok own
        → JudgesMade before site.now.space.0 (statement.Update index.0 base key.now operations.now) result
        (spec.update_found Client before site.now.space.0 index.0 base key.now operations.now site.now.schema.now site.now.primary.now (Some (own, one.now.tuple))) }
{
    let old = one.tuple.as_slice();
    if let Some(refusal) = write_refusal(Writer::Client, site.space, UPDATE, Some(old)) {
        return Err(refusal);
    }
    let new = update_tuple(site.alloc, base, array_or_empty(old), operations)?;
    let array = row_key(site.alloc, site.primary, old)?;
    let own = Bytes::from_slice(site.alloc, one.key.as_slice())?;
    let write = Write::Update {
        index,
        base,
        key,
        operations,
    };
    put_in_place(site, &write, own, array, new, true)
}

/// What an UPSERT of a tuple makes of the one that has its primary key.
fn upsert_found(
    site: &Site<'_>,
    base: u32,
    tuple: &[u8],
    operations: &[u8],
    key: Bytes,
    old: &[u8],
) -> Result<Made, Refusal>
    ensures { (before : plain.State) → IsSite before site.now → HasOwnKey site.now.primary.now tuple.now key
        → JudgesMade before site.now.space.0 (statement.Upsert base tuple.now operations.now) result
        (spec_upsert.upsert_found Client before site.now.space.0 base tuple.now operations.now site.now.schema.now site.now.primary.now (Some old.now)) }
{
    let new = upsert_tuple(site.alloc, base, array_or_empty(old), operations)?;
    let write = Write::Upsert {
        base,
        tuple,
        operations,
    };
    put_in_place(site, &write, key, Bytes::new(site.alloc), new, false)
}

/// What an UPSERT of a tuple makes whose primary key no other one has.
fn upsert_new(
    site: &Site<'_>,
    base: u32,
    tuple: &[u8],
    operations: &[u8],
    key: Bytes,
) -> Result<Made, Refusal>
    ensures { (before : plain.State) → IsSite before site.now → HasOwnKey site.now.primary.now tuple.now key
        → JudgesMade before site.now.space.0 (statement.Upsert base tuple.now operations.now) result
        (spec_upsert.upsert_found Client before site.now.space.0 base tuple.now operations.now site.now.schema.now site.now.primary.now None) }
{
    if let Some(refusal) = duplicate_in_others(site, Some(&key), tuple)? {
        return Err(refusal);
    }
    let write = Write::Upsert {
        base,
        tuple,
        operations,
    };
    put_copy(site, &write, key, tuple, false)
}

/// What a write makes that puts a tuple in the place of the one that has this primary key.
fn put_in_place(
    site: &Site<'_>,
    write: &Write<'_>,
    key: Bytes,
    row_key: Bytes,
    tuple: Bytes,
    is_shown: bool,
) -> Result<Made, Refusal>
    ensures { (before : plain.State) (own : Key) → IsSite before site.now → AreFit own → key ≡ comparable_of own
        → row_with site.now.space.0 (write_view write.now) row_key ≡ row_with site.now.space.0 (write_view write.now) (key_array own)
        → JudgesMade before site.now.space.0 (write_view write.now) result
        (spec.put_in_place before site.now.space.0 site.now.schema.now site.now.primary.now (write_view write.now) own tuple (shown_if is_shown tuple)) }
{
    let new_key = check_bytes(site.alloc, site.schema, site.primary, tuple.as_slice())?;
    if new_key != key {
        let space = Name::from_slice(site.alloc, site.schema.def.name.as_slice())?;
        return Err(Refusal::PrimaryKeyChanged { space });
    }
    if let Some(refusal) = duplicate_in_others(site, Some(&key), tuple.as_slice())? {
        return Err(refusal);
    }
    make(
        site.space,
        write,
        key,
        row_key,
        Effect::Put { tuple, is_shown },
    )
}
