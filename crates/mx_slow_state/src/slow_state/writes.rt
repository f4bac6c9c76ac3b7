//! What the plain slow program makes of a write, or why it refuses it.

ghost use Rattle.std.specs.Prelude.{◌≡◌, [], Some, Ok};
ghost use Rattle.mx_key.specs.Arrays.{key_array};
ghost use Rattle.mx_key.specs.Comparable.{comparable_of};
ghost use Rattle.mx_key.specs.Keys.{Key, AreFit};
ghost use Rattle.mx_schema.specs.Sound.{IsSound};
ghost use Rattle.mx_schema.specs.State as plain;
ghost use Rattle.mx_schema.specs.State.{key_in};
ghost use Rattle.mx_write.specs.declared.writable.Writer.TheVariants.{Client};
ghost use Rattle.mx_write.specs.Delete.{delete_found, deletes};
ghost use Rattle.mx_write.specs.Insert.{inserts, inserts_taken};
ghost use Rattle.mx_write.specs.Judge.{judged_write};
ghost use Rattle.mx_write.specs.Lookup.{own_key};
ghost use Rattle.mx_write.specs.Made as spec;
ghost use Rattle.mx_write.specs.Made.{row_with};
ghost use Rattle.mx_judge.specs.Makes.{JudgesFound, JudgesMade};
ghost use Rattle.mx_write.specs.Stages.{shown_if, HasOwnKey};
ghost use Rattle.mx_write.specs.Replace.{replaces};
ghost use Rattle.mx_write.specs.Views.{write_view};
ghost use Rattle.mx_write.specs.Writes as statement;
ghost use Rattle.mx_slow_state.specs.SlowState.{KeepsTuples};
ghost use Rattle.mx_slow_state.specs.SlowWrites.{IsSite};

use crate::slow_state::SlowState;
use crate::slow_state::duplicates::{duplicate, duplicate_in_others};
use crate::slow_state::site::{Site, row_key};
use mx_base::{IndexId, Refusal, SpaceId};
use mx_judge::{Effect, Made, make};
use mx_msgpack::Bytes;
use mx_schema::Keyed;
use mx_write::{DELETE, INSERT, REPLACE, Write, Writer, write_refusal};

impl SlowState {
    /// What a write makes; `None` where it finds no tuple to change.
    ///
    /// # Errors
    /// Why it is refused.
    pub(crate) fn judge(&self, space: SpaceId, write: &Write<'_>) -> Result<Option<Made>, Refusal>
        ensures { (before : plain.State) → KeepsTuples self.now before → IsSound before
            → JudgesFound before space.0 (write_view write.now) result (judged_write Client before space.0 (write_view write.now)) }
    {
        match *write {
            Write::Insert { tuple } => Ok(Some(self.insert(space, tuple)?)),
            Write::Replace { tuple } => Ok(Some(self.replace(space, tuple)?)),
            Write::Update {
                index,
                base,
                key,
                operations,
            } => self.update(space, index, base, key, operations),
            Write::Delete { index, key } => self.delete(space, index, key),
            Write::Upsert {
                base,
                tuple,
                operations,
            } => Ok(Some(self.upsert(space, base, tuple, operations)?)),
        }
    }

    fn insert(&self, space: SpaceId, tuple: &[u8]) -> Result<Made, Refusal>
        ensures { (before : plain.State) → KeepsTuples self.now before → IsSound before
            → JudgesMade before space.0 (statement.Insert tuple.now) result (inserts Client before space.0 tuple.now) }
    {
        let (site, key) = self.site_of_tuple(INSERT, space, tuple)?;
        self.add(&site, key, tuple)
    }

    /// What an INSERT makes of a tuple that the space takes, where this is its primary key.
    fn add(&self, site: &Site<'_>, key: Bytes, tuple: &[u8]) -> Result<Made, Refusal>
        ensures { (before : plain.State) → KeepsTuples self.now before → IsSound before → IsSite before site.now → HasOwnKey site.now.primary.now tuple.now key
            → JudgesMade before site.now.space.0 (statement.Insert tuple.now) result
            (inserts_taken before site.now.space.0 site.now.schema.now site.now.primary.now tuple.now) }
    {
        self.check_description(site.space, tuple)?;
        if let Some(refusal) = duplicate(site, &key, tuple)? {
            return Err(refusal);
        }
        self.check_new_index(site.space, tuple)?;
        put_copy(site, &Write::Insert { tuple }, key, tuple, true)
    }

    fn replace(&self, space: SpaceId, tuple: &[u8]) -> Result<Made, Refusal>
        ensures { (before : plain.State) → KeepsTuples self.now before
            → JudgesMade before space.0 (statement.Replace tuple.now) result (replaces Client before space.0 tuple.now) }
    {
        let (site, key) = self.site_of_tuple(REPLACE, space, tuple)?;
        if let Some(refusal) = duplicate_in_others(&site, Some(&key), tuple)? {
            return Err(refusal);
        }
        put_copy(&site, &Write::Replace { tuple }, key, tuple, true)
    }

    fn delete(&self, space: SpaceId, index: IndexId, key: &[u8]) -> Result<Option<Made>, Refusal>
        ensures { (before : plain.State) → KeepsTuples self.now before
            → JudgesFound before space.0 (statement.Delete index.0 key.now) result (deletes Client before space.0 index.0 key.now) }
    {
        let (site, found) = self.site_of_key(DELETE, space, index, key)?;
        match found {
            Some(one) => Ok(Some(self.remove(&site, index, key, one)?)),
            None => Ok(None),
        }
    }

    /// What a DELETE makes of the tuple that it found.
    fn remove(
        &self,
        site: &Site<'_>,
        index: IndexId,
        key: &[u8],
        one: &Keyed,
    ) -> Result<Made, Refusal>
        ensures { (before : plain.State) (own : Key) → KeepsTuples self.now before → IsSite before site.now → AreFit own → one.now.key ≡ comparable_of own
            → key_in site.now.primary.now.key one.now.tuple ≡ Ok own
            → JudgesMade before site.now.space.0 (statement.Delete index.0 key.now) result
            (delete_found Client before site.now.space.0 index.0 key.now (Some (own, one.now.tuple))) }
    {
        let old = one.tuple.as_slice();
        if let Some(refusal) = write_refusal(Writer::Client, site.space, DELETE, Some(old)) {
            return Err(refusal);
        }
        self.check_drop(site.space, old)?;
        let array = row_key(site.alloc, site.primary, old)?;
        let own = Bytes::from_slice(site.alloc, one.key.as_slice())?;
        let tuple = Bytes::from_slice(site.alloc, old)?;
        let write = Write::Delete { index, key };
        make(site.space, &write, own, array, Effect::Removed { tuple })
    }
}

/// What a write makes that puts a copy of this tuple, whose primary key has these comparable bytes. Its
/// row has no key.
pub(crate) fn put_copy(
    site: &Site<'_>,
    write: &Write<'_>,
    key: Bytes,
    tuple: &[u8],
    is_shown: bool,
) -> Result<Made, Refusal>
    ensures { (before : plain.State) → IsSite before site.now → HasOwnKey site.now.primary.now tuple.now key
        → row_with site.now.space.0 (write_view write.now) [] ≡ row_with site.now.space.0 (write_view write.now) (key_array (own_key site.now.primary.now tuple.now))
        → JudgesMade before site.now.space.0 (write_view write.now) result
        (spec.made site.now.space.0 (write_view write.now) (own_key site.now.primary.now tuple.now) (Some tuple.now) (shown_if is_shown tuple.now)) }
{
    let effect = Effect::Put {
        tuple: Bytes::from_slice(site.alloc, tuple)?,
        is_shown,
    };
    make(site.space, write, key, Bytes::new(site.alloc), effect)
}
