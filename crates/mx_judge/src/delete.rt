//! DELETE.

ghost use Rattle.std.specs.Prelude.{◌≡◌, Ok, Some};
ghost use Rattle.mx_key.specs.Comparable.{comparable_of};
ghost use Rattle.mx_key.specs.Keys.{Key, AreFit};
ghost use Rattle.mx_msgpack.specs.Items.{IsArray};
ghost use Rattle.mx_schema.specs.State as plain;
ghost use Rattle.mx_schema.specs.State.{key_in};
ghost use Rattle.mx_write.specs.Delete.{delete_found, deletes};
ghost use Rattle.mx_judge.specs.Makes.{JudgesFound, JudgesMade};
ghost use Rattle.mx_write.specs.Notes.{NotesJudged};
ghost use Rattle.mx_judge.specs.Scopes.{IsTarget, SeesState};
ghost use Rattle.mx_write.specs.Writes as statement;

use crate::descriptions::check_drop;
use crate::entry::{Entry, row_key};
use crate::made::{Effect, Made, make};
use crate::notes::Notes;
use crate::scope::{Scope, Target};
use mx_base::{IndexId, Refusal};
use mx_msgpack::Bytes;
use mx_schema::array_or_empty;
use mx_write::{DELETE, Write, write_refusal};

impl Scope<'_> {
    /// What a DELETE makes of the tuple that has a key, which is an array, in a unique index; `None` where
    /// there is none.
    ///
    /// # Errors
    /// Why it is refused.
    pub fn delete(
        self,
        index: IndexId,
        key: &[u8],
        notes: &mut Notes,
    ) -> Result<Option<Made>, Refusal>
        requires array { IsArray key.now }
        ensures judges { (before : plain.State) → SeesState before self.entry
            → JudgesFound before self.entry.space.0 (statement.Delete index.0 key.now) result (deletes self.entry.writer before self.entry.space.0 index.0 key.now) }
        ensures notes { (before : plain.State) → SeesState before self.entry
            → NotesJudged notes.old notes.new result (deletes self.entry.writer before self.entry.space.0 index.0 key.now) }
    {
        let (target, found) = self.find(DELETE, index, key, notes)?;
        match found {
            Some(entry) => Ok(Some(remove(&target, index, key, entry)?)),
            None => Ok(None),
        }
    }
}

/// What a DELETE makes of the tuple that it found.
fn remove(
    target: &Target<'_>,
    index: IndexId,
    key: &[u8],
    entry: Entry<'_>,
) -> Result<Made, Refusal>
    ensures { (before : plain.State) (own : Key) → IsTarget before target.now → AreFit own → entry.entry.key ≡ comparable_of own
        → key_in target.now.primary.now.key entry.entry.tuple.now ≡ Ok own
        → JudgesMade before target.now.scope.space.0 (statement.Delete index.0 key.now) result
        (delete_found target.now.scope.writer before target.now.scope.space.0 index.0 key.now (Some (own, entry.entry.tuple.now))) }
{
    let scope = target.scope;
    let old = entry.tuple;
    if let Some(refusal) = write_refusal(scope.writer, scope.space, DELETE, Some(old)) {
        return Err(refusal);
    }
    check_drop(&scope, old)?;
    let row_key = row_key(target, array_or_empty(old))?;
    let tuple = Bytes::from_slice(scope.alloc, old)?;
    let write = Write::Delete { index, key };
    make(
        scope.space,
        &write,
        entry.key,
        row_key,
        Effect::Removed { tuple },
    )
}
