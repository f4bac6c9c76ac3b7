//! UPDATE.

ghost use Rattle.std.specs.Prelude.{◌≡◌, Ok, Some};
ghost use Rattle.mx_key.specs.Comparable.{comparable_of};
ghost use Rattle.mx_key.specs.Keys.{Key, AreFit};
ghost use Rattle.mx_msgpack.specs.Items.{IsArray};
ghost use Rattle.mx_schema.specs.State as plain;
ghost use Rattle.mx_schema.specs.State.{key_in};
ghost use Rattle.mx_judge.specs.Makes.{JudgesFound, JudgesMade};
ghost use Rattle.mx_write.specs.Notes.{NotesJudged};
ghost use Rattle.mx_judge.specs.Scopes.{IsTarget, SeesState};
ghost use Rattle.mx_write.specs.Update.{update_found, updates};
ghost use Rattle.mx_write.specs.Writes as statement;

use crate::entry::{Entry, row_key};
use crate::made::Made;
use crate::notes::Notes;
use crate::place::put_in_place;
use crate::scope::{Scope, Target};
use mx_base::{IndexId, Refusal};
use mx_schema::array_or_empty;
use mx_write::{UPDATE, Write, tuple_in_space, update_tuple, write_refusal};

impl Scope<'_> {
    /// What an UPDATE by these operations makes of the tuple that has a key in a unique index; `None` where
    /// there is none. The key and the operations are arrays, and the operations' fields count from `base`.
    ///
    /// # Errors
    /// Why it is refused.
    pub fn update(
        self,
        index: IndexId,
        base: u32,
        key: &[u8],
        operations: &[u8],
        notes: &mut Notes,
    ) -> Result<Option<Made>, Refusal>
        requires array { IsArray key.now }
        ensures judges { (before : plain.State) → SeesState before self.entry
            → JudgesFound before self.entry.space.0 (statement.Update index.0 base key.now operations.now) result
            (updates self.entry.writer before self.entry.space.0 index.0 base key.now operations.now) }
        ensures notes { (before : plain.State) → SeesState before self.entry
            → NotesJudged notes.old notes.new result (updates self.entry.writer before self.entry.space.0 index.0 base key.now operations.now) }
    {
        let (target, found) = self.find(UPDATE, index, key, notes)?;
        match found {
            Some(entry) => {
                let made = change(&target, index, base, key, operations, entry, notes)?;
                Ok(Some(made))
            }
            None => Ok(None),
        }
    }
}

/// What an UPDATE makes of the tuple that it found.
fn change(
    target: &Target<'_>,
    index: IndexId,
    base: u32,
    key: &[u8],
    operations: &[u8],
    entry: Entry<'_>,
    notes: &mut Notes,
) -> Result<Made, Refusal>
    ensures judges { (before : plain.State) (own : Key) → IsTarget before target.now → AreFit own → entry.entry.key ≡ comparable_of own
        → key_in target.now.primary.now.key entry.entry.tuple.now ≡ Ok own
        → JudgesMade before target.now.scope.space.0 (statement.Update index.0 base key.now operations.now) result
        (update_found target.now.scope.writer before target.now.scope.space.0 index.0 base key.now operations.now target.now.schema.now target.now.primary.now (Some (own, entry.entry.tuple.now))) }
    ensures notes { (before : plain.State) (own : Key) → IsTarget before target.now → AreFit own → entry.entry.key ≡ comparable_of own
        → key_in target.now.primary.now.key entry.entry.tuple.now ≡ Ok own → NotesJudged notes.old notes.new result
        (update_found target.now.scope.writer before target.now.scope.space.0 index.0 base key.now operations.now target.now.schema.now target.now.primary.now (Some (own, entry.entry.tuple.now))) }
{
    let scope = target.scope;
    if let Some(refusal) = write_refusal(scope.writer, scope.space, UPDATE, Some(entry.tuple)) {
        return Err(refusal);
    }
    let old = array_or_empty(entry.tuple);
    let updated = update_tuple(scope.alloc, base, old, operations)?;
    let new = tuple_in_space(scope.writer, scope.space, updated)?;
    let row_key = row_key(target, old)?;
    let write = Write::Update {
        index,
        base,
        key,
        operations,
    };
    put_in_place(target, &write, entry.key, row_key, new, true, notes)
}
