//! UPSERT.

ghost use Rattle.std.specs.Prelude.{None, Some};
ghost use Rattle.mx_msgpack.specs.Items.{IsArray};
ghost use Rattle.mx_schema.specs.State as plain;
ghost use Rattle.mx_judge.specs.Makes.{JudgesMade};
ghost use Rattle.mx_write.specs.Notes.{NotesJudged};
ghost use Rattle.mx_write.specs.Stages.{HasOwnKey};
ghost use Rattle.mx_judge.specs.Scopes.{IsTarget, SeesState};
ghost use Rattle.mx_write.specs.Upsert.{upsert_found, upserts};
ghost use Rattle.mx_write.specs.Writes as statement;

use crate::made::{Effect, Made, make};
use crate::notes::Notes;
use crate::place::put_in_place;
use crate::scope::{Scope, Target};
use crate::unique::duplicate_in_others;
use mx_base::{IndexId, Refusal};
use mx_msgpack::Bytes;
use mx_schema::array_or_empty;
use mx_write::{UPSERT, Write, tuple_in_space, upsert_tuple};

impl Scope<'_> {
    /// What an UPSERT makes of the tuple that has the primary key of this one, which is an array: the
    /// operations change it, and their fields count from `base`. Where there is none, this one is put.
    ///
    /// # Errors
    /// Why it is refused.
    #[tactic(auto, unfolding(mx_write::specs::Upsert::upserts))]
    pub fn upsert(
        self,
        base: u32,
        tuple: &[u8],
        operations: &[u8],
        notes: &mut Notes,
    ) -> Result<Made, Refusal>
        requires array { IsArray tuple.now }
        ensures judges { (before : plain.State) → SeesState before self.entry
            → JudgesMade before self.entry.space.0 (statement.Upsert base tuple.now operations.now) result
            (upserts self.entry.writer before self.entry.space.0 base tuple.now operations.now) }
        ensures notes { (before : plain.State) → SeesState before self.entry
            → NotesJudged notes.old notes.new result (upserts self.entry.writer before self.entry.space.0 base tuple.now operations.now) }
    {
        let (target, key) = self.find_target(UPSERT, tuple, notes)?;
        notes.note_key(self.alloc, self.space, IndexId(0), key.as_slice())?;
        match target.stored.tuple(&key) {
            Some(old) => change(&target, base, tuple, operations, key, old, notes),
            None => put(&target, base, tuple, operations, key, notes),
        }
    }
}

/// What an UPSERT of a tuple makes whose primary key, which is this, no other one has.
fn put(
    target: &Target<'_>,
    base: u32,
    tuple: &[u8],
    operations: &[u8],
    key: Bytes,
    notes: &mut Notes,
) -> Result<Made, Refusal>
    ensures judges { (before : plain.State) → IsTarget before target.now → HasOwnKey target.now.primary.now tuple.now key
        → JudgesMade before target.now.scope.space.0 (statement.Upsert base tuple.now operations.now) result
        (upsert_found target.now.scope.writer before target.now.scope.space.0 base tuple.now operations.now target.now.schema.now target.now.primary.now None) }
    ensures notes { (before : plain.State) → IsTarget before target.now → HasOwnKey target.now.primary.now tuple.now key → NotesJudged notes.old notes.new result
        (upsert_found target.now.scope.writer before target.now.scope.space.0 base tuple.now operations.now target.now.schema.now target.now.primary.now None) }
{
    if let Some(refusal) = duplicate_in_others(target, Some(&key), tuple, notes)? {
        return Err(refusal);
    }
    let alloc = target.scope.alloc;
    let effect = Effect::Put {
        tuple: Bytes::from_slice(alloc, tuple)?,
        is_shown: false,
    };
    let write = Write::Upsert {
        base,
        tuple,
        operations,
    };
    make(target.scope.space, &write, key, Bytes::new(alloc), effect)
}

/// What an UPSERT of a tuple makes of the one that has its primary key, which is this.
fn change(
    target: &Target<'_>,
    base: u32,
    tuple: &[u8],
    operations: &[u8],
    key: Bytes,
    old: &[u8],
    notes: &mut Notes,
) -> Result<Made, Refusal>
    ensures judges { (before : plain.State) → IsTarget before target.now → HasOwnKey target.now.primary.now tuple.now key
        → JudgesMade before target.now.scope.space.0 (statement.Upsert base tuple.now operations.now) result
        (upsert_found target.now.scope.writer before target.now.scope.space.0 base tuple.now operations.now target.now.schema.now target.now.primary.now (Some old.now)) }
    ensures notes { (before : plain.State) → IsTarget before target.now → HasOwnKey target.now.primary.now tuple.now key → NotesJudged notes.old notes.new result
        (upsert_found target.now.scope.writer before target.now.scope.space.0 base tuple.now operations.now target.now.schema.now target.now.primary.now (Some old.now)) }
{
    let scope = target.scope;
    let updated = upsert_tuple(scope.alloc, base, array_or_empty(old), operations)?;
    let new = tuple_in_space(scope.writer, scope.space, updated)?;
    let write = Write::Upsert {
        base,
        tuple,
        operations,
    };
    let no_key = Bytes::new(scope.alloc);
    put_in_place(target, &write, key, no_key, new, false, notes)
}
