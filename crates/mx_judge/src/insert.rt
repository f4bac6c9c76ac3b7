//! INSERT.

ghost use Rattle.std.specs.Prelude.{◌≡◌, None, Ok, IfOk};
ghost use Rattle.mx_key.specs.Keys.{AreFit};
ghost use Rattle.mx_key.specs.Comparable.{comparable_of};
ghost use Rattle.mx_msgpack.specs.Items.{IsArray};
ghost use Rattle.mx_schema.specs.State as plain;
ghost use Rattle.mx_schema.specs.State.{key_in};
ghost use Rattle.mx_write.specs.Insert.{inserts, inserts_taken};
ghost use Rattle.mx_write.specs.Lookup.{all_indexes, own_key};
ghost use Rattle.mx_judge.specs.Makes.{JudgesMade};
ghost use Rattle.mx_write.specs.Notes.{AddsReads, NotesJudged};
ghost use Rattle.mx_write.specs.Writes as statement;
ghost use Rattle.mx_judge.specs.Scopes.{IsTarget, SeesState};
ghost use Rattle.mx_write.specs.Stages.{refusal_of};
ghost use Rattle.mx_write.specs.Unique.{are_free};

use crate::descriptions::{check_description, check_new_index};
use crate::made::{Effect, Made, make};
use crate::notes::Notes;
use crate::scope::{Scope, Target};
use crate::unique::{duplicate_in_others, duplicate_refusal};
use mx_base::Refusal;
use mx_msgpack::Bytes;
use mx_write::{INSERT, Write};
use std::alloc::AllocError;

impl Scope<'_> {
    /// What an INSERT of a tuple, which is an array, makes.
    ///
    /// # Errors
    /// Why it is refused.
    pub fn insert(self, tuple: &[u8], notes: &mut Notes) -> Result<Made, Refusal>
        requires array { IsArray tuple.now }
        ensures judges { (before : plain.State) → SeesState before self.entry
            → JudgesMade before self.entry.space.0 (statement.Insert tuple.now) result (inserts self.entry.writer before self.entry.space.0 tuple.now) }
        ensures notes { (before : plain.State) → SeesState before self.entry
            → NotesJudged notes.old notes.new result (inserts self.entry.writer before self.entry.space.0 tuple.now) }
    {
        let (target, key) = self.find_target(INSERT, tuple, notes)?;
        add(&target, key, tuple, notes)
    }
}

/// What an INSERT of a tuple makes that the space takes, where this is its primary key.
fn add(target: &Target<'_>, key: Bytes, tuple: &[u8], notes: &mut Notes) -> Result<Made, Refusal>
    ensures judges { (before : plain.State) → IsTarget before target.now → key_in target.now.primary.now.key tuple.now ≡ Ok (own_key target.now.primary.now tuple.now)
        → AreFit (own_key target.now.primary.now tuple.now) → key ≡ comparable_of (own_key target.now.primary.now tuple.now)
        → JudgesMade before target.now.scope.space.0 (statement.Insert tuple.now) result
        (inserts_taken before target.now.scope.space.0 target.now.schema.now target.now.primary.now tuple.now) }
    ensures notes { (before : plain.State) → IsTarget before target.now → key_in target.now.primary.now.key tuple.now ≡ Ok (own_key target.now.primary.now tuple.now)
        → AreFit (own_key target.now.primary.now tuple.now) → key ≡ comparable_of (own_key target.now.primary.now tuple.now)
        → NotesJudged notes.old notes.new result (inserts_taken before target.now.scope.space.0 target.now.schema.now target.now.primary.now tuple.now) }
{
    let scope = target.scope;
    check_description(target, tuple)?;
    if let Some(refusal) = duplicate(target, &key, tuple, notes)? {
        return Err(refusal);
    }
    check_new_index(target, tuple)?;
    let effect = Effect::Put {
        tuple: Bytes::from_slice(scope.alloc, tuple)?,
        is_shown: true,
    };
    let row_key = Bytes::new(scope.alloc);
    make(scope.space, &Write::Insert { tuple }, key, row_key, effect)
}

/// The refusal of a tuple whose key another one has in a unique index, where this is its primary key.
fn duplicate(
    target: &Target<'_>,
    key: &Bytes,
    tuple: &[u8],
    notes: &mut Notes,
) -> Result<Option<Refusal>, AllocError>
    ensures finds { (before : plain.State) → IsTarget before target.now → AreFit (own_key target.now.primary.now tuple.now)
        → key.now ≡ comparable_of (own_key target.now.primary.now tuple.now)
        → IfOk result (λ found. found ≡ refusal_of (are_free before target.now.scope.space.0 target.now.schema.now target.now.primary.now None tuple.now
        (all_indexes target.now.primary.now target.now.schema.now)).outcome) }
    ensures notes { (before : plain.State) → IsTarget before target.now → AreFit (own_key target.now.primary.now tuple.now)
        → key.now ≡ comparable_of (own_key target.now.primary.now tuple.now)
        → IfOk result (λ found. AddsReads notes.old notes.new (are_free before target.now.scope.space.0 target.now.schema.now target.now.primary.now None tuple.now
        (all_indexes target.now.primary.now target.now.schema.now)).reads) }
{
    let alloc = target.scope.alloc;
    notes.note_key(alloc, target.scope.space, target.primary.id, key.as_slice())?;
    match target.stored.tuple(key) {
        Some(other) => Ok(Some(duplicate_refusal(target, target.primary, other)?)),
        None => duplicate_in_others(target, None, tuple, notes),
    }
}
