//! REPLACE.

ghost use Rattle.mx_msgpack.specs.Items.{IsArray};
ghost use Rattle.mx_schema.specs.State as plain;
ghost use Rattle.mx_judge.specs.Makes.{JudgesMade};
ghost use Rattle.mx_write.specs.Notes.{NotesJudged};
ghost use Rattle.mx_write.specs.Replace.{replaces, replaces_taken};
ghost use Rattle.mx_write.specs.Stages.{HasOwnKey};
ghost use Rattle.mx_judge.specs.Scopes.{IsTarget, SeesState};
ghost use Rattle.mx_write.specs.Writes as statement;

use crate::made::{Effect, Made, make};
use crate::notes::Notes;
use crate::scope::{Scope, Target};
use crate::unique::duplicate_in_others;
use mx_base::Refusal;
use mx_msgpack::Bytes;
use mx_write::{REPLACE, Write};

impl Scope<'_> {
    /// What a REPLACE of a tuple, which is an array, makes.
    ///
    /// # Errors
    /// Why it is refused.
    pub fn replace(self, tuple: &[u8], notes: &mut Notes) -> Result<Made, Refusal>
        requires array { IsArray tuple.now }
        ensures judges { (before : plain.State) → SeesState before self.entry
            → JudgesMade before self.entry.space.0 (statement.Replace tuple.now) result (replaces self.entry.writer before self.entry.space.0 tuple.now) }
        ensures notes { (before : plain.State) → SeesState before self.entry
            → NotesJudged notes.old notes.new result (replaces self.entry.writer before self.entry.space.0 tuple.now) }
    {
        let (target, key) = self.find_target(REPLACE, tuple, notes)?;
        put(&target, key, tuple, notes)
    }
}

/// What a REPLACE of a tuple makes that the space takes, where this is its primary key.
fn put(target: &Target<'_>, key: Bytes, tuple: &[u8], notes: &mut Notes) -> Result<Made, Refusal>
    ensures judges { (before : plain.State) → IsTarget before target.now → HasOwnKey target.now.primary.now tuple.now key
        → JudgesMade before target.now.scope.space.0 (statement.Replace tuple.now) result
        (replaces_taken before target.now.scope.space.0 target.now.schema.now target.now.primary.now tuple.now) }
    ensures notes { (before : plain.State) → IsTarget before target.now → HasOwnKey target.now.primary.now tuple.now key → NotesJudged notes.old notes.new result
        (replaces_taken before target.now.scope.space.0 target.now.schema.now target.now.primary.now tuple.now) }
{
    let scope = target.scope;
    if let Some(refusal) = duplicate_in_others(target, Some(&key), tuple, notes)? {
        return Err(refusal);
    }
    let effect = Effect::Put {
        tuple: Bytes::from_slice(scope.alloc, tuple)?,
        is_shown: true,
    };
    let row_key = Bytes::new(scope.alloc);
    make(scope.space, &Write::Replace { tuple }, key, row_key, effect)
}
