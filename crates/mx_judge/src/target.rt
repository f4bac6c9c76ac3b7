//! Where a write puts a tuple.

ghost use Rattle.std.specs.Prelude.{◌≡◌, ◌⊎◌, Some, MatchResult};
ghost use Rattle.mx_base.specs.declared.refusal.Refusal.TheVariants.{OutOfMemory};
ghost use Rattle.mx_msgpack.specs.Items.{IsArray};
ghost use Rattle.mx_schema.specs.declared.index_def.IndexDef.{IndexDef};
ghost use Rattle.mx_schema.specs.declared.schema.Schema.{Schema};
ghost use Rattle.mx_schema.specs.State as plain;
ghost use Rattle.mx_write.specs.Judged.{Judged};
ghost use Rattle.mx_write.specs.Made.{Made};
ghost use Rattle.mx_write.specs.Stages.{IsRefusedBy, HasOwnKey, in_target};
ghost use Rattle.mx_write.specs.Notes.{AddsReads, IsNotedUpTo};
ghost use Rattle.mx_judge.specs.Scopes.{IsTarget, SeesState};

use crate::lookup::{find_index, find_space};
use crate::notes::Notes;
use crate::scope::{Scope, Target};
use mx_base::{IndexId, Refusal};
use mx_msgpack::Bytes;
use mx_write::{check_tuple, write_refusal};

impl<'a> Scope<'a> {
    /// Where a write of this type puts a tuple, which is an array, and the comparable bytes of its primary key.
    ///
    /// # Errors
    /// Why the space doesn't take the tuple.
    pub(crate) fn find_target(
        self,
        kind: u8,
        tuple: &[u8],
        notes: &mut Notes,
    ) -> Result<(Target<'a>, Bytes), Refusal>
        requires array { IsArray tuple.now }
        ensures judges { (before : plain.State) (rest : Schema → IndexDef → Judged Made) → SeesState before self.entry → MatchResult result
            (λ found. (found.0.scope ≡ self.entry) × IsTarget before found.0 × HasOwnKey found.0.primary.now tuple.now found.1
            × ((in_target self.entry.writer before self.entry.space.0 kind tuple.now rest).outcome ≡ (rest found.0.schema.now found.0.primary.now).outcome))
            (λ refusal. IsRefusedBy refusal (in_target self.entry.writer before self.entry.space.0 kind tuple.now rest)) }
        ensures notes { (before : plain.State) (rest : Schema → IndexDef → Judged Made) → SeesState before self.entry → MatchResult result
            (λ found. IsNotedUpTo notes.old notes.new (in_target self.entry.writer before self.entry.space.0 kind tuple.now rest) (rest found.0.schema.now found.0.primary.now))
            (λ refusal. (refusal ≡ OutOfMemory) ⊎ AddsReads notes.old notes.new (in_target self.entry.writer before self.entry.space.0 kind tuple.now rest).reads) }
    {
        notes.note_space(self.alloc, self.space)?;
        let stored = find_space(self.view, self.space)?;
        if let Some(refusal) = write_refusal(self.writer, self.space, kind, Some(tuple)) {
            return Err(refusal);
        }
        notes.note_indexes(self.alloc, self.space)?;
        let schema = stored.schema();
        let primary = find_index(self.alloc, schema, IndexId(0))?;
        let key = check_tuple(self.alloc, schema, primary, tuple)?;
        let target = Target {
            scope: self,
            stored,
            schema,
            primary,
        };
        Ok((target, key))
    }
}
