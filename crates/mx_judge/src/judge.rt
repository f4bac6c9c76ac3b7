//! Any write.

ghost use Rattle.mx_schema.specs.State as plain;
ghost use Rattle.mx_write.specs.Judge.{judged_write};
ghost use Rattle.mx_judge.specs.Makes.{JudgesFound};
ghost use Rattle.mx_write.specs.Notes.{NotesJudged};
ghost use Rattle.mx_judge.specs.Scopes.{SeesState};
ghost use Rattle.mx_write.specs.Views.{AreArrays, write_view};

use crate::made::Made;
use crate::notes::Notes;
use crate::scope::Scope;
use mx_base::Refusal;
use mx_write::Write;

impl Scope<'_> {
    /// What a write makes; `None` where it finds no tuple to change. Notes what it reads, also where it is
    /// refused.
    ///
    /// # Errors
    /// Why it is refused.
    pub fn judge(self, write: &Write<'_>, notes: &mut Notes) -> Result<Option<Made>, Refusal>
        requires arrays { AreArrays write.now }
        ensures judges { (before : plain.State) → SeesState before self.entry
            → JudgesFound before self.entry.space.0 (write_view write.now) result (judged_write self.entry.writer before self.entry.space.0 (write_view write.now)) }
        ensures notes { (before : plain.State) → SeesState before self.entry
            → NotesJudged notes.old notes.new result (judged_write self.entry.writer before self.entry.space.0 (write_view write.now)) }
    {
        match *write {
            Write::Insert { tuple } => Ok(Some(self.insert(tuple, notes)?)),
            Write::Replace { tuple } => Ok(Some(self.replace(tuple, notes)?)),
            Write::Update {
                index,
                base,
                key,
                operations,
            } => self.update(index, base, key, operations, notes),
            Write::Delete { index, key } => self.delete(index, key, notes),
            Write::Upsert {
                base,
                tuple,
                operations,
            } => Ok(Some(self.upsert(base, tuple, operations, notes)?)),
        }
    }
}
