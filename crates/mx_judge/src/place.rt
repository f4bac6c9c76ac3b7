//! A tuple in the place of the one that it was made of.

ghost use Rattle.std.specs.Prelude.{◌≡◌};
ghost use Rattle.mx_key.specs.Arrays.{key_array};
ghost use Rattle.mx_key.specs.Comparable.{comparable_of};
ghost use Rattle.mx_key.specs.Keys.{Key, AreFit};
ghost use Rattle.mx_schema.specs.State as plain;
ghost use Rattle.mx_write.specs.Made.{row_with};
ghost use Rattle.mx_judge.specs.Makes.{JudgesMade};
ghost use Rattle.mx_write.specs.Stages.{shown_if};
ghost use Rattle.mx_write.specs.Notes.{NotesJudged};
ghost use Rattle.mx_judge.specs.Scopes.{IsTarget};
ghost use Rattle.mx_write.specs.Update as spec;
ghost use Rattle.mx_write.specs.Views.{write_view};

use crate::made::{Effect, Made, make};
use crate::notes::Notes;
use crate::scope::Target;
use crate::unique::duplicate_in_others;
use mx_base::{Name, Refusal};
use mx_msgpack::Bytes;
use mx_write::{Write, check_bytes};

/// What a write makes that puts a tuple in the place of the one that has this primary key.
///
/// # Errors
/// Why it is refused.
pub(crate) fn put_in_place(
    target: &Target<'_>,
    write: &Write<'_>,
    key: Bytes,
    row_key: Bytes,
    tuple: Bytes,
    is_shown: bool,
    notes: &mut Notes,
) -> Result<Made, Refusal>
    ensures judges { (before : plain.State) (own : Key) → IsTarget before target.now → AreFit own → key ≡ comparable_of own
        → row_with target.now.scope.space.0 (write_view write.now) row_key ≡ row_with target.now.scope.space.0 (write_view write.now) (key_array own)
        → JudgesMade before target.now.scope.space.0 (write_view write.now) result
        (spec.put_in_place before target.now.scope.space.0 target.now.schema.now target.now.primary.now (write_view write.now) own tuple (shown_if is_shown tuple)) }
    ensures notes { (before : plain.State) (own : Key) → IsTarget before target.now → AreFit own → key ≡ comparable_of own → NotesJudged notes.old notes.new result
        (spec.put_in_place before target.now.scope.space.0 target.now.schema.now target.now.primary.now (write_view write.now) own tuple (shown_if is_shown tuple)) }
{
    let scope = target.scope;
    let new_key = check_bytes(scope.alloc, target.schema, target.primary, tuple.as_slice())?;
    if new_key != key {
        let space = Name::from_slice(scope.alloc, target.schema.def.name.as_slice())?;
        return Err(Refusal::PrimaryKeyChanged { space });
    }
    if let Some(refusal) = duplicate_in_others(target, Some(&key), tuple.as_slice(), notes)? {
        return Err(refusal);
    }
    make(
        scope.space,
        write,
        key,
        row_key,
        Effect::Put { tuple, is_shown },
    )
}
