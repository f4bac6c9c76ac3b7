//! Files that are made and appended to, durably.

ghost use Rattle.std.specs.Prelude.{◌≡◌, ◌++◌, ⊤, true, false, List, OnOk};
ghost use Rattle.mx_outside.specs.Causes.{HasCauseOf};
ghost use Rattle.mx_outside.specs.Disks.{Files, IfKnown, IsThere, KnownAlike};
ghost use Rattle.mx_outside.specs.Moments.{Moments};
ghost use Rattle.mx_xlog.specs.declared.head.Head.{Head};
ghost use Rattle.mx_xlog.specs.Headers.{header_of};
ghost use Rattle.mx_files.specs.Names.{draft_ending, counts, is_ours};
ghost use Rattle.mx_journal.specs.declared.fault.JournalFault.TheVariants.{Failed};
ghost use Rattle.mx_images.specs.Fair.{IsFair};
ghost use Rattle.mx_images.specs.Changes.{IsNow, Changed, KeepsOthers, with_draft, with_appended, renamed_durably};
ghost use Rattle.mx_journal.specs.Making.{AppendsSynced, CountsSame, HasMade, MayMakeFile, RenamesDurably};

use crate::fault::JournalFault;
use mx_files::draft_name;
use mx_outside::Dir;
use std::alloc::Global;

/// Makes a file of these bytes in the place of the one that has this name. It has a draft's name
/// until all of it is durable.
pub(crate) fn make_file<D: Dir>(
    alloc: Global,
    dir: &mut D,
    name: &str,
    bytes: &[u8],
) -> Result<(), JournalFault>
    ensures told { KnownAlike (D.states dir.old) (D.states dir.new) }
    ensures made { OnOk result (Changed
        (λ disk. renamed_durably (name.now ++ draft_ending) name.now (with_draft (name.now ++ draft_ending) bytes.now disk))
        (D.states dir.old) (D.states dir.new)) }
    ensures moments { IfKnown (D.states dir.old) (λ disk past.
        Moments (MayMakeFile name.now bytes.now disk) (MayMakeFile name.now bytes.now) (D.states dir.new) disk past) }
    ensures others { (head : Head) → bytes.now ≡ header_of head → is_ours name.now ≡ true → is_ours (name.now ++ draft_ending) ≡ true
        → IfKnown (D.states dir.old) (λ disk past. Moments (λ _. ⊤) KeepsOthers (D.states dir.new) disk past) }
    ensures there { counts name.now ≡ true → IfKnown (D.states dir.old) (λ disk past. OnOk result (IsNow (D.states dir.new) (λ now.
        (image : Files) → IsFair now image → HasMade name.now bytes.now disk image))) }
    ensures cause { HasCauseOf Failed (D.faults dir.old) (D.faults dir.new) result }
{
    let draft = draft_name(alloc, name)?;
    write_draft(alloc, dir, draft.as_str(), bytes)?;
    rename_durably(alloc, dir, draft.as_str(), name)?;
    Ok(())
}

fn write_draft<D: Dir>(
    alloc: Global,
    dir: &mut D,
    name: &str,
    bytes: &[u8],
) -> Result<(), JournalFault>
    requires { counts name.now ≡ false }
    ensures told { KnownAlike (D.states dir.old) (D.states dir.new) }
    ensures made { OnOk result (Changed (with_draft name.now bytes.now) (D.states dir.old) (D.states dir.new)) }
    ensures moments { IfKnown (D.states dir.old) (λ disk past. Moments (CountsSame disk) CountsSame (D.states dir.new) disk past) }
    ensures others { is_ours name.now ≡ true → IfKnown (D.states dir.old) (λ disk past. Moments (λ _. ⊤) KeepsOthers (D.states dir.new) disk past) }
    ensures there { OnOk result (IsThere (D.states dir.new) name.now) }
    ensures cause { HasCauseOf Failed (D.faults dir.old) (D.faults dir.new) result }
{
    dir.create(alloc, name)?;
    append_synced(alloc, dir, name, bytes)?;
    Ok(())
}

pub(crate) fn append_synced<D: Dir>(
    alloc: Global,
    dir: &mut D,
    name: &str,
    bytes: &[u8],
) -> Result<(), JournalFault>
    requires { IsThere (D.states dir.old) name.now }
    ensures told { KnownAlike (D.states dir.old) (D.states dir.new) }
    ensures made { OnOk result (Changed (with_appended name.now bytes.now) (D.states dir.old) (D.states dir.new)) }
    ensures states { AppendsSynced name.now bytes.now (D.states dir.old) (D.states dir.new) result }
    ensures there { OnOk result (IsThere (D.states dir.new) name.now) }
    ensures cause { HasCauseOf Failed (D.faults dir.old) (D.faults dir.new) result }
{
    dir.append(alloc, name, bytes)?;
    dir.sync(alloc, name)?;
    Ok(())
}

fn rename_durably<D: Dir>(
    alloc: Global,
    dir: &mut D,
    from: &str,
    to: &str,
) -> Result<(), JournalFault>
    requires { IsThere (D.states dir.old) from.now }
    ensures told { KnownAlike (D.states dir.old) (D.states dir.new) }
    ensures made { OnOk result (Changed (renamed_durably from.now to.now) (D.states dir.old) (D.states dir.new)) }
    ensures states { RenamesDurably from.now to.now (D.states dir.old) (D.states dir.new) result }
    ensures cause { HasCauseOf Failed (D.faults dir.old) (D.faults dir.new) result }
{
    dir.rename(alloc, from, to)?;
    dir.sync_names(alloc)?;
    Ok(())
}
