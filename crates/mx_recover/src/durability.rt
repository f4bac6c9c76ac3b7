//! Making durable what was read of a directory.

ghost use Rattle.std.specs.Prelude.{◌≡◌, ◌≤◌, ⊤, map, OnOk};
ghost use Rattle.std.specs.String.{string_bytes};
ghost use Rattle.std.specs.FinMap as finite;
ghost use Rattle.mx_outside.specs.Causes.{HasCauseOf};
ghost use Rattle.mx_outside.specs.Disks.{IfKnown, KnownAlike, IsThere, file_synced, removed};
ghost use Rattle.mx_outside.specs.declared.dir.DirFault.TheVariants.{Failed};
ghost use Rattle.mx_files.specs.Names.{is_journal, is_draft};
ghost use Rattle.mx_images.specs.Changes.{IsNow, KeepsOthers, SameContents};
ghost use Rattle.mx_outside.specs.Moments.{Moments};
ghost use Rattle.mx_recover.specs.Durability.{MadeDurable};
ghost use Rattle.mx_images.specs.Fair.{LeavesNoOther};
ghost use Rattle.mx_recover.specs.Turns.{after_turn, after_turns, AreThere, OnlyCleans, Reaches};

use mx_files::{is_draft, is_journal};
use mx_outside::{Dir, DirFault};
use std::alloc::Global;

/// Makes what was read of a directory durable: syncs its journals, removes the files that never got
/// their names, and syncs the names. Other files are kept.
///
/// # Errors
/// A call on the directory failed, or out of memory.
pub fn make_durable<D: Dir>(alloc: Global, dir: &mut D) -> Result<(), DirFault>
    ensures told { KnownAlike (D.states dir.old) (D.states dir.new) }
    ensures durable { IfKnown (D.states dir.old) (λ disk past. OnOk result (IsNow (D.states dir.new) (MadeDurable disk))) }
    ensures moments { IfKnown (D.states dir.old) (λ disk past. Moments (LeavesNoOther disk) LeavesNoOther (D.states dir.new) disk past) }
    ensures reads { IfKnown (D.states dir.old) (λ disk past. Moments (λ _. ⊤) (λ older newer. SameContents older.now newer.now) (D.states dir.new) disk past) }
    ensures others { IfKnown (D.states dir.old) (λ disk past. Moments (λ _. ⊤) KeepsOthers (D.states dir.new) disk past) }
    ensures cause { HasCauseOf Failed (D.faults dir.old) (D.faults dir.new) result }
{
    let names = dir.list(alloc)?;
    sync_and_clean(alloc, dir, names.as_slice())
}

fn sync_and_clean<D: Dir>(alloc: Global, dir: &mut D, names: &[String]) -> Result<(), DirFault>
    requires { IfKnown (D.states dir.old) (λ disk past. map string_bytes names.now ≡ finite.keys disk.now) }
    ensures told { KnownAlike (D.states dir.old) (D.states dir.new) }
    ensures durable { IfKnown (D.states dir.old) (λ disk past. OnOk result (IsNow (D.states dir.new) (MadeDurable disk))) }
    ensures moments { IfKnown (D.states dir.old) (λ disk past. Moments (λ _. ⊤) OnlyCleans (D.states dir.new) disk past) }
    ensures cause { HasCauseOf Failed (D.faults dir.old) (D.faults dir.new) result }
{
    sync_journals(alloc, dir, names)?;
    remove_drafts(alloc, dir, names)?;
    dir.sync_names(alloc)
}

fn sync_journals<D: Dir>(alloc: Global, dir: &mut D, names: &[String]) -> Result<(), DirFault>
    requires { IfKnown (D.states dir.old) (λ disk past. AreThere is_journal file_synced (map string_bytes names.now) disk) }
    ensures told { KnownAlike (D.states dir.old) (D.states dir.new) }
    ensures synced { Reaches (after_turns is_journal file_synced (map string_bytes names.now)) (D.states dir.old) (D.states dir.new) result }
    ensures moments { IfKnown (D.states dir.old) (λ disk past. Moments (λ _. ⊤) OnlyCleans (D.states dir.new) disk past) }
    ensures cause { HasCauseOf Failed (D.faults dir.old) (D.faults dir.new) result }
{
    let mut rest = names;
    while let Some((name, others)) = rest.split_first() {
        sync_if_journal(alloc, dir, name)?;
        rest = others;
    }
    Ok(())
}

fn sync_if_journal<D: Dir>(alloc: Global, dir: &mut D, name: &str) -> Result<(), DirFault>
    requires { IsThere (D.states dir.old) name.now }
    ensures told { KnownAlike (D.states dir.old) (D.states dir.new) }
    ensures synced { Reaches (after_turn is_journal file_synced name.now) (D.states dir.old) (D.states dir.new) result }
    ensures moments { IfKnown (D.states dir.old) (λ disk past. Moments (λ _. ⊤) OnlyCleans (D.states dir.new) disk past) }
    ensures cause { HasCauseOf Failed (D.faults dir.old) (D.faults dir.new) result }
{
    if !is_journal(name) {
        return Ok(());
    }
    dir.sync(alloc, name)
}

fn remove_drafts<D: Dir>(alloc: Global, dir: &mut D, names: &[String]) -> Result<(), DirFault>
    requires { IfKnown (D.states dir.old) (λ disk past. AreThere is_draft removed (map string_bytes names.now) disk) }
    ensures told { KnownAlike (D.states dir.old) (D.states dir.new) }
    ensures removed { Reaches (after_turns is_draft removed (map string_bytes names.now)) (D.states dir.old) (D.states dir.new) result }
    ensures moments { IfKnown (D.states dir.old) (λ disk past. Moments (λ _. ⊤) OnlyCleans (D.states dir.new) disk past) }
    ensures cause { HasCauseOf Failed (D.faults dir.old) (D.faults dir.new) result }
{
    let mut rest = names;
    while let Some((name, others)) = rest.split_first() {
        remove_if_draft(alloc, dir, name)?;
        rest = others;
    }
    Ok(())
}

fn remove_if_draft<D: Dir>(alloc: Global, dir: &mut D, name: &str) -> Result<(), DirFault>
    requires { IsThere (D.states dir.old) name.now }
    ensures told { KnownAlike (D.states dir.old) (D.states dir.new) }
    ensures removed { Reaches (after_turn is_draft removed name.now) (D.states dir.old) (D.states dir.new) result }
    ensures moments { IfKnown (D.states dir.old) (λ disk past. Moments (λ _. ⊤) OnlyCleans (D.states dir.new) disk past) }
    ensures cause { HasCauseOf Failed (D.faults dir.old) (D.faults dir.new) result }
{
    if !is_draft(name) {
        return Ok(());
    }
    dir.remove(alloc, name)
}
