//! Recovery: the state that the files of a directory recover to.

ghost use Rattle.std.specs.Prelude.{◌≡◌, [], Ok, Err, IfOk, OnOk, List, map, string_bytes};
ghost use Rattle.std.specs.List.{filter};
ghost use Rattle.std.specs.FinMap as finite;
ghost use Rattle.mx_outside.specs.Causes.{HasCauseOf};
ghost use Rattle.mx_outside.specs.Disks.{IfKnown, IsThere};
ghost use Rattle.mx_files.specs.Names.{is_snapshot};
ghost use Rattle.mx_directory.specs.declared.damage.Damage.{Damage};
ghost use Rattle.mx_directory.specs.Directories as files;
ghost use Rattle.mx_directory.specs.Directories.{Named, IsDirectoryState, directory_state};
ghost use Rattle.mx_recover.specs.declared.fault.RecoverFault.TheVariants.{Damaged, Failed};
ghost use Rattle.mx_recover.specs.Recovered.{StandsFor};
ghost use Rattle.mx_recover.specs.Replay.{Passes};

use crate::fault::RecoverFault;
use crate::load::load;
use crate::replay::Recovered;
use mx_directory::{Damage, DamageKind};
use mx_files::{is_journal, newest_snapshot};
use mx_msgpack::Bytes;
use mx_outside::Dir;
use std::alloc::Global;

/// The database that a directory recovers to. Nothing in the directory changes.
///
/// # Errors
/// The directory is damaged; a call on it failed; or out of memory.
pub fn recover<D: Dir>(alloc: Global, dir: &mut D) -> Result<Recovered, RecoverFault>
    ensures states { D.states dir.new ≡ D.states dir.old }
    ensures stands { IfOk result (λ memory. (reached : files.Reached) × StandsFor memory reached
        × IfKnown (D.states dir.old) (λ disk past. IsDirectoryState disk.now (Ok reached))) }
    ensures damaged { (damage : Damage) → result ≡ Err (Damaged damage)
        → IfKnown (D.states dir.old) (λ disk past. IsDirectoryState disk.now (Err damage)) }
    ensures cause { HasCauseOf Failed (D.faults dir.old) (D.faults dir.new) result }
{
    let names = dir.list(alloc)?;
    replay(alloc, dir, names.as_slice())
}

fn replay<D: Dir>(alloc: Global, dir: &mut D, names: &[String]) -> Result<Recovered, RecoverFault>
    requires { IfKnown (D.states dir.old) (λ disk past. map string_bytes names.now ≡ finite.keys disk.now) }
    ensures states { D.states dir.new ≡ D.states dir.old }
    ensures stands { IfOk result (λ memory. (reached : files.Reached) × StandsFor memory reached
        × IfKnown (D.states dir.old) (λ disk past. IsDirectoryState disk.now (Ok reached))) }
    ensures damaged { (damage : Damage) → result ≡ Err (Damaged damage)
        → IfKnown (D.states dir.old) (λ disk past. IsDirectoryState disk.now (Err damage)) }
    ensures cause { HasCauseOf Failed (D.faults dir.old) (D.faults dir.new) result }
{
    refuse_snapshot(alloc, names)?;
    let mut reached = Recovered::new(alloc)?;
    let mut rest = names;
    while let Some((name, others)) = rest.split_first() {
        replay_name(alloc, dir, name, &mut reached)?;
        rest = others;
    }
    Ok(reached)
}

/// Snapshots can't be read yet.
fn refuse_snapshot(alloc: Global, names: &[String]) -> Result<(), RecoverFault>
    ensures none { OnOk result (filter is_snapshot (map string_bytes names.now) ≡ []) }
    ensures damaged { (damage : Damage) (journals : List Named) → result ≡ Err (Damaged damage)
        → directory_state (filter is_snapshot (map string_bytes names.now)) journals ≡ Err damage }
    ensures no_fault { result ≡ Err Failed → ⊥ }
{
    let Some(name) = newest_snapshot(names) else {
        return Ok(());
    };
    let file = Bytes::from_slice(alloc, name.as_bytes())?;
    let kind = DamageKind::Head;
    Err(RecoverFault::Damaged(Damage { file, at: 0, kind }))
}

fn replay_name<D: Dir>(
    alloc: Global,
    dir: &mut D,
    name: &str,
    reached: &mut Recovered,
) -> Result<(), RecoverFault>
    requires { IsThere (D.states dir.old) name.now }
    ensures states { D.states dir.new ≡ D.states dir.old }
    ensures passed { (before : files.Reached) → StandsFor reached.old before → OnOk result ((after : files.Reached) × StandsFor reached.new after
        × IfKnown (D.states dir.old) (λ disk past. Passes disk.now name.now before (Ok after))) }
    ensures damaged { (before : files.Reached) (damage : Damage) → StandsFor reached.old before → result ≡ Err (Damaged damage)
        → IfKnown (D.states dir.old) (λ disk past. Passes disk.now name.now before (Err damage)) }
    ensures cause { HasCauseOf Failed (D.faults dir.old) (D.faults dir.new) result }
{
    if !is_journal(name) {
        return Ok(());
    }
    let bytes = load(alloc, dir, name)?;
    reached.take_file(alloc, name, &bytes)
}
