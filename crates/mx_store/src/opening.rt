//! Opening a directory: it is recovered and made durable, and a new journal goes on from there.

ghost use Rattle.std.specs.Prelude.{◌≡◌, ◌<◌, ◌≤◌, ⊤, [], ℕ, List, length, Err, IfOk};
ghost use Rattle.mx_outside.specs.Causes.{HasCauseOf};
ghost use Rattle.mx_outside.specs.Disks.{IfKnown, KnownAlike};
ghost use Rattle.mx_outside.specs.Moments.{Moments};
ghost use mathlib.Core.List.{IsPrefix};
ghost use Rattle.mx_images.specs.Changes.{KeepsOthers};
ghost use Rattle.mx_journal.specs.declared.fault.JournalFault.TheVariants.{Failed as JournalFailed};
ghost use Rattle.mx_row.specs.declared.tx.Tx.{Tx};
ghost use Rattle.mx_directory.specs.declared.damage.Damage.{Damage};
ghost use Rattle.mx_directory.specs.Directories as files;
ghost use Rattle.mx_directory.specs.Directories.{IsDirectoryState, Origin};
ghost use Rattle.mx_directory.specs.Survival.{Recovers, StandsAfter, FollowFrom, ReadsMost, Survive, NoFewerSurvive};
ghost use Rattle.mx_recover.specs.declared.fault.RecoverFault.TheVariants.{Damaged, Failed};
ghost use Rattle.mx_recover.specs.Replay.{IsDurableAt};
ghost use Rattle.mx_engine.specs.Standing.{EngineStandsFor};
ghost use Rattle.mx_model.specs.Bases.{Base};
ghost use Rattle.mx_store.specs.Stores.{IsBaseOf, JournalHas, base_of};

use mx_engine::Engine;
use mx_journal::{Journal, JournalFault};
use mx_model::Ids;
use mx_outside::Dir;
use mx_recover::{RecoverFault, Recovered, make_durable, recover};
use mx_xlog::Head;
use std::alloc::Global;

/// An opened directory.
#[derive(Drop)]
pub struct Opened {
    pub engine: Engine,
    pub journal: Journal,
}

/// Opens a directory: recovers it, makes what was read durable, and begins a journal that goes on
/// from there. A directory without files takes the identifiers.
///
/// # Errors
/// The directory is damaged, and nothing in it was changed; a call on it failed; or out of memory.
pub fn open<D: Dir>(alloc: Global, dir: &mut D, ids: &Ids) -> Result<Opened, RecoverFault>
    requires { ids.now.me < 32 }
    ensures opened { IfOk result (λ opened. (base : Base) × IsBaseOf ids.now base (D.states dir.old)
        × EngineStandsFor opened.engine base [] × JournalHas base [] opened.journal (D.states dir.new)) }
    ensures told { KnownAlike (D.states dir.old) (D.states dir.new) }
    ensures moments { (origin : Origin) (earlier transactions : List Tx) → Recovers origin earlier (D.states dir.old) → IsPrefix earlier transactions → FollowFrom origin transactions
        → IfKnown (D.states dir.old) (λ disk past. Moments (Survive origin transactions 0) (NoFewerSurvive origin transactions) (D.states dir.new) disk past) }
    ensures reads { (origin : Origin) (earlier transactions : List Tx) → Recovers origin earlier (D.states dir.old) → IsPrefix earlier transactions → FollowFrom origin transactions
        → IfKnown (D.states dir.old) (λ disk past. Moments (ReadsMost origin transactions) (λ _ _. ⊤) (D.states dir.new) disk past) }
    ensures others { IfKnown (D.states dir.old) (λ disk past. Moments (λ _. ⊤) KeepsOthers (D.states dir.new) disk past) }
    ensures damaged { (damage : Damage) → result ≡ Err (Damaged damage)
        → IfKnown (D.states dir.old) (λ disk past. IsDirectoryState disk.now (Err damage)) × (D.states dir.new ≡ D.states dir.old) }
    ensures cause { HasCauseOf Failed (D.faults dir.old) (D.faults dir.new) result }
{
    let reached = recover(alloc, dir)?;
    make_durable(alloc, dir)?;
    match begin(alloc, dir, ids, reached) {
        Ok(opened) => Ok(opened),
        Err(JournalFault::Failed) => Err(RecoverFault::Failed),
        Err(JournalFault::NoMemory) => Err(RecoverFault::NoMemory),
    }
}

/// Begins a journal, and an engine, that go on from what was recovered. After a crash meanwhile the
/// directory recovers to all of it.
fn begin<D: Dir>(
    alloc: Global,
    dir: &mut D,
    ids: &Ids,
    reached: Recovered,
) -> Result<Opened, JournalFault>
    requires durable { (found : files.Reached) × IsDurableAt reached found (D.states dir.old) }
    requires whose { ids.now.me < 32 }
    ensures ready { (found : files.Reached) → IsDurableAt reached found (D.states dir.old)
        → IfOk result (λ opened. EngineStandsFor opened.engine (base_of ids.now found) []
        × JournalHas (base_of ids.now found) [] opened.journal (D.states dir.new)) }
    ensures told { KnownAlike (D.states dir.old) (D.states dir.new) }
    ensures moments { (found : files.Reached) (origin : Origin) (earlier transactions : List Tx) → IsDurableAt reached found (D.states dir.old)
        → IfKnown (D.states dir.old) (λ disk past. StandsAfter origin earlier disk.now) → IsPrefix earlier transactions → FollowFrom origin transactions
        → IfKnown (D.states dir.old) (λ disk past. Moments (Survive origin transactions (length earlier)) (NoFewerSurvive origin transactions) (D.states dir.new) disk past) }
    ensures others { IfKnown (D.states dir.old) (λ disk past. Moments (λ _. ⊤) KeepsOthers (D.states dir.new) disk past) }
    ensures cause { HasCauseOf JournalFailed (D.faults dir.old) (D.faults dir.new) result }
{
    let ids = reached.ids.unwrap_or(*ids);
    let head = Head {
        snapshot: false,
        instance: ids.instance,
        set: ids.set,
        replica: ids.me,
        clock: reached.clock,
    };
    let journal = Journal::create(alloc, dir, head)?;
    let engine = Engine::from_state(alloc, reached.state, reached.clock, ids)?;
    Ok(Opened { engine, journal })
}
