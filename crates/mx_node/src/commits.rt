//! Commits: what an engine committed is written to the journal and synced.

ghost use Rattle.std.specs.Prelude.{◌+◌, ◌<◌, ◌^◌, ◌∷◌, ⊤, ℕ, List, OnOk, IsTrue, ◌↔◌};
ghost use Rattle.mx_outside.specs.Causes.{HasCauseOf};
ghost use Rattle.mx_outside.specs.Disks.{IfKnown};
ghost use Rattle.mx_outside.specs.Moments.{Moments};
ghost use Rattle.mx_images.specs.Changes.{KeepsOthers};
ghost use Rattle.mx_journal.specs.declared.fault.JournalFault.TheVariants.{Failed};
ghost use Rattle.mx_row.specs.declared.tx.Tx.{Tx};
ghost use Rattle.mx_model.specs.Bases.{Base};
ghost use Rattle.mx_model.specs.Histories.{History, Left, Took, Confirmed};
ghost use Rattle.mx_directory.specs.Survival.{Lasts};
ghost use Rattle.mx_engine.specs.Standing.{EngineStandsFor};
ghost use Rattle.mx_node.specs.Ready.{Behind, IsBehind, Ready};

use mx_base::ConnId;
use mx_engine::Engine;
use mx_journal::{Journal, JournalFault};
use mx_outside::Dir;
use mx_store::write_taken;
use std::alloc::{AllocError, Global};

/// The maximum number of an engine's steps.
const MAX_STEPS: u64 = (1 << 63) - 1;

/// Whether the engine can take so many steps more.
fn has_room(engine: &Engine, steps: u64) -> bool
    ensures { IsTrue result ↔ (engine.now.count + steps < 2 ^ 63) }
{
    engine.count().saturating_add(steps) <= MAX_STEPS
}

/// Takes what the engine committed, writes it, and tells the engine once it is durable.
///
/// # Errors
/// A call on the directory failed, or out of memory. Nothing of it can be used any more.
pub(crate) fn write_out<D: Dir>(
    alloc: Global,
    engine: &mut Engine,
    journal: &mut Journal,
    dir: &mut D,
) -> Result<(), JournalFault>
    requires { IsBehind engine.old journal.old (D.states dir.old) }
    ensures ready { (base : Base) (history : History) → Behind base history engine.old journal.old (D.states dir.old)
        → OnOk result ((txs : List Tx) × (upto : ℕ) × Ready base (Confirmed upto ∷ Took txs upto ∷ history) engine.new journal.new (D.states dir.new)) }
    ensures lasts { (base : Base) (history : History) → Behind base history engine.old journal.old (D.states dir.old)
        → Lasts base history (D.states dir.old) (D.states dir.new) }
    ensures others { IfKnown (D.states dir.old) (λ disk past. Moments (λ _. ⊤) KeepsOthers (D.states dir.new) disk past) }
    ensures cause { HasCauseOf Failed (D.faults dir.old) (D.faults dir.new) result }
{
    if !has_room(engine, 2) {
        return Err(JournalFault::NoMemory);
    }
    let pending = engine.take_pending();
    write_taken(alloc, journal, dir, pending.txs.as_slice())?;
    engine.confirm(pending.upto);
    Ok(())
}

/// Takes a connection's departure.
///
/// # Errors
/// The engine can take no more steps.
pub(crate) fn leave(engine: &mut Engine, connection: ConnId) -> Result<(), AllocError>
    ensures { (base : Base) (history : History) → EngineStandsFor engine.old base history
        → OnOk result (EngineStandsFor engine.new base (Left connection.0 ∷ history)) }
{
    if !has_room(engine, 1) {
        return Err(AllocError);
    }
    engine.leave(connection);
    Ok(())
}
