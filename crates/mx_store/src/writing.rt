//! What was committed is written to the journal and synced.

ghost use Rattle.std.specs.Prelude.{◌≡◌, ◌++◌, ◌∷◌, ⊤, ℕ, List, OnOk};
ghost use Rattle.mx_outside.specs.Causes.{HasCauseOf};
ghost use Rattle.mx_outside.specs.Disks.{Disk, IfKnown};
ghost use Rattle.mx_outside.specs.Moments.{Moments};
ghost use Rattle.mx_images.specs.Changes.{KeepsOthers};
ghost use Rattle.mx_journal.specs.declared.fault.JournalFault.TheVariants.{Failed};
ghost use Rattle.mx_journal.specs.Written.{IsWritten, Waits};
ghost use Rattle.mx_row.specs.declared.tx.Tx.{Tx};
ghost use Rattle.mx_model.specs.Bases.{Base};
ghost use Rattle.mx_model.specs.Histories.{History, IsLegal, Took};
ghost use Rattle.mx_directory.specs.Survival.{Lasts};
ghost use Rattle.mx_store.specs.Stores.{AllComeNext, JournalHas};

use mx_journal::{Journal, JournalFault};
use mx_outside::Dir;
use mx_row::Tx;
use std::alloc::{AllocError, Global};

/// Writes what an engine handed out, all that it has committed and that wasn't taken before, and syncs
/// it once.
///
/// # Errors
/// A call on the directory failed, or out of memory. The journal can't be used any more.
pub fn write_taken<D: Dir>(
    alloc: Global,
    journal: &mut Journal,
    dir: &mut D,
    txs: &[Tx],
) -> Result<(), JournalFault>
    requires has { (base : Base) × (history : History) × (upto : ℕ) × JournalHas base history journal.old (D.states dir.old) × IsLegal base (Took txs.now upto ∷ history) }
    ensures has { (base : Base) (history : History) (upto : ℕ) → JournalHas base history journal.old (D.states dir.old) → IsLegal base (Took txs.now upto ∷ history)
        → OnOk result (JournalHas base (Took txs.now upto ∷ history) journal.new (D.states dir.new)) }
    ensures lasts { (base : Base) (history : History) (upto : ℕ) → JournalHas base history journal.old (D.states dir.old) → IsLegal base (Took txs.now upto ∷ history)
        → Lasts base history (D.states dir.old) (D.states dir.new) }
    ensures others { IfKnown (D.states dir.old) (λ disk past. Moments (λ _. ⊤) KeepsOthers (D.states dir.new) disk past) }
    ensures cause { HasCauseOf Failed (D.faults dir.old) (D.faults dir.new) result }
{
    push_all(alloc, journal, txs)?;
    journal.write_out(alloc, dir)?;
    Ok(())
}

/// Puts transactions after those that wait to be written.
fn push_all(alloc: Global, journal: &mut Journal, txs: &[Tx]) -> Result<(), AllocError>
    requires { AllComeNext journal.old.next txs.now }
    ensures waits { (waits : List Tx) → Waits journal.old waits → OnOk result (Waits journal.new (waits ++ txs.now)) }
    ensures written { (disk : Disk) (done : List Tx) → IsWritten journal.old disk done → IsWritten journal.new disk done }
    ensures head { journal.new.head ≡ journal.old.head }
    ensures clock { journal.new.clock ≡ journal.old.clock }
{
    for tx in txs {
        journal.push(alloc, tx)?;
    }
    Ok(())
}
