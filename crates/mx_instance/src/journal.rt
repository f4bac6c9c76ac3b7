//! The journal's turn: what was committed is written out, and confirmed.

ghost use Rattle.std.specs.Prelude.{◌≡◌, ⊤, ℕ, true, List, ◌∷◌, IfOk, OnErr};
ghost use Rattle.std.specs.List.{Contains};
ghost use Rattle.mx_outside.specs.Causes.{HasCauseOf};
ghost use Rattle.mx_outside.specs.Disks.{IfKnown};
ghost use Rattle.mx_outside.specs.Moments.{Moments};
ghost use Rattle.mx_images.specs.Changes.{KeepsOthers};
ghost use Rattle.mx_journal.specs.declared.fault.JournalFault.TheVariants.{Failed};
ghost use Rattle.mx_model.specs.Bases.{Base};
ghost use Rattle.mx_model.specs.Histories.{Confirmed, Took, ledger_of};
ghost use Rattle.mx_directory.specs.Survival.{Lasts};
ghost use Rattle.mx_store.specs.Stores.{JournalHas};
ghost use Rattle.mx_instance.specs.JournalTurns.{TakesAlone, TakesTurn};
ghost use Rattle.mx_instance.specs.Passes.{AddsStep, CanCall, seen_by};
ghost use Rattle.mx_instance.specs.Standing.{BeganOver};

use crate::instance::{Instance, Pass};
use crate::recorded::Note;
use mx_engine::Pending;
use mx_journal::{Journal, JournalFault};
use mx_outside::Dir;
use mx_store::write_taken;
use std::snapshot::Snapshot;
use std::sync::Wait;

impl Instance {
    /// Takes what was committed, writes it out while others go on, and confirms it once it is durable.
    /// Returns among how many steps all commits are durable then. The first pass alone may.
    ///
    /// # Errors
    /// A call on the directory failed, or out of memory. Nothing was confirmed, and the journal is of no
    /// use then.
    pub fn journal_turn<R: Wait, D: Dir>(
        &self,
        rt: &R,
        pass: &mut Pass,
        journal: &mut Journal,
        dir: &mut D,
    ) -> Result<u64, JournalFault>
        requires can_call { CanCall self.now pass.old }
        requires first { (seen_by pass.old).first ≡ true }
        requires has { (base : Base) × BeganOver (seen_by pass.old).base base × JournalHas base (seen_by pass.old).seen journal.old (D.states dir.old) }
        ensures can_call { CanCall self.now pass.new }
        ensures turned { (base : Base) → BeganOver (seen_by pass.old).base base → JournalHas base (seen_by pass.old).seen journal.old (D.states dir.old)
            → IfOk result (TakesTurn base (seen_by pass.old) (seen_by pass.new) journal.new (D.states dir.new)) }
        ensures stopped { OnErr result (TakesAlone (seen_by pass.old) (seen_by pass.new)) }
        ensures lasts { (base : Base) → BeganOver (seen_by pass.old).base base → JournalHas base (seen_by pass.old).seen journal.old (D.states dir.old)
            → Lasts base (seen_by pass.new).seen (D.states dir.old) (D.states dir.new) }
        ensures others { IfKnown (D.states dir.old) (λ disk past. Moments (λ _. ⊤) KeepsOthers (D.states dir.new) disk past) }
        ensures cause { HasCauseOf Failed (D.faults dir.old) (D.faults dir.new) result }
    {
        let pending = self.take_pending(rt, pass);
        write_taken(self.alloc, journal, dir, pending.txs.as_slice())?;
        self.confirm(rt, pass, pending.upto);
        Ok(pending.upto)
    }

    /// Takes the commits that weren't taken before.
    fn take_pending<R: Wait>(&self, rt: &R, pass: &mut Pass) -> Pending
        requires can_call { CanCall self.now pass.old }
        requires first { (seen_by pass.old).first ≡ true }
        ensures can_call { CanCall self.now pass.new }
        ensures took { AddsStep (Took result.txs result.upto) (seen_by pass.old) (seen_by pass.new) }
    {
        let mut held = self.turn.take(rt, &mut pass.seat);
        let pending = held.value.engine.take_pending();
        let note = Note::Took {
            txs: Snapshot::of(&pending.txs),
            upto: pending.upto,
        };
        self.turn.give(&mut pass.seat, held, &note);
        pending
    }

    /// Confirms what was taken when the history had so many steps.
    fn confirm<R: Wait>(&self, rt: &R, pass: &mut Pass, upto: u64)
        requires can_call { CanCall self.now pass.old }
        requires first { (seen_by pass.old).first ≡ true }
        requires taken { (base : Base) → BeganOver (seen_by pass.old).base base → Contains (ledger_of base (seen_by pass.old).seen).takes upto }
        ensures can_call { CanCall self.now pass.new }
        ensures confirmed { AddsStep (Confirmed upto) (seen_by pass.old) (seen_by pass.new) }
    {
        let mut held = self.turn.take(rt, &mut pass.seat);
        held.value.engine.confirm(upto);
        self.turn.give(&mut pass.seat, held, &Note::Confirmed(upto));
    }
}
