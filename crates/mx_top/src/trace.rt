//! The command `trace`: opens the directory, reads units, answers them, and writes output units.

ghost use Rattle.std.specs.Prelude.{◌∷◌, ◌≡◌, ◌⊎◌, ◌<◌, ◌≤◌, ◌++◌, ℕ, List, [], Some, Ok, Err, IfOk, IfSome, MatchOption, MatchResult, OnOk, OnErr, IfErr};
ghost use Rattle.mx_outside.specs.Causes.{HasCauseOf};
ghost use Rattle.mx_top.specs.declared.stop.Stop.TheVariants.{ReadFault, WriteFault, DiskFault};
ghost use Rattle.mx_top.specs.declared.status.Status.TheVariants as status;
ghost use Rattle.mx_top.specs.Causes.{HasCauses};
ghost use Rattle.mx_top.specs.Stops.{AtBadInput, IsDiskStop, are_in_order};
ghost use Rattle.mx_top.specs.Units.{max_offset, unit_by};
ghost use Rattle.mx_top.specs.UnitViews.{head_view};
ghost use Rattle.mx_model.specs.Histories.{History};
ghost use Rattle.mx_node.specs.Inputs.{InputUnit, max_connection};
ghost use Rattle.mx_node.specs.Order.{AreStepsOf, AreWholeSteps};
ghost use Rattle.mx_node.specs.Interrupted.{IsInterrupted};
ghost use Rattle.mx_node.specs.Starts.{Start};
ghost use Rattle.mx_node.specs.Serving.{CanServe, EndedNode, Serves};
ghost use Rattle.mx_top.specs.Runs.{PlaceSeen, RunSeen, DamageSeen, StillPassedOn, OthersKept, held};
ghost use Rattle.mx_top.specs.Progress.{Consumed, LastStep, EndSeen, UnitsSeen, NextStep, WritesUnit, status_of};

use crate::delivery::deliver;
use crate::ids::first_ids;
use crate::intake::Intake;
use crate::output_unit::write_units;
use crate::status::Status;
use crate::stop::Stop;
use crate::units::{UNIT_HEAD, UnitHead, next_unit, unit_of};
use mx_node::{RecoverFault, Single};
use mx_outside::{Dir, Failed, Sink, Source};
use std::alloc::Global;

/// Opens the directory, reads the units of the input to its end, answers them, and writes an output
/// unit for each that has bytes.
pub(crate) fn trace<D: Dir, S: Source, K: Sink>(
    alloc: Global,
    seed: &[u8; 32],
    dir: &mut D,
    input: &mut S,
    output: &mut K,
) -> Status
    ensures words { result ≡ status.BadWords → ⊥ }
    ensures place { (bytes : List ℕ) → S.left input.old ≡ Some bytes → PlaceSeen result bytes (S.left input.new) }
    ensures history { (bytes : List ℕ) → S.left input.old ≡ Some bytes
        → RunSeen result seed.now bytes (S.left input.new) (held (K.contents output.old) (K.passed output.old)) (held (K.contents output.new) (K.passed output.new)) (D.states dir.old) (D.states dir.new) }
    ensures damage { DamageSeen result (D.states dir.old) }
    ensures others { OthersKept (D.states dir.old) (D.states dir.new) }
    ensures passed { (result ≡ status.WriteFault) ⊎ StillPassedOn (K.passed output.old) (K.contents output.old) (K.passed output.new) (K.contents output.new) }
    ensures causes { HasCauses (result ≡ status.ReadFault) (result ≡ status.WriteFault) (result ≡ status.DiskFault)
        (S.faults input.old) (S.faults input.new) (K.faults output.old) (K.faults output.new) (D.faults dir.old) (D.faults dir.new) }
{
    let ids = first_ids(seed);
    match Single::start(alloc, dir, &ids, seed) {
        Ok(node) => status_of(run_units(alloc, node, dir, input, output)),
        Err(RecoverFault::Damaged(damage)) => Status::Damaged(damage),
        Err(RecoverFault::Failed) => Status::DiskFault,
        Err(RecoverFault::NoMemory) => Status::NoMemory,
    }
}

/// Answers the units of the input, and ends the journal in order at the input's end or fault.
fn run_units<D: Dir, S: Source, K: Sink>(
    alloc: Global,
    node: Single,
    dir: &mut D,
    input: &mut S,
    output: &mut K,
) -> Result<(), Stop>
    requires { CanServe node (D.states dir.old) }
    ensures place { (bytes : List ℕ) → S.left input.old ≡ Some bytes → PlaceSeen (status_of result) bytes (S.left input.new) }
    ensures units { (start : Start) (bytes : List ℕ) → Serves start node [] [] (D.states dir.old) → S.left input.old ≡ Some bytes
        → UnitsSeen (status_of result) start bytes (S.left input.new) (held (K.contents output.old) (K.passed output.old)) (held (K.contents output.new) (K.passed output.new)) (D.states dir.old) (D.states dir.new) }
    ensures others { OthersKept (D.states dir.old) (D.states dir.new) }
    ensures passed { (result ≡ Err WriteFault) ⊎ StillPassedOn (K.passed output.old) (K.contents output.old) (K.passed output.new) (K.contents output.new) }
    ensures causes { HasCauses (result ≡ Err ReadFault) (result ≡ Err WriteFault) (result ≡ Err DiskFault)
        (S.faults input.old) (S.faults input.new) (K.faults output.old) (K.faults output.new) (D.faults dir.old) (D.faults dir.new) }
{
    let mut node = node;
    let ended = answer_units(alloc, &mut node, dir, input, output);
    if !are_in_order(&ended) {
        return ended;
    }
    end_node(node, dir)?;
    ended
}

/// Whether the units ended at the end of the input, or where it has a malformed one.
fn are_in_order(ended: &Result<(), Stop>) -> bool
    ensures { result ≡ are_in_order ended.now }
{
    match ended {
        Ok(()) | Err(Stop::BadInput { .. }) => true,
        Err(_) => false,
    }
}

/// Takes the departures of the open connections, and ends the journal in order.
fn end_node<D: Dir>(node: Single, dir: &mut D) -> Result<(), Stop>
    requires { CanServe node (D.states dir.old) }
    ensures closed { (start : Start) (units : List InputUnit) (history : History) → Serves start node units history (D.states dir.old)
        → OnOk result (EndedNode start units history (D.states dir.old) (D.states dir.new)) }
    ensures breaks { (start : Start) (units : List InputUnit) (history : History) → Serves start node units history (D.states dir.old)
        → OnErr result (IsInterrupted start.base history (AreWholeSteps units) (D.states dir.old) (D.states dir.new)) }
    ensures others { OthersKept (D.states dir.old) (D.states dir.new) }
    ensures cause { HasCauseOf DiskFault (D.faults dir.old) (D.faults dir.new) result }
    ensures stops { IfErr result IsDiskStop }
{
    node.end(dir)?;
    Ok(())
}

/// Answers the units of the input to its end, and writes an output unit for each that has bytes.
fn answer_units<D: Dir, S: Source, K: Sink>(
    alloc: Global,
    node: &mut Single,
    dir: &mut D,
    input: &mut S,
    output: &mut K,
) -> Result<(), Stop>
    requires { CanServe node.old (D.states dir.old) }
    ensures place { (bytes : List ℕ) → S.left input.old ≡ Some bytes → PlaceSeen (status_of result) bytes (S.left input.new) }
    ensures units { (start : Start) (bytes : List ℕ) → Serves start node.old [] [] (D.states dir.old) → S.left input.old ≡ Some bytes
        → EndSeen result start bytes (S.left input.new) node.new (held (K.contents output.old) (K.passed output.old)) (held (K.contents output.new) (K.passed output.new)) (D.states dir.old) (D.states dir.new) }
    ensures serves { MatchResult result (λ _. CanServe node.new (D.states dir.new))
        (λ stop. AtBadInput stop (CanServe node.new (D.states dir.new))) }
    ensures others { OthersKept (D.states dir.old) (D.states dir.new) }
    ensures passed { (result ≡ Err WriteFault) ⊎ StillPassedOn (K.passed output.old) (K.contents output.old) (K.passed output.new) (K.contents output.new) }
    ensures causes { HasCauses (result ≡ Err ReadFault) (result ≡ Err WriteFault) (result ≡ Err DiskFault)
        (S.faults input.old) (S.faults input.new) (K.faults output.old) (K.faults output.new) (D.faults dir.old) (D.faults dir.new) }
{
    let mut intake = Intake::new(alloc)?;
    let mut out = Vec::new(alloc);
    let mut place = 0;
    'units: while let Some(next) = step(node, &mut intake, &mut out, place, dir, input, output)? {
        place = next;
    }
    Ok(())
}

/// Reads the unit at this place, answers it and writes the output unit for it. Says at which place
/// the next one begins, or nothing at the end of the input.
fn step<D: Dir, S: Source, K: Sink>(
    node: &mut Single,
    intake: &mut Intake,
    out: &mut Vec<u8>,
    place: u64,
    dir: &mut D,
    input: &mut S,
    output: &mut K,
) -> Result<Option<u64>, Stop>
    requires { CanServe node.old (D.states dir.old) }
    ensures ahead { IfOk result (λ found. IfSome found (λ next. (place < next) × (next ≤ max_offset))) }
    ensures told { (bytes left : List ℕ) (units : List InputUnit) → S.left input.old ≡ Some left → Consumed bytes intake.old left place units
        → (more : List ℕ) × (S.left input.new ≡ Some more) × MatchResult result
        (λ found. MatchOption found
        (LastStep (Ok tt) bytes (Some more) node.old node.new units (held (K.contents output.old) (K.passed output.old)) (held (K.contents output.new) (K.passed output.new)) (D.states dir.old) (D.states dir.new))
        (λ next. NextStep bytes intake.new more next node.old node.new units (held (K.contents output.old) (K.passed output.old)) (held (K.contents output.new) (K.passed output.new)) (D.states dir.old) (D.states dir.new)))
        (λ stop. LastStep (Err stop) bytes (Some more) node.old node.new units (held (K.contents output.old) (K.passed output.old)) (held (K.contents output.new) (K.passed output.new)) (D.states dir.old) (D.states dir.new)) }
    ensures serves { MatchResult result (λ _. CanServe node.new (D.states dir.new))
        (λ stop. AtBadInput stop (CanServe node.new (D.states dir.new))) }
    ensures others { OthersKept (D.states dir.old) (D.states dir.new) }
    ensures passed { (result ≡ Err WriteFault) ⊎ StillPassedOn (K.passed output.old) (K.contents output.old) (K.passed output.new) (K.contents output.new) }
    ensures causes { HasCauses (result ≡ Err ReadFault) (result ≡ Err WriteFault) (result ≡ Err DiskFault)
        (S.faults input.old) (S.faults input.new) (K.faults output.old) (K.faults output.new) (D.faults dir.old) (D.faults dir.new) }
{
    let Some(head) = next_unit(intake, input, place)? else {
        return Ok(None);
    };
    let size = head.size as usize;
    let (_, rest) = intake.as_slice().split_at(UNIT_HEAD);
    let (content, _) = rest.split_at(size);
    answer_unit(node, dir, head, content, out)?;
    intake.consume(UNIT_HEAD + size);
    match deliver(output, out) {
        Ok(()) => Ok(Some(place + (UNIT_HEAD + size) as u64)),
        Err(Failed) => Err(Stop::WriteFault),
    }
}

/// Answers the unit of this head and these bytes, and puts its output units into `out`, in place of
/// what that has. What the unit commits is durable then.
fn answer_unit<D: Dir>(
    node: &mut Single,
    dir: &mut D,
    head: UnitHead,
    content: &[u8],
    out: &mut Vec<u8>,
) -> Result<(), Stop>
    requires serves { CanServe node.old (D.states dir.old) }
    requires connection { head.connection.0 ≤ max_connection }
    ensures took { (start : Start) (units : List InputUnit) (history : History) → Serves start node.old units history (D.states dir.old)
        → OnOk result (WritesUnit start node.new units history (unit_by (head_view head) content.now) out.new.items (D.states dir.old) (D.states dir.new)) }
    ensures breaks { (start : Start) (units : List InputUnit) (history : History) → Serves start node.old units history (D.states dir.old)
        → OnErr result (IsInterrupted start.base history (AreStepsOf (units ++ unit_by (head_view head) content.now ∷ [])) (D.states dir.old) (D.states dir.new)) }
    ensures serves { OnOk result (CanServe node.new (D.states dir.new)) }
    ensures others { OthersKept (D.states dir.old) (D.states dir.new) }
    ensures cause { HasCauseOf DiskFault (D.faults dir.old) (D.faults dir.new) result }
    ensures stops { IfErr result IsDiskStop }
{
    let sent = node.unit(dir, unit_of(head, content))?;
    write_units(sent.as_slice(), out)?;
    Ok(())
}

/// The status of a run whose units ended so.
fn status_of(ended: Result<(), Stop>) -> Status
    ensures { result ≡ status_of ended }
{
    match ended {
        Ok(()) => Status::Ok,
        Err(Stop::BadInput { at }) => Status::BadInput { at },
        Err(Stop::ReadFault) => Status::ReadFault,
        Err(Stop::WriteFault) => Status::WriteFault,
        Err(Stop::DiskFault) => Status::DiskFault,
        Err(Stop::NoMemory) => Status::NoMemory,
    }
}
