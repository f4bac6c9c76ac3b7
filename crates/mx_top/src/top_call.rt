//! The top call.

ghost use Rattle.std.specs.Prelude.{◌≡◌, ◌⊎◌, ◌∷◌, [], ℕ, List, Some, ◌↔◌, true, false, length};
ghost use Rattle.mx_outside.specs.Causes.{Rose};
ghost use Rattle.mx_directory.specs.declared.damage.Damage.{Damage};
ghost use Rattle.mx_top.specs.declared.status.Status.TheVariants as status;
ghost use Rattle.mx_top.specs.Arguments.{is_command};
ghost use Rattle.mx_top.specs.Runs.{PlaceSeen, RunSeen, DamageSeen, StillPassedOn, OthersKept, fault_place, held, status_by};

use crate::arguments;
use crate::status::Status;
use crate::trace::trace;
use mx_outside::{Dir, Names, Sink, Source};
use std::alloc::Global;

/// Runs the command that the arguments name: `trace` and a directory, which is the one of `dirs`. It
/// opens the directory, reads units from `input`, answers them, writes each commit to the directory
/// and output units to `output`. `seed` gives the greeting's salt, and the identifiers of a node
/// whose directory is empty.
///
/// What a status says of the input holds where the source tells what it has left. What it says of
/// the output and of the directory holds where, besides, the sink tells what it holds, and the
/// directory its files.
pub fn run<D: Dir, S: Source, K: Sink>(
    alloc: Global,
    words: &Names,
    seed: &[u8; 32],
    dirs: &mut Vec<D>,
    input: &mut S,
    output: &mut K,
) -> Status
    // A command's directory is given.
    requires { is_command words.now ≡ true → length dirs.old.items ≡ 1 }

    // The arguments are refused exactly where they are unrecognised.
    ensures words { (result ≡ status.BadWords) ↔ (is_command words.now ≡ false) }

    // Faults come only where the object's count of faults rose.
    ensures read_fault { result ≡ status.ReadFault → Rose (S.faults input.old) (S.faults input.new) }
    ensures write_fault { result ≡ status.WriteFault → Rose (K.faults output.old) (K.faults output.new) }
    ensures disk_fault { result ≡ status.DiskFault → (before after : D) → dirs.old.items ≡ before ∷ [] → dirs.new.items ≡ after ∷ []
        → Rose (D.faults before) (D.faults after) }

    // At every other status the count is as it was: no fault is told as anything else.
    ensures reads { (result ≡ status.ReadFault) ⊎ (S.faults input.new ≡ S.faults input.old) }
    ensures writes { (result ≡ status.WriteFault) ⊎ (K.faults output.new ≡ K.faults output.old) }
    ensures disks { (before after : D) → dirs.old.items ≡ before ∷ [] → dirs.new.items ≡ after ∷ []
        → (result ≡ status.DiskFault) ⊎ (D.faults after ≡ D.faults before) }

    // But where the output failed, all that it holds was passed on, if that was so before.
    ensures passed { (result ≡ status.WriteFault) ⊎ StillPassedOn (K.passed output.old) (K.contents output.old) (K.passed output.new) (K.contents output.new) }

    // A directory is damaged only where it is corrupt or inconsistent, by this damage.
    ensures damage { (before : D) → dirs.old.items ≡ before ∷ [] → DamageSeen result (D.states before) }

    // At `Ok` the input was well-formed and read to its end; `BadInput` carries the place of the first malformed unit.
    ensures place { (bytes : List ℕ) → S.left input.old ≡ Some bytes → PlaceSeen result bytes (S.left input.new) }

    // At each moment, every file that isn't the database's is as it was, and each journal and snapshot is still there, at most
    // longer; or a journal that begins has its place.
    ensures others { (before after : D) → dirs.old.items ≡ before ∷ [] → dirs.new.items ≡ after ∷ [] → OthersKept (D.states before) (D.states after) }

    // The list of directories keeps its length.
    ensures dirs { length dirs.new.items ≡ length dirs.old.items }

    // One legal history has the steps for the units that were answered whole, and then those of the next one. Those units
    // stand whole in the bytes that were read, and where the input failed they are all that do. The history is
    // serializable: each transaction was answered as if alone, those that commit rows in the order of the journal, and a
    // conflict has a commit that touched what was read before it. What was written is the output for the former steps; the
    // directory recovers a prefix of the history's commits after any crash, at any moment, exactly as they were made, and all
    // on which a reply that was written depends; it is of the node that it was opened for. A run that opened no directory
    // read, wrote and committed nothing.
    ensures history { (bytes : List ℕ) (old new : D) → S.left input.old ≡ Some bytes → dirs.old.items ≡ old ∷ [] → dirs.new.items ≡ new ∷ []
        → RunSeen result seed.now bytes (S.left input.new) (held (K.contents output.old) (K.passed output.old)) (held (K.contents output.new) (K.passed output.new)) (D.states old) (D.states new) }

    // The run of a command that no fault ended has the status that its input demands, unless the directory is damaged or
    // memory ran out.
    ensures complete { (bytes : List ℕ) (before after : D) → S.left input.old ≡ Some bytes → is_command words.now ≡ true
        → dirs.old.items ≡ before ∷ [] → dirs.new.items ≡ after ∷ []
        → ¬ Rose (S.faults input.old) (S.faults input.new) → ¬ Rose (K.faults output.old) (K.faults output.new) → ¬ Rose (D.faults before) (D.faults after)
        → (result ≡ status_by (fault_place bytes)) ⊎ (result ≡ status.NoMemory) ⊎ ((damage : Damage) × (result ≡ status.Damaged damage)) }
{
    if !arguments::is_command(words.as_slice()) {
        return Status::BadWords;
    }
    trace(alloc, seed, &mut dirs[0], input, output)
}
