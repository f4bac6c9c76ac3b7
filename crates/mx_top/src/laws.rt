//! Theorems that other crates may use.

ghost use Rattle.std.specs.Prelude.{◌≡◌, ◌++◌, ℕ, List, Option, Some};
ghost use Rattle.mx_outside.specs.Disks.{Disk};
ghost use Rattle.mx_top.specs.declared.status.Status.TheVariants as status;
ghost use Rattle.mx_top.specs.Runs.{Held, Served};
ghost use Rattle.mx_top.specs.TraceOutput.{units_text};
ghost use Rattle.mx_top.specs.Units.{units_of};

/// A theorem, which does nothing when it is called: where the input failed, the units that were
/// answered are all whole units of the bytes that were read, the output has all replies to them, and a
/// commit without its reply is one of the next unit.
pub fn no_reply_is_missing()
    ensures written { (seed input before : List ℕ) (left : Option (List ℕ)) (output_old output_new : Held) (old new : Option (List Disk))
        → (served : Served status.ReadFault seed input left output_old output_new old new) → output_old.contents ≡ Some before
        → output_new.contents ≡ Some (before ++ units_text served.sent) }
    ensures answered { (seed input : List ℕ) (left : Option (List ℕ)) (output_old output_new : Held) (old new : Option (List Disk))
        → (served : Served status.ReadFault seed input left output_old output_new old new) → (rest : List ℕ) → left ≡ Some rest
        → (read : List ℕ) × (input ≡ read ++ rest) × ((units_of read).0 ≡ served.units) }
{}
