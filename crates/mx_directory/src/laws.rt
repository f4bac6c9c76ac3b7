//! Theorems that other crates may use.

ghost use Rattle.std.specs.Prelude.{Result};
ghost use Rattle.mx_outside.specs.Disks.{Files};
ghost use Rattle.mx_directory.specs.declared.damage.Damage.{Damage};
ghost use Rattle.mx_directory.specs.Directories.{IsDirectoryState, Reached, SameOutcome};

/// A theorem, which does nothing when it is called: a directory recovers to one state only, with one
/// vclock and one node's identifiers, or has one first damage.
pub fn a_directory_stands_once()
    ensures { (files : Files) (one other : Result Reached Damage) → IsDirectoryState files one
        → IsDirectoryState files other → SameOutcome one other }
{}
