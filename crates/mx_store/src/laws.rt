//! Theorems that other crates may use.

ghost use Rattle.std.specs.Prelude.{◌≡◌, ℕ, ◌≤◌, List, [], ◌∷◌, length, take, Some};
ghost use Rattle.std.specs.FinMap as finite;
ghost use Rattle.mx_outside.specs.Disks.{Disk, IsImage};
ghost use Rattle.mx_row.specs.declared.tx.Tx.{Tx};
ghost use Rattle.mx_images.specs.Fair.{AllDurable, IsFairEnd};
ghost use Rattle.mx_directory.specs.Directories.{Origin, new_database};
ghost use Rattle.mx_directory.specs.Survival.{FollowFrom, ReadsAll, ReadsMost, Recovers, Survive};

/// A theorem, which does nothing when it is called: a directory without files recovers to a new
/// database, with no transaction.
pub fn an_empty_directory_recovers()
    ensures { Recovers new_database [] (Some (record { now = finite.empty; older = finite.empty } ∷ [])) }
{}

/// A theorem, which does nothing when it is called: a directory that reads as transactions, and all of
/// which is durable, recovers them after any crash.
pub fn a_durable_directory_recovers()
    ensures { (origin : Origin) (transactions : List Tx) (disk : Disk) (past : List Disk) → ReadsAll origin transactions (Some (disk ∷ past))
        → AllDurable disk → disk.older ≡ finite.empty → Recovers origin transactions (Some (disk ∷ past)) }
{}

/// A theorem, which does nothing when it is called: a crash image, where so many transactions
/// survive, recovers a prefix of them, of at least so many.
pub fn what_a_crash_leaves_recovers()
    ensures { (origin : Origin) (transactions : List Tx) (least : ℕ) (disk image : Disk) → FollowFrom origin transactions → Survive origin transactions least disk
        → IsImage IsFairEnd disk image
        → (count : ℕ) × (least ≤ count) × (count ≤ length transactions) × Recovers origin (take count transactions) (Some (image ∷ [])) }
{}

/// A theorem, which does nothing when it is called: a directory as a killed process leaves it, synced
/// or not, recovers what it reads as, and that is no less than what survives a crash.
pub fn what_a_kill_leaves_recovers()
    ensures { (origin : Origin) (transactions : List Tx) (least : ℕ) (disk : Disk) (past : List Disk) → FollowFrom origin transactions → Survive origin transactions least disk
        → ReadsMost origin transactions disk
        → (count : ℕ) × (least ≤ count) × (count ≤ length transactions) × Recovers origin (take count transactions) (Some (disk ∷ past)) }
{}
