//! Theorems that other crates may use.

ghost use Rattle.mx_schema.specs.Sound.{IsSound};
ghost use Rattle.mx_directory.specs.Directories.{AllFollow};
ghost use Rattle.mx_model.specs.Bases.{Base};
ghost use Rattle.mx_model.specs.Histories.{History, IsLegal, journal_of, state_of};

/// A theorem, which does nothing when it is called: what a legal history commits can be written, each
/// commit has the next lsn, the state takes it, and stays sound.
pub fn commits_are_sound()
    ensures { (base : Base) (history : History) → IsLegal base history
        → AllFollow base.state base.clock (journal_of base history) × IsSound (state_of base history) }
{}
