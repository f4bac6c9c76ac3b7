//! What runs work beside its caller.

ghost use Rattle.std.specs.Prelude.{◌≡◌, ◌<◌, ◌≤◌, ◌-◌, ◌^◌, ℕ, suc, OnOk, OnErr};
ghost use Rattle.mx_outside.specs.Causes.{HasCause, Rose};

use crate::failed::Failed;
use std::thread;
use std::thread::Threads;

/// Something that is done once.
pub trait Work {
    /// Does it.
    fn work(self);
}

/// What runs work beside its caller, each on a thread of its own. An implementation says which calls
/// may start a thread, and counts them; the thread is started here, since no contract of a trait's
/// method reaches another thread.
pub trait Spawner {
    /// What may start threads.
    type T: Threads;

    /// How often a call failed.
    ghost faults: { Self → ℕ };

    /// How many works it started.
    ghost started: { Self → ℕ };

    /// Begins a call to start a work.
    ///
    /// # Errors
    /// The call fails.
    fn begin(&mut self) -> Result<(), Failed>
        ensures room { OnOk result (started self.new < 2 ^ 64 - 1) }
        ensures started { started self.new ≡ started self.old }
        ensures cause { HasCause (faults self.old) (faults self.new) result };

    /// What may start the thread.
    fn threads(&self) -> &Self::T;

    /// Counts a work that was started.
    fn count_start(&mut self)
        requires { started self.old < 2 ^ 64 - 1 }
        ensures started { started self.new ≡ suc (started self.old) }
        ensures faults { faults self.new ≡ faults self.old };

    /// Counts a call that failed.
    fn count_fault(&mut self) -> Failed
        ensures rose { Rose (faults self.old) (faults self.new) × (faults self.old ≤ faults self.new) }
        ensures started { started self.new ≡ started self.old };

    /// Starts the work, and doesn't wait for its end.
    ///
    /// # Errors
    /// The work was dropped.
    final fn start<J: Work + Send + Drop + 'static>(&mut self, job: J) -> Result<(), Failed>
        ensures ok { OnOk result (started self.new ≡ suc (started self.old)) }
        ensures err { OnErr result (started self.new ≡ started self.old) }
        ensures cause { HasCause (faults self.old) (faults self.new) result }
    {
        self.begin()?;
        if thread::spawn(self.threads(), move || job.work()).is_err() {
            return Err(self.count_fault());
        }
        self.count_start();
        Ok(())
    }
}
