//! The calls of an object in memory.

ghost use Rattle.std.specs.Prelude.{◌≡◌, ◌≤◌, ◌+◌, ◌-◌, ◌^◌, ◌↔◌, min, Contains, IsErr, IsErrOf};
ghost use Rattle.mx_outside.specs.Causes.{HasCause, HasCauseOf, Rose};
ghost use Rattle.mx_outside.specs.declared.link.LinkStop.TheVariants as stop;

use mx_outside::{Failed, LinkStop};

/// The calls of an object: how many there were, how many failed, and which are to fail, counted from 1.
#[derive(Drop)]
pub(crate) struct Calls {
    made: u64,
    pub(crate) faults: u64,
    failing: Vec<u64>,
}

impl Calls {
    pub(crate) fn new(failing: Vec<u64>) -> Calls
        ensures faults { result.faults ≡ 0 }
        ensures failing { result.failing ≡ failing }
    {
        Calls {
            made: 0,
            faults: 0,
            failing,
        }
    }

    /// Counts a call, which fails if its number is listed.
    pub(crate) fn make(&mut self) -> Result<(), Failed>
        ensures made { self.new.made ≡ min (self.old.made + 1) (2 ^ 64 - 1) }
        ensures exact { IsErr result ↔ Contains self.old.failing.items self.new.made }
        ensures failing { self.new.failing ≡ self.old.failing }
        ensures cause { HasCause self.old.faults self.new.faults result }
    {
        self.made = self.made.saturating_add(1);
        if self.failing.contains(&self.made) {
            return Err(self.fail());
        }
        Ok(())
    }

    pub(crate) fn fail(&mut self) -> Failed
        ensures rose { Rose self.old.faults self.new.faults × (self.old.faults ≤ self.new.faults) }
        ensures made { self.new.made ≡ self.old.made }
        ensures failing { self.new.failing ≡ self.old.failing }
    {
        self.faults = self.faults.saturating_add(1);
        Failed
    }
}

/// The calls of an object that may have to wait: those that fail, and those that aren't ready, counted
/// from 1. A call that is listed as both fails.
#[derive(Drop)]
pub(crate) struct ReadyCalls {
    pub(crate) calls: Calls,
    not_ready: Vec<u64>,
}

impl ReadyCalls {
    pub(crate) fn new(failing: Vec<u64>, not_ready: Vec<u64>) -> ReadyCalls
        ensures faults { result.calls.faults ≡ 0 }
        ensures failing { result.calls.failing ≡ failing }
        ensures not_ready { result.not_ready ≡ not_ready }
    {
        ReadyCalls {
            calls: Calls::new(failing),
            not_ready,
        }
    }

    /// Counts a call, and its wait if it isn't ready.
    pub(crate) fn make(&mut self, waits: &mut u64) -> Result<(), LinkStop>
        ensures made { self.new.calls.made ≡ min (self.old.calls.made + 1) (2 ^ 64 - 1) }
        ensures fails { IsErrOf result stop.Failed ↔ Contains self.old.calls.failing.items self.new.calls.made }
        ensures waits { IsErrOf result stop.NotReady → Contains self.old.not_ready.items self.new.calls.made }
        ensures ready { Contains self.old.not_ready.items self.new.calls.made → IsErr result }
        ensures failing { self.new.calls.failing ≡ self.old.calls.failing }
        ensures not_ready { self.new.not_ready ≡ self.old.not_ready }
        ensures fault_cause { HasCauseOf stop.Failed self.old.calls.faults self.new.calls.faults result }
        ensures wait_cause { HasCauseOf stop.NotReady waits.old waits.new result }
    {
        if self.calls.make().is_err() {
            return Err(LinkStop::Failed);
        }
        if self.not_ready.contains(&self.calls.made) {
            *waits = waits.saturating_add(1);
            return Err(LinkStop::NotReady);
        }
        Ok(())
    }
}
