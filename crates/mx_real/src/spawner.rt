//! Threads of the system.

ghost use Rattle.std.specs.Prelude.{◌≡◌};

use mx_outside::{Failed, Spawner};
use std::thread::Threads;

/// Starts a thread of the system for each work.
#[derive(Drop)]
pub struct SystemSpawner<R> {
    threads: R,
    faults: u64,
    started: u64,
}

impl<R: Threads> SystemSpawner<R> {
    /// A spawner that hasn't started anything yet.
    pub fn new(threads: R) -> SystemSpawner<R>
        ensures faults { result.faults ≡ 0 }
        ensures started { result.started ≡ 0 }
    {
        SystemSpawner {
            threads,
            faults: 0,
            started: 0,
        }
    }
}

impl<R: Threads> Spawner for SystemSpawner<R> {
    type T = R;

    ghost faults = { λ s. s.faults };

    ghost started = { λ s. s.started };

    fn begin(&mut self) -> Result<(), Failed> {
        if self.started == u64::MAX {
            return Err(self.count_fault());
        }
        Ok(())
    }

    fn threads(&self) -> &R {
        &self.threads
    }

    fn count_start(&mut self) {
        self.started += 1;
    }

    fn count_fault(&mut self) -> Failed {
        self.faults = self.faults.saturating_add(1);
        Failed
    }
}
