//! What starts threads in tests.

ghost use Rattle.std.specs.Prelude.{◌≡◌, false, true};

use crate::calls::Calls;
use mx_outside::{Failed, Spawner};
use std::alloc::Global;
use std::thread::Threads;

/// Starts a real thread for each work, but for the calls that are to fail.
#[derive(Drop)]
pub struct ThreadSpawner<R> {
    threads: R,
    calls: Calls,
    refuses: bool,
    started: u64,
}

impl<R: Threads> ThreadSpawner<R> {
    /// A spawner of whose calls those that `failing` lists fail, counted from 1.
    pub fn new(threads: R, failing: Vec<u64>) -> ThreadSpawner<R>
        ensures faults { result.calls.faults ≡ 0 }
        ensures failing { result.calls.failing ≡ failing }
        ensures refuses { result.refuses ≡ false }
        ensures started { result.started ≡ 0 }
    {
        ThreadSpawner {
            threads,
            calls: Calls::new(failing),
            refuses: false,
            started: 0,
        }
    }

    /// A spawner that starts nothing: each call fails.
    pub fn refusing(threads: R, alloc: Global) -> ThreadSpawner<R>
        ensures faults { result.calls.faults ≡ 0 }
        ensures refuses { result.refuses ≡ true }
        ensures started { result.started ≡ 0 }
    {
        ThreadSpawner {
            threads,
            calls: Calls::new(Vec::new(alloc)),
            refuses: true,
            started: 0,
        }
    }
}

impl<R: Threads> Spawner for ThreadSpawner<R> {
    type T = R;

    ghost faults = { λ s. s.calls.faults };

    ghost started = { λ s. s.started };

    fn begin(&mut self) -> Result<(), Failed> {
        if self.refuses || self.started == u64::MAX {
            return Err(self.calls.fail());
        }
        self.calls.make()
    }

    fn threads(&self) -> &R {
        &self.threads
    }

    fn count_start(&mut self) {
        self.started += 1;
    }

    fn count_fault(&mut self) -> Failed {
        self.calls.fail()
    }
}
