//! A sink in memory.

ghost use Rattle.std.specs.Prelude.{◌≡◌, Some, [], drop};
ghost use Rattle.std.proofs.Common.{ap, sym};
ghost use Rattle.std.proofs.lemmas.List.{take-append-drop};
ghost use Rattle.mx_fake.specs.Contents.{sink_contents, sink_passed, sink_faults};

use crate::calls::Calls;
use mx_outside::{Failed, Sink};
use std::alloc::Global;

/// A sink in memory. It takes all bytes of a write.
#[derive(Drop)]
pub struct MemorySink {
    bytes: Vec<u8>,
    passed: usize,
    calls: Calls,
}

impl MemorySink {
    /// An empty sink, of whose calls those that `failing` lists fail, counted from 1. A call that runs
    /// out of memory fails too.
    pub fn new(alloc: Global, failing: Vec<u64>) -> MemorySink
        ensures contents { sink_contents result ≡ Some [] }
        ensures passed { sink_passed result ≡ Some [] }
        ensures faults { sink_faults result ≡ 0 }
        ensures failing { result.calls.failing ≡ failing }
    {
        MemorySink {
            bytes: Vec::new(alloc),
            passed: 0,
            calls: Calls::new(failing),
        }
    }

    /// All bytes that it took.
    pub fn bytes(&self) -> &[u8]
        ensures { Some result.now ≡ sink_contents self.now }
    {
        &self.bytes
    }

    /// The bytes that it passed on: those that it had when it was last flushed.
    pub fn passed(&self) -> &[u8]
        ensures { Some result.now ≡ sink_passed self.now }
    {
        self.bytes.get(..self.passed).unwrap_or(&self.bytes)
    }
}

impl Sink for MemorySink {
    ghost contents = { sink_contents };

    ghost passed = { sink_passed };

    ghost faults = { sink_faults };

    fn write(&mut self, bytes: &[u8]) -> Result<usize, Failed> {
        self.calls.make()?;
        match self.bytes.extend_from_slice(bytes) {
            Ok(()) => Ok(bytes.len()),
            Err(_) => Err(self.calls.fail()),
        }
    }

    fn flush(&mut self) -> Result<(), Failed> {
        self.calls.make()?;
        self.passed = self.bytes.len();
        Ok(())
    }

    ghost prefix = { λ s. (drop s.passed s.bytes.items, ap (λ bytes. Some bytes) (sym (take-append-drop s.passed s.bytes.items))) };
}
