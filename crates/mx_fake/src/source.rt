//! A source in memory.

ghost use Rattle.std.specs.Prelude.{◌≡◌, Some};
ghost use Rattle.mx_fake.specs.Contents.{source_left, source_faults};

use crate::calls::Calls;
use mx_outside::{Failed, Source};

/// A source in memory.
#[derive(Drop)]
pub struct MemorySource {
    bytes: Vec<u8>,
    at: usize,
    calls: Calls,
}

impl MemorySource {
    /// A source of these bytes, of whose calls those that `failing` lists fail, counted from 1.
    pub fn new(bytes: Vec<u8>, failing: Vec<u64>) -> MemorySource
        ensures left { source_left result ≡ Some bytes.items }
        ensures faults { source_faults result ≡ 0 }
        ensures failing { result.calls.failing ≡ failing }
    {
        MemorySource {
            bytes,
            at: 0,
            calls: Calls::new(failing),
        }
    }

    fn rest(&self) -> &[u8]
        ensures { Some result.now ≡ source_left self.now }
    {
        self.bytes.get(self.at..).unwrap_or(&[])
    }
}

impl Source for MemorySource {
    ghost left = { source_left };

    ghost faults = { source_faults };

    fn read(&mut self, into: &mut [u8]) -> Result<usize, Failed> {
        self.calls.make()?;
        let rest = self.rest();
        let count = rest.len().min(into.len());
        into[..count].copy_from_slice(&rest[..count]);
        self.at += count;
        Ok(count)
    }
}
