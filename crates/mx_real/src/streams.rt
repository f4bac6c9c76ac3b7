//! The source and the sink over a reader and a writer of std.

ghost use Rattle.std.specs.Prelude.{◌≡◌, None};

use mx_outside::{Failed, Sink, Source};
use std::io::{Read, Write};

/// A source over a reader.
#[derive(Drop)]
pub struct ReaderSource<R> {
    inner: R,
    faults: u64,
}

impl<R> ReaderSource<R> {
    /// A source that reads from `inner` and hasn't failed yet.
    pub fn new(inner: R) -> ReaderSource<R>
        ensures inner { result.inner ≡ inner }
        ensures faults { result.faults ≡ 0 }
    {
        ReaderSource { inner, faults: 0 }
    }
}

impl<R: Read> Source for ReaderSource<R> {
    ghost left = { λ s. R.remaining s.inner };

    ghost faults = { λ s. s.faults };

    fn read(&mut self, into: &mut [u8]) -> Result<usize, Failed> {
        match self.inner.read(into) {
            Ok(count) => Ok(count),
            Err(_) => {
                self.faults = self.faults.saturating_add(1);
                Err(Failed)
            }
        }
    }
}

/// A sink over a writer.
#[derive(Drop)]
pub struct WriterSink<W> {
    inner: W,
    faults: u64,
}

impl<W> WriterSink<W> {
    /// A sink that writes to `inner` and hasn't failed yet.
    pub fn new(inner: W) -> WriterSink<W>
        ensures inner { result.inner ≡ inner }
        ensures faults { result.faults ≡ 0 }
    {
        WriterSink { inner, faults: 0 }
    }
}

impl<W: Write> Sink for WriterSink<W> {
    ghost contents = { λ s. W.contents s.inner };

    // A writer of std doesn't tell what it keeps back.
    ghost passed = { λ s. None };

    ghost faults = { λ s. s.faults };

    fn write(&mut self, bytes: &[u8]) -> Result<usize, Failed> {
        match self.inner.write(bytes) {
            Ok(0) if !bytes.is_empty() => {
                self.faults = self.faults.saturating_add(1);
                Err(Failed)
            }
            Ok(count) => Ok(count),
            Err(_) => {
                self.faults = self.faults.saturating_add(1);
                Err(Failed)
            }
        }
    }

    fn flush(&mut self) -> Result<(), Failed> {
        match self.inner.flush() {
            Ok(()) => Ok(()),
            Err(_) => {
                self.faults = self.faults.saturating_add(1);
                Err(Failed)
            }
        }
    }

    ghost prefix = { λ s. tt };
}
