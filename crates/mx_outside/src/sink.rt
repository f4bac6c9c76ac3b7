//! A stream that bytes are written to.

ghost use Rattle.std.specs.Prelude.{ℕ, ◌<◌, List, Option, length, IfOk, OnOk};
ghost use Rattle.std.specs.Io.{WritesAtMost};
ghost use Rattle.std.specs.Io.KnownBytes.{Keeps, WriteAppends};
ghost use Rattle.mx_outside.specs.Causes.{HasCause};
ghost use Rattle.mx_outside.specs.Passed.{PassesOn, IsAllOf, IsPrefixOf};

use crate::failed::Failed;

/// A stream of bytes to be written.
pub trait Sink {
    /// The bytes that it holds, where they are known.
    ghost contents: { Self → Option (List ℕ) };

    /// The bytes that were passed on to whoever reads them, where they are known.
    ghost passed: { Self → Option (List ℕ) };

    /// How often a call failed.
    ghost faults: { Self → ℕ };

    /// Takes a prefix of the bytes, and returns how many: at least one where there are any.
    ///
    /// # Errors
    /// Nothing was taken.
    fn write(&mut self, bytes: &[u8]) -> Result<usize, Failed>
        ensures bound { WritesAtMost result bytes.now }
        ensures some { 0 < length bytes.now → IfOk result (λ count. 0 < count) }
        ensures bytes { WriteAppends (contents self.old) (contents self.new) result bytes.now }
        ensures passed { PassesOn (passed self.old) (passed self.new) }
        ensures cause { HasCause (faults self.old) (faults self.new) result };

    /// Passes on all that was taken.
    ///
    /// # Errors
    /// A prefix of it may have been passed on even so.
    fn flush(&mut self) -> Result<(), Failed>
        ensures bytes { Keeps (contents self.old) (contents self.new) }
        ensures passed { PassesOn (passed self.old) (passed self.new) }
        ensures flushed { OnOk result (IsAllOf (passed self.new) (contents self.new)) }
        ensures cause { HasCause (faults self.old) (faults self.new) result };

    /// Only what the sink holds was passed on, in order.
    ghost prefix: { (sink : Self) → IsPrefixOf (passed sink) (contents sink) };
}
