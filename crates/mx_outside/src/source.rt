//! A stream that bytes are read from.

ghost use Rattle.std.specs.Prelude.{ℕ, List, Option};
ghost use Rattle.std.specs.Io.{ReadsAtMost};
ghost use Rattle.std.specs.Io.KnownBytes.{ReadConsumes};
ghost use Rattle.mx_outside.specs.Causes.{HasCause};

use crate::failed::Failed;

/// A stream of bytes to be read.
pub trait Source {
    /// The bytes that are left, where they are known.
    ghost left: { Self → Option (List ℕ) };

    /// How often a call failed.
    ghost faults: { Self → ℕ };

    /// Reads the next bytes into a prefix of `into`, and returns how many: 0 for a buffer that isn't
    /// empty is the end.
    ///
    /// # Errors
    /// Nothing was read.
    fn read(&mut self, into: &mut [u8]) -> Result<usize, Failed>
        ensures bound { ReadsAtMost result into.new }
        ensures bytes { ReadConsumes (left self.old) (left self.new) result into.new }
        ensures cause { HasCause (faults self.old) (faults self.new) result };
}
