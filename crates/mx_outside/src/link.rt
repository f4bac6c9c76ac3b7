//! A connection to a peer, whose reads and writes don't wait.

ghost use Rattle.std.specs.Prelude.{◌≡◌, ℕ, ◌<◌, List, Option, map, length, IfOk};
ghost use Rattle.std.specs.Io.{ReadsAtMost, WritesAtMost};
ghost use Rattle.std.specs.Io.KnownBytes.{ReadConsumes, WriteAppends};
ghost use Rattle.mx_outside.specs.Causes.{HasCauseOf};
ghost use Rattle.mx_outside.specs.declared.link.LinkStop.TheVariants.{Failed, NotReady};

use thiserror::Error;

/// Why a link read or wrote nothing.
#[derive(Clone, Copy, Debug, Drop, PartialEq, Eq, Error)]
pub enum LinkStop {
    /// It would have to wait for its peer.
    #[error("the link isn't ready")]
    NotReady,
    /// The link failed, and is of no use any more.
    #[error("the link failed")]
    Failed,
}

/// A connection to a peer. A read or a write that would have to wait says so instead.
pub trait Link {
    /// The bytes that are left to be read, where they are known.
    ghost left: { Self → Option (List ℕ) };

    /// All bytes that were read from it so far, where they are known.
    ghost came: { Self → Option (List ℕ) };

    /// All bytes that were written to it so far, where they are known.
    ghost gone: { Self → Option (List ℕ) };

    /// How often a call failed.
    ghost faults: { Self → ℕ };

    /// How often a read would have had to wait.
    ghost read_waits: { Self → ℕ };

    /// How often a write would have had to wait.
    ghost write_waits: { Self → ℕ };

    /// Reads the next bytes into a prefix of `into`, and returns how many: 0 for a buffer that isn't
    /// empty is the end.
    ///
    /// # Errors
    /// Nothing was read.
    fn read(&mut self, into: &mut [u8]) -> Result<usize, LinkStop>
        ensures bound { ReadsAtMost result into.new }
        ensures left { ReadConsumes (left self.old) (left self.new) result into.new }
        ensures came { WriteAppends (came self.old) (came self.new) result into.new }
        ensures gone { gone self.new ≡ gone self.old }
        ensures cause { HasCauseOf Failed (faults self.old) (faults self.new) result }
        ensures read_waits { HasCauseOf NotReady (read_waits self.old) (read_waits self.new) result }
        ensures write_waits { write_waits self.new ≡ write_waits self.old };

    /// Takes a prefix of the bytes, and returns how many: at least one where there are any.
    ///
    /// # Errors
    /// Nothing was taken.
    fn write(&mut self, bytes: &[u8]) -> Result<usize, LinkStop>
        ensures bound { WritesAtMost result bytes.now }
        ensures some { 0 < length bytes.now → IfOk result (λ count. 0 < count) }
        ensures left { left self.new ≡ left self.old }
        ensures came { came self.new ≡ came self.old }
        ensures gone { WriteAppends (gone self.old) (gone self.new) result bytes.now }
        ensures cause { HasCauseOf Failed (faults self.old) (faults self.new) result }
        ensures read_waits { read_waits self.new ≡ read_waits self.old }
        ensures write_waits { HasCauseOf NotReady (write_waits self.old) (write_waits self.new) result };

    /// Waits until one of the links may go on, for at most 10 milliseconds, or until the acceptor that
    /// gave them is told to `wake` them. A link whose last call was ready may go on, so it is read and
    /// written until it isn't. Without links nothing waits, and in memory nothing ever does.
    fn rest(links: &mut [Self])
        ensures left { map left links.new ≡ map left links.old }
        ensures came { map came links.new ≡ map came links.old }
        ensures gone { map gone links.new ≡ map gone links.old }
        ensures faults { map faults links.new ≡ map faults links.old }
        ensures read_waits { map read_waits links.new ≡ map read_waits links.old }
        ensures write_waits { map write_waits links.new ≡ map write_waits links.old };

    /// Ends the wait of the acceptor that gave the link, the present one or else the next.
    fn call(&self);
}
