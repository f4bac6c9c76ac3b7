//! What a value behind a turn means.
ghost use Rattle.std.specs.Prelude.{Bool, List};

/// A value that stands for a list of entries, the newest first, over a base.
pub trait Logged: Drop {
    /// What the history begins from.
    type Base;

    /// What a holder of the turn adds to the history.
    type Entry;

    /// What `give` is told of the entry.
    type Note;

    /// The base that a value is now.
    ghost start: { Self → Self.Base };

    /// The base of a seat that was joined to another.
    ghost nowhere: { Self.Base };

    /// Over the base the value stands for the entries.
    ghost stands: { Self.Base → Self → List Self.Entry → Type 0 };

    /// Whether the first seat alone may add this entry.
    ghost is_alone: { Self.Entry → Bool };

    /// Whether this entry is a call.
    ghost is_call: { Self.Entry → Bool };

    /// The entry that a note tells.
    ghost entry_of: { Self.Note → Self.Entry };
}
