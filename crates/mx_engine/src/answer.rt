//! Answers to requests.

ghost use Rattle.std.specs.Prelude.{◌≡◌, Ok};
ghost use Rattle.mx_engine.specs.Views.{reply_of, reply_view};

use mx_msgpack::Tuples;

/// The answer to a request that isn't refused.
#[derive(Drop)]
pub enum Answer {
    /// The tuples that were found, or the one that was put in its place.
    Tuples(Tuples),
    /// It was done, and there is nothing to return.
    Empty,
    /// The protocol's version and features.
    Id,
}

/// What a request is answered that isn't refused, whose tuples stand beside it.
#[derive(Clone, Copy, Drop)]
pub enum Answered {
    /// The tuples that were found, or the one that was put in its place.
    Tuples,
    /// It was done, and there is nothing to return.
    Empty,
    /// The protocol's version and features.
    Id,
}

impl Answered {
    /// The answer with its tuples.
    pub(crate) fn with(self, tuples: Tuples) -> Answer
        ensures { reply_view (Ok result) ≡ reply_of (Ok self) tuples }
    {
        match self {
            Answered::Tuples => Answer::Tuples(tuples),
            Answered::Empty => Answer::Empty,
            Answered::Id => Answer::Id,
        }
    }
}
