//! What is known of the next read or write of a link.

ghost use Rattle.std.specs.Prelude.{◌≡◌};
ghost use Rattle.mx_real.specs.Sides.{rested};

/// What is known of the next read or write of a link.
#[derive(Clone, Copy, Drop, PartialEq, Eq)]
pub(crate) enum Side {
    /// The system may take it.
    Open,
    /// The last one would have had to wait.
    Blocked,
    /// So it would, and the links have rested since, and nothing was told of this one.
    Quiet,
}

impl Side {
    /// After a rest in which nothing was told.
    pub(crate) fn rested(self) -> Side
        ensures { result ≡ rested self }
    {
        match self {
            Side::Open => Side::Open,
            Side::Blocked => Side::Quiet,
            Side::Quiet => Side::Quiet,
        }
    }
}
