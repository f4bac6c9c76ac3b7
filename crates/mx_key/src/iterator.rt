//! Iterators.

ghost use Rattle.std.specs.Prelude.{◌≡◌};
ghost use Rattle.mx_key.specs.Ranges.{descends};

/// What a SELECT scans, from its key on, and in which direction.
#[derive(Clone, Copy, Debug, Drop, PartialEq, Eq)]
pub enum IterKind {
    /// All keys with this prefix, upwards.
    Eq,
    /// All keys with this prefix, downwards.
    Req,
    /// As `Ge`.
    All,
    /// All below the key, downwards.
    Lt,
    /// All keys with this prefix and all below it, downwards.
    Le,
    /// All keys with this prefix and all above it, upwards.
    Ge,
    /// All above those with this prefix, upwards.
    Gt,
}

impl IterKind {
    /// Whether the iterator goes down.
    pub fn descends(self) -> bool
        ensures { result ≡ descends self }
    {
        match self {
            IterKind::Req | IterKind::Lt | IterKind::Le => true,
            IterKind::Eq | IterKind::All | IterKind::Ge | IterKind::Gt => false,
        }
    }
}
