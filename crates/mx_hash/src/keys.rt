//! A list of byte strings.

ghost use Rattle.std.specs.Prelude.{◌≡◌};

use mx_msgpack::Bytes;
use std::marker::Model;

/// A list of byte strings.
#[derive(Drop)]
pub struct Keys {
    items: Vec<Bytes>,
}

impl Model for Keys {
    ghost use Rattle.std.specs.Prelude.{ℕ, List};

    ghost Value = { List (List ℕ) };

    ghost view = { λ k. k.items.items };
}

impl Keys {
    /// The byte strings of a vector.
    pub fn from_vec(items: Vec<Bytes>) -> Keys
        ensures { result ≡ items.items }
    {
        Keys { items }
    }

    /// The byte strings as a vector.
    pub fn into_vec(self) -> Vec<Bytes>
        ensures { result.items ≡ self }
    {
        self.items
    }

    /// The byte strings in order.
    pub fn as_slice(&self) -> &[Bytes]
        ensures { result.now ≡ self.now }
    {
        self.items.as_slice()
    }
}
