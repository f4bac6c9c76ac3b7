//! Keys that a commit touches.

ghost use Rattle.std.specs.Prelude.{◌≡◌, [], ◌∷◌, ◌++◌, length, take, IsTrue, MatchResult, ◌↔◌};

use mx_msgpack::Bytes;
use std::alloc::{AllocError, Global};
use std::marker::Model;

/// The comparable bytes of a key of an index, whose tuple a commit changes.
#[derive(Drop)]
pub struct Touched {
    pub space: u32,
    pub index: u32,
    pub key: Bytes,
}

/// Touched keys in order.
#[derive(Drop)]
pub struct TouchedKeys {
    items: Vec<Touched>,
}

impl Model for TouchedKeys {
    ghost use Rattle.std.specs.Prelude.{List};
    ghost use Rattle.mx_tracker.specs.declared.touched.Touched.{Touched};

    ghost Value = { List Touched };

    ghost view = { λ t. t.items.items };
}

impl TouchedKeys {
    /// No key.
    pub fn new(alloc: Global) -> TouchedKeys
        ensures { result ≡ [] }
    {
        TouchedKeys {
            items: Vec::new(alloc),
        }
    }

    /// Adds a key at the end.
    ///
    /// # Errors
    /// Out of memory; the keys are as they were.
    pub fn push(&mut self, touched: Touched) -> Result<(), AllocError>
        ensures { MatchResult result (λ _. self.new ≡ self.old ++ touched ∷ []) (λ _. self.new ≡ self.old) }
    {
        self.items.push(touched)?;
        Ok(())
    }

    /// Keeps the first `len` keys; does nothing where there are no more.
    pub fn truncate(&mut self, len: usize)
        ensures { self.new ≡ take len self.old }
    {
        self.items.truncate(len);
    }

    /// The keys in order.
    pub fn as_slice(&self) -> &[Touched]
        ensures { result.now ≡ self.now }
    {
        self.items.as_slice()
    }

    /// How many keys there are.
    pub fn len(&self) -> usize
        ensures { result ≡ length self.now }
    {
        self.items.len()
    }

    /// Whether there is no key.
    pub fn is_empty(&self) -> bool
        ensures { IsTrue result ↔ (self.now ≡ []) }
    {
        self.items.is_empty()
    }
}
