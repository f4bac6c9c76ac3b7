//! What the keys of an index are made of.

ghost use Rattle.std.specs.Prelude.{◌≡◌, [], ◌∷◌, ◌++◌, length, OnOk, OnErr, IsTrue, ◌↔◌};

use crate::part::Part;
use std::alloc::{AllocError, Global};
use std::marker::Model;

/// The parts of an index's keys, in order.
#[derive(Drop)]
pub struct KeyDef {
    parts: Vec<Part>,
}

impl Model for KeyDef {
    ghost use Rattle.std.specs.Prelude.{List};
    ghost use Rattle.mx_key.specs.declared.part.Part.{Part};

    ghost Value = { List Part };

    ghost view = { λ d. d.parts.items };
}

impl KeyDef {
    /// No part.
    pub fn new(alloc: Global) -> KeyDef
        ensures { result ≡ [] }
    {
        KeyDef {
            parts: Vec::new(alloc),
        }
    }

    /// The parts of the vector.
    pub fn from_vec(parts: Vec<Part>) -> KeyDef
        ensures { result ≡ parts.items }
    {
        KeyDef { parts }
    }

    /// The parts as a vector.
    pub fn into_vec(self) -> Vec<Part>
        ensures { result.items ≡ self }
    {
        self.parts
    }

    /// The parts in place.
    pub fn as_slice(&self) -> &[Part]
        ensures { result.now ≡ self.now }
    {
        self.parts.as_slice()
    }

    /// Adds a part at the end.
    pub fn push(&mut self, part: Part) -> Result<(), AllocError>
        ensures ok { OnOk result (self.new ≡ self.old ++ part ∷ []) }
        ensures err { OnErr result (self.new ≡ self.old) }
    {
        self.parts.push(part)?;
        Ok(())
    }

    /// How many parts there are.
    pub fn len(&self) -> usize
        ensures { result ≡ length self.now }
    {
        self.parts.len()
    }

    /// Whether there is no part.
    pub fn is_empty(&self) -> bool
        ensures { IsTrue result ↔ (self.now ≡ []) }
    {
        self.parts.is_empty()
    }
}
