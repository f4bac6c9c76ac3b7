//! A list of texts.

ghost use Rattle.std.specs.Prelude.{◌≡◌, ◌++◌, ◌∷◌, [], length, map, OnOk, OnErr, IfOk, IsTrue, ◌↔◌};
ghost use Rattle.std.specs.String.{string_bytes};

use std::alloc::{AllocError, Global};
use std::marker::Model;

/// A list of texts, as the arguments of a command line or the names of files.
#[derive(Drop)]
pub struct Names {
    items: Vec<String>,
}

impl Model for Names {
    ghost use Rattle.std.specs.Prelude.{ℕ, List, map};
    ghost use Rattle.std.specs.String.{string_bytes};

    ghost Value = { List (List ℕ) };

    ghost view = { λ n. map string_bytes n.items.items };
}

impl Names {
    /// No text.
    pub fn new(alloc: Global) -> Names
        ensures { result ≡ [] }
    {
        Names {
            items: Vec::new(alloc),
        }
    }

    /// The texts of a vector.
    pub fn from_vec(items: Vec<String>) -> Names
        ensures { result ≡ map string_bytes items.items }
    {
        Names { items }
    }

    /// The texts as a vector.
    pub fn into_vec(self) -> Vec<String>
        ensures { map string_bytes result.items ≡ self }
    {
        let Names { items } = self;
        items
    }

    /// Appends a text.
    pub fn push(&mut self, text: String) -> Result<(), AllocError>
        ensures ok { OnOk result (self.new ≡ self.old ++ string_bytes text ∷ []) }
        ensures err { OnErr result (self.new ≡ self.old) }
    {
        self.items.push(text)?;
        Ok(())
    }

    /// The texts in order.
    pub fn as_slice(&self) -> &[String]
        ensures { map string_bytes result.now ≡ self.now }
    {
        &self.items
    }
}
