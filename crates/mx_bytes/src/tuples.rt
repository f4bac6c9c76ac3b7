//! Tuples in a row, which a contract sees as a list of lists of numbers.

ghost use Rattle.std.specs.Prelude.{◌≡◌, [], ◌∷◌, ◌++◌, length, map, IfOk, IsTrue, MatchResult, ◌↔◌};
ghost use Rattle.std.specs.List.{concat, sum};
ghost use Rattle.mx_bytes.specs.Pieces.{pieces};

use std::alloc::{AllocError, Global};
use std::marker::Model;

/// Tuples in order: their bytes, one tuple after the other, and how many bytes each has.
#[derive(Drop)]
pub struct Tuples {
    bytes: Vec<u8>,
    sizes: Vec<usize>,
}

impl Model for Tuples {
    ghost use Rattle.std.specs.Prelude.{◌≡◌, ℕ, List, length};
    ghost use Rattle.std.specs.List.{sum};
    ghost use Rattle.mx_bytes.specs.Pieces.{pieces};

    ghost Value = { List (List ℕ) };

    ghost view = { λ t. pieces t.sizes.items t.bytes.items };

    ghost invariant = { λ t. sum t.sizes.items ≡ length t.bytes.items };
}

impl Tuples {
    /// No tuple.
    pub fn new(alloc: Global) -> Tuples
        ensures { result ≡ [] }
    {
        Tuples {
            bytes: Vec::new(alloc),
            sizes: Vec::new(alloc),
        }
    }

    /// Adds a copy of a tuple at the end.
    ///
    /// # Errors
    /// Out of memory; the tuples are as they were.
    pub fn push(&mut self, tuple: &[u8]) -> Result<(), AllocError>
        ensures { MatchResult result (λ _. self.new ≡ self.old ++ tuple.now ∷ []) (λ _. self.new ≡ self.old) }
    {
        self.sizes.reserve(1)?;
        self.bytes.extend_from_slice(tuple)?;
        self.sizes.push_reserved(tuple.len());
        Ok(())
    }

    /// Drops all tuples, and keeps their memory.
    pub fn clear(&mut self)
        ensures { self.new ≡ [] }
    {
        self.bytes.clear();
        self.sizes.clear();
    }

    /// The bytes of all tuples, one after the other.
    pub fn bytes(&self) -> &[u8]
        ensures { result.now ≡ concat self.now }
    {
        self.bytes.as_slice()
    }

    /// The tuples in place, in order.
    pub fn slices(&self, alloc: Global) -> Result<Vec<&[u8]>, AllocError>
        ensures { IfOk result (λ slices. map (λ slice. slice.now) slices.items ≡ self.now) }
    {
        cut(alloc, self.sizes.as_slice(), self.bytes.as_slice())
    }

    /// How many tuples there are.
    pub fn len(&self) -> usize
        ensures { result ≡ length self.now }
    {
        self.sizes.as_slice().len()
    }

    /// Whether there is no tuple.
    pub fn is_empty(&self) -> bool
        ensures { IsTrue result ↔ (self.now ≡ []) }
    {
        self.len() == 0
    }
}

/// The bytes in pieces of these sizes, in place.
fn cut<'a>(alloc: Global, sizes: &[usize], bytes: &'a [u8]) -> Result<Vec<&'a [u8]>, AllocError>
    requires { sum sizes.now ≡ length bytes.now }
    ensures { IfOk result (λ slices. map (λ slice. slice.now) slices.items ≡ pieces sizes.now bytes.now) }
{
    let mut slices = Vec::with_capacity(alloc, sizes.len())?;
    let mut rest = bytes;
    for size in sizes {
        let (slice, behind) = rest.split_at(*size);
        slices.push(slice)?;
        rest = behind;
    }
    Ok(slices)
}
