//! Bytes that are owned, which a contract sees as a list of numbers.

ghost use Rattle.std.specs.Prelude.{◌≡◌, ◌≤◌, ◌+◌, ◌++◌, [], length, take, drop, Some, IfOk, IsTrue, MatchResult, ◌↔◌, nat_eq};
ghost use Rattle.std.specs.Cmp.{partial_equiv_from_equiv};
ghost use Rattle.std.specs.Cmp.Lexicographic.{pointwise, slice_cmp, texts_po, texts_ties, bytes_decides};
ghost use Rattle.std.specs.Ordering.{nat_cmp};
ghost use Rattle.std.specs.Hash as fed;
ghost use Rattle.std.proofs.Common.{ap};
ghost use Rattle.std.proofs.lemmas.Cmp.{nat_list_eq_equiv, nat_list_cmp_total};

use crate::short_bytes::ShortBytes;
use crate::storage::Storage;
use std::alloc::{AllocError, Global};
use std::cmp::Ordering;
use std::fmt::{self, Debug, Formatter, Write};
use std::hash::{Hash, Hasher};
use std::marker::Model;

/// A row of bytes, of any values. Up to 30 are kept in place, with no allocation.
#[derive(Drop)]
pub struct Bytes {
    storage: Storage,
}

impl Model for Bytes {
    ghost use Rattle.std.specs.Prelude.{ℕ, List};
    ghost use Rattle.mx_bytes.specs.Stored.{stored_bytes};

    ghost Value = { List ℕ };

    ghost view = { λ b. stored_bytes b.storage };
}

impl Debug for Bytes {
    fn fmt<W: Write>(&self, f: &mut Formatter<W>) -> fmt::Result {
        f.debug_struct("Bytes")
            .field("items", &self.as_slice())
            .finish()
    }
}

impl Clone for Bytes {
    ghost is_clone = { λ bytes copy. copy ≡ bytes };

    fn clone(&self) -> Result<Bytes, AllocError> {
        let storage = match &self.storage {
            Storage::Short(short) => Storage::Short(short.copy()),
            Storage::Long(items) => Storage::Long(items.as_slice().to_vec(*items.allocator())?),
        };
        Ok(Bytes { storage })
    }
}

impl PartialEq for Bytes {
    ghost eq = { pointwise nat_eq };

    ghost laws = { partial_equiv_from_equiv nat_list_eq_equiv };

    fn eq(&self, other: &Bytes) -> bool {
        self.as_slice() == other.as_slice()
    }
}

impl Eq for Bytes {
    ghost laws = { nat_list_eq_equiv };
}

impl PartialOrd for Bytes {
    ghost partial_cmp = { λ a b. Some (slice_cmp nat_cmp a b) };

    ghost laws = { texts_po };

    fn partial_cmp(&self, other: &Bytes) -> Option<Ordering> {
        Some(self.cmp(other))
    }
}

/// By the first byte that differs; a proper prefix comes first.
impl Ord for Bytes {
    ghost cmp = { slice_cmp nat_cmp };

    ghost total = { nat_list_cmp_total };

    ghost matches_partial_cmp = { λ a b. λ i. Some (slice_cmp nat_cmp a b) };

    ghost matches_eq = { texts_ties };

    #[inline(always)]
    fn cmp(&self, other: &Bytes) -> Ordering {
        if let Storage::Short(one) = &self.storage {
            if let Storage::Short(two) = &other.storage {
                return one.compare(two);
            }
        }
        compare_slices(self.as_slice(), other.as_slice())
    }
}

// A call, so that the loops that search a tree of short keys stay short.
#[inline(never)]
fn compare_slices(one: &[u8], two: &[u8]) -> Ordering
    ensures { result ≡ slice_cmp nat_cmp one.now two.now }
{
    one.cmp(two)
}

impl Hash for Bytes {
    ghost hash_input = { fed.slice fed.u8 };

    ghost respects_eq = { λ a b same. ap (fed.slice fed.u8) ((bytes_decides a b).0 same) };

    fn hash<H: Hasher>(&self, state: &mut H) {
        self.as_slice().hash(state);
    }
}

impl Bytes {
    /// No bytes.
    #[inline]
    pub fn new(alloc: Global) -> Bytes
        ensures { result ≡ [] }
    {
        Bytes {
            storage: Storage::Short(ShortBytes::new(alloc)),
        }
    }

    /// The bytes of the vector, which stays as it is.
    pub fn from_vec(items: Vec<u8>) -> Bytes
        ensures { result ≡ items.items }
    {
        Bytes {
            storage: Storage::Long(items),
        }
    }

    /// A copy of the bytes.
    #[inline]
    pub fn from_slice(alloc: Global, bytes: &[u8]) -> Result<Bytes, AllocError>
        ensures { IfOk result (λ copy. copy ≡ bytes.now) }
    {
        let mut short = ShortBytes::new(alloc);
        if short.has_room(bytes.len()) {
            short.extend_from_slice(bytes);
            return Ok(Bytes {
                storage: Storage::Short(short),
            });
        }
        Ok(Bytes {
            storage: Storage::Long(bytes.to_vec(alloc)?),
        })
    }

    /// The bytes in place.
    #[inline]
    pub fn as_slice(&self) -> &[u8]
        ensures { result.now ≡ self.now }
    {
        match &self.storage {
            Storage::Short(short) => short.as_slice(),
            Storage::Long(items) => items.as_slice(),
        }
    }

    /// Makes room for so many further bytes, which are then added without growing again.
    #[inline]
    pub fn reserve(&mut self, additional: usize) -> Result<(), AllocError>
        ensures { self.new ≡ self.old }
    {
        match &mut self.storage {
            Storage::Short(short) => {
                if !short.has_room(additional) {
                    let items = short.to_vec(additional)?;
                    self.storage = Storage::Long(items);
                }
                Ok(())
            }
            Storage::Long(items) => items.reserve(additional),
        }
    }

    /// Adds these bytes at the end.
    ///
    /// # Errors
    /// Out of memory; nothing is added.
    #[inline]
    pub fn extend_from_slice(&mut self, bytes: &[u8]) -> Result<(), AllocError>
        ensures { MatchResult result (λ _. self.new ≡ self.old ++ bytes.now) (λ _. self.new ≡ self.old) }
    {
        match &mut self.storage {
            Storage::Short(short) => {
                if short.has_room(bytes.len()) {
                    short.extend_from_slice(bytes);
                    return Ok(());
                }
            }
            Storage::Long(items) => return items.extend_from_slice(bytes),
        }
        self.lengthen(bytes)
    }

    /// As `extend_from_slice`, where the bytes may find no room in place.
    #[inline(never)]
    fn lengthen(&mut self, bytes: &[u8]) -> Result<(), AllocError>
        ensures { MatchResult result (λ _. self.new ≡ self.old ++ bytes.now) (λ _. self.new ≡ self.old) }
    {
        match &mut self.storage {
            Storage::Short(short) => {
                let mut items = short.to_vec(bytes.len())?;
                items.extend_from_slice(bytes)?;
                self.storage = Storage::Long(items);
                Ok(())
            }
            Storage::Long(items) => items.extend_from_slice(bytes),
        }
    }

    /// Puts these bytes into the place of as many that begin at `at`.
    pub fn write_at(&mut self, at: usize, bytes: &[u8])
        requires { at + length bytes.now ≤ length self.old }
        ensures { self.new ≡ take at self.old ++ (bytes.now ++ drop (at + length bytes.now) self.old) }
    {
        match &mut self.storage {
            Storage::Short(short) => short.write_at(at, bytes),
            Storage::Long(items) => items[at..at + bytes.len()].copy_from_slice(bytes),
        }
    }

    /// Keeps the first `len` bytes; does nothing where there are no more.
    pub fn truncate(&mut self, len: usize)
        ensures { self.new ≡ take len self.old }
    {
        match &mut self.storage {
            Storage::Short(short) => short.truncate(len),
            Storage::Long(items) => items.truncate(len),
        }
    }

    /// How many bytes there are.
    #[inline]
    pub fn len(&self) -> usize
        ensures { result ≡ length self.now }
    {
        match &self.storage {
            Storage::Short(short) => short.len(),
            Storage::Long(items) => items.len(),
        }
    }

    /// Whether there is no byte.
    pub fn is_empty(&self) -> bool
        ensures { IsTrue result ↔ (self.now ≡ []) }
    {
        self.as_slice().is_empty()
    }
}
