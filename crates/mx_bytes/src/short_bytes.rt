//! A few bytes in place, with no allocation.

ghost use Rattle.std.specs.Prelude.{◌≡◌, ◌≢◌, ◌≤◌, ◌+◌, ◌++◌, ◌-◌, [], length, take, drop, replicate, IfOk, IsTrue, ◌↔◌};
ghost use Rattle.std.specs.Cmp.Lexicographic.{slice_cmp};
ghost use Rattle.std.specs.Ordering.{nat_cmp};
ghost use Rattle.byteorder.specs.Endian.{big_number};
ghost use Rattle.mx_bytes.specs.Short.{max_short};

use byteorder::{BigEndian, ByteOrder};
use std::alloc::{AllocError, Global};
use std::cmp::Ordering;
use std::marker::Model;

// So that `Storage` is no larger than a vector makes it.
const MAX_SHORT: usize = 30;

/// A row of at most 30 bytes, behind which zeros stand.
#[derive(Drop)]
pub(crate) struct ShortBytes {
    alloc: Global,
    len: u8,
    items: [u8; MAX_SHORT],
}

impl Model for ShortBytes {
    ghost use Rattle.std.specs.Prelude.{ℕ, List, take, drop, replicate, ◌≤◌, ◌≡◌, ◌-◌};
    ghost use Rattle.mx_bytes.specs.Short.{max_short};

    ghost Value = { List ℕ };

    ghost view = { λ b. take b.len b.items };

    ghost invariant = { λ b. (b.len ≤ max_short) × (drop b.len b.items ≡ replicate (max_short - b.len) 0) };
}

impl ShortBytes {
    #[inline]
    pub(crate) fn new(alloc: Global) -> ShortBytes
        ensures { result ≡ [] }
    {
        ShortBytes {
            alloc,
            len: 0,
            items: [0; MAX_SHORT],
        }
    }

    #[inline]
    pub(crate) fn copy(&self) -> ShortBytes
        ensures { result ≡ self.now }
    {
        ShortBytes {
            alloc: self.alloc,
            len: self.len,
            items: self.items,
        }
    }

    #[inline]
    pub(crate) fn as_slice(&self) -> &[u8]
        ensures { result.now ≡ self.now }
    {
        &self.items[..usize::from(self.len)]
    }

    #[inline]
    pub(crate) fn len(&self) -> usize
        ensures value { result ≡ length self.now }
        ensures fits { result ≤ max_short }
    {
        usize::from(self.len)
    }

    #[inline]
    pub(crate) fn has_room(&self, additional: usize) -> bool
        ensures { IsTrue result ↔ (length self.now + additional ≤ max_short) }
    {
        additional <= MAX_SHORT - self.len()
    }

    #[inline]
    pub(crate) fn extend_from_slice(&mut self, bytes: &[u8])
        requires { length self.old + length bytes.now ≤ max_short }
        ensures { self.new ≡ self.old ++ bytes.now }
    {
        let start = usize::from(self.len);
        let end = start + bytes.len();
        self.items[start..end].copy_from_slice(bytes);
        self.len = end as u8;
    }

    pub(crate) fn write_at(&mut self, at: usize, bytes: &[u8])
        requires { at + length bytes.now ≤ length self.old }
        ensures { self.new ≡ take at self.old ++ (bytes.now ++ drop (at + length bytes.now) self.old) }
    {
        let items = &mut self.items[..usize::from(self.len)];
        items[at..at + bytes.len()].copy_from_slice(bytes);
    }

    pub(crate) fn truncate(&mut self, len: usize)
        ensures { self.new ≡ take len self.old }
    {
        if len < usize::from(self.len) {
            self.items[len..].fill(0);
            self.len = len as u8;
        }
    }

    /// By the first byte that differs; a proper prefix comes first.
    #[inline(always)]
    pub(crate) fn compare(&self, other: &ShortBytes) -> Ordering
        ensures { result ≡ slice_cmp nat_cmp self.now other.now }
    {
        compare_padded(&self.items, self.len, &other.items, other.len)
    }

    /// A vector of these bytes with room for so many further ones.
    pub(crate) fn to_vec(&self, additional: usize) -> Result<Vec<u8>, AllocError>
        ensures { IfOk result (λ items. items.items ≡ self.now) }
    {
        let mut items = Vec::with_capacity(self.alloc, self.len().saturating_add(additional))?;
        items.extend_from_slice(self.as_slice())?;
        Ok(items)
    }
}

/// The order of the first bytes of two rows, behind which zeros stand: eight at a time, and at last how many there
/// are.
#[inline(always)]
fn compare_padded(
    left: &[u8; MAX_SHORT],
    left_len: u8,
    right: &[u8; MAX_SHORT],
    right_len: u8,
) -> Ordering
    requires left { (left_len ≤ max_short) × (drop left_len left.now ≡ replicate (max_short - left_len) 0) }
    requires right { (right_len ≤ max_short) × (drop right_len right.now ≡ replicate (max_short - right_len) 0) }
    ensures { result ≡ slice_cmp nat_cmp (take left_len left.now) (take right_len right.now) }
{
    let (one, two) = (word_at(left, 0), word_at(right, 0));
    if one != two {
        return order_of_unequal(one, two);
    }
    let (one, two) = (word_at(left, 8), word_at(right, 8));
    if one != two {
        return order_of_unequal(one, two);
    }
    compare_ends(left, right).then(left_len.cmp(&right_len))
}

// A call too, which few keys need.
#[inline(never)]
fn compare_ends(left: &[u8; MAX_SHORT], right: &[u8; MAX_SHORT]) -> Ordering
    ensures { result ≡ slice_cmp nat_cmp (drop 16 left.now) (drop 16 right.now) }
{
    let (one, two) = (word_at(left, 16), word_at(right, 16));
    if one != two {
        return order_of_unequal(one, two);
    }
    BigEndian::read_u48(&left[24..]).cmp(&BigEndian::read_u48(&right[24..]))
}

/// Eight bytes as one number.
#[inline(always)]
fn word_at(items: &[u8; MAX_SHORT], start: usize) -> u64
    requires { start + 8 ≤ max_short }
    ensures { result ≡ big_number 8 (drop start items.now) }
{
    BigEndian::read_u64(&items[start..])
}

#[inline(always)]
fn order_of_unequal(one: u64, two: u64) -> Ordering
    requires { one ≢ two }
    ensures { result ≡ nat_cmp one two }
{
    if one < two {
        Ordering::Less
    } else {
        Ordering::Greater
    }
}
