//! Ranges of keys, as their bytes.

ghost use Rattle.std.specs.Prelude.{◌≡◌, OnErr, ◌++◌, ◌∷◌, [], OnOk, IfOk};
ghost use Rattle.std.specs.Range.Bound.{bound_map};
ghost use Rattle.mx_key.specs.Comparable.{bound_of, comparable_of, edges_of, holds, is_within_low, is_within_high};
ghost use Rattle.mx_key.specs.Keys.{Key};
ghost use Rattle.mx_key.specs.Ranges.{Range, range_until};

use mx_msgpack::Bytes;
use std::alloc::{AllocError, Global};
use std::cmp::Ord;
use std::ops::Bound;

/// An end of a range: comparable bytes, which lie in the range or not, or no bound.
#[derive(Drop)]
pub enum Edge {
    Inclusive(Bytes),
    Exclusive(Bytes),
    Open,
}

/// A range of keys. A key lies in it where its comparable bytes do.
#[derive(Drop)]
pub struct KeyRange {
    pub low: Edge,
    pub high: Edge,
}

impl Edge {
    fn bound(&self) -> Bound<&Bytes>
        ensures { bound_map (λ x. x.now) result ≡ bound_of self.now }
    {
        match self {
            Edge::Inclusive(bytes) => Bound::Included(bytes),
            Edge::Exclusive(bytes) => Bound::Excluded(bytes),
            Edge::Open => Bound::Unbounded,
        }
    }

    /// Whether comparable bytes lie in a range with this low end, as far as that says.
    #[inline]
    pub fn is_within_low(&self, key: &Bytes) -> bool
        ensures { result ≡ is_within_low self.now key.now }
    {
        match self {
            Edge::Inclusive(end) => !key.cmp(end).is_lt(),
            Edge::Exclusive(end) => key.cmp(end).is_gt(),
            Edge::Open => true,
        }
    }

    /// Whether comparable bytes lie in a range with this high end, as far as that says.
    #[inline]
    pub fn is_within_high(&self, key: &Bytes) -> bool
        ensures { result ≡ is_within_high self.now key.now }
    {
        match self {
            Edge::Inclusive(end) => !key.cmp(end).is_gt(),
            Edge::Exclusive(end) => key.cmp(end).is_lt(),
            Edge::Open => true,
        }
    }
}

impl KeyRange {
    /// The low end as the bound of a map's range.
    pub fn low_bound(&self) -> Bound<&Bytes>
        ensures { bound_map (λ x. x.now) result ≡ bound_of self.now.low }
    {
        self.low.bound()
    }

    /// The high end as the bound of a map's range.
    pub fn high_bound(&self) -> Bound<&Bytes>
        ensures { bound_map (λ x. x.now) result ≡ bound_of self.now.high }
    {
        self.high.bound()
    }

    /// Whether these comparable bytes lie in the range.
    #[inline]
    pub fn holds(&self, key: &Bytes) -> bool
        ensures { result ≡ holds self.now key.now }
    {
        self.low.is_within_low(key) && self.high.is_within_high(key)
    }

    /// Ends the range with a key of these comparable bytes: at its low end where the scan is downward,
    /// else at its high end.
    pub fn end_with(&mut self, alloc: Global, down: bool, key: &[u8]) -> Result<(), AllocError>
        ensures err { OnErr result (self.new ≡ self.old) }
        ensures ended { (range : Range) (last : Key) → self.old ≡ edges_of range → key.now ≡ comparable_of last
            → OnOk result (self.new ≡ edges_of (range_until down last range)) }
    {
        let last = Bytes::from_slice(alloc, key)?;
        if down {
            self.low = Edge::Inclusive(last);
        } else {
            self.high = Edge::Exclusive(prefix_end(last)?);
        }
        Ok(())
    }
}

/// The bytes just after those of all keys that begin with these bytes.
pub fn prefix_end(mut bytes: Bytes) -> Result<Bytes, AllocError>
    ensures { IfOk result (λ end. end ≡ bytes ++ 255 ∷ []) }
{
    bytes.extend_from_slice(&[255])?;
    Ok(bytes)
}
