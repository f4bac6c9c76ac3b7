//! Ranges of keys that were read.

ghost use Rattle.std.specs.Prelude.{◌≡◌, [], ◌∷◌, ◌++◌, length, take, IsTrue, IfOk, MatchResult, ◌↔◌, ◌&&◌};
ghost use Rattle.std.specs.List.{list_any};
ghost use Rattle.mx_key.specs.Comparable.{is_within_low, is_within_high};
ghost use Rattle.mx_tracker.specs.Overlaps.{is_overlapped, lies_in_read};

use crate::touched::Touched;
use mx_key::Edge;
use mx_msgpack::Bytes;
use std::alloc::{AllocError, Global};
use std::marker::Model;

/// For how many reads a slot keeps room without a transaction.
const KEPT_ROOM: usize = 64;

/// A range of an index's keys that was read; the ends are comparable bytes.
#[derive(Drop)]
pub struct Read {
    pub space: u32,
    pub index: u32,
    pub low: Edge,
    pub high: Edge,
}

impl Read {
    fn copy(&self, alloc: Global) -> Result<Read, AllocError>
        ensures { IfOk result (λ copy. copy ≡ self.now) }
    {
        Ok(Read {
            space: self.space,
            index: self.index,
            low: copy_of(alloc, &self.low)?,
            high: copy_of(alloc, &self.high)?,
        })
    }

    /// Whether one of these keys lies in what was read.
    fn is_touched(&self, keys: &[Touched]) -> bool
        ensures { result ≡ list_any (lies_in_read self.now) keys.now }
    {
        keys.iter().any(|key| self.holds(key))
    }

    fn holds(&self, key: &Touched) -> bool
        ensures { result ≡ lies_in_read self.now key.now }
    {
        key.space == self.space && key.index == self.index && self.is_within(&key.key)
    }

    fn is_within(&self, key: &Bytes) -> bool
        ensures { result ≡ (is_within_low self.now.low key.now && is_within_high self.now.high key.now) }
    {
        self.low.is_within_low(key) && self.high.is_within_high(key)
    }
}

fn copy_of(alloc: Global, edge: &Edge) -> Result<Edge, AllocError>
    ensures { IfOk result (λ copy. copy ≡ edge.now) }
{
    Ok(match edge {
        Edge::Inclusive(end) => Edge::Inclusive(Bytes::from_slice(alloc, end.as_slice())?),
        Edge::Exclusive(end) => Edge::Exclusive(Bytes::from_slice(alloc, end.as_slice())?),
        Edge::Open => Edge::Open,
    })
}

/// Reads in order.
#[derive(Drop)]
pub struct Reads {
    items: Vec<Read>,
}

impl Model for Reads {
    ghost use Rattle.std.specs.Prelude.{List};
    ghost use Rattle.mx_tracker.specs.declared.read.Read.{Read};

    ghost Value = { List Read };

    ghost view = { λ r. r.items.items };
}

impl Reads {
    /// No read.
    pub fn new(alloc: Global) -> Reads
        ensures { result ≡ [] }
    {
        Reads {
            items: Vec::new(alloc),
        }
    }

    /// Adds a read at the end.
    ///
    /// # Errors
    /// Out of memory; the reads are as they were.
    #[inline]
    pub fn push(&mut self, read: Read) -> Result<(), AllocError>
        ensures { MatchResult result (λ _. self.new ≡ self.old ++ read ∷ []) (λ _. self.new ≡ self.old) }
    {
        self.items.push(read)?;
        Ok(())
    }

    /// A copy of the reads.
    pub(crate) fn copy(&self, alloc: Global) -> Result<Reads, AllocError>
        ensures { IfOk result (λ copy. copy ≡ self.now) }
    {
        let reads = self.items.as_slice();
        let mut items = Vec::with_capacity(alloc, reads.len())?;
        for read in reads {
            items.push_reserved(read.copy(alloc)?);
        }
        Ok(Reads { items })
    }

    /// Adds reads at the end: all of them, or none where memory runs out.
    pub(crate) fn extend(&mut self, reads: Reads) -> Result<(), AllocError>
        ensures { MatchResult result (λ _. self.new ≡ self.old ++ reads) (λ _. self.new ≡ self.old) }
    {
        let mut reads = reads;
        self.items.append(&mut reads.items)
    }

    /// Keeps the first `len` reads; does nothing where there are no more.
    pub(crate) fn truncate(&mut self, len: usize)
        ensures { self.new ≡ take len self.old }
    {
        self.items.truncate(len);
    }

    /// Drops all reads. The room of a few is kept, so that a slot's next transaction takes no memory for them.
    pub(crate) fn clear(&mut self, alloc: Global)
        ensures { self.new ≡ [] }
    {
        if self.items.capacity() <= KEPT_ROOM {
            self.items.clear();
        } else {
            self.items = Vec::new(alloc);
        }
    }

    /// Whether one of these keys lies in one of the reads.
    pub(crate) fn are_overlapped(&self, keys: &[Touched]) -> bool
        ensures { result ≡ is_overlapped keys.now self.now }
    {
        self.items.iter().any(|read| read.is_touched(keys))
    }

    /// The reads in order.
    pub fn as_slice(&self) -> &[Read]
        ensures { result.now ≡ self.now }
    {
        self.items.as_slice()
    }

    /// How many reads there are.
    pub fn len(&self) -> usize
        ensures { result ≡ length self.now }
    {
        self.items.len()
    }

    /// Whether there is no read.
    pub fn is_empty(&self) -> bool
        ensures { IsTrue result ↔ (self.now ≡ []) }
    {
        self.items.is_empty()
    }
}
