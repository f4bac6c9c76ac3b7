//! Notes of what statements read.

ghost use Rattle.std.specs.Prelude.{◌≡◌, [], ◌∷◌, None, Some, OnOk, IfOk, pos};
ghost use Rattle.std.specs.Option.{option_copied};
ghost use Rattle.mx_key.specs.Comparable.{comparable_of, edges_of};
ghost use Rattle.mx_key.specs.Keys.{Key, AreFit, Integer};
ghost use Rattle.mx_key.specs.Ranges.{AreFitEnds, Range, prefix_range};
ghost use Rattle.mx_write.specs.Notes.{AddsReads};
ghost use Rattle.mx_write.specs.Reads.{index_read, key_read, space_read};

use mx_base::{IndexId, SpaceId};
use mx_key::{Edge, KeyRange};
use mx_msgpack::Bytes;
use mx_schema::{INDEX_ROWS, SPACE_ROWS};
use mx_tracker::{Read, Reads};
use std::alloc::{AllocError, Global};
use std::marker::Model;

/// What statements have read, in order, where that is noted.
#[derive(Drop)]
pub struct Notes {
    reads: Option<Reads>,
}

impl Model for Notes {
    ghost use Rattle.std.specs.Prelude.{List, Option};
    ghost use Rattle.mx_tracker.specs.declared.read.Read.{Read};

    ghost Value = { Option (List Read) };

    ghost view = { λ n. n.reads };
}

impl Notes {
    /// Notes nothing, and takes no memory.
    #[inline]
    pub fn off() -> Notes
        ensures { result ≡ None }
    {
        Notes { reads: None }
    }

    /// Notes each read.
    pub fn on(alloc: Global) -> Notes
        ensures { result ≡ Some [] }
    {
        Notes {
            reads: Some(Reads::new(alloc)),
        }
    }

    /// The reads; `None` where they aren't noted.
    #[inline]
    pub fn as_reads(&self) -> Option<&Reads>
        ensures { option_copied result ≡ self.now }
    {
        self.reads.as_ref()
    }

    /// The reads; `None` where they aren't noted.
    #[inline]
    pub fn into_reads(self) -> Option<Reads>
        ensures { result ≡ self }
    {
        self.reads
    }

    /// Notes a read of all keys of an index that begin with the key of these comparable bytes.
    #[inline]
    pub fn note_key(
        &mut self,
        alloc: Global,
        space: SpaceId,
        index: IndexId,
        key: &[u8],
    ) -> Result<(), AllocError>
        ensures { (asked : Key) → AreFit asked → key.now ≡ comparable_of asked
            → OnOk result (AddsReads self.old self.new (key_read space.0 index.0 asked ∷ [])) }
    {
        let Some(reads) = &mut self.reads else {
            return Ok(());
        };
        let range = prefix_range(alloc, key)?;
        push(reads, space, index, range)
    }

    /// Notes a read of a range of an index's keys.
    #[inline]
    pub fn note_range(
        &mut self,
        space: SpaceId,
        index: IndexId,
        range: KeyRange,
    ) -> Result<(), AllocError>
        ensures { (read : Range) → AreFitEnds read → range ≡ edges_of read
            → OnOk result (AddsReads self.old self.new (record { space = space.0; index = index.0; range = read } ∷ [])) }
    {
        match &mut self.reads {
            Some(reads) => push(reads, space, index, range),
            None => Ok(()),
        }
    }

    /// Notes a read of the row that describes a space.
    #[inline]
    pub fn note_space(&mut self, alloc: Global, space: SpaceId) -> Result<(), AllocError>
        ensures { OnOk result (AddsReads self.old self.new (space_read space.0 ∷ [])) }
    {
        self.note_key(alloc, SpaceId(SPACE_ROWS), IndexId(0), &number_key(space.0))
    }

    /// Notes a read of the rows that describe a space's indexes.
    #[inline]
    pub fn note_indexes(&mut self, alloc: Global, space: SpaceId) -> Result<(), AllocError>
        ensures { OnOk result (AddsReads self.old self.new (index_read space.0 ∷ [])) }
    {
        self.note_key(alloc, SpaceId(INDEX_ROWS), IndexId(0), &number_key(space.0))
    }
}

#[inline]
fn push(
    reads: &mut Reads,
    space: SpaceId,
    index: IndexId,
    range: KeyRange,
) -> Result<(), AllocError>
    ensures { (read : Range) → AreFitEnds read → range ≡ edges_of read
        → OnOk result (AddsReads (Some reads.old) (Some reads.new) (record { space = space.0; index = index.0; range = read } ∷ [])) }
{
    let KeyRange { low, high } = range;
    reads.push(Read {
        space: space.0,
        index: index.0,
        low,
        high,
    })
}

/// The keys that begin with the key of these comparable bytes.
#[inline]
fn prefix_range(alloc: Global, key: &[u8]) -> Result<KeyRange, AllocError>
    ensures { (asked : Key) → key.now ≡ comparable_of asked → IfOk result (λ range. range ≡ edges_of (prefix_range asked)) }
{
    let mut end = Bytes::new(alloc);
    end.reserve(key.len() + 1)?;
    end.extend_from_slice(key)?;
    end.extend_from_slice(&[255])?;
    Ok(KeyRange {
        low: Edge::Inclusive(Bytes::from_slice(alloc, key)?),
        high: Edge::Exclusive(end),
    })
}

/// The comparable bytes of a key of one number.
fn number_key(number: u32) -> [u8; 10]
    ensures { result ≡ comparable_of (Integer (pos number) ∷ []) }
{
    let [first, second, third, fourth] = number.to_be_bytes();
    [3, 0, 0x80, 0, 0, 0, first, second, third, fourth]
}
