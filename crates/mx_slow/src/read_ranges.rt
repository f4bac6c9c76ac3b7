//! Ranges of index keys in order, which a contract sees as a list.

ghost use Rattle.std.specs.Prelude.{◌≡◌, [], ◌∷◌, ◌++◌, pos, IfOk, OnOk, OnErr};
ghost use Rattle.mx_key.specs.Comparable.{comparable_of, edges_of};
ghost use Rattle.mx_key.specs.Keys.{Key, AreFit, Integer};
ghost use Rattle.mx_key.specs.Ranges.{prefix_range};
ghost use Rattle.mx_write.specs.Reads.{key_read};
ghost use Rattle.mx_slow.specs.SlowReadSteps.{HasAdded};

use mx_base::{IndexId, SpaceId};
use mx_key::{Edge, KeyRange, comparable};
use mx_msgpack::{Bytes, Value, Values};
use std::alloc::{AllocError, Global};
use std::marker::Model;

/// A range of an index's keys that a request reads.
#[derive(Drop)]
pub struct ReadRange {
    pub space: SpaceId,
    pub index: IndexId,
    pub range: KeyRange,
}

/// Ranges that a request reads, in order.
#[derive(Drop)]
pub struct ReadRanges {
    items: Vec<ReadRange>,
}

impl Model for ReadRanges {
    ghost use Rattle.std.specs.Prelude.{List};
    ghost use Rattle.mx_slow.specs.declared.read_ranges.ReadRange.{ReadRange};

    ghost Value = { List ReadRange };

    ghost view = { λ r. r.items.items };
}

impl ReadRanges {
    /// No range.
    pub fn new(alloc: Global) -> ReadRanges
        ensures { result ≡ [] }
    {
        ReadRanges {
            items: Vec::new(alloc),
        }
    }

    /// The ranges in place.
    pub fn as_slice(&self) -> &[ReadRange]
        ensures { result.now ≡ self.now }
    {
        self.items.as_slice()
    }

    /// Adds a range at the end.
    ///
    /// # Errors
    /// Out of memory. The ranges are then as they were.
    pub fn push(&mut self, read: ReadRange) -> Result<(), AllocError>
        ensures ok { OnOk result (self.new ≡ self.old ++ read ∷ []) }
        ensures err { OnErr result (self.new ≡ self.old) }
    {
        self.items.push(read)?;
        Ok(())
    }

    /// Adds one key of an index, of which these are the comparable bytes.
    pub(crate) fn push_key(
        &mut self,
        alloc: Global,
        space: SpaceId,
        index: IndexId,
        key: Bytes,
    ) -> Result<(), AllocError>
        ensures { (asked : Key) → AreFit asked → key ≡ comparable_of asked → OnOk result (HasAdded self.old self.new (key_read space.0 index.0 asked ∷ [])) }
    {
        let range = key_range(alloc, key)?;
        self.push(ReadRange {
            space,
            index,
            range,
        })?;
        Ok(())
    }

    /// Adds the rows that begin with the number of a space, of a space of such rows.
    pub(crate) fn push_rows(
        &mut self,
        alloc: Global,
        rows: u32,
        space: SpaceId,
    ) -> Result<(), AllocError>
        ensures { OnOk result (HasAdded self.old self.new (key_read rows 0 (Integer (pos space.0) ∷ []) ∷ [])) }
    {
        let key = number_key(alloc, space.0)?;
        self.push_key(alloc, SpaceId(rows), IndexId(0), key)?;
        Ok(())
    }
}

/// The keys that begin with the key of these comparable bytes.
fn key_range(alloc: Global, key: Bytes) -> Result<KeyRange, AllocError>
    ensures { (asked : Key) → key ≡ comparable_of asked → IfOk result (λ range. range ≡ edges_of (prefix_range asked)) }
{
    let low = Bytes::from_slice(alloc, key.as_slice())?;
    let mut high = key;
    high.extend_from_slice(&[255])?;
    Ok(KeyRange {
        low: Edge::Inclusive(low),
        high: Edge::Exclusive(high),
    })
}

/// The comparable bytes of a key of one number.
fn number_key(alloc: Global, number: u32) -> Result<Bytes, AllocError>
    ensures { IfOk result (λ bytes. (bytes ≡ comparable_of (Integer (pos number) ∷ [])) × AreFit (Integer (pos number) ∷ [])) }
{
    let mut values = Values::new(alloc);
    values.push(Value::Int(i128::from(number)))?;
    comparable(alloc, &values)
}
