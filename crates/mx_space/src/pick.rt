//! Range scans: what a SELECT picks of an index's entries.

ghost use Rattle.std.specs.Prelude.{◌≡◌, ◌<◌, ◌≤◌, ◌+◌, [], take, map, IfOk, MatchResult};
ghost use Rattle.std.specs.Option.{option_map};
ghost use Rattle.mx_entries.specs.declared.pick.SelectFault.TheVariants as fault;
ghost use Rattle.mx_entries.specs.declared.pick.SelectStop.TheVariants.{TooLong, NoMemory};
ghost use Rattle.mx_schema.specs.Picks.{directed, max_result_size};
ghost use Rattle.mx_entries.specs.Windows.{IsCollected, IsStopped, key_in_index, one_found, select_fault_of, stop_fault_of, tuple_stored};
ghost use Rattle.mx_space.specs.Selecting.{row_of};

use crate::scan::Scan;
use crate::tuple_map::TupleMap;
use mx_entries::{MAX_RESULT_SIZE, SelectStop};
use mx_key::IterKind;
use mx_msgpack::{Bytes, Tuples};
use std::alloc::{AllocError, Global};

/// Where the tuples are that the entries of a scan lead to.
#[derive(Clone, Copy, Drop)]
pub(crate) enum Source<'a> {
    /// In the entries.
    Entries,
    /// Among these, under the primary keys that the entries of an index have.
    Tuples {
        alloc: Global,
        tuples: &'a TupleMap,
        unique: bool,
    },
}

impl<'a> Source<'a> {
    /// An entry's key, without the primary key that follows it in a unique index, and the entry's tuple.
    pub(crate) fn row(
        self,
        key: &'a Bytes,
        value: &'a [u8],
    ) -> Result<(&'a [u8], &'a [u8]), AllocError>
        ensures { IfOk result (λ row. (row.0.now, row.1.now) ≡ row_of self.entry (key.now, value.now)) }
    {
        match self {
            Source::Entries => Ok((key.as_slice(), value)),
            Source::Tuples {
                alloc,
                tuples,
                unique,
            } => Ok((
                key_in_index(unique, key.as_slice(), value),
                tuple_stored(alloc, tuples, value)?,
            )),
        }
    }
}

/// The key of an entry in an index: in a unique one it is without the primary key that follows it.
fn key_in_index<'a>(unique: bool, key: &'a [u8], primary: &[u8]) -> &'a [u8]
    ensures { result.now ≡ key_in_index unique key.now primary.now }
{
    if !unique {
        return key;
    }
    let (key, _) = key.split_at(key.len().saturating_sub(primary.len()));
    key
}

/// The tuple under a primary key; no bytes where there is none.
pub(crate) fn tuple_stored<'a>(
    alloc: Global,
    tuples: &'a TupleMap,
    primary: &[u8],
) -> Result<&'a [u8], AllocError>
    ensures { IfOk result (λ tuple. tuple.now ≡ tuple_stored tuples.now.entries primary.now) }
{
    let primary = Bytes::from_slice(alloc, primary)?;
    match tuples.get(&primary) {
        Some(tuple) => Ok(tuple.as_slice()),
        None => Ok(&[]),
    }
}

/// Copies the tuples of at most so many entries, and gives the key of the last one.
pub(crate) fn collect<'a>(
    entries: &mut Scan<'a>,
    down: bool,
    source: Source<'a>,
    limit: u32,
    tuples: &mut Tuples,
) -> Result<Option<&'a [u8]>, SelectStop>
    requires { tuples.old ≡ [] }
    ensures { MatchResult result
        (λ last. IsCollected tuples.new (take limit (map (row_of source.entry) (directed down entries.old))) (option_map (λ key. key.now) last))
        (λ stop. IsStopped stop (take limit (map (row_of source.entry) (directed down entries.old)))) }
{
    let mut last = None;
    let mut bytes = 0;
    let mut left = limit;
    while left > 0 {
        let Some((key, value)) = entries.next(down) else {
            return Ok(last);
        };
        let (key, tuple) = source.row(key, value)?;
        bytes = result_size(bytes, tuple.len())?;
        tuples.push(tuple)?;
        last = Some(key);
        left -= 1;
    }
    Ok(last)
}

/// As `collect`, of a key with its tuple, if there is one, that the offset may skip.
pub(crate) fn collect_one<'a>(
    row: Option<(&'a [u8], &'a [u8])>,
    offset: u32,
    tuples: &mut Tuples,
) -> Result<Option<&'a [u8]>, SelectStop>
    requires { tuples.old ≡ [] }
    ensures { MatchResult result
        (λ last. IsCollected tuples.new (one_found offset (option_map (λ one. (one.0.now, one.1.now)) row.entry)) (option_map (λ key. key.now) last))
        (λ stop. IsStopped stop (one_found offset (option_map (λ one. (one.0.now, one.1.now)) row.entry))) }
{
    let Some((key, tuple)) = row else {
        return Ok(None);
    };
    if offset > 0 {
        return Ok(None);
    }
    result_size(0, tuple.len())?;
    tuples.push(tuple)?;
    Ok(Some(key))
}

pub(crate) fn result_size(bytes: usize, more: usize) -> Result<usize, SelectStop>
    requires { bytes ≤ max_result_size }
    ensures { MatchResult result
        (λ size. (size ≡ bytes + more) × (size ≤ max_result_size))
        (λ stop. (stop ≡ TooLong) × (max_result_size < bytes + more)) }
{
    if more > MAX_RESULT_SIZE - bytes {
        return Err(SelectStop::TooLong);
    }
    Ok(bytes + more)
}
