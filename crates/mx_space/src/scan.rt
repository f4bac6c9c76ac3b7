//! Entries in a range of keys.

ghost use Rattle.std.specs.Prelude.{◌≡◌, ◌<◌, ◌∷◌, [], drop, MatchOption};
ghost use Rattle.std.specs.BTreeMap.Range.{IsLeBy, IsLtBy};
ghost use Rattle.std.specs.Cmp.Lexicographic.{slice_cmp};
ghost use Rattle.std.specs.List.{filter};
ghost use Rattle.std.specs.Ordering.{nat_cmp};
ghost use Rattle.std.specs.Range.Bound.{IsForward};
ghost use Rattle.mx_key.specs.Comparable.{bound_of, holds};
ghost use Rattle.mx_schema.specs.Picks.{directed};
ghost use Rattle.mx_entries.specs.Entries.{entries_split};

use crate::scan_range::ScanRange;
use mx_key::KeyRange;
use mx_msgpack::Bytes;
use std::collections::BTreeMap;
use std::collections::btree_map::Range;
use std::marker::Model;

/// The entries of an index in a range of keys, or tuples under their primary keys, from either end.
#[derive(Drop)]
pub struct Scan<'a> {
    range: ScanRange<'a>,
}

impl<'a> Model for Scan<'a> {
    ghost use Rattle.std.specs.Prelude.{List};
    ghost use Rattle.mx_entries.specs.Entries.{IndexEntry};
    ghost use Rattle.mx_space.specs.ScanRanges.{entries_scanned};

    ghost Value = { List IndexEntry };

    ghost view = { λ s. entries_scanned s.range };
}

impl<'a> Scan<'a> {
    /// The tuples whose primary keys lie in a range.
    pub(crate) fn of_tuples(tuples: &'a BTreeMap<Bytes, Bytes>, range: &KeyRange) -> Scan<'a>
        requires { IsForward (IsLeBy (slice_cmp nat_cmp)) (IsLtBy (slice_cmp nat_cmp)) (bound_of range.now.low) (bound_of range.now.high) }
        ensures { result ≡ filter (λ entry. holds range.now entry.0) tuples.now.entries }
    {
        Scan {
            range: ScanRange::Tuples(tuples.range((range.low_bound(), range.high_bound()))),
        }
    }

    /// The entries of an index, which are kept with the places in their keys where the primary keys begin.
    pub(crate) fn of_index(begins: &'a BTreeMap<Bytes, u32>, range: &KeyRange) -> Scan<'a>
        requires { IsForward (IsLeBy (slice_cmp nat_cmp)) (IsLtBy (slice_cmp nat_cmp)) (bound_of range.now.low) (bound_of range.now.high) }
        ensures { result ≡ filter (λ entry. holds range.now entry.0) (entries_split begins.now.entries) }
    {
        Scan {
            range: ScanRange::Index(begins.range((range.low_bound(), range.high_bound()))),
        }
    }

    /// The key of the next entry in a direction, and its primary key or tuple.
    pub(crate) fn next(&mut self, down: bool) -> Option<(&'a Bytes, &'a [u8])>
        ensures { MatchOption result
            ((directed down self.old ≡ []) × (directed down self.new ≡ []))
            (λ entry. directed down self.old ≡ (entry.0.now, entry.1.now) ∷ directed down self.new) }
    {
        match &mut self.range {
            ScanRange::Tuples(tuples) => {
                let (key, tuple) = step(tuples, down)?;
                Some((key, tuple.as_slice()))
            }
            ScanRange::Index(begins) => step_in_index(begins, down),
        }
    }

    pub(crate) fn pass_over(&mut self, down: bool, count: u32)
        ensures { directed down self.new ≡ drop count (directed down self.old) }
    {
        let mut left = count;
        while left > 0 {
            if self.next(down).is_none() {
                return;
            }
            left -= 1;
        }
    }
}

fn step<'a, V>(entries: &mut Range<'a, Bytes, V>, down: bool) -> Option<(&'a Bytes, &'a V)>
    ensures { MatchOption result
        ((directed down entries.old ≡ []) × (directed down entries.new ≡ []))
        (λ entry. directed down entries.old ≡ (entry.0.now, entry.1.now) ∷ directed down entries.new) }
{
    if down {
        entries.next_back()
    } else {
        entries.next()
    }
}

fn step_in_index<'a>(
    begins: &mut Range<'a, Bytes, u32>,
    down: bool,
) -> Option<(&'a Bytes, &'a [u8])>
    ensures { MatchOption result
        ((directed down (entries_split begins.old) ≡ []) × (directed down (entries_split begins.new) ≡ []))
        (λ entry. directed down (entries_split begins.old) ≡ (entry.0.now, entry.1.now) ∷ directed down (entries_split begins.new)) }
{
    match step(begins, down) {
        Some((key, begin)) => Some((key, behind(key, *begin))),
        None => None,
    }
}

/// The bytes of a key from a place on.
pub(crate) fn behind(key: &Bytes, begin: u32) -> &[u8]
    ensures { result.now ≡ drop begin key.now }
{
    let key = key.as_slice();
    let (_, rest) = key.split_at(key.len().min(begin as usize));
    rest
}
