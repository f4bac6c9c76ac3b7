//! The entries of an index that a view shows.

ghost use Rattle.std.specs.Prelude.{◌≡◌, ◌∷◌, ◌++◌, [], drop, None, if◌then◌else◌, IfOk, MatchOption, OnOk};
ghost use Rattle.std.specs.List.{filter};
ghost use Rattle.std.specs.Option.{option_map, option_to_list};
ghost use Rattle.mx_schema.specs.Picks.{directed};
ghost use Rattle.mx_space.specs.Overlays.{hides};
ghost use Rattle.mx_entries.specs.MergedRows.{is_before};
ghost use Rattle.mx_space.specs.ShownRows.{is_shown, rows_left};

use crate::overlay::OverlaidSpace;
use crate::pick::Source;
use crate::scan::Scan;
use mx_msgpack::Bytes;
use std::alloc::{AllocError, Global};
use std::cmp::Ord;

/// The entries of an index in one direction: those of a space whose tuples the transaction didn't write, and
/// among them the transaction's own.
#[derive(Drop)]
pub(crate) struct ShownRows<'a> {
    pub(crate) alloc: Global,
    pub(crate) over: &'a OverlaidSpace,
    /// Whether it is the index of the number 0, whose entries are the tuples.
    pub(crate) is_first: bool,
    pub(crate) down: bool,
    pub(crate) stored: Scan<'a>,
    pub(crate) own: Scan<'a>,
    /// A stored entry that was read before its turn.
    pub(crate) held_stored: Option<(&'a Bytes, &'a [u8])>,
    /// An own entry that was read before its turn.
    pub(crate) held_own: Option<(&'a Bytes, &'a [u8])>,
    pub(crate) stored_source: Source<'a>,
    pub(crate) own_source: Source<'a>,
}

impl<'a> ShownRows<'a> {
    /// The key of the next entry in the index, and its tuple.
    pub(crate) fn next(&mut self) -> Result<Option<(&'a [u8], &'a [u8])>, AllocError>
        ensures { IfOk result (λ found. MatchOption found
            ((rows_left self.old ≡ []) × (rows_left self.new ≡ []))
            (λ row. rows_left self.old ≡ (row.0.now, row.1.now) ∷ rows_left self.new)) }
    {
        let stored = next_stored(
            self.alloc,
            &mut self.held_stored,
            &mut self.stored,
            self.down,
            self.over,
            self.is_first,
        )?;
        let own = next_own(&mut self.held_own, &mut self.own, self.down);
        let Some((key, value)) = stored else {
            let Some((key, value)) = own else {
                return Ok(None);
            };
            return Ok(Some(self.own_source.row(key, value)?));
        };
        let Some((own_key, own_value)) = own else {
            return Ok(Some(self.stored_source.row(key, value)?));
        };
        if is_before(self.down, own_key, key) {
            self.held_stored = Some((key, value));
            return Ok(Some(self.own_source.row(own_key, own_value)?));
        }
        self.held_own = Some((own_key, own_value));
        Ok(Some(self.stored_source.row(key, value)?))
    }

    pub(crate) fn pass_over(&mut self, count: u32) -> Result<(), AllocError>
        ensures { OnOk result (rows_left self.new ≡ drop count (rows_left self.old)) }
    {
        let mut left = count;
        while left > 0 {
            if self.next()?.is_none() {
                return Ok(());
            }
            left -= 1;
        }
        Ok(())
    }
}

fn next_stored<'a>(
    alloc: Global,
    held: &mut Option<(&'a Bytes, &'a [u8])>,
    entries: &mut Scan<'a>,
    down: bool,
    over: &OverlaidSpace,
    is_first: bool,
) -> Result<Option<(&'a Bytes, &'a [u8])>, AllocError>
    ensures { IfOk result (λ found. MatchOption found
        ((option_to_list (option_map (λ entry. (entry.0.now, entry.1.now)) held.old) ++ filter (is_shown over.now is_first) (directed down entries.old) ≡ [])
        × (option_to_list (option_map (λ entry. (entry.0.now, entry.1.now)) held.new) ++ filter (is_shown over.now is_first) (directed down entries.new) ≡ []))
        (λ one. (option_to_list (option_map (λ entry. (entry.0.now, entry.1.now)) held.old) ++ filter (is_shown over.now is_first) (directed down entries.old)
        ≡ (one.0.now, one.1.now) ∷ filter (is_shown over.now is_first) (directed down entries.new)) × (held.new ≡ None))) }
{
    if let Some(entry) = held.take() {
        return Ok(Some(entry));
    }
    next_shown(alloc, entries, down, over, is_first)
}

fn next_own<'a>(
    held: &mut Option<(&'a Bytes, &'a [u8])>,
    entries: &mut Scan<'a>,
    down: bool,
) -> Option<(&'a Bytes, &'a [u8])>
    ensures { MatchOption result
        ((option_to_list (option_map (λ entry. (entry.0.now, entry.1.now)) held.old) ++ directed down entries.old ≡ [])
        × (option_to_list (option_map (λ entry. (entry.0.now, entry.1.now)) held.new) ++ directed down entries.new ≡ []))
        (λ one. (option_to_list (option_map (λ entry. (entry.0.now, entry.1.now)) held.old) ++ directed down entries.old
        ≡ (one.0.now, one.1.now) ∷ directed down entries.new) × (held.new ≡ None)) }
{
    if let Some(entry) = held.take() {
        return Some(entry);
    }
    entries.next(down)
}

/// The next entry whose tuple the transaction didn't write.
fn next_shown<'a>(
    alloc: Global,
    entries: &mut Scan<'a>,
    down: bool,
    over: &OverlaidSpace,
    is_first: bool,
) -> Result<Option<(&'a Bytes, &'a [u8])>, AllocError>
    ensures { IfOk result (λ found. MatchOption found
        ((filter (is_shown over.now is_first) (directed down entries.old) ≡ []) × (filter (is_shown over.now is_first) (directed down entries.new) ≡ []))
        (λ one. filter (is_shown over.now is_first) (directed down entries.old) ≡ (one.0.now, one.1.now) ∷ filter (is_shown over.now is_first) (directed down entries.new))) }
{
    while let Some((key, value)) = entries.next(down) {
        if !is_hidden(alloc, over, is_first, key, value)? {
            return Ok(Some((key, value)));
        }
    }
    Ok(None)
}

/// Whether the transaction wrote the tuple that an entry leads to.
fn is_hidden(
    alloc: Global,
    over: &OverlaidSpace,
    is_first: bool,
    key: &Bytes,
    value: &[u8],
) -> Result<bool, AllocError>
    ensures { IfOk result (λ is. is ≡ hides over.now (if is_first then key.now else value.now)) }
{
    if is_first {
        return Ok(over.hides(key));
    }
    let primary = Bytes::from_slice(alloc, value)?;
    Ok(over.hides(&primary))
}

fn is_before(down: bool, one: &Bytes, other: &Bytes) -> bool
    ensures { result ≡ is_before down one.now other.now }
{
    if down {
        other.cmp(one).is_lt()
    } else {
        one.cmp(other).is_lt()
    }
}
