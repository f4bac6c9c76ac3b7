//! What a SELECT picks of the entries that a view shows.

ghost use Rattle.std.specs.Prelude.{◌≡◌, List, [], map, take, MatchResult};
ghost use Rattle.std.specs.List.{filter};
ghost use Rattle.std.specs.Option.{option_map};
ghost use Rattle.mx_key.specs.Comparable.{edges_of, holds};
ghost use Rattle.mx_key.specs.Keys.{Key, AreFit};
ghost use Rattle.mx_key.specs.Ranges.{descends, range_of};
ghost use Rattle.mx_schema.specs.Picks.{Indexed, directed};
ghost use Rattle.mx_schema.specs.Stored.{stored_tuple};
ghost use Rattle.mx_entries.specs.Scans.{Selects};
ghost use Rattle.mx_entries.specs.Windows.{AreFitEntries, IsCollected, IsStopped, keys_read};
ghost use Rattle.mx_space.specs.ShownRows.{rows_left};

use crate::pick::result_size;
use crate::selection::read_to;
use crate::shown_rows::ShownRows;
use mx_entries::{Pick, SelectStop};
use mx_key::KeyRange;
use mx_msgpack::Tuples;
use std::alloc::Global;

/// As `select_entries`, of the rows in the range of a key.
pub(crate) fn select_rows(
    alloc: Global,
    mut rows: ShownRows<'_>,
    range: &mut KeyRange,
    wanted: &Pick<'_>,
    found: &mut Tuples,
) -> Result<bool, SelectStop>
    ensures { (all : List Indexed) (key : Key) → AreFitEntries all → AreFit key → range.old ≡ edges_of (range_of wanted.now.iterator key)
        → rows_left rows.entry ≡ directed (descends wanted.now.iterator) (filter (λ entry. holds range.old entry.0) (map stored_tuple all))
        → Selects all wanted.now key found.new (keys_read result range.new) }
{
    found.clear();
    if wanted.limit == 0 {
        return Ok(false);
    }
    rows.pass_over(wanted.offset)?;
    let last = collect_shown(&mut rows, wanted.limit, found)?;
    read_to(alloc, range, wanted, found, last)?;
    Ok(true)
}

/// Copies the tuples of at most so many rows, and gives the key of the last one.
fn collect_shown<'a>(
    rows: &mut ShownRows<'a>,
    limit: u32,
    tuples: &mut Tuples,
) -> Result<Option<&'a [u8]>, SelectStop>
    requires { tuples.old ≡ [] }
    ensures { MatchResult result
        (λ last. IsCollected tuples.new (take limit (rows_left rows.old)) (option_map (λ key. key.now) last))
        (λ stop. IsStopped stop (take limit (rows_left rows.old))) }
{
    let mut last = None;
    let mut bytes = 0;
    let mut left = limit;
    while left > 0 {
        let Some((key, tuple)) = rows.next()? else {
            return Ok(last);
        };
        bytes = result_size(bytes, tuple.len())?;
        tuples.push(tuple)?;
        last = Some(key);
        left -= 1;
    }
    Ok(last)
}
