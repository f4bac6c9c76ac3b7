//! Tuples in one list, which is scanned.

ghost use Rattle.std.specs.Prelude.{◌≡◌, ◌<◌, ◌++◌, suc, take, drop, length, IfOk, IfSome, MatchOption};
ghost use Rattle.std.specs.BTreeMap.{is_at};
ghost use Rattle.std.specs.Cmp.Lexicographic.{slice_cmp};
ghost use Rattle.std.specs.Map.{lookup, remove_entry};
ghost use Rattle.std.specs.Option.{option_copied, option_map};
ghost use Rattle.std.specs.Ordering.{nat_cmp};
ghost use Rattle.mx_schema.specs.Stored.{stored_list};

use mx_msgpack::Bytes;
use mx_schema::Keyed;
use std::alloc::{AllocError, Global};

/// The tuple that has the key of these comparable bytes.
pub fn find<'a>(kept: &'a [Keyed], key: &Bytes) -> Option<&'a Keyed>
    ensures tuple { option_map (λ one. one.tuple) (option_copied result) ≡ lookup (is_at (slice_cmp nat_cmp key.now)) (stored_list kept.now) }
    ensures key { IfSome (option_copied result) (λ one. one.key ≡ key.now) }
{
    for one in kept {
        if *key == one.key {
            return Some(one);
        }
    }
    None
}

/// A copy of a tuple, where there is one.
pub(crate) fn copy_tuple(alloc: Global, found: Option<&Keyed>) -> Result<Option<Bytes>, AllocError>
    ensures { IfOk result (λ copy. copy ≡ option_map (λ one. one.tuple) (option_copied found.entry)) }
{
    match found {
        Some(one) => Ok(Some(Bytes::from_slice(alloc, one.tuple.as_slice())?)),
        None => Ok(None),
    }
}

/// Takes the tuple that has the key of these comparable bytes out of a list.
pub(crate) fn take_out(kept: &mut Vec<Keyed>, key: &Bytes)
    ensures { stored_list kept.new.items ≡ remove_entry (is_at (slice_cmp nat_cmp key.now)) (stored_list kept.old.items) }
{
    if let Some(place) = place_with(kept, key) {
        kept.remove(place);
    }
}

/// The place of the tuple that has the key of these comparable bytes.
fn place_with(kept: &[Keyed], key: &Bytes) -> Option<usize>
    ensures { MatchOption result
        (remove_entry (is_at (slice_cmp nat_cmp key.now)) (stored_list kept.now) ≡ stored_list kept.now)
        (λ place. (place < length kept.now)
        × (remove_entry (is_at (slice_cmp nat_cmp key.now)) (stored_list kept.now) ≡ stored_list (take place kept.now) ++ stored_list (drop (suc place) kept.now))) }
{
    let mut place = 0;
    for one in kept {
        if *key == one.key {
            return Some(place);
        }
        place += 1;
    }
    None
}
