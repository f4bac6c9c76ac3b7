//! The entry of a whole key.

ghost use Rattle.std.specs.Prelude.{◌≡◌, ◌≢◌, ◌++◌, IfSome, MatchOption};
ghost use Rattle.std.specs.Option.{option_map};
ghost use Rattle.mx_entries.specs.Entries.{LeadsTo};

use crate::index::Index;
use crate::tree_index::TreeIndex;
use mx_msgpack::Bytes;

/// The entry of a key that has all parts, in a unique index: the key, and the primary key behind it.
pub(crate) fn whole_entry<'a>(index: &'a TreeIndex, key: &Bytes) -> Option<(&'a [u8], &'a [u8])>
    ensures key { IfSome result (λ entry. entry.0.now ≡ key.now) }
    ensures primary { LeadsTo key.now index.now (option_map (λ entry. entry.1.now) result) }
{
    let (entry, primary) = index.first_from(key)?;
    let own = front_if_joined(entry, key.as_slice(), primary)?;
    Some((own, primary))
}

/// The front of the bytes, where they are the first and then the second.
fn front_if_joined<'a>(whole: &'a [u8], first: &[u8], second: &[u8]) -> Option<&'a [u8]>
    ensures { MatchOption result
        (whole.now ≢ first.now ++ second.now)
        (λ front. (front.now ≡ first.now) × (whole.now ≡ first.now ++ second.now)) }
{
    if whole.len() < first.len() {
        return None;
    }
    let (front, rest) = whole.split_at(first.len());
    if front != first {
        return None;
    }
    if rest != second {
        return None;
    }
    Some(front)
}
