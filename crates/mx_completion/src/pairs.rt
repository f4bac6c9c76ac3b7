//! The pairs of a map that more bytes may follow.

ghost use Rattle.std.specs.Prelude.{◌≡◌, ◌<◌, ℕ, List, ◌++◌, MatchBool};
ghost use Rattle.std.specs.Option.{option_copied, option_map};
ghost use Rattle.mx_msgpack.specs.Maps.{pairs_from, value_under};
ghost use Rattle.mx_completion.specs.Choices.{BecomesContent, BeginsMapAs, IsNextPair, cut_under};
ghost use Rattle.mx_completion.specs.Completions.{IsValueSpelling};
ghost use Rattle.mx_completion.specs.Numbers.{CanBecome};

use crate::completion::Completion;
use crate::number::number_range;
use crate::value::value_completion;
use mx_msgpack::{first_pair, unsigned_in};

/// How many containers may stand one inside the other in a key or a value: the map is one of 64.
pub(crate) const ROOM_INSIDE: usize = 63;

/// A map that bytes begin: its pairs that stand whole, and what may follow them.
#[derive(Clone, Copy, Drop)]
pub(crate) struct Begun<'a> {
    /// How many pairs stand whole, and from where on.
    pub(crate) count: usize,
    pub(crate) pairs: &'a [u8],
    /// A key, and the bytes that its value begins with and that end inside it.
    pub(crate) cut: Option<(u64, &'a [u8])>,
    /// How many pairs of any keys and values may follow.
    pub(crate) free: usize,
}

/// What stands where a pair of a map begins, or is to.
#[derive(Clone, Copy, Drop)]
enum Next<'a> {
    /// A whole pair, before these bytes.
    Whole { rest: &'a [u8] },
    /// The bytes end inside the key, which may become any number below 0x80, or none.
    InKey { any: bool },
    /// The bytes end inside the value, which begins with these.
    InValue { key: Option<u64>, begun: &'a [u8] },
    /// No pair, whatever bytes follow.
    Never,
}

/// So many pairs, after the head.
pub(crate) fn begun_pairs(count: usize, pairs: &[u8]) -> Option<Begun<'_>>
    ensures { (fields : ℕ) → BeginsMapAs fields (BecomesContent count pairs.now) result }
{
    let mut rest = pairs;
    for passed in 0..count {
        let free = count - passed;
        match next_pair(rest) {
            Next::Whole { rest: others } => rest = others,
            Next::InKey { any } => {
                return Some(Begun {
                    count: passed,
                    pairs,
                    cut: None,
                    free: if any { free } else { free - 1 },
                });
            }
            Next::InValue { key, begun } => {
                return Some(Begun {
                    count: passed,
                    pairs,
                    cut: cut_of(key, begun),
                    free: free - 1,
                });
            }
            Next::Never => return None,
        }
    }
    None
}

fn cut_of(key: Option<u64>, begun: &[u8]) -> Option<(u64, &[u8])>
    ensures { option_map (λ cut. (cut.0, cut.1.now)) result ≡ cut_under begun.now key }
{
    Some((key?, begun))
}

fn next_pair(bytes: &[u8]) -> Next<'_>
    ensures { IsNextPair bytes.now result }
{
    match value_completion(ROOM_INSIDE, bytes) {
        Completion::Whole { size } => {
            let (key, behind) = bytes.split_at(size);
            next_value(key, behind)
        }
        Completion::Missing { .. } => Next::InKey {
            any: any_key(bytes),
        },
        Completion::Impossible => Next::Never,
    }
}

/// Whether the bytes, which end inside a key, can become a number below 0x80, and so any such number.
fn any_key(bytes: &[u8]) -> bool
    ensures { MatchBool result ((number : ℕ) × (number < 0x80) × CanBecome bytes.now number) ((number : ℕ) → number < 0x80 → ¬ CanBecome bytes.now number) }
{
    match number_range(bytes) {
        Some(range) => range.least < 0x80,
        None => false,
    }
}

/// As `next_pair`, after a key.
fn next_value<'a>(key: &[u8], behind: &'a [u8]) -> Next<'a>
    requires { IsValueSpelling 63 key.now }
    ensures { (bytes : List ℕ) → bytes ≡ key.now ++ behind.now → IsNextPair bytes result }
{
    match value_completion(ROOM_INSIDE, behind) {
        Completion::Whole { size } => Next::Whole {
            rest: behind.split_at(size).1,
        },
        Completion::Missing { .. } => Next::InValue {
            key: unsigned_in(key),
            begun: behind,
        },
        Completion::Impossible => Next::Never,
    }
}

/// Of a key that comes more than once the last pair counts.
pub(crate) fn last_value(key: u8, count: usize, pairs: &[u8]) -> Option<&[u8]>
    ensures { option_copied result ≡ value_under key (pairs_from count pairs.now) }
{
    let mut found = None;
    let mut rest = pairs;
    for _ in 0..count {
        let (pair, others) = first_pair(rest);
        if pair.key == Some(u64::from(key)) {
            found = Some(pair.value);
        }
        rest = others;
    }
    found
}
