//! Maps whose keys are texts, in place: the values under several keys, in one pass.

ghost use Rattle.std.specs.Prelude.{◌≡◌, ℕ, suc, ◌∷◌, map, length};
ghost use Rattle.std.specs.Option.{option_copied};
ghost use Rattle.mx_schema.specs.Lookups.{noted_text};
ghost use Rattle.mx_schema.specs.TextMaps.{text_pairs_from, value_of_key};

use crate::names::is_text;
use mx_msgpack::{PairsRef, parted, text_in};

/// A pair of a map.
#[derive(Clone, Copy)]
struct TextPairRef<'a> {
    /// The key, where it is a text.
    key: Option<&'a [u8]>,
    /// The value's spelling.
    value: &'a [u8],
}

/// The values of these keys, each put into its key's place, in one pass over the pairs. Of a key that
/// comes more than once the last value counts.
pub(crate) fn values_of<'a>(keys: &[&[u8]], pairs: PairsRef<'a>, values: &mut [Option<&'a [u8]>])
    requires { map option_copied values.old ≡ map (λ key. None) keys.now }
    ensures { map option_copied values.new
        ≡ map (λ key. value_of_key key (text_pairs_from pairs.entry.count pairs.entry.bytes.now)) (map (λ key. key.now) keys.now) }
{
    let mut left = pairs.count;
    let mut rest = pairs.bytes;
    while left > 0 {
        let (pair, others) = first_pair(rest);
        if let Some(key) = pair.key {
            note(keys, key, pair.value, values);
        }
        rest = others;
        left -= 1;
    }
}

/// The pair that stands first, and the bytes after it.
fn first_pair(bytes: &[u8]) -> (TextPairRef<'_>, &[u8])
    ensures { (others : ℕ) → text_pairs_from (suc others) bytes.now
        ≡ record { key = option_copied result.0.key; value = result.0.value.now } ∷ text_pairs_from others result.1.now }
{
    let (_, behind) = parted(bytes);
    let (value, rest) = parted(behind);
    let key = text_in(bytes);
    (TextPairRef { key, value }, rest)
}

fn note<'a>(keys: &[&[u8]], key: &[u8], value: &'a [u8], values: &mut [Option<&'a [u8]>])
    requires { length values.old ≡ length keys.now }
    ensures { map option_copied values.new ≡ noted_text key.now value.now (map (λ wanted. wanted.now) keys.now) (map option_copied values.old) }
{
    for (place, wanted) in keys.iter().enumerate() {
        if is_text(key, wanted) {
            values[place] = Some(value);
        }
    }
}
