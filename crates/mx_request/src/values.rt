//! The values that keys of requests take.

ghost use Rattle.std.specs.Prelude.{◌≡◌, ◌≤◌, IfSome, replicate};
ghost use Rattle.std.specs.Option.{option_copied};
ghost use Rattle.mx_vclock.specs.Vclocks.{replicas};
ghost use Rattle.mx_msgpack.specs.Items.{IsOneValue};
ghost use Rattle.mx_msgpack.specs.Maps.{pairs_from};
ghost use Rattle.mx_request.specs.Values.{array_in, vclock_from, vclock_in, number_to, uuid_in};
ghost use Rattle.mx_msgpack.specs.Readers.{unsigned_in};

use mx_msgpack::{PairsRef, ValueRef, first_pair, is_array, read_ref, unsigned_in};
use mx_vclock::{MAX_LSN, Vclock};
use uuid::Uuid;

/// How many replica ids there are.
const REPLICAS: u64 = mx_vclock::REPLICAS as u64;

/// How many bytes the hyphenated text of a UUID has.
const UUID_TEXT: usize = 36;

#[inline(always)]
pub(crate) fn number_to(most: u64, value: &[u8]) -> Option<u64>
    ensures value { result ≡ number_to most value.now }
    ensures most { IfSome result (λ number. number ≤ most) }
{
    let number = unsigned_in(value)?;
    if number > most {
        return None;
    }
    Some(number)
}

#[inline(always)]
pub(crate) fn array_in(value: &[u8]) -> Option<&[u8]>
    requires { IsOneValue value.now }
    ensures { option_copied result ≡ array_in value.now }
{
    if is_array(value) { Some(value) } else { None }
}

/// The UUID whose text stands first: with its hyphens, in letters of either case.
pub(crate) fn uuid_in(value: &[u8]) -> Option<Uuid>
    ensures { result ≡ uuid_in value.now }
{
    match read_ref(value) {
        Ok((ValueRef::Str(text), _)) if text.len() == UUID_TEXT => {
            Uuid::try_parse_ascii(text).ok()
        }
        _ => None,
    }
}

pub(crate) fn vclock_in(value: &[u8]) -> Option<Vclock>
    ensures { result ≡ vclock_in value.now }
{
    match read_ref(value) {
        Ok((ValueRef::Map { count, items }, _)) => vclock_from(PairsRef {
            count,
            bytes: items,
        }),
        _ => None,
    }
}

/// Of an id that comes more than once the last lsn counts.
fn vclock_from(pairs: PairsRef<'_>) -> Option<Vclock>
    ensures { result ≡ vclock_from (replicate replicas 0) (pairs_from pairs.entry.count pairs.entry.bytes.now) }
{
    let mut clock = Vclock::new();
    let mut left = pairs.count;
    let mut rest = pairs.bytes;
    while left > 0 {
        let (pair, others) = first_pair(rest);
        let id = pair.key?;
        let lsn = number_to(MAX_LSN, pair.value)?;
        if id >= REPLICAS {
            return None;
        }
        clock.set(id as u8, lsn);
        rest = others;
        left -= 1;
    }
    Some(clock)
}
