//! The places of a reader of a vclock's text, and the steps between them.

ghost use Rattle.std.specs.Prelude.{◌≡◌};
ghost use Rattle.mx_vclock.specs.Places.{next_place, after_id, after_lsn, id_place, digit, place_if, greatest_id_from};

use crate::vclock::{MAX_LSN, REPLICAS};

/// The greatest replica id.
const MAX_ID: usize = REPLICAS - 1;

/// What was read last of a vclock's text.
#[derive(Clone, Copy, Drop, PartialEq, Eq)]
pub(crate) enum Place {
    /// Nothing.
    Start,
    /// The `{`.
    Open,
    /// The comma after an lsn. The next id is this one at least.
    Comma(usize),
    /// The blank after a comma. The next id is this one at least.
    Next(usize),
    /// The first digits of an id of `least` at least. Their value is `id`.
    Id { least: usize, id: usize },
    /// The colon after this id.
    Colon(usize),
    /// The blank after this id's colon.
    Named(usize),
    /// The first digits of the id's lsn. Their value is `lsn`.
    Lsn { id: usize, lsn: u64 },
    /// The `}`.
    Done,
}

#[tactic(auto, unfolding(crate::specs::Places::next_place))]
pub(crate) fn next_place(place: Place, byte: u8) -> Option<Place>
    ensures { result ≡ next_place place byte }
{
    match place {
        Place::Start => place_if(b'{', byte, Place::Open),
        Place::Open => {
            if byte == b'}' {
                return Some(Place::Done);
            }
            id_place(0, usize::from(digit(byte)?))
        }
        Place::Comma(least) => place_if(b' ', byte, Place::Next(least)),
        Place::Next(least) => id_place(least, usize::from(digit(byte)?)),
        Place::Id { least, id } => after_id(least, id, byte),
        Place::Colon(id) => place_if(b' ', byte, Place::Named(id)),
        Place::Named(id) => {
            if byte == b'0' {
                return None;
            }
            Some(Place::Lsn {
                id,
                lsn: u64::from(digit(byte)?),
            })
        }
        Place::Lsn { id, lsn } => after_lsn(id, lsn, byte),
        Place::Done => None,
    }
}

fn place_if(wanted: u8, byte: u8, next: Place) -> Option<Place>
    ensures { result ≡ place_if wanted byte next }
{
    if byte == wanted { Some(next) } else { None }
}

fn digit(byte: u8) -> Option<u8>
    ensures { result ≡ digit byte }
{
    match byte {
        b'0'..=b'9' => Some(byte - b'0'),
        _ => None,
    }
}

fn id_place(least: usize, id: usize) -> Option<Place>
    ensures { result ≡ id_place least id }
{
    if id > MAX_ID || greatest_id_from(id) < least {
        return None;
    }
    Some(Place::Id { least, id })
}

fn greatest_id_from(id: usize) -> usize
    ensures { result ≡ greatest_id_from id }
{
    match id {
        1..=3 => 10 * id + 9,
        _ => id,
    }
}

fn after_id(least: usize, id: usize, byte: u8) -> Option<Place>
    ensures { result ≡ after_id least id byte }
{
    match id {
        _ if byte == b':' && id >= least => Some(Place::Colon(id)),
        1..=3 => id_place(least, 10 * id + usize::from(digit(byte)?)),
        _ => None,
    }
}

fn after_lsn(id: usize, lsn: u64, byte: u8) -> Option<Place>
    ensures { result ≡ after_lsn id lsn byte }
{
    match byte {
        b',' if id < MAX_ID => Some(Place::Comma(id + 1)),
        b'}' => Some(Place::Done),
        _ => {
            let digit = u64::from(digit(byte)?);
            if lsn > MAX_LSN / 10 || 10 * lsn + digit > MAX_LSN {
                return None;
            }
            Some(Place::Lsn {
                id,
                lsn: 10 * lsn + digit,
            })
        }
    }
}
