//! Reading the text of a vclock.

ghost use Rattle.std.specs.Prelude.{◌≡◌, MatchResult};
ghost use Rattle.mx_vclock.specs.Text.{vclock_text, IsFaultAt};

use crate::place::{Place, next_place};
use crate::vclock::{REPLICAS, Vclock};
use thiserror::Error;

/// The place, counted from 0, of the first byte after which no text of a vclock goes on.
#[derive(Clone, Copy, Debug, Drop, PartialEq, Eq, Error)]
#[error("no vclock goes on with the byte at {at}")]
pub struct BadText {
    /// The byte's place, or the length of bytes that only stop too soon.
    pub at: usize,
}

impl Vclock {
    /// The vclock whose text the bytes are.
    ///
    /// # Errors
    /// The bytes are no vclock's text.
    pub fn read_text(bytes: &[u8]) -> Result<Vclock, BadText>
        ensures { MatchResult result (λ clock. bytes.now ≡ vclock_text clock) (λ bad. IsFaultAt bytes.now bad.at) }
    {
        let mut lsns = [0; REPLICAS];
        let mut place = Place::Start;
        for (at, byte) in bytes.iter().enumerate() {
            let Some(next) = next_place(place, *byte) else {
                return Err(BadText { at });
            };
            if let Place::Lsn { id, lsn } = next {
                lsns[id] = lsn;
            }
            place = next;
        }
        match place {
            Place::Done => Ok(Vclock { lsns }),
            _ => Err(BadText { at: bytes.len() }),
        }
    }
}
