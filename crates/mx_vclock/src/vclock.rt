//! The vclock, whose model is the list of its 32 lsns.

ghost use Rattle.std.specs.Prelude.{◌≡◌, ◌<◌, ◌≤◌, length, IsTrue, ◌↔◌, MatchResult, sum, replicate, slice_index, slice_set};
ghost use Rattle.mx_vclock.specs.Vclocks.{replicas, max_lsn, Covers, IsNext, Compares};

use crate::gap::Gap;
use std::cmp::Ordering;
use std::marker::Model;

/// How many replica ids there are.
pub const REPLICAS: usize = 32;

/// The greatest lsn.
pub const MAX_LSN: u64 = 1 << 58;

/// For each replica id from 0 to 31 the lsn that it has reached, at most 2^58; 0 where it has none.
#[derive(Clone, Copy, Debug, Drop)]
pub struct Vclock {
    pub(crate) lsns: [u64; REPLICAS],
}

impl Model for Vclock {
    ghost use Rattle.std.specs.Prelude.{ℕ, List};
    ghost use Rattle.mx_vclock.specs.Vclocks.{IsVclock};

    ghost Value = { List ℕ };

    ghost view = { λ c. c.lsns };

    ghost inverse = { λ lsns. record { lsns = lsns } };

    ghost invariant = { λ c. IsVclock c.lsns };
}

impl Vclock {
    /// The empty vclock: no replica has an lsn.
    pub fn new() -> Vclock
        ensures { result ≡ replicate replicas 0 }
    {
        Vclock {
            lsns: [0; REPLICAS],
        }
    }

    /// The lsn of a replica id.
    pub fn get(&self, id: u8) -> u64
        requires { id < replicas }
        ensures { result ≡ slice_index self.now id }
    {
        self.lsns[usize::from(id)]
    }

    /// Sets the lsn of a replica id.
    pub fn set(&mut self, id: u8, lsn: u64)
        requires id { id < replicas }
        requires lsn { lsn ≤ max_lsn }
        ensures { self.new ≡ slice_set self.old id lsn }
    {
        self.lsns[usize::from(id)] = lsn;
    }

    pub(crate) fn lsns(&self) -> &[u64; REPLICAS]
        ensures value { result.now ≡ self.now }
        ensures whole { length self.now ≡ replicas }
    {
        &self.lsns
    }

    /// Advances a replica id to its next lsn.
    ///
    /// # Errors
    /// The lsn isn't the next one, or is above 2^58. The vclock is unchanged.
    pub fn follow(&mut self, id: u8, lsn: u64) -> Result<(), Gap>
        requires { id < replicas }
        ensures { MatchResult result
            (λ _. IsNext self.old id lsn × (self.new ≡ slice_set self.old id lsn))
            (λ gap. ¬ IsNext self.old id lsn × (gap.has ≡ slice_index self.old id) × (gap.got ≡ lsn) × (self.new ≡ self.old)) }
    {
        let last = &mut self.lsns[usize::from(id)];
        if lsn > MAX_LSN || lsn != *last + 1 {
            return Err(Gap {
                has: *last,
                got: lsn,
            });
        }
        *last = lsn;
        Ok(())
    }

    /// Whether for no replica id this vclock is less than the other one.
    pub fn covers(&self, other: &Vclock) -> bool
        ensures { IsTrue result ↔ Covers self.now other.now }
    {
        self.lsns
            .iter()
            .zip(other.lsns.iter())
            .all(|(lsn, least)| least <= lsn)
    }

    /// How this vclock compares to the other one; `None` where neither covers the other.
    pub fn compare(&self, other: &Vclock) -> Option<Ordering>
        ensures { Compares self.now other.now result }
    {
        match (self.covers(other), other.covers(self)) {
            (true, true) => Some(Ordering::Equal),
            (true, false) => Some(Ordering::Greater),
            (false, true) => Some(Ordering::Less),
            (false, false) => None,
        }
    }

    /// The sum of the lsns.
    pub fn signature(&self) -> u64
        ensures { result ≡ sum self.now }
    {
        self.lsns.iter().sum()
    }
}
