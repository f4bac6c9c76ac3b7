//! A vclock as a map of MessagePack.

ghost use Rattle.std.specs.Prelude.{◌≡◌, [], ◌∷◌, ◌++◌, ◌≤◌, ℕ, length, map, take, MatchResult};
ghost use Rattle.std.specs.List.{concat};
ghost use Rattle.mx_vclock.specs.Spelling.{clock_map, component_bytes, components_from};

use crate::vclock::Vclock;
use mx_msgpack::{Bytes, write_map_head, write_unsigned};
use std::alloc::AllocError;

impl Vclock {
    /// Appends the vclock as a map of replica ids to lsns, in the fewest bytes: its components that
    /// aren't 0, in ascending order of replica id, without replica id 0.
    ///
    /// # Errors
    /// Nothing was appended.
    pub fn write(&self, out: &mut Bytes) -> Result<(), AllocError>
        ensures { MatchResult result (λ _. out.new ≡ out.old ++ clock_map self.now) (λ _. out.new ≡ out.old) }
    {
        let before = out.len();
        let written = write_map(self, out);
        if written.is_err() {
            out.truncate(before);
        }
        written
    }
}

fn write_map(clock: &Vclock, out: &mut Bytes) -> Result<(), AllocError>
    ensures { MatchResult result (λ _. out.new ≡ out.old ++ clock_map clock.now) (λ _. take (length out.old) out.new ≡ out.old) }
{
    let (_, lsns) = clock.lsns().split_at(1);
    write_map_head(pair_count(lsns), out)?;
    write_pairs(lsns, out)?;
    Ok(())
}

fn pair_count(lsns: &[u64]) -> usize
    ensures exact { (id : ℕ) → result ≡ length (components_from id lsns.now) }
    ensures most { result ≤ length lsns.now }
{
    lsns.iter().filter(|lsn| **lsn != 0).count()
}

fn write_pairs(lsns: &[u64], out: &mut Bytes) -> Result<(), AllocError>
    ensures { MatchResult result (λ _. out.new ≡ out.old ++ concat (map component_bytes (components_from 1 lsns.now))) (λ _. take (length out.old) out.new ≡ out.old) }
{
    for (place, lsn) in lsns.iter().enumerate() {
        write_component(place as u64 + 1, *lsn, out)?;
    }
    Ok(())
}

fn write_component(id: u64, lsn: u64, out: &mut Bytes) -> Result<(), AllocError>
    ensures { MatchResult result (λ _. out.new ≡ out.old ++ concat (map component_bytes (components_from id (lsn ∷ [])))) (λ _. take (length out.old) out.new ≡ out.old) }
{
    if lsn != 0 {
        write_unsigned(id, out)?;
        write_unsigned(lsn, out)?;
    }
    Ok(())
}
