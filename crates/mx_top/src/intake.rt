//! The bytes of an input that were read and not yet used.

ghost use Rattle.std.specs.Prelude.{◌≡◌, ◌+◌, ◌-◌, ◌<◌, ◌≤◌, ◌++◌, ℕ, List, [], length, take, drop, vec_len, false, Err, Some, IfOk, IfErr, OnOk, OnErr, MatchResult, IsTrue, ◌↔◌};
ghost use Rattle.mx_outside.specs.Causes.{HasCauseOf};
ghost use Rattle.mx_top.specs.Stops.{IsReadStop};
ghost use Rattle.mx_top.specs.declared.stop.Stop.TheVariants.{ReadFault};

use crate::stop::Stop;
use mx_outside::{Failed, Source};
use std::alloc::{AllocError, Global};
use std::marker::Model;

/// The size of the buffer at first.
const FIRST_SIZE: usize = 65536;

/// One buffer for the whole run, of which `start..end` waits to be used.
#[derive(Drop)]
pub(crate) struct Intake {
    buffer: Vec<u8>,
    start: usize,
    end: usize,
}

impl Model for Intake {
    ghost use Rattle.std.specs.Prelude.{ℕ, ◌-◌, ◌≤◌, List, take, drop, vec_len};

    ghost Value = { List ℕ };

    ghost view = { λ i. take (i.end - i.start) (drop i.start i.buffer.items) };

    ghost invariant = { λ i. (i.start ≤ i.end) × (i.end ≤ vec_len i.buffer) };
}

impl Intake {
    /// No bytes yet.
    pub(crate) fn new(alloc: Global) -> Result<Intake, AllocError>
        ensures { IfOk result (λ intake. intake ≡ []) }
    {
        Ok(Intake {
            buffer: Vec::from_elem(alloc, 0, FIRST_SIZE)?,
            start: 0,
            end: 0,
        })
    }

    /// The bytes that wait.
    pub(crate) fn as_slice(&self) -> &[u8]
        ensures { result.now ≡ self.now }
    {
        &self.buffer[self.start..self.end]
    }

    /// How many bytes wait.
    pub(crate) fn len(&self) -> usize
        ensures { result ≡ length self.now }
    {
        self.end - self.start
    }

    /// Lets the first `count` bytes go.
    pub(crate) fn consume(&mut self, count: usize)
        requires { count ≤ length self.old }
        ensures { self.new ≡ drop count self.old }
    {
        self.start += count;
        if self.start == self.end {
            self.start = 0;
            self.end = 0;
        }
    }

    /// Reads until `need` bytes wait, or to the end of the source, and says whether so many wait.
    pub(crate) fn fill<S: Source>(&mut self, source: &mut S, need: usize) -> Result<bool, Stop>
        ensures enough { IfOk result (λ enough. IsTrue enough ↔ (need ≤ length self.new)) }
        ensures told { (left : List ℕ) → S.left source.old ≡ Some left → (more : List ℕ)
            × (S.left source.new ≡ Some more) × (self.old ++ left ≡ self.new ++ more)
            × IfOk result (λ enough. enough ≡ false → more ≡ []) }
        ensures longer { length self.old ≤ length self.new }
        ensures short { OnErr result (length self.new < need) }
        ensures cause { HasCauseOf ReadFault (S.faults source.old) (S.faults source.new) result }
        ensures stops { IfErr result IsReadStop }
    {
        // Waiting bytes are moved only where the room after them runs out.
        if self.buffer.len() - self.start < need {
            move_to_front(&mut self.buffer, self.start, self.end, need)?;
            self.end -= self.start;
            self.start = 0;
        }
        while self.end - self.start < need {
            let count = read_into(source, &mut self.buffer, self.end)?;
            if count == 0 {
                return Ok(false);
            }
            self.end += count;
        }
        Ok(true)
    }
}

/// Moves the bytes of `start..end` to the start of the buffer, which has room for `need` bytes then.
fn move_to_front(
    buffer: &mut Vec<u8>,
    start: usize,
    end: usize,
    need: usize,
) -> Result<(), AllocError>
    requires order { start ≤ end }
    requires within { end ≤ vec_len buffer.old }
    ensures room { OnOk result (need ≤ vec_len buffer.new) }
    ensures longer { vec_len buffer.old ≤ vec_len buffer.new }
    ensures moved { OnOk result (take (end - start) buffer.new.items ≡ take (end - start) (drop start buffer.old.items)) }
    ensures same { OnErr result (buffer.new.items ≡ buffer.old.items) }
{
    if buffer.len() < need {
        let size = need.max(buffer.len().saturating_mul(2));
        buffer.resize(size, 0)?;
    }
    buffer.copy_within(start..end, 0);
    Ok(())
}

/// Reads once into the buffer from `end` on, and says how much that was: nothing at the end of the source.
fn read_into<S: Source>(source: &mut S, buffer: &mut Vec<u8>, end: usize) -> Result<usize, Stop>
    requires { end < vec_len buffer.old }
    ensures kept { take end buffer.new.items ≡ take end buffer.old.items }
    ensures size { vec_len buffer.new ≡ vec_len buffer.old }
    ensures bound { IfOk result (λ count. end + count ≤ vec_len buffer.new) }
    ensures told { (left : List ℕ) → S.left source.old ≡ Some left → (more : List ℕ) × (S.left source.new ≡ Some more)
        × MatchResult result (λ count. left ≡ take count (drop end buffer.new.items) ++ more) (λ _. left ≡ more)
        × IfOk result (λ count. count ≡ 0 → more ≡ []) }
    ensures cause { HasCauseOf ReadFault (S.faults source.old) (S.faults source.new) result }
    ensures stops { IfErr result IsReadStop }
{
    let (_, free) = buffer.split_at_mut(end);
    match source.read(free) {
        Ok(count) => Ok(count),
        Err(Failed) => Err(Stop::ReadFault),
    }
}
