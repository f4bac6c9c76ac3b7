//! How an open transaction of the plain slow program stands.

ghost use Rattle.std.specs.Prelude.{◌≡◌, ◌≤◌, ◌-◌, ◌&&◌, ◌||◌, drop, length, nat_le, nat_lt, IfOk, IfSome};
ghost use Rattle.std.specs.List.{list_any};
ghost use Rattle.mx_model.specs.Overlaps.{Transaction, doomed_or_view, is_some_row, overlap_of, place_read, standing};
ghost use Rattle.mx_slow.specs.Slow.{IsSlow, KeepsTransaction, standing_view};
ghost use Rattle.mx_model.specs.Bases.{is_write};
ghost use Rattle.mx_slow.specs.SlowTouches.{meet};
ghost use Rattle.mx_model.specs.Streams.{Streams};

use crate::slow::transactions::{SlowStep, SlowTransaction};
use crate::slow::{Slow, SlowCommit};
use mx_model::is_write;
use mx_row::Row;
use std::alloc::AllocError;

/// How an open transaction stands: it reads the newest state, or the state after so many commits; or it
/// conflicts.
#[derive(Clone, Copy)]
pub(crate) enum SlowStanding {
    Active,
    View { place: usize },
    Doomed,
}

impl Slow {
    /// How a transaction stands at a step of its own that writes or doesn't, or at any other.
    ///
    /// # Errors
    /// Out of memory.
    pub(crate) fn standing(
        &self,
        is_write: bool,
        transaction: &SlowTransaction,
    ) -> Result<SlowStanding, AllocError>
        ensures { (streams : Streams) (one : Transaction) → IsSlow self.now streams → KeepsTransaction transaction.now one → IfOk result (λ how. standing_view how
            ≡ standing streams.base.ids streams.base.state streams.journal is_write one) }
    {
        let Some(number) = self.overlap(transaction) else {
            return Ok(SlowStanding::Active);
        };
        let place = number - 1;
        let steps = transaction.steps.as_slice();
        let run = self.run(place, steps)?;
        let has_row = is_some_row(run.rows.as_slice());
        let has_written = has_written_since(number, steps);
        let has_schema = self.has_schema_commit_since(number);
        Ok(doomed_or_view(has_row, has_written, is_write, has_schema, place))
    }

    /// How many commits the prefix of the journal has that a transaction reads.
    pub(crate) fn place_read(&self, transaction: &SlowTransaction) -> usize
        ensures { (streams : Streams) (one : Transaction) → IsSlow self.now streams → KeepsTransaction transaction.now one
            → (result ≡ place_read streams.base.state streams.journal one) × (result ≤ length streams.journal) }
    {
        match self.overlap(transaction) {
            Some(number) => number - 1,
            None => self.commits.len(),
        }
    }

    /// The number, from 1 on, of the first commit since its BEGIN that overlaps a transaction.
    fn overlap(&self, transaction: &SlowTransaction) -> Option<usize>
        ensures found { (streams : Streams) (one : Transaction) → IsSlow self.now streams → KeepsTransaction transaction.now one
            → (result ≡ overlap_of streams.base.state streams.journal one) × IfSome result (λ number. number ≤ length streams.journal) }
        ensures counted { IfSome result (λ number. 1 ≤ number) }
    {
        let steps = transaction.steps.as_slice();
        let mut number = transaction.begun;
        while let Some(commit) = self.commits.get(number) {
            number += 1;
            if commit.meets(number, steps) {
                return Some(number);
            }
        }
        None
    }

    /// Whether this commit, or a later one, changed a space or an index.
    fn has_schema_commit_since(&self, number: usize) -> bool
        requires { 1 ≤ number }
        ensures { result ≡ list_any (λ commit. commit.is_schema) (drop (number - 1) self.now.commits.items) }
    {
        match self.commits.as_slice().get(number - 1..) {
            Some(later) => has_schema_commit(later),
            None => false,
        }
    }
}

impl SlowCommit {
    /// Whether the commit touched what statements read that were made before it.
    fn meets(&self, number: usize, steps: &[SlowStep]) -> bool
        ensures { result ≡ list_any (λ step. nat_lt step.after number && meet self.now.touched step.reads) steps.now }
    {
        steps.iter().any(|step| self.meets_step(number, step))
    }

    fn meets_step(&self, number: usize, step: &SlowStep) -> bool
        ensures { result ≡ (nat_lt step.now.after number && meet self.now.touched step.now.reads) }
    {
        step.after < number && self.touched.meet(step.reads.as_slice())
    }
}

fn has_schema_commit(commits: &[SlowCommit]) -> bool
    ensures { result ≡ list_any (λ commit. commit.is_schema) commits.now }
{
    commits.iter().any(|commit| commit.is_schema)
}

fn doomed_or_view(
    has_row: bool,
    has_written: bool,
    is_write: bool,
    has_schema: bool,
    place: usize,
) -> SlowStanding
    ensures { standing_view result ≡ doomed_or_view (has_row || has_written || is_write || has_schema) place }
{
    if has_row || has_written || is_write || has_schema {
        return SlowStanding::Doomed;
    }
    SlowStanding::View { place }
}

fn is_some_row(rows: &[Row]) -> bool
    ensures { result ≡ is_some_row rows.now }
{
    !rows.is_empty()
}

/// Whether a statement that was made since this commit writes.
fn has_written_since(number: usize, steps: &[SlowStep]) -> bool
    ensures { result ≡ list_any (λ step. nat_le number step.after && is_write step.request) steps.now }
{
    steps.iter().any(|step| is_written_since(number, step))
}

fn is_written_since(number: usize, step: &SlowStep) -> bool
    ensures { result ≡ (nat_le number step.now.after && is_write step.now.request) }
{
    number <= step.after && is_write(step.request.kind())
}
