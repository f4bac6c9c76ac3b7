//! Statements run alone by the plain slow program.

ghost use Rattle.std.specs.Prelude.{◌≡◌, ◌≤◌, ◌∷◌, ◌++◌, ◌&&◌, ◌==◌, not, [], ℕ, List, None, Option, Some, length, IfOk, MatchOption, OnOk};
ghost use Rattle.std.specs.List.{AllZip};
ghost use Rattle.mx_model.specs.declared.ids.Ids.{Ids};
ghost use Rattle.mx_row.specs.declared.row.Row.{Row};
ghost use Rattle.mx_row.specs.Limits.{has_room, row_size as plain_row_size, rows_size, saturated};
ghost use Rattle.mx_schema.specs.State as plain;
ghost use Rattle.mx_write.specs.Change.{Change, state_after_changed};
ghost use Rattle.mx_model.specs.Bases.{is_write, writable_node};
ghost use Rattle.mx_model.specs.Overlaps.{TransactionStep, state_after_first, statements_in};
ghost use Rattle.mx_model.specs.RunAlone.{Run, answer_in_run, run_alone, run_with, statement_answer, within_limits};
ghost use Rattle.mx_slow.specs.Slow.{IsSlow, KeepsStep, RunStands, statement_reads};
ghost use Rattle.mx_slow.specs.SlowReads.{HasRead};
ghost use Rattle.mx_slow_state.specs.SlowState.{HasAnswer, IsSlowMade, IsSlowState};
ghost use Rattle.mx_model.specs.Streams.{Streams};
ghost use Rattle.mx_model.specs.statements.Answer.{Answer};
ghost use Rattle.mx_model.specs.statements.Statement.{Statement, statement_of};

use crate::read_ranges::ReadRanges;
use crate::reads::reads;
use crate::slow::Slow;
use crate::slow::transactions::SlowStep;
use crate::touched::{TouchedKeys, touch};
use mx_base::{Refusal, ReplicaId};
use mx_model::{Ids, Reply, WRITABLE_NODE, is_write};
use mx_request::Request;
use mx_row::{MAX_ROWS, MAX_TRANSACTION_SIZE, ROW_HEADER_SIZE, Row, RowRef, Rows, row_size};
use mx_slow_state::{SlowAnswer, SlowState, SlowWrite};
use std::alloc::{AllocError, Global};

/// What statements have come to that ran alone: the state, the rows with their size, and the keys that they
/// touched.
#[derive(Drop)]
pub(crate) struct SlowRun {
    pub state: SlowState,
    pub rows: Rows,
    pub size: usize,
    pub touched: TouchedKeys,
}

impl SlowRun {
    /// No statement.
    fn new(alloc: Global, state: SlowState) -> SlowRun
        ensures { (ids : Ids) (before : plain.State) → IsSlowState state before → RunStands result before (run_alone ids before []) }
    {
        SlowRun {
            state,
            rows: Rows::new(alloc),
            size: 0,
            touched: TouchedKeys::new(alloc),
        }
    }

    /// What a further statement is answered; `None` where the request is no statement.
    ///
    /// # Errors
    /// Out of memory.
    pub fn answer(&self, ids: &Ids, request: &Request) -> Result<Option<SlowAnswer>, AllocError>
        ensures { (before : plain.State) (run : Run) → RunStands self.now before run → IfOk result (λ found. MatchOption found
            (statement_of request.now ≡ None)
            (λ answer. (statement : Statement) × (statement_of request.now ≡ Some statement)
            × HasAnswer answer run.state statement.space (answer_in_run ids.now run statement))) }
    {
        match statement_answer(&self.state, ids, request)? {
            Some(answer) => Ok(Some(self.within_limits(answer))),
            None => Ok(None),
        }
    }

    /// The answer, unless its row finds no room.
    fn within_limits(&self, answer: SlowAnswer) -> SlowAnswer
        ensures { (state : plain.State) (rows : List Row) (space : ℕ) (plain_answer : Answer) → self.now.rows ≡ rows → self.now.size ≡ saturated (rows_size rows)
            → HasAnswer answer state space plain_answer → HasAnswer result state space (within_limits rows plain_answer plain_answer.row) }
    {
        let Some(write) = &answer.write else {
            return answer;
        };
        if self.has_room(&write.row) {
            return answer;
        }
        SlowAnswer {
            reply: Reply::Refused(Refusal::TransactionTooLong),
            write: None,
        }
    }

    /// Whether a further row is within the limits of a transaction.
    fn has_room(&self, row: &Row) -> bool
        ensures { (rows : List Row) → self.now.rows ≡ rows → self.now.size ≡ saturated (rows_size rows) → result ≡ has_room rows row.now }
    {
        self.rows.as_slice().len() < MAX_ROWS
            && self.size.saturating_add(size_of(row)) <= MAX_TRANSACTION_SIZE
    }

    /// The same after a further statement.
    ///
    /// # Errors
    /// Out of memory; the run is of no use then.
    fn step(&mut self, ids: &Ids, request: &Request) -> Result<(), AllocError>
        ensures { (before : plain.State) (run : Run) (statement : Statement) → RunStands self.old before run → statement_of request.now ≡ Some statement
            → OnOk result (RunStands self.new before (run_with run (answer_in_run ids.now run statement))) }
    {
        match self.answer(ids, request)? {
            Some(answer) => self.go_on(answer),
            None => Ok(()),
        }
    }

    /// The same after a statement that was answered so.
    ///
    /// # Errors
    /// Out of memory; the run is of no use then.
    fn go_on(&mut self, answer: SlowAnswer) -> Result<(), AllocError>
        ensures { (before : plain.State) (run : Run) (space : ℕ) (plain_answer : Answer) → RunStands self.old before run → HasAnswer answer run.state space plain_answer
            → OnOk result (RunStands self.new before (run_with run plain_answer)) }
    {
        let SlowAnswer { write, .. } = answer;
        match write {
            Some(write) => self.take(write),
            None => Ok(()),
        }
    }

    /// The same after a write that the state answered.
    ///
    /// # Errors
    /// Out of memory; the run is of no use then.
    pub fn take(&mut self, write: SlowWrite) -> Result<(), AllocError>
        ensures { (before : plain.State) (run after : Run) (change : Option Change) → RunStands self.old before run
            → IsSlowMade run.state write.space.0 write.row write.made change → after.rows ≡ run.rows ++ write.row ∷ [] → after.state ≡ state_after_changed run.state change
            → OnOk result (RunStands self.new before after) }
    {
        let SlowWrite { space, row, made } = write;
        touch(&self.state, space, &made, &mut self.touched)?;
        self.size = self.size.saturating_add(size_of(&row));
        self.rows.push(row)?;
        self.state.make(space, made)
    }
}

/// How many bytes a row takes, with those of its header, and `usize::MAX` where there are more.
fn size_of(row: &Row) -> usize
    ensures { result ≡ saturated (plain_row_size row.now) }
{
    let row = RowRef {
        kind: row.kind,
        space: row.space,
        index_base: row.index_base,
        tuple: row.tuple.as_slice(),
        key: row.key.as_slice(),
        ops: row.ops.as_slice(),
    };
    row_size(&row).saturating_add(ROW_HEADER_SIZE)
}

/// What a statement is answered on a node with these identifiers; `None` where the request is no statement.
pub(crate) fn statement_answer(
    state: &SlowState,
    ids: &Ids,
    request: &Request,
) -> Result<Option<SlowAnswer>, AllocError>
    ensures { (before : plain.State) → IsSlowState state.now before → IfOk result (λ found. MatchOption found
        (statement_of request.now ≡ None)
        (λ answer. (statement : Statement) × (statement_of request.now ≡ Some statement)
        × HasAnswer answer before statement.space (statement_answer ids.now before statement))) }
{
    if refuses(ids, request) {
        let writable = ReplicaId(WRITABLE_NODE);
        return Ok(Some(SlowAnswer {
            reply: Reply::Refused(Refusal::ReadOnly { writable }),
            write: None,
        }));
    }
    state.answer(request)
}

/// Whether a request writes on a node that may not be written.
fn refuses(ids: &Ids, request: &Request) -> bool
    ensures { result ≡ (is_write request.now && not (ids.now.me == writable_node)) }
{
    is_write(request.kind()) && ids.me != WRITABLE_NODE
}

/// What a statement reads on such a node; nothing where the request is no statement.
pub(crate) fn statement_reads(
    alloc: Global,
    state: &SlowState,
    ids: &Ids,
    request: &Request,
) -> Result<ReadRanges, AllocError>
    ensures { (before : plain.State) → IsSlowState state.now before → IfOk result (λ reads. HasRead reads (statement_reads ids.now before request.now)) }
{
    if refuses(ids, request) {
        return Ok(ReadRanges::new(alloc));
    }
    reads(state, request)
}

impl Slow {
    /// Runs the statements of a transaction, of which the newest comes first, on the state after so many
    /// commits.
    ///
    /// # Errors
    /// Out of memory.
    pub(crate) fn run(&self, place: usize, steps: &[SlowStep]) -> Result<SlowRun, AllocError>
        ensures { (streams : Streams) (all : List TransactionStep) → IsSlow self.now streams → place ≤ length streams.journal → AllZip KeepsStep steps.now all
            → IfOk result (λ run. RunStands run (state_after_first streams.base.state streams.journal place)
            (run_alone streams.base.ids (state_after_first streams.base.state streams.journal place) (statements_in all))) }
    {
        let mut run = SlowRun::new(self.alloc, self.state_at(place).copy()?);
        let mut left = steps;
        while let Some((step, later)) = left.split_last() {
            run.step(&self.ids, &step.request)?;
            left = later;
        }
        Ok(run)
    }

    /// The state after so many commits, of which there are as many at least.
    pub(crate) fn state_at(&self, place: usize) -> &SlowState
        ensures { (streams : Streams) → IsSlow self.now streams → place ≤ length streams.journal
            → IsSlowState result.now (state_after_first streams.base.state streams.journal place) }
    {
        if place == 0 {
            return &self.first;
        }
        match self.commits.get(place - 1) {
            Some(commit) => &commit.state,
            None => &self.first,
        }
    }
}
