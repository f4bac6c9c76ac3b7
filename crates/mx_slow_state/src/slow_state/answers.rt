//! What the plain slow program answers to a statement, and what the statement makes of its state.

ghost use Rattle.std.specs.Prelude.{◌≡◌, None, Some, IfOk, MatchOption, MatchResult, Option};
ghost use Rattle.mx_row.specs.declared.row.Row.{Row};
ghost use Rattle.mx_schema.specs.State as plain;
ghost use Rattle.mx_write.specs.Change.{Change, state_after_changed};
ghost use Rattle.mx_write.specs.declared.writable.Writer.TheVariants.{Client};
ghost use Rattle.mx_write.specs.Judge.{judged_write};
ghost use Rattle.mx_judge.specs.Makes.{MakesOf};
ghost use Rattle.mx_write.specs.Views.{write_view};
ghost use Rattle.mx_model.specs.Frame.{answer_to_statement};
ghost use Rattle.mx_slow_state.specs.SlowState.{HasAnswer, IsSlowMade, IsSlowState};
ghost use Rattle.mx_model.specs.statements.Statement.{Statement, statement_of};
ghost use Rattle.mx_request.specs.declared.request.Request.{Request};
ghost use Rattle.mx_write.specs.Writes.{write_in};

use crate::slow_state::SlowState;
use crate::slow_state::changes::{change, refused, show};
use mx_base::SpaceId;
use mx_judge::{Made, row_of};
use mx_model::{Reply, iterator_of};
use mx_msgpack::Tuples;
use mx_request::Request;
use mx_row::Row;
use mx_space::Pick;
use mx_write::Write;
use std::alloc::AllocError;

/// What a statement is answered, before anything is changed, and the write that it comes to, if any.
#[derive(Drop)]
pub struct SlowAnswer {
    pub reply: Reply,
    pub write: Option<SlowWrite>,
}

/// A write that isn't refused: its row, and what it makes of its space.
#[derive(Drop)]
pub struct SlowWrite {
    pub space: SpaceId,
    pub row: Row,
    pub made: Made,
}

impl SlowState {
    /// What a statement is answered; `None` where the request is no statement.
    ///
    /// # Errors
    /// Out of memory.
    pub fn answer(&self, request: &Request) -> Result<Option<SlowAnswer>, AllocError>
        ensures { (before : plain.State) → IsSlowState self.now before → IfOk result (λ found. MatchOption found
            (statement_of request.now ≡ None)
            (λ answer. (statement : Statement) × (statement_of request.now ≡ Some statement)
            × HasAnswer answer before statement.space (answer_to_statement before statement))) }
    {
        match request {
            Request::Select {
                space,
                index,
                limit,
                offset,
                iterator,
                key,
            } => {
                let pick = Pick {
                    iterator: iterator_of(*iterator),
                    key: key.as_slice(),
                    offset: *offset,
                    limit: *limit,
                };
                let reply = self.select(*space, *index, &pick)?;
                Ok(Some(SlowAnswer { reply, write: None }))
            }
            Request::Insert { space, tuple } => {
                let tuple = tuple.as_slice();
                let answer = self.write_answer(*space, &Write::Insert { tuple })?;
                Ok(Some(answer))
            }
            Request::Replace { space, tuple } => {
                let tuple = tuple.as_slice();
                let answer = self.write_answer(*space, &Write::Replace { tuple })?;
                Ok(Some(answer))
            }
            Request::Update {
                space,
                index,
                base,
                key,
                ops,
            } => {
                let write = Write::Update {
                    index: *index,
                    base: *base,
                    key: key.as_slice(),
                    operations: ops.as_slice(),
                };
                let answer = self.write_answer(*space, &write)?;
                Ok(Some(answer))
            }
            Request::Delete { space, index, key } => {
                let write = Write::Delete {
                    index: *index,
                    key: key.as_slice(),
                };
                let answer = self.write_answer(*space, &write)?;
                Ok(Some(answer))
            }
            Request::Upsert {
                space,
                base,
                tuple,
                ops,
            } => {
                let write = Write::Upsert {
                    base: *base,
                    tuple: tuple.as_slice(),
                    operations: ops.as_slice(),
                };
                let answer = self.write_answer(*space, &write)?;
                Ok(Some(answer))
            }
            Request::Nop
            | Request::Ping
            | Request::Id
            | Request::Begin
            | Request::Commit
            | Request::Rollback
            | Request::Join { .. }
            | Request::Subscribe { .. }
            | Request::Ack { .. } => Ok(None),
        }
    }

    fn write_answer(&self, space: SpaceId, write: &Write<'_>) -> Result<SlowAnswer, AllocError>
        ensures { (before : plain.State) (asked : Request) → IsSlowState self.now before → write_in asked ≡ Some (space.0, write_view write.now)
            → IfOk result (λ answer. (statement : Statement) × (statement_of asked ≡ Some statement)
            × HasAnswer answer before statement.space (answer_to_statement before statement)) }
    {
        match self.judge(space, write) {
            Ok(Some(made)) => self.answer_made(space, write, made),
            Ok(None) => Ok(SlowAnswer {
                reply: Reply::Tuples(Tuples::new(self.alloc)),
                write: None,
            }),
            Err(refusal) => Ok(SlowAnswer {
                reply: refused(refusal)?,
                write: None,
            }),
        }
    }

    /// What a write is answered that was judged to make this.
    fn answer_made(
        &self,
        space: SpaceId,
        write: &Write<'_>,
        made: Made,
    ) -> Result<SlowAnswer, AllocError>
        ensures { (before : plain.State) (asked : Request) → MakesOf before space.0 (write_view write.now) made (judged_write Client before space.0 (write_view write.now))
            → write_in asked ≡ Some (space.0, write_view write.now)
            → IfOk result (λ answer. (statement : Statement) × (statement_of asked ≡ Some statement)
            × HasAnswer answer before statement.space (answer_to_statement before statement)) }
    {
        let reply = Reply::Tuples(show(self.alloc, &made.effect)?);
        let row = Row::from_ref(self.alloc, &row_of(space, write, made.row_key.as_slice()))?;
        let write = Some(SlowWrite { space, row, made });
        Ok(SlowAnswer { reply, write })
    }

    /// Makes a write in a space that the state answered.
    ///
    /// # Errors
    /// Out of memory. The state is then as it was.
    pub fn make(&mut self, space: SpaceId, made: Made) -> Result<(), AllocError>
        ensures { (before : plain.State) (row : Row) (makes : Option Change) → IsSlowState self.old before → IsSlowMade before space.0 row made makes → MatchResult result
            (λ _. IsSlowState self.new (state_after_changed before makes))
            (λ _. IsSlowState self.new before) }
    {
        change(self.alloc, &mut self.spaces, space, made)
    }
}
