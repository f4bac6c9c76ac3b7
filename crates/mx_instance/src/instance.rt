//! The calls of an instance.

ghost use Rattle.std.specs.Prelude.{◌≡◌, ◌<◌, ◌^◌, ◌-◌, ℕ, [], ◌∷◌, length, IfOk, MatchResult};
ghost use Rattle.mx_model.specs.Bases.{Base};
ghost use Rattle.mx_model.specs.Histories.{History, Left};
ghost use Rattle.mx_engine.specs.Standing.{EngineStandsFor};
ghost use Rattle.mx_link.specs.Asks.{IsJob};
ghost use Rattle.mx_turn.specs.Seats.{HasSeen, IsHolding, IsOf};
ghost use Rattle.mx_turn.specs.Rule.{max_count};
ghost use Rattle.mx_turn.specs.Views.{Extends, after_give, after_join, longer_history, part_view, after_split, shorter_history};
ghost use Rattle.mx_link.specs.Links.{step_of};
ghost use Rattle.mx_instance.specs.Entries.{is_journal_step, is_request};
ghost use Rattle.mx_instance.specs.Standing.{BeganOver, StandsFrom};
ghost use Rattle.mx_instance.specs.Passes.{AddsStep, CanCall, IsBusyFor, IsCall, IsClosedTo, IsFirst, IsOfMoment, busy_count, seen_by};

use crate::outcome::{Outcome, TryStop};
use crate::recorded::{Note, Recorded};
use mx_base::ConnId;
use mx_engine::{Answer, Engine};
use mx_model::Reply;
use mx_request::Ask;
use mx_session::Job;
use mx_turn::{Held, Seat, Turn};
use std::alloc::{AllocError, Global};
use std::snapshot::Snapshot;
use std::sync::Wait;

/// An engine that threads ask in turn.
#[derive(Drop)]
pub struct Instance {
    pub(crate) alloc: Global,
    pub(crate) turn: Turn<Recorded>,
}

/// A thread's access to an instance, and what it knows of the history. It has no bytes.
#[derive(Drop)]
pub struct Pass {
    pub(crate) seat: Seat<Recorded>,
}

impl Instance {
    /// An instance over an engine that has made no step, with its first pass, which has all parts.
    pub fn new(alloc: Global, engine: Engine, passes: u32) -> Result<(Instance, Pass), AllocError>
        requires passes { 0 < passes }
        requires begins { (base : Base) × EngineStandsFor engine base [] }
        ensures can_call { IfOk result (λ made. CanCall made.0 made.1) }
        ensures first { IfOk result (λ made. IsFirst engine passes (seen_by made.1)) }
    {
        let engine = Box::new(alloc, engine)?;
        let (turn, seat) = Turn::new(alloc, Recorded { engine }, passes)?;
        Ok((Instance { alloc, turn }, Pass { seat }))
    }

    /// Asks a job, once the pass has the turn.
    pub fn call<R: Wait>(&self, rt: &R, pass: &mut Pass, job: Job) -> Outcome
        requires can_call { CanCall self.now pass.old }
        requires job { IsJob job }
        ensures can_call { CanCall self.now pass.new }
        ensures asked { IsCall job (seen_by pass.old) (seen_by pass.new) result }
    {
        let held = self.turn.take(rt, &mut pass.seat);
        self.ask(pass, held, job)
    }

    /// Asks a job where no other pass has the turn.
    ///
    /// # Errors
    /// One has it, and nothing was asked.
    pub fn try_call(&self, pass: &mut Pass, job: Job) -> Result<Outcome, TryStop>
        requires can_call { CanCall self.now pass.old }
        requires job { IsJob job }
        ensures can_call { CanCall self.now pass.new }
        ensures asked { MatchResult result (IsCall job (seen_by pass.old) (seen_by pass.new)) (λ stop. IsBusyFor (seen_by pass.old) (seen_by pass.new) (busy_count stop)) }
    {
        match self.turn.try_take(&mut pass.seat) {
            Ok(held) => Ok(self.ask(pass, held, job)),
            Err(busy) => Err(TryStop::Busy { count: busy.count }),
        }
    }

    /// Asks a job under the turn, and gives the turn back.
    fn ask(&self, pass: &mut Pass, held: Held<Recorded>, job: Job) -> Outcome
        requires of { IsOf self.now.turn.board.shared.table_id pass.old.seat }
        requires holding { IsHolding pass.old.seat.me }
        requires stands { StandsFrom (seen_by pass.old).base held.value (seen_by pass.old).seen }
        requires room { length (seen_by pass.old).seen < max_count }
        requires job { IsJob job }
        ensures can_call { CanCall self.now pass.new }
        ensures view { seen_by pass.new ≡ after_give is_request (step_of job result.reply) (seen_by pass.old) }
        ensures front { result.front ≡ length (seen_by pass.new).seen }
        ensures stands { (base : Base) → BeganOver (seen_by pass.old).base base → IsOfMoment base (seen_by pass.new).seen result }
    {
        let mut held = held;
        let told = Snapshot::of(&job);
        let reply = reply_to(&mut held.value.engine, job);
        let durable = held.value.engine.durable();
        let schema = held.value.engine.schema();
        let note = Note::Asked {
            job: told,
            reply: Snapshot::of(&reply),
        };
        let front = self.turn.give(&mut pass.seat, held, &note);
        Outcome {
            reply,
            front,
            durable,
            schema,
        }
    }

    /// How many steps the history has, all of which the pass has seen then.
    pub fn front(&self, pass: &mut Pass) -> u64
        requires { CanCall self.now pass.old }
        ensures can_call { CanCall self.now pass.new }
        ensures seen { HasSeen is_journal_step is_request pass.old.seat.me pass.new.seat.me }
        ensures front { result ≡ length (seen_by pass.new).seen }
    {
        self.turn.front(&mut pass.seat)
    }

    /// Takes a connection's departure.
    pub fn leave<R: Wait>(&self, rt: &R, pass: &mut Pass, conn: ConnId)
        requires { CanCall self.now pass.old }
        ensures can_call { CanCall self.now pass.new }
        ensures left { AddsStep (Left conn.0) (seen_by pass.old) (seen_by pass.new) }
    {
        let mut held = self.turn.take(rt, &mut pass.seat);
        held.value.engine.leave(conn);
        self.turn.give(&mut pass.seat, held, &Note::Left(conn));
    }

    /// A pass of its own for one part, which has seen as much.
    pub fn split(&self, pass: &mut Pass) -> Pass
        requires can_call { CanCall self.now pass.old }
        requires parts { 1 < (seen_by pass.old).parts }
        ensures can_call { CanCall self.now pass.new }
        ensures view { seen_by pass.new ≡ after_split (seen_by pass.old) }
        ensures new_can_call { CanCall self.now result }
        ensures new_view { seen_by result ≡ part_view (seen_by pass.old) }
    {
        Pass {
            seat: self.turn.split(&mut pass.seat),
        }
    }

    /// Takes in the parts of another pass, and what it has seen and added.
    pub fn join(&self, pass: &mut Pass, other: Pass)
        requires can_call { CanCall self.now pass.old }
        requires other_can_call { CanCall self.now other }
        ensures can_call { CanCall self.now pass.new }
        ensures view { seen_by pass.new ≡ after_join (seen_by pass.old) (seen_by other) }
        ensures one { Extends (longer_history (seen_by pass.old).seen (seen_by other).seen) (shorter_history (seen_by pass.old).seen (seen_by other).seen) }
    {
        let Pass { seat } = other;
        self.turn.join(&mut pass.seat, seat);
    }

    /// The engine, once one pass has all parts.
    pub fn close(self, pass: Pass) -> Engine
        requires can_call { CanCall self pass }
        requires parts { (seen_by pass).parts ≡ (seen_by pass).seats }
        ensures { IsClosedTo (seen_by pass) result }
    {
        let Instance { turn, .. } = self;
        let Pass { seat } = pass;
        let Recorded { engine } = turn.close(seat);
        Box::into_inner(engine)
    }
}

/// What an engine replies to a job.
fn reply_to(engine: &mut Engine, job: Job) -> Reply
    requires room { engine.old.count < 2 ^ 63 - 1 }
    requires job { IsJob job }
    ensures { (base : Base) (history : History) → EngineStandsFor engine.old base history → EngineStandsFor engine.new base (step_of job result ∷ history) }
{
    let Job { name, ask, .. } = job;
    match ask {
        Ask::Request(request) => match engine.request(name, &request) {
            Ok(Answer::Tuples(tuples)) => Reply::Tuples(tuples),
            Ok(Answer::Empty) => Reply::Empty,
            Ok(Answer::Id) => Reply::Id,
            Err(refusal) => Reply::Refused(refusal),
        },
        Ask::Refused(refusal) => {
            engine.look();
            Reply::Refused(refusal)
        }
        Ask::Leave => unreachable!(),
    }
}
