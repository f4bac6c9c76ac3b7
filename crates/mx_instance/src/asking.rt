//! Jobs that stand in their packets, asked in turns.

ghost use Rattle.std.specs.Prelude.{◌≡◌, ⊤, ℕ, Bool, List, IfOk, OnErr, OnOk};
ghost use Rattle.mx_base.specs.declared.refusal.Refusal.{Refusal};
ghost use Rattle.mx_base.specs.declared.ids.TxnName.{TxnName};
ghost use Rattle.mx_request.specs.InPlace.{request_view};
ghost use Rattle.mx_request.specs.Spelling.{IsAskable};
ghost use Rattle.mx_request.specs.declared.request.Ask.TheVariants as ask;
ghost use Rattle.mx_session.specs.JobViews.{job_view};
ghost use Rattle.mx_session.specs.Sessions.{JobSeen, next_of};
ghost use Rattle.mx_session.specs.declared.job.Job.{Job};
ghost use Rattle.mx_model.specs.declared.reply.Reply.TheVariants.{Refused};
ghost use Rattle.mx_engine.specs.Views.{reply_of};
ghost use Rattle.mx_link.specs.Asks.{IsJob};
ghost use Rattle.mx_link.specs.Answers.{GivesNext, StopsNext};
ghost use Rattle.mx_instance.specs.Asking.{Asks, AsksNext, IsNextJob, IsSince, MakesStep};
ghost use Rattle.mx_link.specs.Links.{step_of};
ghost use Rattle.mx_instance.specs.Passes.{CanCall, seen_by};

use crate::instance::{Instance, Pass};
use crate::recorded::Note;
use mx_base::{Refusal, TxnName};
use mx_engine::Answered;
use mx_link::{Asker, Buffers, Given, write_answer};
use mx_msgpack::Tuples;
use mx_reply::write_error;
use mx_request::RequestRef;
use mx_session::{AskRef, JobRef, NextRef, Session};
use std::alloc::{AllocError, Global};
use std::snapshot::Snapshot;
use std::sync::Wait;

/// The turns of an instance, which a thread may wait for, and what its pass knew before the first of
/// them.
#[derive(Drop)]
pub struct Turns<'a, R> {
    pub rt: &'a R,
    pub instance: &'a Instance,
    pub since: Snapshot<Pass>,
}

/// Where a step stands, and the schema's version after it.
#[derive(Clone, Copy)]
struct Stepped {
    front: u64,
    schema: u32,
}

/// Others may make steps between two of its own.
impl<'a, R: Wait> Asker<Turns<'a, R>> for Pass {
    ghost fits = { λ turns pass. CanCall turns.instance.now pass };

    ghost at = { λ turns pass base history mine. IsSince (seen_by turns.since.value) base history mine (seen_by pass) };

    ghost between = { λ _. ⊤ };

    fn answer_next(
        &mut self,
        with: &Turns<'a, R>,
        alloc: Global,
        session: &Session,
        buffers: &mut Buffers,
    ) -> Result<Option<Given>, AllocError> {
        match session.peek() {
            NextRef::Job(job) => answer(with, self, alloc, session, &job, buffers),
            NextRef::NeedMore | NextRef::Ended => Ok(None),
        }
    }
}

/// Asks the next job of a session in a turn, and writes the packet of its reply after it.
fn answer<R: Wait>(
    turns: &Turns<'_, R>,
    pass: &mut Pass,
    alloc: Global,
    session: &Session,
    job: &JobRef<'_>,
    buffers: &mut Buffers,
) -> Result<Option<Given>, AllocError>
    requires can_call { CanCall turns.now.instance.now pass.old }
    requires next { IsNextJob session.now (job_view job.now) job.now.ends }
    requires job { IsJob (job_view job.now) }
    ensures can_call { CanCall turns.now.instance.now pass.new }
    ensures gives { IfOk result (λ given. GivesNext (λ base history mine. IsSince (seen_by turns.now.since.value) base history mine (seen_by pass.old))
        (λ base history mine. IsSince (seen_by turns.now.since.value) base history mine (seen_by pass.new)) (λ _. ⊤) session.now given buffers.new.packet) }
    ensures stops { OnErr result (StopsNext (λ base history mine. IsSince (seen_by turns.now.since.value) base history mine (seen_by pass.old))
        (λ base history mine. IsSince (seen_by turns.now.since.value) base history mine (seen_by pass.new)) (λ _. ⊤) session.now) }
{
    let mut front = 0;
    reply(turns, pass, alloc, session, job, buffers, &mut front)?;
    Ok(Some(Given {
        front,
        ends: job.ends,
    }))
}

/// Asks a job in a turn, and writes the packet of its reply in place of the one before. Tells how many
/// steps the history has then.
fn reply<R: Wait>(
    turns: &Turns<'_, R>,
    pass: &mut Pass,
    alloc: Global,
    session: &Session,
    job: &JobRef<'_>,
    buffers: &mut Buffers,
    front: &mut u64,
) -> Result<(), AllocError>
    requires can_call { CanCall turns.now.instance.now pass.old }
    requires next { IsNextJob session.now (job_view job.now) job.now.ends }
    requires job { IsJob (job_view job.now) }
    ensures can_call { CanCall turns.now.instance.now pass.new }
    ensures asks { OnOk result (Asks (job_view job.now) (seen_by pass.old) (seen_by pass.new) front.new buffers.new.packet) }
    ensures stops { OnErr result ((packet : List ℕ) × Asks (job_view job.now) (seen_by pass.old) (seen_by pass.new) front.new packet) }
{
    buffers.packet.truncate(0);
    match &job.ask {
        AskRef::Request(request) => {
            let (answered, stepped) = request_in_turn(
                turns,
                pass,
                session,
                job.name,
                request,
                &mut buffers.found,
            );
            *front = stepped.front;
            write_answer(alloc, job.sync, stepped.schema, &answered, buffers)
        }
        AskRef::Refused(refusal) => {
            let stepped = refuse_in_turn(turns, pass, session);
            *front = stepped.front;
            write_error(
                alloc,
                job.sync,
                stepped.schema,
                refusal,
                &mut buffers.packet,
            )
        }
    }
}

/// Asks the next job of a session, which is this request. The answer's tuples go into `found`.
fn request_in_turn<R: Wait>(
    turns: &Turns<'_, R>,
    pass: &mut Pass,
    session: &Session,
    name: TxnName,
    request: &RequestRef<'_>,
    found: &mut Tuples,
) -> (Result<Answered, Refusal>, Stepped)
    requires can_call { CanCall turns.now.instance.now pass.old }
    requires askable { IsAskable (request_view request.now) }
    requires next { AsksNext session.now name (ask.Request (request_view request.now)) }
    ensures can_call { CanCall turns.now.instance.now pass.new }
    ensures made { (job : Job) (rest : List ℕ) (ends : Bool) → next_of session.now ≡ JobSeen job rest ends
        → MakesStep (step_of job (reply_of result.0 found.new)) (seen_by pass.old) (seen_by pass.new) result.1.front result.1.schema }
{
    let mut held = turns.instance.turn.take(turns.rt, &mut pass.seat);
    let answered = held.value.engine.request_in_place(name, request, found);
    let schema = held.value.engine.schema();
    let note = Note::Answered {
        session: Snapshot::of(session),
        answered: Snapshot::of(&answered),
        found: Snapshot::of(found),
    };
    let front = turns.instance.turn.give(&mut pass.seat, held, &note);
    (answered, Stepped { front, schema })
}

/// Notes that the next job of a session is refused.
fn refuse_in_turn<R: Wait>(turns: &Turns<'_, R>, pass: &mut Pass, session: &Session) -> Stepped
    requires can_call { CanCall turns.now.instance.now pass.old }
    requires next { (name : TxnName) × (refusal : Refusal) × AsksNext session.now name (ask.Refused refusal) }
    ensures can_call { CanCall turns.now.instance.now pass.new }
    ensures made { (job : Job) (rest : List ℕ) (ends : Bool) (refusal : Refusal) → next_of session.now ≡ JobSeen job rest ends → job.ask ≡ ask.Refused refusal
        → MakesStep (step_of job (Refused refusal)) (seen_by pass.old) (seen_by pass.new) result.front result.schema }
{
    let mut held = turns.instance.turn.take(turns.rt, &mut pass.seat);
    held.value.engine.look();
    let schema = held.value.engine.schema();
    let note = Note::Refused {
        session: Snapshot::of(session),
    };
    let front = turns.instance.turn.give(&mut pass.seat, held, &note);
    Stepped { front, schema }
}
