//! An engine answers jobs.

ghost use Rattle.std.specs.Prelude.{◌≡◌, ◌<◌, ◌^◌, ◌-◌, ◌++◌, ◌∷◌, ⊤, [], IfOk, OnErr, OnOk};
ghost use Rattle.mx_model.specs.Bases.{Base};
ghost use Rattle.mx_model.specs.Histories.{History};
ghost use Rattle.mx_model.specs.declared.reply.Reply.{Reply};
ghost use Rattle.mx_serial.specs.ReplyStream.{packet_of_reply};
ghost use Rattle.mx_engine.specs.Standing.{EngineStandsFor};
ghost use Rattle.mx_engine.specs.Views.{reply_of};
ghost use Rattle.mx_session.specs.JobViews.{job_view};
ghost use Rattle.mx_link.specs.Asks.{IsJob};
ghost use Rattle.mx_link.specs.Links.{step_of};
ghost use Rattle.mx_link.specs.Replying.{GivesJob, Replied, StopsJob};

use crate::asker::{Asker, Given};
use crate::buffers::Buffers;
use mx_base::{Refusal, SyncId};
use mx_engine::{Answered, Engine};
use mx_reply::{ReplyBody, write_error, write_id, write_ok, write_tuples};
use mx_session::{AskRef, JobRef, NextRef, Session};
use std::alloc::{AllocError, Global};

/// The maximum number of an engine's steps.
const MAX_STEPS: u64 = (1 << 63) - 1;

/// Nobody else makes steps.
impl Asker<()> for Engine {
    ghost fits = { λ _ _. ⊤ };

    ghost at = { λ _ engine base history _. EngineStandsFor engine base history };

    ghost between = { λ others. others ≡ [] };

    fn answer_next(
        &mut self,
        _: &(),
        alloc: Global,
        session: &Session,
        buffers: &mut Buffers,
    ) -> Result<Option<Given>, AllocError> {
        match session.peek() {
            NextRef::Job(job) => answer(alloc, self, &job, buffers),
            NextRef::NeedMore | NextRef::Ended => Ok(None),
        }
    }
}

/// Answers a job, where there is room for its step.
// By reference, so that one exit drops the job.
fn answer(
    alloc: Global,
    engine: &mut Engine,
    job: &JobRef<'_>,
    buffers: &mut Buffers,
) -> Result<Option<Given>, AllocError>
    requires { IsJob (job_view job.now) }
    ensures gives { IfOk result (λ given. GivesJob engine.old engine.new (job_view job.now) job.now.ends given buffers.new.packet) }
    ensures stops { OnErr result (StopsJob engine.old engine.new (job_view job.now)) }
{
    if engine.count() >= MAX_STEPS {
        return Err(AllocError);
    }
    reply(alloc, engine, job, buffers)?;
    Ok(Some(Given {
        front: engine.count(),
        ends: job.ends,
    }))
}

/// Lets the engine answer a job, and writes the packet of its reply in place of the one before.
// A call, so that bytes that end no packet don't pay for the room that answers need.
#[inline(never)]
fn reply(
    alloc: Global,
    engine: &mut Engine,
    job: &JobRef<'_>,
    buffers: &mut Buffers,
) -> Result<(), AllocError>
    requires room { engine.old.count < 2 ^ 63 - 1 }
    requires sound { IsJob (job_view job.now) }
    ensures replied { (base : Base) (history : History) → EngineStandsFor engine.old base history
        → OnOk result (Replied base history engine.new (job_view job.now) buffers.new.packet) }
    ensures asked { (base : Base) (history : History) → EngineStandsFor engine.old base history
        → (reply : Reply) × EngineStandsFor engine.new base (step_of (job_view job.now) reply ∷ history) }
{
    buffers.packet.truncate(0);
    match &job.ask {
        AskRef::Refused(refusal) => {
            engine.look();
            let schema = engine.schema();
            write_error(alloc, job.sync, schema, refusal, &mut buffers.packet)
        }
        AskRef::Request(request) => {
            let answered = engine.request_in_place(job.name, request, &mut buffers.found);
            let schema = engine.schema();
            write_answer(alloc, job.sync, schema, &answered, buffers)
        }
    }
}

/// Adds the packet of an answer, or of why the request is refused, to the packet in the buffers. The
/// answer's tuples stand beside it.
///
/// # Errors
/// Out of memory. What the packet has then is of no use.
pub fn write_answer(
    alloc: Global,
    sync: SyncId,
    schema: u32,
    answered: &Result<Answered, Refusal>,
    buffers: &mut Buffers,
) -> Result<(), AllocError>
    ensures { OnOk result (buffers.new.packet ≡ buffers.old.packet ++ packet_of_reply schema sync.0 (reply_of answered.now buffers.old.found)) }
{
    let Buffers { found, packet } = buffers;
    match answered {
        Ok(Answered::Empty) => write_ok(alloc, sync, schema, &ReplyBody::Empty, packet),
        Ok(Answered::Tuples) => write_tuples(sync, schema, found, packet),
        Ok(Answered::Id) => write_id(alloc, sync, schema, packet),
        Err(refusal) => write_error(alloc, sync, schema, refusal, packet),
    }
}
