//! Jobs: what the packets of a connection come to.

ghost use Rattle.std.specs.Prelude.{◌≡◌, true, IfOk};
ghost use Rattle.mx_request.specs.InPlace.{packet_view};
ghost use Rattle.mx_session.specs.JobViews.{ask_view, job_view};
ghost use Rattle.mx_session.specs.Jobs.{broken_job, job_in, job_of};

use mx_base::{ConnId, Refusal, StreamId, SyncId, TxnName};
use mx_request::{Ask, AskedRef, PacketRef, RequestRef, read_packet, to_owned};
use std::alloc::{AllocError, Global};

/// What a packet comes to, and the number by which its reply is known.
#[derive(Drop)]
pub struct Job {
    pub name: TxnName,
    pub sync: SyncId,
    pub ask: Ask,
}

/// A job whose request still stands in the session's bytes. `ends` says whether the connection ends
/// with it.
#[derive(Drop)]
pub struct JobRef<'a> {
    pub name: TxnName,
    pub sync: SyncId,
    pub ask: AskRef<'a>,
    pub ends: bool,
}

/// What a packet asks, in place.
#[derive(Drop)]
pub enum AskRef<'a> {
    Request(RequestRef<'a>),
    /// A packet that is refused before anything looks at the database.
    Refused(Refusal),
}

// A call, so that bytes that end no packet don't pay for the room that reading one needs.
#[inline(never)]
pub(crate) fn job_in(connection: ConnId, packet: &[u8]) -> JobRef<'_>
    ensures { (job_view result, result.ends) ≡ job_in connection.0 packet.now }
{
    job_of(connection, read_packet(packet))
}

#[inline(always)]
fn job_of(connection: ConnId, packet: PacketRef<'_>) -> JobRef<'_>
    ensures { (job_view result, result.ends) ≡ job_of connection.0 (packet_view packet.entry) }
{
    let name = TxnName {
        conn: connection,
        stream: packet.stream,
    };
    let sync = packet.sync;
    match packet.asked {
        AskedRef::Request(request) => JobRef {
            name,
            sync,
            ask: AskRef::Request(request),
            ends: false,
        },
        AskedRef::Refused(refusal) => JobRef {
            name,
            sync,
            ask: AskRef::Refused(refusal),
            ends: false,
        },
        AskedRef::NotMessagePack => JobRef {
            name,
            sync,
            ask: AskRef::Refused(Refusal::NotMessagePack),
            ends: true,
        },
    }
}

/// What a size that no packet may have comes to.
pub(crate) fn broken_job<'a>(connection: ConnId) -> JobRef<'a>
    ensures job { job_view result ≡ broken_job connection.0 }
    ensures ends { result.ends ≡ true }
{
    JobRef {
        name: TxnName {
            conn: connection,
            stream: StreamId(0),
        },
        sync: SyncId(0),
        ask: AskRef::Refused(Refusal::NotMessagePack),
        ends: true,
    }
}

/// The job with a request of its own.
pub(crate) fn owned_job(alloc: Global, job: JobRef<'_>) -> Result<Job, AllocError>
    ensures { IfOk result (λ owned. owned ≡ job_view job.entry) }
{
    Ok(Job {
        name: job.name,
        sync: job.sync,
        ask: owned_ask(alloc, job.ask)?,
    })
}

fn owned_ask(alloc: Global, ask: AskRef<'_>) -> Result<Ask, AllocError>
    ensures { IfOk result (λ owned. owned ≡ ask_view ask.entry) }
{
    match ask {
        AskRef::Request(request) => Ok(Ask::Request(to_owned(alloc, request)?)),
        AskRef::Refused(refusal) => Ok(Ask::Refused(refusal)),
    }
}
