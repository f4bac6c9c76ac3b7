//! The session.

ghost use Rattle.std.specs.Prelude.{◌≡◌, ◌≤◌, ◌++◌, ◌∷◌, [], ℕ, List, length, drop, true, false, IfOk, MatchResult, if◌then◌else◌};
ghost use Rattle.mx_request.specs.declared.request.Ask.TheVariants as ask;
ghost use Rattle.mx_session.specs.declared.job.Job.{Job};
ghost use Rattle.mx_session.specs.JobViews.{IsJobNext, ShowsNext};
ghost use Rattle.mx_session.specs.Sessions.{JobSeen, first_front, next_of, released, unsent_length};
ghost use Rattle.mx_session.specs.Returns.{ReturnsNext};

use crate::job::{Job, JobRef, broken_job, job_in, owned_job};
use crate::outbox::Outbox;
use mx_base::{ConnId, StreamId, SyncId, TxnName};
use mx_frame::{Framed, Framer};
use mx_msgpack::Bytes;
use mx_request::Ask;
use std::alloc::{AllocError, Global};
use std::marker::Model;

/// What comes next on a connection.
#[derive(Drop)]
pub enum Next {
    /// What the next packet comes to.
    Job(Job),
    /// No whole packet came yet.
    NeedMore,
    /// A packet came that is no MessagePack, and the connection ended with it.
    Ended,
}

/// As `Next`, in place.
#[derive(Drop)]
pub enum NextRef<'a> {
    Job(JobRef<'a>),
    NeedMore,
    Ended,
}

/// One connection: the bytes that came on it as jobs, and the replies to them, each of which is sent
/// once what it depends on is durable.
#[derive(Drop)]
pub struct Session {
    alloc: Global,
    connection: ConnId,
    framer: Framer,
    ended: bool,
    outbox: Outbox,
}

impl Model for Session {
    ghost use Rattle.mx_session.specs.Sessions.{SessionState};

    ghost Value = { SessionState };

    ghost view = { λ s. record { connection = s.connection.0; rest = s.framer.rest; ended = s.ended; waiting = s.outbox.waiting; out = s.outbox.out } };
}

impl Session {
    /// The session of a new connection, on which this greeting is sent first.
    pub fn new(alloc: Global, conn: ConnId, greeting: &[u8; 128]) -> Result<Session, AllocError>
        ensures { IfOk result (λ session. session ≡ record { connection = conn.0; rest = []; ended = false; waiting = []; out = greeting.now }) }
    {
        Ok(Session {
            alloc,
            connection: conn,
            framer: Framer::new(alloc),
            ended: false,
            outbox: Outbox::new(alloc, greeting)?,
        })
    }

    /// Takes bytes that came on the connection. Once it ended they are dropped.
    ///
    /// # Errors
    /// Out of memory; the bytes aren't taken.
    pub fn feed(&mut self, piece: &[u8]) -> Result<(), AllocError>
        ensures { MatchResult result
            (λ _. self.new ≡ record self.old { rest = if self.old.ended then self.old.rest else self.old.rest ++ piece.now })
            (λ _. self.new ≡ self.old) }
    {
        if self.ended {
            return Ok(());
        }
        self.framer.feed(piece)
    }

    /// What the next packet comes to, in place, which is still the next one.
    pub fn peek(&self) -> NextRef<'_>
        ensures { ShowsNext result self.now }
    {
        if self.ended {
            return NextRef::Ended;
        }
        match self.framer.next() {
            Framed::NeedMore => NextRef::NeedMore,
            Framed::Broken { .. } => NextRef::Job(broken_job(self.connection)),
            Framed::Packet(packet) => NextRef::Job(job_in(self.connection, packet)),
        }
    }

    /// Passes the next packet, whose job `peek` showed with this `ends`.
    pub fn pass(&mut self, ends: bool)
        requires { IsJobNext self.old ends }
        ensures { (job : Job) (rest : List ℕ) → next_of self.old ≡ JobSeen job rest ends
            → self.new ≡ record self.old { rest = if ends then [] else rest; ended = ends } }
    {
        if ends {
            self.end();
        } else {
            self.framer.pass();
        }
    }

    /// What the next packet comes to, which is then passed.
    ///
    /// # Errors
    /// Out of memory; the packet is still the next one.
    pub fn next_job(&mut self) -> Result<Next, AllocError>
        ensures { ReturnsNext result self.old self.new }
    {
        match self.peek() {
            NextRef::Job(job) => {
                let ends = job.ends;
                let job = owned_job(self.alloc, job)?;
                self.pass(ends);
                Ok(Next::Job(job))
            }
            NextRef::NeedMore => Ok(Next::NeedMore),
            NextRef::Ended => Ok(Next::Ended),
        }
    }

    fn end(&mut self)
        ensures { self.new ≡ record self.old { rest = []; ended = true } }
    {
        self.ended = true;
        self.framer = Framer::new(self.alloc);
    }

    /// Whether a packet came that ended the connection.
    pub fn has_ended(&self) -> bool
        ensures { result ≡ self.now.ended }
    {
        self.ended
    }

    /// Adds the reply to a job, which may be sent once the first `front` steps of the history are
    /// durable, and not before an earlier reply.
    ///
    /// # Errors
    /// Out of memory; the reply isn't added.
    pub fn push_reply(&mut self, front: u64, reply: Bytes) -> Result<(), AllocError>
        ensures { MatchResult result
            (λ _. self.new ≡ record self.old { waiting = self.old.waiting ++ record { front = front; reply = reply } ∷ [] })
            (λ _. self.new ≡ self.old) }
    {
        self.push_reply_bytes(front, reply.as_slice())
    }

    /// As `push_reply`, of a reply whose bytes the caller keeps.
    ///
    /// # Errors
    /// Out of memory; the reply isn't added.
    pub fn push_reply_bytes(&mut self, front: u64, reply: &[u8]) -> Result<(), AllocError>
        ensures { MatchResult result
            (λ _. self.new ≡ record self.old { waiting = self.old.waiting ++ record { front = front; reply = reply.now } ∷ [] })
            (λ _. self.new ≡ self.old) }
    {
        self.outbox.push(front, reply)
    }

    /// Lets replies be sent, in order, up to the first whose `front` is above `durable`, the number of
    /// durable steps.
    pub fn release(&mut self, durable: u64)
        ensures { self.new ≡ record self.old { waiting = (released durable self.old.waiting).1; out = self.old.out ++ (released durable self.old.waiting).0 } }
    {
        self.outbox.release(durable);
    }

    /// The `front` of the first reply that waits.
    pub fn waiting(&self) -> Option<u64>
        ensures { result ≡ first_front self.now.waiting }
    {
        self.outbox.first_front()
    }

    /// The bytes that may be sent.
    pub fn out(&self) -> &[u8]
        ensures { result.now ≡ self.now.out }
    {
        self.outbox.out()
    }

    /// How many bytes wait to be sent: those that may be, and those of the replies that wait.
    pub fn unsent(&self) -> usize
        ensures { result ≡ unsent_length self.now.out self.now.waiting }
    {
        self.outbox.unsent()
    }

    /// Drops the first `count` bytes that may be sent, once they are.
    pub fn sent(&mut self, count: usize)
        requires { count ≤ length self.old.out }
        ensures { self.new ≡ record self.old { out = drop count self.old.out } }
    {
        self.outbox.sent(count);
    }

    /// Ends the session: the job of a client that disconnects.
    pub fn close(self) -> Job
        ensures { result ≡ record { name = record { conn = record { 0 = self.connection }; stream = record { 0 = 0 } }; sync = record { 0 = 0 }; ask = ask.Leave } }
    {
        Job {
            name: TxnName {
                conn: self.connection,
                stream: StreamId(0),
            },
            sync: SyncId(0),
            ask: Ask::Leave,
        }
    }
}
