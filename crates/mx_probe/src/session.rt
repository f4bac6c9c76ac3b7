//! The calls of `mx_session`, on sessions of the connection 5 whose greeting is 128 bytes 67.

ghost use Rattle.std.specs.Prelude.{◌≤◌};

use mx_arguments::{Arguments, Hex, no_call};
use mx_base::ConnId;
use mx_request::Ask;
use mx_session::{Job, Next, Session};
use std::alloc::{AllocError, Global};
use std::fmt;

/// The packet of a PING without a sync, which follows each stream.
const PING: [u8; 4] = [0x03, 0x81, 0x00, 0x40];

/// More jobs than a piece of a stream has.
const MAX_JOBS: usize = 1000;

/// The answer of the call of this name.
pub fn answer(call: &str, arguments: &mut Arguments<'_>) -> Result<String, AllocError> {
    match call {
        "jobs" => jobs(arguments),
        "pieces" => pieces(arguments),
        "steps" => steps(arguments),
        "close" => close(arguments),
        _ => no_call(arguments),
    }
}

fn session_of(alloc: Global) -> Result<Session, AllocError> {
    Session::new(alloc, ConnId(5), &[0x67; 128])
}

/// The jobs of bytes that come in pieces of a size, and what comes after them.
fn jobs(arguments: &mut Arguments<'_>) -> Result<String, AllocError> {
    let alloc = arguments.alloc();
    let size: usize = arguments.number();
    let bytes = arguments.bytes();
    if size == 0 {
        arguments.refuse_text("size of pieces", "0");
        return Ok(String::new(alloc));
    }
    jobs_in(alloc, bytes.as_slice(), size)
}

/// The same where it is the same for each size of pieces, and else the first size where it isn't.
fn pieces(arguments: &mut Arguments<'_>) -> Result<String, AllocError> {
    let alloc = arguments.alloc();
    let bytes = arguments.bytes();
    let first = jobs_in(alloc, bytes.as_slice(), 1)?;
    for size in 2..=bytes.len() {
        let other = jobs_in(alloc, bytes.as_slice(), size)?;
        if other != first {
            return format!(in alloc; "by {size}: {other}");
        }
    }
    Ok(first)
}

fn jobs_in(alloc: Global, bytes: &[u8], size: usize) -> Result<String, AllocError>
    requires { 1 ≤ size }
{
    let mut session = session_of(alloc)?;
    let mut answer = String::new(alloc);
    for piece in bytes.chunks(size) {
        session.feed(piece)?;
        take_jobs(&mut session, &mut answer)?;
    }
    session.feed(&PING)?;
    let next = take_jobs(&mut session, &mut answer)?;
    answer.push_str(next)?;
    Ok(answer)
}

/// Adds the jobs that are there, and tells what comes after them.
fn take_jobs(session: &mut Session, answer: &mut String) -> Result<&'static str, AllocError> {
    for _ in 0..MAX_JOBS {
        match session.next_job()? {
            Next::Job(job) => show(job, answer)?,
            Next::NeedMore => return Ok("more"),
            Next::Ended => return Ok("ended"),
        }
        answer.push_str("; ")?;
    }
    Ok("others")
}

/// The connection, the stream and the sync of a job, and what it asks.
fn show(job: Job, answer: &mut String) -> Result<(), AllocError> {
    let connection = job.name.conn.0;
    let stream = job.name.stream.0;
    let sync = job.sync.0;
    write!(answer, "{connection} {stream} {sync} {}", Asked(&job.ask))
}

/// What a job asks.
#[derive(Clone, Copy)]
struct Asked<'a>(&'a Ask);

impl fmt::Display for Asked<'_> {
    fn fmt<W: fmt::Write>(&self, f: &mut fmt::Formatter<W>) -> fmt::Result {
        match self.0 {
            Ask::Request(request) => write!(f, "ok {request:?}"),
            Ask::Refused(refusal) => write!(f, "err {refusal:?}"),
            Ask::Leave => f.write_str("leave"),
        }
    }
}

/// The job of a session that is closed.
fn close(arguments: &mut Arguments<'_>) -> Result<String, AllocError> {
    let alloc = arguments.alloc();
    let mut answer = String::new(alloc);
    show(session_of(alloc)?.close(), &mut answer)?;
    Ok(answer)
}

/// What each step on the replies of a session gives.
fn steps(arguments: &mut Arguments<'_>) -> Result<String, AllocError> {
    let alloc = arguments.alloc();
    let mut session = session_of(alloc)?;
    let mut answer = String::new(alloc);
    for text in arguments.others() {
        if !answer.is_empty() {
            answer.push(' ')?;
        }
        step(arguments, text, &mut session, &mut answer)?;
    }
    Ok(answer)
}

fn step(
    arguments: &mut Arguments<'_>,
    text: &str,
    session: &mut Session,
    answer: &mut String,
) -> Result<(), AllocError> {
    let (name, rest) = text.split_once(':').unwrap_or((text, ""));
    match name {
        "push" => {
            let (front, reply) = rest.split_once(':').unwrap_or((rest, ""));
            let front = arguments.number_in(front);
            session.push_reply(front, arguments.bytes_in(reply))?;
            answer.push_str("ok")
        }
        "release" => {
            session.release(arguments.number_in(rest));
            answer.push_str("ok")
        }
        "send" => {
            let bytes = arguments.bytes_in(rest);
            answer.push_str(if send(session, bytes.as_slice()) {
                "ok"
            } else {
                "other"
            })
        }
        "out" => write!(answer, "{}", Hex(session.out())),
        "waiting" => match session.waiting() {
            Some(front) => write!(answer, "{front}"),
            None => answer.push_str("none"),
        },
        _ => {
            arguments.refuse_text("step", text);
            Ok(())
        }
    }
}

/// Sends these bytes, if they are the next ones that may be sent.
fn send(session: &mut Session, bytes: &[u8]) -> bool {
    if !session.out().starts_with(bytes) {
        return false;
    }
    session.sent(bytes.len());
    true
}
