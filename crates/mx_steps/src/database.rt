//! What the plain slow program and the engine tell.

use crate::asked::{Asked, NAME, request_of};
use crate::fault::StepFault;
use crate::told::{Told, check_reply};
use mx_base::{Refusal, StreamId, TxnName};
use mx_engine::{Answer, Engine};
use mx_model::{Ids, Reply};
use mx_recover::bootstrap;
use mx_slow::Slow;
use mx_vclock::Vclock;
use std::alloc::{AllocError, Global};

/// What answers requests.
#[derive(Drop)]
pub enum Database {
    /// The plain slow program.
    Slow(Slow),
    /// The engine.
    Engine(Engine),
}

impl Database {
    /// A new database of the slow program, on the node that takes writes.
    pub fn slow(alloc: Global) -> Result<Database, StepFault> {
        Ok(Database::Slow(slow_program(alloc, "{}", 1)?))
    }

    /// A new database of the engine, on the node that takes writes.
    pub fn engine(alloc: Global) -> Result<Database, StepFault> {
        Ok(Database::Engine(engine_at(alloc, "{}", 1)?))
    }

    /// The reply to a request.
    ///
    /// # Errors
    /// As of `ask_engine`.
    pub fn ask(&mut self, alloc: Global, asked: Asked<'_>) -> Result<Reply, StepFault> {
        self.ask_in(alloc, NAME.stream.0, asked)
    }

    /// The reply to a request in a stream of the connection 1, or outside of streams for 0.
    fn ask_in(&mut self, alloc: Global, stream: u64, asked: Asked<'_>) -> Result<Reply, StepFault> {
        let name = TxnName {
            conn: NAME.conn,
            stream: StreamId(stream),
        };
        match self {
            Database::Slow(slow) => Ok(slow.ask(name, &request_of(alloc, asked)?)?),
            Database::Engine(engine) => ask_engine_as(alloc, engine, name, asked),
        }
    }
}

/// The reply of an engine to a request.
///
/// # Errors
/// The engine has made 1,000 steps, or an allocation failed.
pub fn ask_engine(
    alloc: Global,
    engine: &mut Engine,
    asked: Asked<'_>,
) -> Result<Reply, StepFault> {
    ask_engine_as(alloc, engine, NAME, asked)
}

/// As `ask_engine`, under a name.
fn ask_engine_as(
    alloc: Global,
    engine: &mut Engine,
    name: TxnName,
    asked: Asked<'_>,
) -> Result<Reply, StepFault> {
    let request = request_of(alloc, asked)?;
    if engine.count() >= 1000 {
        return Err(StepFault::TooManySteps);
    }
    Ok(reply_of(engine.request(name, &request))?)
}

/// The reply in which an answer of the engine goes out.
fn reply_of(answer: Result<Answer, Refusal>) -> Result<Reply, AllocError> {
    match answer {
        Ok(Answer::Empty) => Ok(Reply::Empty),
        Ok(Answer::Tuples(tuples)) => Ok(Reply::Tuples(tuples)),
        Ok(Answer::Id) => Ok(Reply::Id),
        Err(refusal) if matches!(refusal, Refusal::OutOfMemory) => Err(AllocError),
        Err(refusal) => Ok(Reply::Refused(refusal)),
    }
}

/// The slow program with a new database that has come to a vclock, on the node of a replica id.
///
/// # Errors
/// The text is no vclock, or an allocation failed.
pub fn slow_program(alloc: Global, clock: &str, me: u8) -> Result<Slow, StepFault> {
    let clock = clock_of(clock)?;
    Ok(Slow::new(alloc, bootstrap(alloc)?, clock, ids_of(me))?)
}

/// The engine with a new database that has come to a vclock, on the node of a replica id.
///
/// # Errors
/// The text is no vclock, or an allocation failed.
pub fn engine_at(alloc: Global, clock: &str, me: u8) -> Result<Engine, StepFault> {
    let clock = clock_of(clock)?;
    Ok(Engine::from_state(alloc, bootstrap(alloc)?, clock, ids_of(me))?)
}

/// The vclock of a text.
fn clock_of(text: &str) -> Result<Vclock, StepFault> {
    match Vclock::read_text(text.as_bytes()) {
        Ok(clock) => Ok(clock),
        Err(_) => Err(StepFault::NoVclock),
    }
}

/// The identifiers of the node of a replica id.
pub fn ids_of(me: u8) -> Ids {
    Ids {
        me,
        instance: Default::default(),
        set: Default::default(),
    }
}

/// Asks, and compares the reply.
///
/// # Errors
/// Another reply came, or none.
pub fn expect(
    alloc: Global,
    database: &mut Database,
    asked: Asked<'_>,
    told: Told<'_>,
) -> Result<(), StepFault> {
    let reply = database.ask(alloc, asked)?;
    check_reply(alloc, &reply, asked, told)
}

/// A request, and what it is told.
pub type Step<'a> = (Asked<'a>, Told<'a>);

/// Asks in order, and compares.
///
/// # Errors
/// As of `expect`, at the first such step.
pub fn play(alloc: Global, database: &mut Database, steps: &[Step<'_>]) -> Result<(), StepFault> {
    for (asked, told) in steps {
        expect(alloc, database, *asked, *told)?;
    }
    Ok(())
}

/// Asks the slow program and the engine in order, each from a new database on that has come to a
/// vclock, on the node of a replica id, and compares.
///
/// # Errors
/// As of `play`.
pub fn play_at(alloc: Global, clock: &str, me: u8, steps: &[Step<'_>]) -> Result<(), StepFault> {
    let mut slow = Database::Slow(slow_program(alloc, clock, me)?);
    play(alloc, &mut slow, steps)?;
    let mut engine = Database::Engine(engine_at(alloc, clock, me)?);
    play(alloc, &mut engine, steps)
}

/// A request in a stream of the connection 1, or outside of streams for 0, and what it is told.
pub type StreamStep<'a> = (u64, Asked<'a>, Told<'a>);

/// As `play_at`, in streams.
///
/// # Errors
/// As of `play`.
pub fn play_streams_at(
    alloc: Global,
    clock: &str,
    me: u8,
    steps: &[StreamStep<'_>],
) -> Result<(), StepFault> {
    let mut slow = Database::Slow(slow_program(alloc, clock, me)?);
    play_streams(alloc, &mut slow, steps)?;
    let mut engine = Database::Engine(engine_at(alloc, clock, me)?);
    play_streams(alloc, &mut engine, steps)
}

fn play_streams(
    alloc: Global,
    database: &mut Database,
    steps: &[StreamStep<'_>],
) -> Result<(), StepFault> {
    for (stream, asked, told) in steps {
        let reply = database.ask_in(alloc, *stream, *asked)?;
        check_reply(alloc, &reply, *asked, *told)?;
    }
    Ok(())
}

/// Asks the slow program and the engine in order, each from a new database on, and compares.
///
/// # Errors
/// As of `play`.
pub fn play_both(alloc: Global, steps: &[Step<'_>]) -> Result<(), StepFault> {
    play_at(alloc, "{}", 1, steps)
}
