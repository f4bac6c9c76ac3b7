//! The engine as a value that threads change in turn, one entry of its history at a time.

use mx_base::{ConnId, Refusal};
use mx_engine::{Answered, Engine, Txs};
use mx_model::Reply;
use mx_msgpack::Tuples;
use mx_session::{Job, Session};
use mx_turn::Logged;
use std::alloc::Global;
use std::marker::Model;
use std::snapshot::Snapshot;

/// An engine in a box, so that a turn moves one word.
#[derive(Drop)]
pub struct Recorded {
    pub(crate) engine: Box<Engine, Global>,
}

/// An entry of a history. No value of this type is made.
pub struct Step {}

impl Model for Step {
    ghost use Rattle.mx_model.specs.Histories.{Entry, Looked};

    ghost Value = { Entry };

    ghost view = { λ _. Looked };
}

/// What is told of an entry when the turn is given back.
#[derive(Drop)]
pub enum Note {
    /// The next job of a session, which is a request, was answered so.
    Answered {
        session: Snapshot<Session>,
        answered: Snapshot<Result<Answered, Refusal>>,
        found: Snapshot<Tuples>,
    },
    /// The next job of a session, which is refused, was told so.
    Refused {
        session: Snapshot<Session>,
    },
    /// A job was replied to.
    Asked {
        job: Snapshot<Job>,
        reply: Snapshot<Reply>,
    },
    /// A connection left.
    Left(ConnId),
    /// Commits were taken to be written.
    Took {
        txs: Snapshot<Txs>,
        upto: u64,
    },
    /// All commits among so many steps are durable.
    Confirmed(u64),
    /// It was asked what is durable.
    Looked,
}

impl Logged for Recorded {
    ghost use Rattle.std.specs.Prelude.{Some, None};
    ghost use Rattle.mx_instance.specs.Entries.{entry_of, is_journal_step, is_request};
    ghost use Rattle.mx_instance.specs.Standing.{StandsFrom};

    type Base = Option<Recorded>;

    type Entry = Step;

    type Note = Note;

    ghost start = { λ recorded. Some recorded };

    ghost nowhere = { None };

    ghost stands = { StandsFrom };

    ghost is_alone = { is_journal_step };

    ghost is_call = { is_request };

    ghost entry_of = { entry_of };
}
