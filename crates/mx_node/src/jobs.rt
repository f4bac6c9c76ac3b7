//! Jobs: what bytes of a connection are answered.

ghost use Rattle.std.specs.Prelude.{◌≡◌, ◌++◌, ℕ, List, true, IfOk, OnOk};
ghost use Rattle.mx_session.specs.Sessions.{next_of};
ghost use Rattle.mx_model.specs.Bases.{Base};
ghost use Rattle.mx_model.specs.Histories.{History};
ghost use Rattle.mx_engine.specs.Standing.{EngineStandsFor};
ghost use Rattle.mx_link.specs.Links.{Answer, HasLink, IsNoJob};
ghost use Rattle.mx_node.specs.Answering.{AnswersBytes, IsArrival};

use mx_engine::Engine;
use mx_link::{Buffers, answer_all};
use mx_session::Session;
use std::alloc::{AllocError, Global};

/// What bytes brought to their connection: whether replies wait on it then, and whether they ended it.
#[derive(Clone, Copy)]
pub struct Arrival {
    pub waits: bool,
    pub ends: bool,
}

/// Answers what bytes that came on a connection ask, together with those before them. The replies
/// wait. Bytes after the end of the connection are dropped.
pub(crate) fn answer_bytes(
    alloc: Global,
    engine: &mut Engine,
    session: &mut Session,
    buffers: &mut Buffers,
    bytes: &[u8],
) -> Result<Arrival, AllocError>
    ensures answers { (base : Base) (history : History) (answers : List Answer) (greeting came gone : List ℕ)
        → EngineStandsFor engine.old base history → HasLink base history answers greeting came gone session.old
        → OnOk result (AnswersBytes engine.new base history answers greeting (came ++ bytes.now) gone session.old session.new) }
    ensures all { OnOk result (IsNoJob (next_of session.new)) }
    ensures after_end { session.old.ended ≡ true → OnOk result ((session.new ≡ session.old) × (engine.new ≡ engine.old)) }
    ensures arrives { IfOk result (IsArrival session.old session.new) }
{
    if session.has_ended() {
        return Ok(Arrival {
            waits: session.waiting().is_some(),
            ends: false,
        });
    }
    session.feed(bytes)?;
    answer_all(engine, &(), alloc, session, buffers)?;
    Ok(Arrival {
        waits: session.waiting().is_some(),
        ends: session.has_ended(),
    })
}
