//! The sessions of a node's connections, by the numbers of the connections.

ghost use Rattle.std.specs.Prelude.{◌≡◌, ◌<◌, ℕ, ◌∷◌, ◌++◌, [], length, None, Some, OnOk, IfOk, slice_set, unwrap_or};
ghost use Rattle.mx_session.specs.Sessions.{SessionState};
ghost use Rattle.mx_model.specs.Bases.{Base};
ghost use Rattle.mx_model.specs.Histories.{History, Left};
ghost use Rattle.mx_engine.specs.Standing.{EngineStandsFor};
ghost use Rattle.mx_node.specs.Answering.{all_sent, let_leave};
ghost use Rattle.mx_node.specs.Outputs.{closed_on, sent_on};
ghost use Rattle.mx_node.specs.Serving.{left_from};
ghost use Rattle.mx_node.specs.Tables.{IsTable, goes_on, opened, session_at};

use crate::commits::leave;
use crate::out_units::{OutUnit, OutUnits};
use crate::unit::MAX_CONNECTION;
use mx_base::ConnId;
use mx_engine::Engine;
use mx_msgpack::Bytes;
use mx_session::Session;
use std::alloc::{AllocError, Global};

/// How many connections there may be.
const CONNECTIONS: usize = MAX_CONNECTION as usize + 1;

/// A table without sessions, with a place for each connection.
pub(crate) fn no_sessions(alloc: Global) -> Result<Vec<Option<Session>>, AllocError>
    ensures table { IfOk result (λ sessions. IsTable sessions.items) }
    ensures none { IfOk result (λ sessions. (connection : ℕ) → session_at sessions.items connection ≡ None) }
{
    let mut sessions = Vec::with_capacity(alloc, CONNECTIONS)?;
    for _ in 0..CONNECTIONS {
        sessions.push(None)?;
    }
    Ok(sessions)
}

/// Takes the session of a connection out of its place, or opens one with this greeting where there
/// is none.
pub(crate) fn take_session(
    alloc: Global,
    sessions: &mut [Option<Session>],
    connection: ConnId,
    greeting: &[u8; 128],
) -> Result<Session, AllocError>
    requires { connection.0 < length sessions.old }
    ensures session { IfOk result (λ session. session ≡ unwrap_or (session_at sessions.old connection.0) (opened connection.0 greeting.now)) }
    ensures place { sessions.new ≡ slice_set sessions.old connection.0 None }
{
    match sessions[connection.0 as usize].take() {
        Some(session) => Ok(session),
        None => Session::new(alloc, connection, greeting),
    }
}

/// Puts the session of a connection into its place.
pub(crate) fn keep_session(sessions: &mut [Option<Session>], connection: ConnId, session: Session)
    requires { connection.0 < length sessions.old }
    ensures { sessions.new ≡ slice_set sessions.old connection.0 (Some session) }
{
    sessions[connection.0 as usize] = Some(session);
}

/// Drops the session of a connection, and says whether the connection was open.
pub(crate) fn drop_session(sessions: &mut [Option<Session>], connection: ConnId) -> bool
    requires { connection.0 < length sessions.old }
    ensures open { result ≡ goes_on (session_at sessions.old connection.0) }
    ensures place { sessions.new ≡ slice_set sessions.old connection.0 None }
{
    match sessions[connection.0 as usize].take() {
        Some(session) => !session.has_ended(),
        None => false,
    }
}

/// Lets go the replies of a session that depend on no more than so many steps, and adds all that it may
/// be sent to `out`.
pub(crate) fn release_session(
    alloc: Global,
    durable: u64,
    place: &mut Option<Session>,
    connection: ConnId,
    out: &mut OutUnits,
) -> Result<(), AllocError>
    ensures sent { (session : SessionState) → place.old ≡ Some session
        → OnOk result ((out.new ≡ out.old ++ sent_on connection.0 (let_leave durable session).out) × (place.new ≡ Some (all_sent (let_leave durable session)))) }
    ensures none { place.old ≡ None → OnOk result ((out.new ≡ out.old) × (place.new ≡ None)) }
{
    let Some(session) = place else {
        return Ok(());
    };
    session.release(durable);
    send(alloc, session, connection, out)?;
    Ok(())
}

/// Adds what may leave on a connection to `out`.
fn send(
    alloc: Global,
    session: &mut Session,
    connection: ConnId,
    out: &mut OutUnits,
) -> Result<(), AllocError>
    ensures out { OnOk result (out.new ≡ out.old ++ sent_on connection.0 session.old.out) }
    ensures session { OnOk result (session.new ≡ record session.old { out = [] }) }
{
    let count = session.out().len();
    if count == 0 {
        return Ok(());
    }
    let bytes = Bytes::from_slice(alloc, session.out())?;
    out.push(OutUnit {
        conn: connection,
        bytes,
    })?;
    session.sent(count);
    Ok(())
}

/// Says after what a connection is sent that the server has closed it.
pub(crate) fn say_closed(
    alloc: Global,
    connection: ConnId,
    out: &mut OutUnits,
) -> Result<(), AllocError>
    ensures { OnOk result (out.new ≡ out.old ++ closed_on connection.0 ∷ []) }
{
    out.push(OutUnit {
        conn: connection,
        bytes: Bytes::new(alloc),
    })?;
    Ok(())
}

/// Takes the departures of the connections that are open, in the order of their numbers.
pub(crate) fn leave_all(engine: &mut Engine, sessions: &[Option<Session>]) -> Result<(), AllocError>
    requires { IsTable sessions.now }
    ensures { (base : Base) (history : History) → EngineStandsFor engine.old base history
        → OnOk result (EngineStandsFor engine.new base (left_from 0 sessions.now history)) }
{
    for (number, slot) in sessions.iter().enumerate() {
        leave_one(engine, ConnId(number as u32), slot)?;
    }
    Ok(())
}

/// Takes the departure of a connection that is open.
fn leave_one(
    engine: &mut Engine,
    connection: ConnId,
    slot: &Option<Session>,
) -> Result<(), AllocError>
    ensures { (base : Base) (history : History) → EngineStandsFor engine.old base history
        → OnOk result (EngineStandsFor engine.new base (left_from connection.0 (slot.now ∷ []) history)) }
{
    let Some(session) = slot else {
        return Ok(());
    };
    if session.has_ended() {
        return Ok(());
    }
    leave(engine, connection)?;
    Ok(())
}
