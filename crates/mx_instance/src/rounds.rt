//! A link's turn: what comes on a connection is asked, and what it is due is sent.

ghost use Rattle.std.specs.Prelude.{◌≡◌, ◌<◌, ◌≤◌, ⊤, ℕ, List, Option, length, vec_len, IfSome, MatchResult, OnOk};
ghost use Rattle.mx_outside.specs.Causes.{HasCause};
ghost use Rattle.mx_session.specs.Sessions.{SessionState, first_front, next_of};
ghost use Rattle.mx_model.specs.Bases.{Base};
ghost use Rattle.mx_model.specs.Histories.{Looked, ledger_of};
ghost use Rattle.mx_link.specs.Links.{IsNoJob};
ghost use Rattle.mx_instance.specs.Passes.{AddsStep, CanCall, Seen, seen_by};
ghost use Rattle.mx_instance.specs.Rounds.{LinkGoesOn, IsFaultBy, IsLookedAt, IsOutset, IsTurnBy, Outset, ServesLink, Stops, max_piece};
ghost use Rattle.mx_instance.specs.Reading.{IsPieceStop, IsReading, IsSent};
ghost use Rattle.mx_instance.specs.Standing.{BeganOver};

use crate::asking::Turns;
use crate::instance::{Instance, Pass};
use crate::recorded::Note;
use mx_link::{Buffers, answer_all};
use mx_outside::{Failed, Link, LinkStop};
use mx_session::{LinkTurn, Session};
use std::alloc::{AllocError, Global};
use std::snapshot::Snapshot;
use std::sync::Wait;

/// How many bytes are read at once at most.
const MAX_PIECE: usize = 65_536;

/// Nothing is read while more bytes wait to be sent.
const MAX_UNSENT: usize = 16_777_216;

/// Memory that is kept from turn to turn.
#[derive(Drop)]
pub struct LinkBuffers {
    pub(crate) piece: Vec<u8>,
    pub(crate) answers: Buffers,
    ghost whole: { vec_len piece ≡ max_piece },
}

impl LinkBuffers {
    /// Room for one read.
    pub fn new(alloc: Global) -> Result<LinkBuffers, AllocError> {
        Ok(LinkBuffers {
            piece: vec![in alloc; 0; MAX_PIECE]?,
            answers: Buffers::new(alloc),
        })
    }
}

/// What a read gave.
#[derive(Clone, Copy, PartialEq, Eq)]
enum Reading {
    Piece,
    /// Nothing more comes.
    End,
    NotReady,
    /// Nothing was read, since the connection ended or too much waits to be sent.
    Skipped,
}

impl Instance {
    /// Gives a connection a turn, in rounds: a read, all jobs of what came, what is durable then, and
    /// writes.
    pub fn serve_link<R: Wait, L: Link>(
        &self,
        rt: &R,
        pass: &mut Pass,
        session: &mut Session,
        link: &mut L,
        buffers: &mut LinkBuffers,
    ) -> LinkTurn
        requires { CanCall self.now pass.old }
        ensures can_call { CanCall self.now pass.new }
        ensures serves { (outset : Outset) → IsOutset outset (seen_by pass.old) session.old (L.came link.old) (L.gone link.old)
            → ServesLink outset (seen_by pass.new) session.new (L.came link.new) (L.gone link.new) result }
        ensures cause { IsTurnBy (L.read_waits link.old) (L.read_waits link.new) (L.write_waits link.old) (L.write_waits link.new) (L.left link.new) session.new result }
        ensures fault { IsFaultBy (L.faults link.old) (L.faults link.new) result }
    {
        'rounds: for _ in rt.forever() {
            if let Err(turn) = self.round(rt, pass, session, link, buffers) {
                return turn;
            }
        }
        unreachable!()
    }

    /// One round, after which the turn goes on or has come to this.
    fn round<R: Wait, L: Link>(
        &self,
        rt: &R,
        pass: &mut Pass,
        session: &mut Session,
        link: &mut L,
        buffers: &mut LinkBuffers,
    ) -> Result<(), LinkTurn>
        requires { CanCall self.now pass.old }
        ensures can_call { CanCall self.now pass.new }
        ensures serves { (outset : Outset) → LinkGoesOn outset (seen_by pass.old) session.old (L.came link.old) (L.gone link.old)
            → (IsNoJob (next_of outset.session) → IsNoJob (next_of session.old))
            → MatchResult result (λ _. LinkGoesOn outset (seen_by pass.new) session.new (L.came link.new) (L.gone link.new))
            (ServesLink outset (seen_by pass.new) session.new (L.came link.new) (L.gone link.new)) }
        ensures all { OnOk result (IsNoJob (next_of session.new)) }
        ensures waits { OnOk result ((L.read_waits link.new ≡ L.read_waits link.old) × (L.write_waits link.new ≡ L.write_waits link.old) × (L.faults link.new ≡ L.faults link.old)) }
        ensures cause { MatchResult result (λ _. ⊤) (IsTurnBy (L.read_waits link.old) (L.read_waits link.new) (L.write_waits link.old) (L.write_waits link.new) (L.left link.new) session.new) }
        ensures fault { MatchResult result (λ _. ⊤) (IsFaultBy (L.faults link.old) (L.faults link.new)) }
    {
        let reading = match read_piece(session, link, buffers.piece.as_mut_slice()) {
            Ok(reading) => reading,
            Err(turn) => return Err(turn),
        };
        let Ok(()) = self.answer_jobs(rt, pass, session, &mut buffers.answers) else {
            return Err(LinkTurn::NoMemory);
        };
        self.release(rt, pass, session);
        let Ok(sent) = send_all(session, link) else {
            return Err(LinkTurn::LinkFault);
        };
        if !sent || session.waiting().is_some() {
            return Err(LinkTurn::Again);
        }
        if session.has_ended() || reading == Reading::End {
            return Err(LinkTurn::Closed);
        }
        if reading == Reading::NotReady {
            return Err(LinkTurn::Again);
        }
        Ok(())
    }

    /// Asks all jobs of what came on a connection.
    fn answer_jobs<R: Wait>(
        &self,
        rt: &R,
        pass: &mut Pass,
        session: &mut Session,
        buffers: &mut Buffers,
    ) -> Result<(), AllocError>
        requires { CanCall self.now pass.old }
        ensures can_call { CanCall self.now pass.new }
        ensures answers { (outset : Outset) (link_came link_gone : Option (List ℕ)) → LinkGoesOn outset (seen_by pass.old) session.old link_came link_gone
            → MatchResult result (λ _. LinkGoesOn outset (seen_by pass.new) session.new link_came link_gone)
            (λ _. (other : SessionState) × LinkGoesOn outset (seen_by pass.new) other link_came link_gone) }
        ensures all { OnOk result (IsNoJob (next_of session.new)) }
    {
        let turns = Turns {
            rt,
            instance: self,
            since: Snapshot::of(&*pass),
        };
        answer_all(pass, &turns, self.alloc, session, buffers)
    }

    /// Lets go the replies of a connection that depend on nothing but what is durable.
    fn release<R: Wait>(&self, rt: &R, pass: &mut Pass, session: &mut Session)
        requires { CanCall self.now pass.old }
        ensures can_call { CanCall self.now pass.new }
        ensures releases { (outset : Outset) (link_came link_gone : Option (List ℕ)) → LinkGoesOn outset (seen_by pass.old) session.old link_came link_gone
            → LinkGoesOn outset (seen_by pass.new) session.new link_came link_gone × IfSome (first_front session.new.waiting) (IsLookedAt outset (seen_by pass.new)) }
        ensures same { session.new ≡ record session.old { waiting = session.new.waiting; out = session.new.out } }
    {
        // Where none waits there is nothing to let go, and an idle connection makes no step.
        if session.waiting().is_some() {
            session.release(self.look(rt, pass));
        }
    }

    /// Among how many steps all commits are durable.
    fn look<R: Wait>(&self, rt: &R, pass: &mut Pass) -> u64
        requires { CanCall self.now pass.old }
        ensures can_call { CanCall self.now pass.new }
        ensures looked { AddsStep Looked (seen_by pass.old) (seen_by pass.new) }
        ensures durable { (base : Base) → BeganOver (seen_by pass.old).base base → result ≡ (ledger_of base (seen_by pass.new).seen).durable }
    {
        let mut held = self.turn.take(rt, &mut pass.seat);
        held.value.engine.look();
        let durable = held.value.engine.durable();
        self.turn.give(&mut pass.seat, held, &Note::Looked);
        durable
    }
}

/// Reads what came next on a connection, and takes it into its session.
fn read_piece<L: Link>(
    session: &mut Session,
    link: &mut L,
    piece: &mut [u8],
) -> Result<Reading, LinkTurn>
    requires { (0 < length piece.old) × (length piece.old ≤ max_piece) }
    ensures reads { (outset : Outset) (seen : Seen) → LinkGoesOn outset seen session.old (L.came link.old) (L.gone link.old)
        → (IsNoJob (next_of outset.session) → IsNoJob (next_of session.old))
        → MatchResult result (λ _. LinkGoesOn outset seen session.new (L.came link.new) (L.gone link.new))
        (Stops outset seen session.new (L.came link.new) (L.gone link.new)) }
    ensures reading { MatchResult result (IsReading (L.read_waits link.old) (L.read_waits link.new) (L.left link.new)) IsPieceStop }
    ensures writes { L.write_waits link.new ≡ L.write_waits link.old }
    ensures fault { MatchResult result (λ _. L.faults link.new ≡ L.faults link.old) (IsFaultBy (L.faults link.old) (L.faults link.new)) }
{
    if session.has_ended() || session.unsent() > MAX_UNSENT {
        return Ok(Reading::Skipped);
    }
    let count = match link.read(piece) {
        Ok(0) => return Ok(Reading::End),
        Ok(count) => count,
        Err(LinkStop::NotReady) => return Ok(Reading::NotReady),
        Err(LinkStop::Failed) => return Err(LinkTurn::LinkFault),
    };
    let Ok(()) = session.feed(&piece[..count]) else {
        return Err(LinkTurn::NoMemory);
    };
    Ok(Reading::Piece)
}

/// Sends what may be sent. Returns whether all of it was.
fn send_all<L: Link>(session: &mut Session, link: &mut L) -> Result<bool, Failed>
    ensures sends { (outset : Outset) (seen : Seen) → LinkGoesOn outset seen session.old (L.came link.old) (L.gone link.old)
        → LinkGoesOn outset seen session.new (L.came link.new) (L.gone link.new) }
    ensures sent { MatchResult result (IsSent (L.write_waits link.old) (L.write_waits link.new) session.new.out) (λ _. ⊤) }
    ensures same { session.new ≡ record session.old { out = session.new.out } }
    ensures reads { (L.read_waits link.new ≡ L.read_waits link.old) × (L.left link.new ≡ L.left link.old) }
    ensures fault { HasCause (L.faults link.old) (L.faults link.new) result }
{
    'bytes: while !session.out().is_empty() {
        match link.write(session.out()) {
            Ok(count) => session.sent(count),
            Err(LinkStop::NotReady) => return Ok(false),
            Err(LinkStop::Failed) => return Err(Failed),
        }
    }
    Ok(true)
}
