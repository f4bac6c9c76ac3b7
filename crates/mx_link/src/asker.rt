//! Who answers the jobs of connections, and the jobs of one connection in order.

ghost use Rattle.std.specs.Prelude.{ℕ, List, IfOk, OnErr, OnOk};
ghost use Rattle.mx_session.specs.Sessions.{SessionState, next_of};
ghost use Rattle.mx_model.specs.Bases.{Base};
ghost use Rattle.mx_model.specs.Histories.{History};
ghost use Rattle.mx_link.specs.Answers.{AnswersMore, GivesNext, StopsNext};
ghost use Rattle.mx_link.specs.Links.{Answer, HasLink, IsNoJob};

use crate::buffers::Buffers;
use mx_session::Session;
use std::alloc::{AllocError, Global};

/// What was given to a job: how many steps the history has with the job's, and whether the connection
/// ends with the job.
#[derive(Clone, Copy)]
pub struct Given {
    pub front: u64,
    pub ends: bool,
}

/// Who answers a session's next job, in one step of a history.
pub trait Asker<C> {
    /// It can be asked, with this beside it.
    ghost fits: { C → Self → Type 0 };

    /// It has come to this history after the base, in which the steps at these places are its own.
    ghost at: { C → Self → Base → History → List ℕ → Type 0 };

    /// What may come between two steps of its own.
    ghost between: { History → Type 0 };

    /// Answers the next job of a session, where there is one, and writes the packet of its reply in
    /// place of the one before. The job is still the next one.
    ///
    /// # Errors
    /// Out of memory, before the job's step or after it.
    fn answer_next(
        &mut self,
        with: &C,
        alloc: Global,
        session: &Session,
        buffers: &mut Buffers,
    ) -> Result<Option<Given>, AllocError>
        requires { fits with.now self.old }
        ensures fits { fits with.now self.new }
        ensures answers { IfOk result (λ given. GivesNext (at with.now self.old) (at with.now self.new) between session.now given buffers.new.packet) }
        ensures stops { OnErr result (StopsNext (at with.now self.old) (at with.now self.new) between session.now) };
}

/// Answers all jobs of a session, in order. The replies wait until they are let go.
///
/// # Errors
/// Out of memory. The session is of no use any more then: what was made is as another session would
/// have it.
pub fn answer_all<C, A: Asker<C>>(
    asker: &mut A,
    with: &C,
    alloc: Global,
    session: &mut Session,
    buffers: &mut Buffers,
) -> Result<(), AllocError>
    requires { A.fits with.now asker.old }
    ensures fits { A.fits with.now asker.new }
    ensures answers { (base : Base) (history : History) (mine : List ℕ) (answers : List Answer) (greeting came gone : List ℕ)
        → A.at with.now asker.old base history mine → HasLink base history answers greeting came gone session.old
        → OnOk result (AnswersMore (A.at with.now asker.new) A.between base history mine answers greeting came gone session.old session.new) }
    ensures stops { (base : Base) (history : History) (mine : List ℕ) (answers : List Answer) (greeting came gone : List ℕ)
        → A.at with.now asker.old base history mine → HasLink base history answers greeting came gone session.old
        → OnErr result ((other : SessionState) × AnswersMore (A.at with.now asker.new) A.between base history mine answers greeting came gone session.old other) }
    ensures all { OnOk result (IsNoJob (next_of session.new)) }
{
    'jobs: loop {
        let Some(given) = asker.answer_next(with, alloc, session, buffers)? else {
            return Ok(());
        };
        session.pass(given.ends);
        session.push_reply_bytes(given.front, buffers.packet.as_slice())?;
    }
}
