//! One node in one thread: engine, sessions and journal.

ghost use Rattle.std.specs.Prelude.{◌≡◌, ◌<◌, ◌≤◌, ◌∷◌, ◌++◌, [], length, None, Some, Err, IfOk, OnOk, OnErr, if◌then◌else◌};

use crate::commits::{leave, write_out};
use crate::jobs::{Arrival, answer_bytes};
use crate::out_units::OutUnits;
use crate::sessions::{
    drop_session, keep_session, leave_all, no_sessions, release_session, say_closed, take_session,
};
use crate::unit::Unit;
use mx_base::ConnId;
use mx_engine::Engine;
use mx_journal::{Journal, JournalFault};
use mx_link::Buffers;
use mx_model::Ids;
use mx_outside::Dir;
use mx_recover::RecoverFault;
use mx_reply::write_greeting;
use mx_session::Session;
use mx_store::{Opened, open};
use std::alloc::{AllocError, Global};

/// A node in one thread, with its connections. It doesn't own its directory; each call is given it.
#[derive(Drop)]
pub struct Single {
    alloc: Global,
    greeting: [u8; 128],
    engine: Engine,
    journal: Journal,
    /// The sessions by the numbers of their connections.
    sessions: Vec<Option<Session>>,
    buffers: Buffers,
}

impl Single {
    ghost use Rattle.std.specs.Prelude.{ℕ, ⊤, List, Option};
    ghost use mathlib.Core.List.{IsPrefix};
    ghost use Rattle.mx_outside.specs.Causes.{HasCauseOf};
    ghost use Rattle.mx_outside.specs.Disks.{Disk, IfKnown, KnownAlike};
    ghost use Rattle.mx_outside.specs.Moments.{Moments};
    ghost use Rattle.mx_images.specs.Changes.{KeepsOthers};
    ghost use Rattle.mx_journal.specs.declared.fault.JournalFault.TheVariants.{Failed as JournalFailed};
    ghost use Rattle.mx_row.specs.declared.tx.Tx.{Tx};
    ghost use Rattle.mx_directory.specs.declared.damage.Damage.{Damage};
    ghost use Rattle.mx_directory.specs.Directories.{IsDirectoryState, Origin};
    ghost use Rattle.mx_model.specs.Bases.{Base};
    ghost use Rattle.mx_model.specs.Histories.{History, Confirmed, Left, Took, ledger_of};
    ghost use Rattle.mx_session.specs.Sessions.{SessionState};
    ghost use Rattle.mx_directory.specs.Survival.{Lasts, Recovers, FollowFrom, ReadsMost, Survive, NoFewerSurvive};
    ghost use Rattle.mx_recover.specs.declared.fault.RecoverFault.TheVariants.{Damaged, Failed};
    ghost use Rattle.mx_node.specs.Inputs.{InputUnit, Bytes, Close, connection_of, max_connection};
    ghost use Rattle.mx_node.specs.Views.{unit_view};
    ghost use Rattle.mx_node.specs.Order.{AreStepsOf, AreWholeSteps};
    ghost use Rattle.mx_node.specs.Starts.{Start, IsStart};
    ghost use Rattle.mx_engine.specs.Standing.{EngineStandsFor};
    ghost use Rattle.mx_store.specs.Stores.{JournalHas};
    ghost use Rattle.mx_node.specs.Interrupted.{IsInterrupted};
    ghost use Rattle.mx_node.specs.Tables.{IsTable, session_at};
    ghost use Rattle.mx_node.specs.Ready.{Behind, Ready};
    ghost use Rattle.mx_node.specs.Serving.{CanServe, EndedNode, Serves, AnswersUnit};
    ghost use Rattle.mx_node.specs.Answering.{AnswersBeforeEnd, OnlyEngine, Releases, TakesBytes, closed_where};

    /// Opens a directory: recovers it, makes what was read durable, and begins a journal that goes on
    /// from there. A directory without files takes the identifiers. The salt is the greeting's. Files
    /// that aren't the database's are kept, by each call.
    ///
    /// # Errors
    /// The directory is damaged, and nothing in it was changed; a call on it failed; or out of memory.
    pub fn start<D: Dir>(
        alloc: Global,
        dir: &mut D,
        ids: &Ids,
        salt: &[u8; 32],
    ) -> Result<Single, RecoverFault>
        requires { ids.now.me < 32 }
        ensures serves { IfOk result (λ single. (start : Start) × IsStart start ids.now salt.now (D.states dir.old) × Serves start single [] [] (D.states dir.new)) }
        ensures told { KnownAlike (D.states dir.old) (D.states dir.new) }
        ensures moments { (origin : Origin) (earlier transactions : List Tx) → Recovers origin earlier (D.states dir.old) → IsPrefix earlier transactions → FollowFrom origin transactions
            → IfKnown (D.states dir.old) (λ disk past. Moments (Survive origin transactions 0) (NoFewerSurvive origin transactions) (D.states dir.new) disk past) }
        ensures reads { (origin : Origin) (earlier transactions : List Tx) → Recovers origin earlier (D.states dir.old) → IsPrefix earlier transactions → FollowFrom origin transactions
            → IfKnown (D.states dir.old) (λ disk past. Moments (ReadsMost origin transactions) (λ _ _. ⊤) (D.states dir.new) disk past) }
        ensures others { IfKnown (D.states dir.old) (λ disk past. Moments (λ _. ⊤) KeepsOthers (D.states dir.new) disk past) }
        ensures damaged { (damage : Damage) → result ≡ Err (Damaged damage)
            → IfKnown (D.states dir.old) (λ disk past. IsDirectoryState disk.now (Err damage)) × (D.states dir.new ≡ D.states dir.old) }
        ensures cause { HasCauseOf Failed (D.faults dir.old) (D.faults dir.new) result }
    {
        let opened = open(alloc, dir, ids)?;
        Ok(Single::over(alloc, salt, opened)?)
    }

    /// A node over an opened directory, which has no connection yet.
    fn over(alloc: Global, salt: &[u8; 32], opened: Opened) -> Result<Single, AllocError>
        ensures { (start : Start) (states : Option (List Disk)) → start.salt ≡ salt.now → EngineStandsFor opened.engine start.base []
            → JournalHas start.base [] opened.journal states → IfOk result (λ single. Serves start single [] [] states) }
    {
        let Opened { engine, journal } = opened;
        Ok(Single {
            alloc,
            greeting: write_greeting(alloc, &engine.ids().instance, salt)?,
            engine,
            journal,
            sessions: no_sessions(alloc)?,
            buffers: Buffers::new(alloc),
        })
    }

    /// Takes bytes of a connection, which the first of them open, and answers what they ask together
    /// with those before them. The replies wait. Bytes after the end of the connection are dropped.
    ///
    /// # Errors
    /// Out of memory. The node is of no use then.
    pub fn come(&mut self, conn: ConnId, bytes: &[u8]) -> Result<Arrival, AllocError>
        requires table { IsTable self.old.sessions.items }
        requires connection { conn.0 ≤ max_connection }
        ensures takes { IfOk result (TakesBytes conn.0 bytes.now self.old self.new) }
        ensures serves { (states : Option (List Disk)) → CanServe self.old states → OnOk result (CanServe self.new states) }
    {
        let mut session = take_session(
            self.alloc,
            self.sessions.as_mut_slice(),
            conn,
            &self.greeting,
        )?;
        let arrival = answer_bytes(
            self.alloc,
            &mut self.engine,
            &mut session,
            &mut self.buffers,
            bytes,
        )?;
        keep_session(self.sessions.as_mut_slice(), conn, session);
        Ok(arrival)
    }

    /// Takes what was committed, writes it out, and confirms it once it is durable: then the replies
    /// that wait may leave.
    ///
    /// # Errors
    /// A call on the directory failed, or out of memory. The node is of no use then.
    pub fn turn<D: Dir>(&mut self, dir: &mut D) -> Result<(), JournalFault>
        requires { CanServe self.old (D.states dir.old) }
        ensures ready { (base : Base) (history : History) → Behind base history self.old.engine self.old.journal (D.states dir.old)
            → OnOk result ((txs : List Tx) × (upto : ℕ) × Ready base (Confirmed upto ∷ Took txs upto ∷ history) self.new.engine self.new.journal (D.states dir.new)) }
        ensures sessions { OnOk result ((self.new.sessions.items ≡ self.old.sessions.items) × (self.new.greeting ≡ self.old.greeting)) }
        ensures serves { OnOk result (CanServe self.new (D.states dir.new)) }
        ensures lasts { (base : Base) (history : History) → Behind base history self.old.engine self.old.journal (D.states dir.old)
            → Lasts base history (D.states dir.old) (D.states dir.new) }
        ensures others { IfKnown (D.states dir.old) (λ disk past. Moments (λ _. ⊤) KeepsOthers (D.states dir.new) disk past) }
        ensures cause { HasCauseOf JournalFailed (D.faults dir.old) (D.faults dir.new) result }
    {
        write_out(self.alloc, &mut self.engine, &mut self.journal, dir)?;
        Ok(())
    }

    /// Lets go the replies of a connection that may leave, and adds all that it may be sent to `out`.
    ///
    /// # Errors
    /// Out of memory. The node is of no use then.
    pub fn release(&mut self, conn: ConnId, out: &mut OutUnits) -> Result<(), AllocError>
        requires table { IsTable self.old.sessions.items }
        requires connection { conn.0 ≤ max_connection }
        ensures sent { (base : Base) (history : History) (session : SessionState) → EngineStandsFor self.old.engine base history
            → session_at self.old.sessions.items conn.0 ≡ Some session
            → OnOk result (Releases (ledger_of base history).durable conn.0 session self.old self.new out.old out.new) }
        ensures none { session_at self.old.sessions.items conn.0 ≡ None
            → OnOk result ((out.new ≡ out.old) × (self.new.engine ≡ self.old.engine) × OnlyEngine self.old self.new) }
        ensures serves { (states : Option (List Disk)) → CanServe self.old states → OnOk result (CanServe self.new states) }
    {
        let durable = self.engine.durable();
        let place = &mut self.sessions.as_mut_slice()[conn.0 as usize];
        release_session(self.alloc, durable, place, conn, out)?;
        Ok(())
    }

    /// Takes the departure of a connection, which its bytes ended.
    ///
    /// # Errors
    /// Out of memory. The node is of no use then.
    pub fn leave(&mut self, conn: ConnId) -> Result<(), AllocError>
        ensures left { (base : Base) (history : History) → EngineStandsFor self.old.engine base history
            → OnOk result (EngineStandsFor self.new.engine base (Left conn.0 ∷ history)) }
        ensures only { OnOk result (OnlyEngine self.old self.new) }
        ensures serves { (states : Option (List Disk)) → CanServe self.old states → OnOk result (CanServe self.new states) }
    {
        leave(&mut self.engine, conn)?;
        Ok(())
    }

    /// Takes a unit, and gives what its connection is sent for it: replies, and an empty unit where
    /// the server closes it. What the unit commits is durable then.
    ///
    /// # Errors
    /// A call on the directory failed, or out of memory. The node is of no use then.
    pub fn unit<D: Dir>(&mut self, dir: &mut D, unit: Unit<'_>) -> Result<OutUnits, JournalFault>
        requires serves { CanServe self.old (D.states dir.old) }
        requires connection { connection_of (unit_view unit) ≤ max_connection }
        ensures took { (start : Start) (units : List InputUnit) (history : History) → Serves start self.old units history (D.states dir.old)
            → IfOk result (λ sent. AnswersUnit start self.new units history (unit_view unit.entry) sent (D.states dir.old) (D.states dir.new)) }
        ensures breaks { (start : Start) (units : List InputUnit) (history : History) → Serves start self.old units history (D.states dir.old)
            → OnErr result (IsInterrupted start.base history (AreStepsOf (units ++ unit_view unit.entry ∷ [])) (D.states dir.old) (D.states dir.new)) }
        ensures serves { OnOk result (CanServe self.new (D.states dir.new)) }
        ensures others { IfKnown (D.states dir.old) (λ disk past. Moments (λ _. ⊤) KeepsOthers (D.states dir.new) disk past) }
        ensures cause { HasCauseOf JournalFailed (D.faults dir.old) (D.faults dir.new) result }
    {
        match unit {
            Unit::Bytes { conn, bytes } => self.bytes(dir, conn, bytes),
            Unit::Close { conn } => Ok(self.close(conn)?),
        }
    }

    /// Takes bytes of a connection, and gives what it is sent for them.
    fn bytes<D: Dir>(
        &mut self,
        dir: &mut D,
        connection: ConnId,
        bytes: &[u8],
    ) -> Result<OutUnits, JournalFault>
        requires serves { CanServe self.old (D.states dir.old) }
        requires connection { connection.0 ≤ max_connection }
        ensures took { (start : Start) (units : List InputUnit) (history : History) → Serves start self.old units history (D.states dir.old)
            → IfOk result (λ sent. AnswersUnit start self.new units history (Bytes connection.0 bytes.now) sent (D.states dir.old) (D.states dir.new)) }
        ensures breaks { (start : Start) (units : List InputUnit) (history : History) → Serves start self.old units history (D.states dir.old)
            → OnErr result (IsInterrupted start.base history (AreStepsOf (units ++ Bytes connection.0 bytes.now ∷ [])) (D.states dir.old) (D.states dir.new)) }
        ensures serves { OnOk result (CanServe self.new (D.states dir.new)) }
        ensures others { IfKnown (D.states dir.old) (λ disk past. Moments (λ _. ⊤) KeepsOthers (D.states dir.new) disk past) }
        ensures cause { HasCauseOf JournalFailed (D.faults dir.old) (D.faults dir.new) result }
    {
        let mut out = OutUnits::new(self.alloc);
        if bytes.is_empty() {
            return Ok(out);
        }
        let ended = self.answer(dir, connection, bytes, &mut out)?;
        self.leave_where(connection, ended, &mut out)?;
        Ok(out)
    }

    /// Answers bytes of a connection, and says whether they ended it.
    fn answer<D: Dir>(
        &mut self,
        dir: &mut D,
        connection: ConnId,
        bytes: &[u8],
        out: &mut OutUnits,
    ) -> Result<bool, JournalFault>
        requires serves { CanServe self.old (D.states dir.old) }
        requires connection { connection.0 ≤ max_connection }
        requires none { out.old ≡ [] }
        requires some { 0 < length bytes.now }
        ensures alone { (start : Start) (units : List InputUnit) (history : History) → Serves start self.old units history (D.states dir.old)
            → IfOk result (AnswersBeforeEnd start units history connection.0 bytes.now self.old self.new (D.states dir.old) (D.states dir.new) out.new) }
        ensures breaks { (start : Start) (units : List InputUnit) (history : History) → Serves start self.old units history (D.states dir.old)
            → OnErr result (IsInterrupted start.base history (AreStepsOf (units ++ Bytes connection.0 bytes.now ∷ [])) (D.states dir.old) (D.states dir.new)) }
        ensures serves { OnOk result (CanServe self.new (D.states dir.new)) }
        ensures others { IfKnown (D.states dir.old) (λ disk past. Moments (λ _. ⊤) KeepsOthers (D.states dir.new) disk past) }
        ensures cause { HasCauseOf JournalFailed (D.faults dir.old) (D.faults dir.new) result }
    {
        let arrival = self.come(connection, bytes)?;
        if arrival.waits {
            self.turn(dir)?;
        }
        self.release(connection, out)?;
        Ok(arrival.ends)
    }

    /// Says after what a connection is sent that it has ended, where it has, and takes its departure.
    fn leave_where(
        &mut self,
        connection: ConnId,
        ended: bool,
        out: &mut OutUnits,
    ) -> Result<(), AllocError>
        ensures out { OnOk result (out.new ≡ out.old ++ closed_where connection.0 ended) }
        ensures left { (base : Base) (history : History) → EngineStandsFor self.old.engine base history
            → OnOk result (EngineStandsFor self.new.engine base (if ended then Left connection.0 ∷ history else history)) }
        ensures only { OnOk result (OnlyEngine self.old self.new) }
        ensures serves { (states : Option (List Disk)) → CanServe self.old states → OnOk result (CanServe self.new states) }
    {
        if !ended {
            return Ok(());
        }
        say_closed(self.alloc, connection, out)?;
        self.leave(connection)?;
        Ok(())
    }

    /// Closes a connection, where it is open.
    fn close(&mut self, connection: ConnId) -> Result<OutUnits, AllocError>
        requires table { IsTable self.old.sessions.items }
        requires connection { connection.0 ≤ max_connection }
        ensures took { (start : Start) (units : List InputUnit) (history : History) (states : Option (List Disk)) → Serves start self.old units history states
            → IfOk result (λ sent. AnswersUnit start self.new units history (Close connection.0) sent states states) }
        ensures serves { (states : Option (List Disk)) → CanServe self.old states → OnOk result (CanServe self.new states) }
    {
        let out = OutUnits::new(self.alloc);
        if !drop_session(self.sessions.as_mut_slice(), connection) {
            return Ok(out);
        }
        leave(&mut self.engine, connection)?;
        Ok(out)
    }

    /// Takes the departures of the open connections, and ends the journal in order.
    ///
    /// # Errors
    /// A call on the directory failed, or out of memory.
    pub fn end<D: Dir>(self, dir: &mut D) -> Result<(), JournalFault>
        requires { CanServe self (D.states dir.old) }
        ensures closed { (start : Start) (units : List InputUnit) (history : History) → Serves start self units history (D.states dir.old)
            → OnOk result (EndedNode start units history (D.states dir.old) (D.states dir.new)) }
        ensures breaks { (start : Start) (units : List InputUnit) (history : History) → Serves start self units history (D.states dir.old)
            → OnErr result (IsInterrupted start.base history (AreWholeSteps units) (D.states dir.old) (D.states dir.new)) }
        ensures others { IfKnown (D.states dir.old) (λ disk past. Moments (λ _. ⊤) KeepsOthers (D.states dir.new) disk past) }
        ensures cause { HasCauseOf JournalFailed (D.faults dir.old) (D.faults dir.new) result }
    {
        let Single {
            alloc,
            mut engine,
            journal,
            sessions,
            ..
        } = self;
        leave_all(&mut engine, &sessions)?;
        journal.end(alloc, dir)?;
        Ok(())
    }
}
