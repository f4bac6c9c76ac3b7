//! A connection over TCP.

ghost use Rattle.std.specs.Prelude.{◌≡◌, ◌&&◌, not, cond, Ok, Err, None, MatchResult};
ghost use Rattle.mx_outside.specs.Causes.{HasCauseOf};
ghost use Rattle.mx_outside.specs.declared.link.LinkStop.TheVariants.{Failed, NotReady};
ghost use Rattle.mx_real.specs.Faults.{link_stop_of, link_stop_of_kind};
ghost use Rattle.mx_real.specs.Sides.{rested};
ghost use Rattle.mx_real.specs.Waits.{HaveSameCounts};
ghost use Rattle.mx_real.specs.declared.side.Side.TheVariants.{Open};

use crate::hub::Hub;
use crate::room::{Room, max_wait};
use crate::side::Side;
use mio::net::TcpStream;
use mio::{Interest, Registry, Token};
use mx_outside::{Link, LinkStop};
use std::io::{ErrorKind, Read, Write};
use std::net::Net;
use std::sync::{Arc, Wait};
use std::time::Clock;
use std::{io, thread};

/// A connection over TCP. What it holds isn't known to contracts. A write to a peer that is gone is a
/// fault, and raises no signal.
#[derive(Drop)]
pub struct TcpLink<R> {
    hub: Arc<Hub<R>>,
    number: u64,
    stream: TcpStream,
    room: Option<Arc<Room>>,
    is_stopped: bool,
    reading: Side,
    writing: Side,
    faults: u64,
    read_waits: u64,
    write_waits: u64,
}

impl<R> TcpLink<R> {
    pub(crate) fn new(hub: Arc<Hub<R>>, number: u64, stream: TcpStream) -> TcpLink<R>
        ensures hub { result.hub ≡ hub }
        ensures number { result.number ≡ number }
        ensures stream { result.stream ≡ stream }
        ensures faults { result.faults ≡ 0 }
        ensures read_waits { result.read_waits ≡ 0 }
        ensures write_waits { result.write_waits ≡ 0 }
    {
        TcpLink {
            hub,
            number,
            stream,
            room: None,
            is_stopped: false,
            reading: Side::Open,
            writing: Side::Open,
            faults: 0,
            read_waits: 0,
            write_waits: 0,
        }
    }

    fn token(&self) -> Token {
        Token(self.number as usize)
    }

    fn is_in(&self, room: &Room) -> bool {
        match &self.room {
            Some(mine) => mine.number() == room.number(),
            None => false,
        }
    }

    /// Has the room's watch tell of this link. Where the system refuses, it isn't told of.
    fn enter(&mut self, room: &Arc<Room>, registry: &Registry)
        ensures faults { self.new.faults ≡ self.old.faults }
        ensures read_waits { self.new.read_waits ≡ self.old.read_waits }
        ensures write_waits { self.new.write_waits ≡ self.old.write_waits }
    {
        if self.is_in(room) {
            return;
        }
        let Ok(room) = Arc::try_clone(room) else {
            return;
        };
        let token = self.token();
        let both = Interest::READABLE | Interest::WRITABLE;
        if registry.register(&mut self.stream, token, both).is_ok() {
            self.room = Some(room);
        }
    }

    /// Takes what the room's watch told of this link.
    fn hear(&mut self, is_told: bool)
        ensures stopped { self.new.is_stopped ≡ (not is_told && self.old.is_stopped) }
        ensures reading { self.new.reading ≡ cond is_told Open (rested self.old.reading) }
        ensures writing { self.new.writing ≡ cond is_told Open (rested self.old.writing) }
        ensures faults { self.new.faults ≡ self.old.faults }
        ensures read_waits { self.new.read_waits ≡ self.old.read_waits }
        ensures write_waits { self.new.write_waits ≡ self.old.write_waits }
    {
        if is_told {
            self.is_stopped = false;
            self.reading = Side::Open;
            self.writing = Side::Open;
        } else {
            self.reading = self.reading.rested();
            self.writing = self.writing.rested();
        }
    }
}

/// The room that one of the links is in, or an empty one.
fn room_for<R: Net + Wait + Drop>(hub: &Hub<R>, links: &[TcpLink<R>]) -> io::Result<Arc<Room>> {
    for link in links {
        if let Some(room) = &link.room {
            return Ok(Arc::try_clone(room)?);
        }
    }
    hub.empty_room()
}

/// Counts the wait or the fault of a call.
fn count(
    side: &mut Side,
    waits: &mut u64,
    faults: &mut u64,
    answer: io::Result<usize>,
) -> Result<usize, LinkStop>
    ensures value { MatchResult answer (λ value. result ≡ Ok value) (λ error. result ≡ Err (link_stop_of error)) }
    ensures waits { HasCauseOf NotReady waits.old waits.new result }
    ensures cause { HasCauseOf Failed faults.old faults.new result }
{
    match answer {
        Ok(value) => {
            *side = Side::Open;
            Ok(value)
        }
        Err(error) => match stop_of(error.kind()) {
            LinkStop::NotReady => {
                *side = Side::Blocked;
                *waits = waits.saturating_add(1);
                Err(LinkStop::NotReady)
            }
            LinkStop::Failed => {
                *faults = faults.saturating_add(1);
                Err(LinkStop::Failed)
            }
        },
    }
}

/// What an error of this kind is told as.
fn stop_of(kind: ErrorKind) -> LinkStop
    ensures { result ≡ link_stop_of_kind kind }
{
    match kind {
        ErrorKind::WouldBlock => LinkStop::NotReady,
        ErrorKind::Interrupted => LinkStop::NotReady,
        _ => LinkStop::Failed,
    }
}

/// Waits in a room until there is something to tell of one of the links.
fn rest_in<R: Net + Wait + Clock + Drop>(rt: &R, room: &Arc<Room>, links: &mut [TcpLink<R>])
    ensures { HaveSameCounts links.old links.new }
{
    let mut watch = room.enter(rt);
    for link in links.iter_mut() {
        link.enter(room, watch.registry());
    }
    if watch.wait().is_err() {
        thread::sleep(rt, max_wait());
        return;
    }
    for link in links.iter_mut() {
        let is_told = !link.is_in(room) || watch.tells_of(link.token());
        link.hear(is_told);
    }
}

impl<R: Net + Wait + Clock + Drop> Link for TcpLink<R> {
    ghost left = { λ l. None };

    ghost came = { λ l. None };

    ghost gone = { λ l. None };

    ghost faults = { λ l. l.faults };

    ghost read_waits = { λ l. l.read_waits };

    ghost write_waits = { λ l. l.write_waits };

    fn read(&mut self, into: &mut [u8]) -> Result<usize, LinkStop> {
        let answer = match self.reading {
            Side::Quiet => Err(io::Error::from(ErrorKind::WouldBlock)),
            _ => self.stream.read(into),
        };
        let result = count(
            &mut self.reading,
            &mut self.read_waits,
            &mut self.faults,
            answer,
        );
        self.is_stopped = result == Err(LinkStop::NotReady);
        result
    }

    fn write(&mut self, bytes: &[u8]) -> Result<usize, LinkStop> {
        let answer = match self.writing {
            Side::Quiet => Err(io::Error::from(ErrorKind::WouldBlock)),
            _ => self.stream.write(bytes),
        };
        let answer = match answer {
            Ok(0) if !bytes.is_empty() => Err(io::Error::from(ErrorKind::WriteZero)),
            other => other,
        };
        let result = count(
            &mut self.writing,
            &mut self.write_waits,
            &mut self.faults,
            answer,
        );
        self.is_stopped = result == Err(LinkStop::NotReady);
        result
    }

    fn rest(links: &mut [TcpLink<R>]) {
        if links.iter().any(|link| !link.is_stopped) {
            return;
        }
        let Some(first) = links.first() else {
            return;
        };
        let Ok(hub) = Arc::try_clone(&first.hub) else {
            return;
        };
        match room_for(&hub, links) {
            Ok(room) => rest_in(hub.rt(), &room, links),
            // As where descriptors ran out.
            Err(_) => thread::sleep(hub.rt(), max_wait()),
        }
    }

    fn call(&self) {
        self.hub.call();
    }
}
