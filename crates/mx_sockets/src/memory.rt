//! Connections in memory, on threads of their own. One is held at a gate until another is answered.

use crate::echo::Echo;
use crate::end::End;
use mx_fake::{
    Holding, HoldingGate, MemoryAcceptor, MemoryLink, MemoryPeer, Point, Received, ThreadSpawner,
};
use mx_outside::{Accepted, Acceptor, Gate, Spawner, Work};
use std::alloc::{AllocError, Global};
use std::io::Write;
use std::sync::{Arc, Wait};
use std::thread;
use std::thread::Threads;

/// What the peers send.
const SENT: [&str; 3] = ["the first one", "nobody hears this", "the third one"];

/// How many bytes a read gives and a write takes at most.
const PIECE: usize = 4;

/// Which read or write of each connection isn't ready.
const NOT_READY: u64 = 3;

/// How many turns a connection has at most.
const TURNS: usize = 100;

/// The point behind a connection's last turn.
const ANSWERED: u32 = 2;

/// The first connection is held there until the third one was.
const HELD: Point = Point {
    conn: 1,
    number: ANSWERED,
};

const AWAITED: Point = Point {
    conn: 3,
    number: ANSWERED,
};

/// How often the gate looks at most.
const HELD_TURNS: u32 = 1_000_000;

/// Echoes what comes on one connection.
#[derive(Drop)]
struct Turns {
    conn: u32,
    link: MemoryLink,
    echo: Echo,
    gate: Arc<HoldingGate>,
}

impl Work for Turns {
    fn work(self) {
        let Turns {
            conn,
            mut link,
            mut echo,
            gate,
        } = self;
        for _ in 0..TURNS {
            if echo.is_over() {
                break;
            }
            echo.turn(&mut link);
        }
        gate.pass_point(conn, ANSWERED);
    }
}

/// Serves the peers, and writes what came of each call and what each peer received.
pub(crate) fn run<R: AllocGlobal + Threads + Wait + Copy + Drop, O: Write>(
    rt: R,
    output: &mut O,
) -> Result<(), End> {
    let alloc = rt.alloc();
    let (peers, received) = peers_of(alloc)?;
    let gate = gate_of(alloc)?;
    let mut acceptor = MemoryAcceptor::new(alloc, peers, only(alloc, 5)?, only(alloc, 1)?);
    let mut spawner = ThreadSpawner::new(rt, only(alloc, 2)?);
    let mut conn: u32 = 0;
    for _ in 0..6 {
        let told = match acceptor.accept() {
            Accepted::Link(link) => {
                conn = conn.saturating_add(1);
                start(alloc, conn, link, &gate, &mut spawner)?
            }
            Accepted::NotReady => "not ready",
            Accepted::Failed => "failed",
            Accepted::NoMemory => "no memory",
        };
        tell(output, told.as_bytes())?;
    }
    for told in &received {
        tell(output, bytes_of(&rt, told))?;
    }
    tell(output, told_of(gate.ended_by()).as_bytes())
}

/// The peers, and what tells what they received.
fn peers_of(alloc: Global) -> Result<(Vec<MemoryPeer>, Vec<Received>), AllocError> {
    let mut peers = Vec::new(alloc);
    let mut received = Vec::new(alloc);
    for sent in SENT {
        let sends = Vec::from_slice(alloc, sent.as_bytes())?;
        let not_ready = only(alloc, NOT_READY)?;
        let peer = MemoryPeer::new(alloc, sends, PIECE, Vec::new(alloc), not_ready)?;
        received.push(peer.received()?)?;
        peers.push(peer)?;
    }
    Ok((peers, received))
}

/// A list of one call.
fn only(alloc: Global, call: u64) -> Result<Vec<u64>, AllocError> {
    Ok(vec![in alloc; call]?)
}

fn gate_of(alloc: Global) -> Result<Arc<HoldingGate>, AllocError> {
    Ok(Arc::new(alloc, HoldingGate::new(HELD, AWAITED, HELD_TURNS))?)
}

/// Starts a connection's turns. Where no thread is started the connection is closed.
fn start<R: Threads>(
    alloc: Global,
    conn: u32,
    link: MemoryLink,
    gate: &Arc<HoldingGate>,
    spawner: &mut ThreadSpawner<R>,
) -> Result<&'static str, AllocError> {
    let turns = Turns {
        conn,
        link,
        echo: Echo::new(alloc)?,
        gate: Arc::try_clone(gate)?,
    };
    match spawner.start(turns) {
        Ok(()) => Ok("started"),
        Err(_) => Ok("refused"),
    }
}

/// Waits until a peer's connection is closed, and gives what the peer received.
fn bytes_of<'a>(rt: &impl Wait, received: &'a Received) -> &'a [u8] {
    for _ in rt.forever() {
        if let Some(bytes) = received.bytes() {
            return bytes;
        }
        thread::yield_now();
    }
    unreachable!()
}

fn told_of(holding: Holding) -> &'static str {
    match holding {
        Holding::NotEnded => "not held, or still held",
        Holding::OtherPassed => "held until the other was answered",
        Holding::OutOfTurns => "held for all turns",
    }
}

/// Writes a line.
fn tell<O: Write>(output: &mut O, text: &[u8]) -> Result<(), End> {
    if output.write_all(text).is_err() || output.write_all(b"\n").is_err() {
        return Err(End::Failed);
    }
    Ok(())
}
