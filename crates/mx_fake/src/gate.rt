//! The gate of a test, which lets one connection wait for another.

ghost use Rattle.std.specs.Prelude.{◌≡◌};

use mx_outside::Gate;
use std::sync::atomic::{AtomicBool, Ordering};
use std::thread;

/// The point `number` of a turn of connection `conn`.
#[derive(Clone, Copy, Drop, PartialEq, Eq)]
pub struct Point {
    pub conn: u32,
    pub number: u32,
}

/// How the holding of a connection ended.
#[derive(Clone, Copy, Debug, Drop, PartialEq, Eq)]
pub enum Holding {
    /// The connection isn't held, or still is.
    NotEnded,
    /// The other connection passed its point.
    OtherPassed,
    /// All turns were used up.
    OutOfTurns,
}

/// Holds a connection at a point, the first time that it comes there, until another connection has
/// passed a point of its own. It looks for this at most so many times, and lets other threads run
/// in between.
#[derive(Drop)]
pub struct HoldingGate {
    held: Point,
    awaited: Point,
    turns: u32,
    came: AtomicBool,
    passed: AtomicBool,
    gave_up: AtomicBool,
    let_go: AtomicBool,
}

impl HoldingGate {
    /// A gate that holds a connection at `held` until one has passed `awaited`, for at most `turns`
    /// turns.
    pub fn new(held: Point, awaited: Point, turns: u32) -> HoldingGate
        ensures held { result.held ≡ held }
        ensures awaited { result.awaited ≡ awaited }
        ensures turns { result.turns ≡ turns }
    {
        HoldingGate {
            held,
            awaited,
            turns,
            came: AtomicBool::new(false),
            passed: AtomicBool::new(false),
            gave_up: AtomicBool::new(false),
            let_go: AtomicBool::new(false),
        }
    }

    /// How the holding ended.
    pub fn ended_by(&self) -> Holding {
        if self.let_go.load(Ordering::SeqCst) {
            return Holding::OtherPassed;
        }
        if self.gave_up.load(Ordering::SeqCst) {
            return Holding::OutOfTurns;
        }
        Holding::NotEnded
    }

    fn hold(&self) {
        for _ in 0..self.turns {
            if self.passed.load(Ordering::SeqCst) {
                self.let_go.store(true, Ordering::SeqCst);
                return;
            }
            thread::yield_now();
        }
        self.gave_up.store(true, Ordering::SeqCst);
    }
}

impl Gate for HoldingGate {
    fn pass_point(&self, conn: u32, number: u32) {
        let point = Point { conn, number };
        if point == self.awaited {
            self.passed.store(true, Ordering::SeqCst);
        }
        if point == self.held && !self.came.swap(true, Ordering::SeqCst) {
            self.hold();
        }
    }
}
