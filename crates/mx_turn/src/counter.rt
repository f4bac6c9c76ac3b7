//! A counter behind a turn, and what two threads make of it.
ghost use Rattle.std.specs.Prelude.{◌≡◌, ℕ, ◌+◌, ◌*◌, ◌%◌, ◌^◌, [], ◌∷◌, IfOk};
ghost use Rattle.mx_turn.specs.Views.{first_view};
ghost use Rattle.mx_turn.specs.Seats.{IsIdle, IsOf};
ghost use Rattle.mx_turn.specs.Counting.{HasCounted, HasAll, total_of};

use crate::board::{Seat, Turn};
use crate::logged::Logged;
use std::alloc::{AllocError, Global};
use std::sync::Wait;
use std::thread;
use std::thread::Threads;

/// A sum that wraps at 2^64. Its history has the numbers that were added.
#[derive(Drop)]
pub struct Counter {
    pub sum: u64,
}

/// A number that was added.
#[derive(Clone, Copy)]
pub struct Added {
    pub amount: u32,
}

/// A number that a thread adds, and how often.
#[derive(Clone, Copy)]
pub struct Share {
    pub amount: u32,
    pub times: u32,
}

impl Logged for Counter {
    ghost use Rattle.std.specs.Prelude.{true, false};
    ghost use Rattle.mx_turn.specs.Counting.{IsSum};

    type Base = u64;

    type Entry = Added;

    type Note = Added;

    ghost start = { λ counter. counter.sum };

    ghost nowhere = { 0 };

    ghost stands = { λ base counter log. IsSum base counter.sum log };

    ghost is_alone = { λ _. false };

    ghost is_call = { λ _. true };

    ghost entry_of = { λ note. note };
}

/// Adds a thread's share, each time in a turn of its own.
pub fn add_share<R: Wait>(
    rt: &R,
    turn: &Turn<Counter>,
    mut seat: Seat<Counter>,
    share: Share,
) -> Seat<Counter>
    requires of { IsOf turn.now.board.shared.table_id seat }
    requires idle { IsIdle seat.me }
    ensures of { IsOf turn.now.board.shared.table_id result }
    ensures idle { IsIdle result.me }
    ensures parts { (result.me.0.parts ≡ seat.me.0.parts) × (result.me.0.seats ≡ seat.me.0.seats) }
    ensures added { HasCounted share.amount share.times seat.me.0 result.me.0 }
{
    let note = Added {
        amount: share.amount,
    };
    for _round in 0..share.times {
        let mut held = turn.take(rt, &mut seat);
        held.value.sum = held.value.sum.wrapping_add(u64::from(share.amount));
        turn.give(&mut seat, held, &note);
    }
    seat
}

/// Two threads add a share each. The seat that is left has all parts and has seen all that they added.
pub fn add_both<R: Threads + Wait + Sync>(
    rt: &R,
    turn: &Turn<Counter>,
    mut seat: Seat<Counter>,
    first: Share,
    second: Share,
) -> Seat<Counter>
    requires of { IsOf turn.now.board.shared.table_id seat }
    requires fresh { seat.me ≡ (first_view seat.me.0.base 2, []) }
    ensures of { IsOf turn.now.board.shared.table_id result }
    ensures idle { IsIdle result.me }
    ensures base { result.me.0.base ≡ seat.me.0.base }
    ensures all { HasAll first second result.me.0 }
{
    let other = turn.split(&mut seat);
    let (mut seat, other) = thread::join(
        rt,
        move ||
            requires { IsOf turn.now.board.shared.table_id seat × IsIdle seat.me }
            ensures { IsOf turn.entry.now.board.shared.table_id result × IsIdle result.me × HasCounted first.amount first.times seat.me.0 result.me.0 }
        { add_share(rt, turn, seat, first) },
        move ||
            requires { IsOf turn.now.board.shared.table_id other × IsIdle other.me }
            ensures { IsOf turn.entry.now.board.shared.table_id result × IsIdle result.me × HasCounted second.amount second.times other.me.0 result.me.0 }
        { add_share(rt, turn, other, second) },
    );
    turn.join(&mut seat, other);
    turn.front(&mut seat);
    seat
}

/// The sum that two threads make of a counter is that of their shares.
pub fn sum_of_both<R: Threads + Wait + Sync>(
    rt: &R,
    alloc: Global,
    start: u64,
    first: Share,
    second: Share,
) -> Result<u64, AllocError>
    ensures { IfOk result (λ sum. sum ≡ (start + total_of first second) % 2 ^ 64) }
{
    let (turn, seat) = Turn::new(alloc, Counter { sum: start }, 2)?;
    let seat = add_both(rt, &turn, seat, first, second);
    Ok(turn.close(seat).sum)
}
