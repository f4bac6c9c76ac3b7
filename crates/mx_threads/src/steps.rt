//! The calls of two seats of one turn, one by one.
ghost use Rattle.std.specs.Prelude.{◌≡◌};
ghost use Rattle.mx_turn.specs.Seats.{IsHolding, IsIdle, IsOf};
ghost use Rattle.mx_turn.specs.Counting.{IsSum};

use mx_turn::counter::{Added, Counter};
use mx_turn::{Busy, Held, Seat, Turn};
use std::alloc::AllocGlobal;
use std::io;
use std::io::Print;
use std::sync::Wait;

/// Makes the calls, and prints what each answers.
pub(crate) fn take_steps<R: Wait + Print + AllocGlobal>(rt: &R) -> io::Result<()> {
    let (turn, mut a) = Turn::new(rt.alloc(), Counter { sum: 0 }, 3)?;
    let mut b = turn.split(&mut a);

    let held = turn.take(rt, &mut a);
    let tried = try_to_add(&turn, &mut b);
    let count = add_one(&turn, &mut a, held);
    print_try(rt, "b", tried)?;
    println!(rt; "a adds an entry: {count}")?;

    let front = turn.front(&mut b);
    println!(rt; "front of b: {front}")?;
    let held = turn.take(rt, &mut b);
    let count = add_one(&turn, &mut b, held);
    println!(rt; "b adds an entry: {count}")?;

    turn.join(&mut a, b);
    let front = turn.front(&mut a);
    println!(rt; "b joined, front of a: {front}")?;
    print_try(rt, "a", try_to_add(&turn, &mut a))?;
    println!(rt; "closed: {}", turn.close(a).sum)
}

/// Tries to take the turn, and adds an entry where that works; the number of entries then.
fn try_to_add(turn: &Turn<Counter>, seat: &mut Seat<Counter>) -> Result<u64, Busy>
    requires of { IsOf turn.now.board.shared.table_id seat.old }
    requires idle { IsIdle seat.old.me }
    ensures of { IsOf turn.now.board.shared.table_id seat.new }
    ensures idle { IsIdle seat.new.me }
    ensures parts { (seat.new.me.0.parts ≡ seat.old.me.0.parts) × (seat.new.me.0.seats ≡ seat.old.me.0.seats) }
{
    match turn.try_take(seat) {
        Ok(held) => Ok(add_one(turn, seat, held)),
        Err(busy) => Err(busy),
    }
}

fn print_try<R: Print>(rt: &R, name: &str, tried: Result<u64, Busy>) -> io::Result<()> {
    match tried {
        Ok(count) => println!(rt; "{name} takes it at once and adds an entry: {count}"),
        Err(busy) => println!(rt; "{name} finds it busy: {}", busy.count),
    }
}

/// Gives the turn back with an entry more.
fn add_one(turn: &Turn<Counter>, seat: &mut Seat<Counter>, mut held: Held<Counter>) -> u64
    requires of { IsOf turn.now.board.shared.table_id seat.old }
    requires holding { IsHolding seat.old.me }
    requires stands { IsSum seat.old.me.0.base held.value.sum seat.old.me.0.seen }
    ensures of { IsOf turn.now.board.shared.table_id seat.new }
    ensures idle { IsIdle seat.new.me }
    ensures parts { (seat.new.me.0.parts ≡ seat.old.me.0.parts) × (seat.new.me.0.seats ≡ seat.old.me.0.seats) }
{
    held.value.sum = held.value.sum.wrapping_add(1);
    turn.give(seat, held, &Added { amount: 1 })
}
