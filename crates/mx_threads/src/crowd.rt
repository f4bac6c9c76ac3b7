//! Threads that add to one counter.
ghost use Rattle.std.specs.Prelude.{◌≡◌, ◌<◌};
ghost use Rattle.mx_turn.specs.Seats.{IsIdle, IsOf};

use mx_turn::counter::{Counter, Share, add_share};
use mx_turn::{Seat, Turn};
use std::alloc::{AllocError, Global};
use std::sync::Wait;
use std::thread;
use std::thread::Threads;

/// The sum that one thread makes.
pub(crate) fn sum_of_one<R: Wait>(rt: &R, alloc: Global, share: Share) -> Result<u64, AllocError> {
    let (turn, seat) = Turn::new(alloc, Counter { sum: 0 }, 1)?;
    let seat = add_share(rt, &turn, seat, share);
    Ok(turn.close(seat).sum)
}

/// The sum that four threads make, each with this share.
pub(crate) fn sum_of_four<R: Threads + Wait + Sync>(
    rt: &R,
    alloc: Global,
    share: Share,
) -> Result<u64, AllocError> {
    let (turn, mut seat) = Turn::new(alloc, Counter { sum: 0 }, 4)?;
    let mut other = turn.split(&mut seat);
    let part = turn.split(&mut seat);
    turn.join(&mut other, part);
    let seat = add_in_halves(rt, &turn, seat, other, share);
    Ok(turn.close(seat).sum)
}

/// Each of two seats is split over two threads. The seat that is left has all their parts.
fn add_in_halves<R: Threads + Wait + Sync>(
    rt: &R,
    turn: &Turn<Counter>,
    seat: Seat<Counter>,
    other: Seat<Counter>,
    share: Share,
) -> Seat<Counter>
    requires of { IsOf turn.now.board.shared.table_id seat × IsOf turn.now.board.shared.table_id other }
    requires idle { IsIdle seat.me × IsIdle other.me }
    requires parts { (seat.me.0.parts ≡ 2) × (other.me.0.parts ≡ 2) × (seat.me.0.seats ≡ 4) }
    ensures of { IsOf turn.now.board.shared.table_id result }
    ensures idle { IsIdle result.me }
    ensures parts { result.me.0.parts ≡ result.me.0.seats }
{
    let (mut seat, other) = thread::join(
        rt,
        move ||
            requires { IsOf turn.now.board.shared.table_id seat × IsIdle seat.me × (1 < seat.me.0.parts) }
            ensures { IsOf turn.entry.now.board.shared.table_id result × IsIdle result.me × (result.me.0.parts ≡ seat.me.0.parts) × (result.me.0.seats ≡ seat.me.0.seats) }
        { add_from_two(rt, turn, seat, share) },
        move ||
            requires { IsOf turn.now.board.shared.table_id other × IsIdle other.me × (1 < other.me.0.parts) }
            ensures { IsOf turn.entry.now.board.shared.table_id result × IsIdle result.me × (result.me.0.parts ≡ other.me.0.parts) × (result.me.0.seats ≡ other.me.0.seats) }
        { add_from_two(rt, turn, other, share) },
    );
    turn.join(&mut seat, other);
    seat
}

/// Two threads add a share each.
fn add_from_two<R: Threads + Wait + Sync>(
    rt: &R,
    turn: &Turn<Counter>,
    mut seat: Seat<Counter>,
    share: Share,
) -> Seat<Counter>
    requires of { IsOf turn.now.board.shared.table_id seat }
    requires idle { IsIdle seat.me }
    requires parts { 1 < seat.me.0.parts }
    ensures of { IsOf turn.now.board.shared.table_id result }
    ensures idle { IsIdle result.me }
    ensures parts { (result.me.0.parts ≡ seat.me.0.parts) × (result.me.0.seats ≡ seat.me.0.seats) }
{
    let other = turn.split(&mut seat);
    let (mut seat, other) = thread::join(
        rt,
        move ||
            requires { IsOf turn.now.board.shared.table_id seat × IsIdle seat.me }
            ensures { IsOf turn.entry.now.board.shared.table_id result × IsIdle result.me × (result.me.0.parts ≡ seat.me.0.parts) × (result.me.0.seats ≡ seat.me.0.seats) }
        { add_share(rt, turn, seat, share) },
        move ||
            requires { IsOf turn.now.board.shared.table_id other × IsIdle other.me }
            ensures { IsOf turn.entry.now.board.shared.table_id result × IsIdle result.me × (result.me.0.parts ≡ other.me.0.parts) }
        { add_share(rt, turn, other, share) },
    );
    turn.join(&mut seat, other);
    seat
}
