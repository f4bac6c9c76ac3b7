//! The calls of a turn.
ghost use Rattle.std.specs.Prelude.{◌≡◌, ℕ, ◌+◌, ◌<◌, ◌≤◌, true, [], ◌∷◌, length, IfOk, MatchResult, suc};
ghost use Rattle.mx_turn.specs.Rule.{max_count};
ghost use Rattle.mx_turn.specs.Views.{Extends, first_view, after_give, after_join, longer_history, part_view, after_split, shorter_history};
ghost use Rattle.mx_turn.specs.Seats.{HasSeen, HasTaken, IsBusy, IsClosed, IsHolding, IsIdle, IsOf};

use crate::board::{Busy, Held, Seat, Turn};
use crate::logged::Logged;
use crate::rule::{Beginning, Compare, Cut, Give, Glue, Look, SlotValue, Take};
use atomic_table::Table;
use std::alloc::{AllocError, Global};
use std::hint;
use std::snapshot::Snapshot;
use std::sync::Wait;
use std::sync::atomic::AtomicU64;
use std::sync::atomic::Ordering::SeqCst;

/// From this many entries on a turn counts as held for good.
pub const MAX_COUNT: u64 = (1 << 63) - 1;

// How often `take` looks at a held turn before it parks.
const MAX_LOOKS: u32 = 100;

impl<T: Logged> Turn<T> {
    /// A turn over this value with its first seat, which has all parts.
    pub fn new(alloc: Global, value: T, seats: u32) -> Result<(Turn<T>, Seat<T>), AllocError>
        requires seats { 0 < seats }
        requires empty { T.stands (T.start value) value [] }
        ensures of { IfOk result (λ made. IsOf made.0.board.shared.table_id made.1) }
        ensures first { IfOk result (λ made. made.1.me ≡ (first_view (T.start value) seats, [])) }
        ensures idle { IfOk result (λ made. IsIdle made.1.me) }
    {
        let beginning = Beginning {
            value: Snapshot::of(&value),
            seats,
        };
        let mut slots = Vec::with_capacity(alloc, 1)?;
        slots.push(Some(SlotValue { value, note: None }))?;
        let Ok((board, seat)) = Table::new(alloc, &[0], slots, &beginning) else {
            return Err(AllocError);
        };
        let parked = AtomicU64::new(0);
        Ok((Turn { board, parked }, seat))
    }

    /// Waits until the seat has the value. It doesn't return once the history has `MAX_COUNT` entries.
    pub fn take<R: Wait>(&self, rt: &R, seat: &mut Seat<T>) -> Held<T>
        requires of { IsOf self.now.board.shared.table_id seat.old }
        requires idle { IsIdle seat.old.me }
        ensures of { IsOf self.now.board.shared.table_id seat.new × (seat.new.id ≡ seat.old.id) }
        ensures taken { HasTaken T.stands T.is_alone T.is_call seat.old.me seat.new.me result.value }
    {
        for _ in rt.forever() {
            match self.try_take(seat) {
                Ok(held) => return held,
                Err(busy) => self.wait(rt, busy.count),
            }
        }
        unreachable!()
    }

    /// Returns once the word isn't that of a held turn with this count, or for no reason.
    fn wait<R: Wait>(&self, rt: &R, count: u64)
        requires { count ≤ max_count }
    {
        let word = 2 * count + 1;
        for _ in 0..MAX_LOOKS {
            if self.board.shared.peek(0) != word {
                return;
            }
            hint::spin_loop();
        }
        self.parked.fetch_add(1, SeqCst);
        self.board.shared.park(rt, 0, (word & 0xffff_ffff) as u32);
        self.parked.fetch_sub(1, SeqCst);
    }

    /// Takes the value where no seat holds it.
    ///
    /// # Errors
    /// The turn was held, or counts as held for good.
    pub fn try_take(&self, seat: &mut Seat<T>) -> Result<Held<T>, Busy>
        requires of { IsOf self.now.board.shared.table_id seat.old }
        requires idle { IsIdle seat.old.me }
        ensures of { IsOf self.now.board.shared.table_id seat.new × (seat.new.id ≡ seat.old.id) }
        ensures taken { MatchResult result (λ held. HasTaken T.stands T.is_alone T.is_call seat.old.me seat.new.me held.value) (λ busy. IsBusy seat.old.me seat.new.me busy.count) }
    {
        let word = self.board.shared.fetch_or::<Take>(seat, 0, 1);
        let count = word / 2;
        if word % 2 == 1 || count >= MAX_COUNT {
            return Err(Busy { count });
        }
        let kept = self.board.shared.exchange(seat, 0, None).unwrap();
        Ok(Held {
            value: kept.value,
            sealed: (),
        })
    }

    /// Gives the value back, which stands for one entry more, and returns the number of entries.
    pub fn give(&self, seat: &mut Seat<T>, held: Held<T>, note: &T::Note) -> u64
        requires of { IsOf self.now.board.shared.table_id seat.old }
        requires holding { IsHolding seat.old.me }
        requires stands { T.stands seat.old.me.0.base held.value (T.entry_of note.now ∷ seat.old.me.0.seen) }
        requires alone { T.is_alone (T.entry_of note.now) ≡ true → seat.old.me.0.first ≡ true }
        ensures of { IsOf self.now.board.shared.table_id seat.new × (seat.new.id ≡ seat.old.id) }
        ensures view { seat.new.me ≡ (after_give T.is_call (T.entry_of note.now) seat.old.me.0, []) }
        ensures idle { IsIdle seat.new.me }
        ensures count { result ≡ length seat.new.me.0.seen }
    {
        let Held { value, sealed: _ } = held;
        let note = Some(Snapshot::of(note));
        self.board
            .shared
            .exchange(seat, 0, Some(SlotValue { value, note }));
        let word = self.board.shared.fetch_add::<Give>(seat, 0, 1);
        if self.parked.load(SeqCst) > 0 {
            self.board.shared.wake_one(0);
        }
        word / 2 + 1
    }

    /// How many entries the history has, all of which the seat has seen then.
    pub fn front(&self, seat: &mut Seat<T>) -> u64
        requires of { IsOf self.now.board.shared.table_id seat.old }
        requires idle { IsIdle seat.old.me }
        ensures of { IsOf self.now.board.shared.table_id seat.new × (seat.new.id ≡ seat.old.id) }
        ensures seen { HasSeen T.is_alone T.is_call seat.old.me seat.new.me }
        ensures count { result ≡ length seat.new.me.0.seen }
    {
        self.board.shared.load::<Look>(seat, 0) / 2
    }

    /// A seat of its own for one part, which has seen as much.
    pub fn split(&self, seat: &mut Seat<T>) -> Seat<T>
        requires of { IsOf self.now.board.shared.table_id seat.old }
        requires idle { IsIdle seat.old.me }
        requires parts { 1 < seat.old.me.0.parts }
        ensures of { IsOf self.now.board.shared.table_id seat.new × (seat.new.id ≡ seat.old.id) }
        ensures view { seat.new.me ≡ (after_split seat.old.me.0, []) }
        ensures idle { IsIdle seat.new.me }
        ensures new_of { IsOf self.now.board.shared.table_id result }
        ensures new_view { result.me ≡ (part_view seat.old.me.0, []) }
        ensures new_idle { IsIdle result.me }
    {
        self.board.shared.split_seat::<Cut>(seat)
    }

    /// Takes in the parts of another seat, and what it has seen and added.
    pub fn join(&self, seat: &mut Seat<T>, other: Seat<T>)
        requires of { IsOf self.now.board.shared.table_id seat.old }
        requires other_of { IsOf self.now.board.shared.table_id other }
        requires idle { IsIdle seat.old.me }
        requires other_idle { IsIdle other.me }
        ensures of { IsOf self.now.board.shared.table_id seat.new × (seat.new.id ≡ seat.old.id) }
        ensures view { seat.new.me ≡ (after_join seat.old.me.0 other.me.0, []) }
        ensures one { Extends (longer_history seat.old.me.0.seen other.me.0.seen) (shorter_history seat.old.me.0.seen other.me.0.seen) }
        ensures idle { IsIdle seat.new.me }
    {
        self.board.shared.join_seat::<Glue<T>>(seat, other);
        self.board.shared.load::<Compare>(seat, 0);
    }

    /// The value, once one seat has all parts.
    pub fn close(self, seat: Seat<T>) -> T
        requires of { IsOf self.board.shared.table_id seat }
        requires idle { IsIdle seat.me }
        requires parts { seat.me.0.parts ≡ seat.me.0.seats }
        ensures { IsClosed T.stands T.is_call seat.me result }
    {
        let Turn { board, parked: _ } = self;
        let mut closed = board.close_with(seat);
        let content = closed.take(0).unwrap();
        closed.free();
        content.value
    }
}
