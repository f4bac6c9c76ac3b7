//! The turn and its seats as types.
ghost use Rattle.std.specs.Prelude.{◌≡◌};

use crate::logged::Logged;
use crate::rule::{Beginning, OneHistory, SlotValue};
use crate::view::View;
use std::alloc::Global;
use std::sync::atomic::AtomicU64;

pub(crate) type SlotContent<T> = Option<SlotValue<T, <T as Logged>::Note>>;

pub(crate) type Board<T> = atomic_table::Table<
    SlotContent<T>,
    View<<T as Logged>::Base, <T as Logged>::Entry>,
    Beginning<T>,
    OneHistory<T>,
    Global,
>;

/// A value that one holder at a time changes, by one entry of its history.
#[derive(Drop)]
pub struct Turn<T: Logged> {
    pub(crate) board: Board<T>,
    // How many threads park, or are about to.
    pub(crate) parked: AtomicU64,
    ghost sized: { (board.shared.table_id.words ≡ 1) × (board.shared.table_id.slots ≡ 1) },
}

/// A thread's access to one turn, and what it knows of the history. It has no bytes.
pub type Seat<T> = atomic_table::Seat<
    SlotContent<T>,
    View<<T as Logged>::Base, <T as Logged>::Entry>,
>;

/// The value, while a seat holds the turn. It isn't `Drop`: give it back by `Turn::give`.
pub struct Held<T> {
    pub value: T,
    pub(crate) sealed: (),
}

/// The turn was held.
#[derive(Clone, Copy, PartialEq, Eq)]
pub struct Busy {
    /// How many entries the history had.
    pub count: u64,
}
