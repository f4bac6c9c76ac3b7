//! What a seat knows.

use std::collections::LinkedList;

/// What a seat knows of the history, of which the newest entry stands first. The place of an entry is the number of
/// entries before it. No value of this type is made.
pub struct View<B, E> {
    /// What the history begins from.
    pub base: B,
    /// How many parts all seats have together.
    pub seats: u32,
    /// Whether this is the seat that `Turn::new` gave.
    pub first: bool,
    /// How many parts this seat has; none once it was joined to another.
    pub parts: u32,
    /// The history as far as the seat has seen it.
    pub seen: LinkedList<E>,
    /// What a seat that is being joined has seen.
    pub told: LinkedList<E>,
    /// The places of the calls that this seat added.
    pub mine: LinkedList<u64>,
    /// The places of all entries that this seat added.
    pub own: LinkedList<u64>,
    /// Whether the seat holds the turn.
    pub holds: bool,
}
