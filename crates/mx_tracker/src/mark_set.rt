//! Marks of slots.

ghost use Rattle.std.specs.Prelude.{◌≡◌, ◌≢◌, ◌||◌, ℕ, ◌<◌, slice_set, false, true};
ghost use Rattle.mx_tracker.specs.Marks.{slots, is_marked};

use std::marker::Model;

/// How many slots there are.
pub const SLOTS: usize = 1024;

/// A mark or none for each slot, which takes no memory.
#[derive(Drop)]
pub struct MarkSet {
    marks: [bool; SLOTS],
    // No slot from this number on is marked.
    used: usize,
}

impl Model for MarkSet {
    ghost use Rattle.std.specs.Prelude.{Bool, List};
    ghost use Rattle.mx_tracker.specs.Marks.{AreMarkedBelow};

    ghost Value = { List Bool };

    ghost view = { λ m. m.marks };

    ghost invariant = { λ m. AreMarkedBelow m.marks m.used };
}

impl MarkSet {
    /// No slot is marked.
    pub fn new() -> MarkSet
        ensures { (slot : ℕ) → is_marked result slot ≡ false }
    {
        MarkSet {
            marks: [false; SLOTS],
            used: 0,
        }
    }

    /// Whether a slot is marked.
    pub fn has(&self, slot: u32) -> bool
        requires { slot < slots }
        ensures { result ≡ is_marked self.now slot }
    {
        self.marks[slot as usize]
    }

    /// Adds the marks of another set.
    pub fn add(&mut self, other: &MarkSet)
        ensures { (slot : ℕ) → slot < slots → is_marked self.new slot ≡ (is_marked self.old slot || is_marked other.now slot) }
    {
        for slot in 0..other.used {
            if other.marks[slot] {
                self.marks[slot] = true;
            }
        }
        self.used = self.used.max(other.used);
    }

    /// Marks a slot.
    pub(crate) fn mark(&mut self, slot: usize)
        requires { slot < slots }
        ensures here { is_marked self.new slot ≡ true }
        ensures others { (other : ℕ) → other ≢ slot → is_marked self.new other ≡ is_marked self.old other }
    {
        self.marks[slot] = true;
        self.used = self.used.max(slot + 1);
    }
}
