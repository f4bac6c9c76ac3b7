//! The notes of all slots.

ghost use Rattle.std.specs.Prelude.{◌≡◌, ◌≢◌, ℕ, ◌<◌, ◌≤◌, ◌-◌, [], ◌++◌, length, take, IfOk, OnOk, OnErr};
ghost use Rattle.mx_tracker.specs.Marks.{slots, is_marked};
ghost use Rattle.mx_tracker.specs.Overlaps.{is_overlapped};
ghost use Rattle.mx_tracker.specs.Tracks.{noted_reads, ChangesReads, AreEmptyFrom};

use crate::mark_set::{MarkSet, SLOTS};
use crate::read::Reads;
use crate::touched::TouchedKeys;
use std::alloc::{AllocError, Global};
use std::marker::Model;

/// What each of 1,024 slots has read.
#[derive(Drop)]
pub struct Tracker {
    alloc: Global,
    notes: Vec<Reads>,
    // Each slot from this number on has no notes.
    used: usize,
}

impl Model for Tracker {
    ghost use Rattle.mx_tracker.specs.Tracks.{Tracks, AreTracked};

    ghost Value = { Tracks };

    ghost view = { λ t. t.notes.items };

    ghost invariant = { λ t. AreTracked t.notes.items t.used };
}

impl Tracker {
    /// No slot has notes.
    pub fn new(alloc: Global) -> Result<Tracker, AllocError>
        ensures { IfOk result (λ tracker. (slot : ℕ) → noted_reads tracker slot ≡ []) }
    {
        let mut notes = Vec::with_capacity(alloc, SLOTS)?;
        for _ in 0..SLOTS {
            notes.push_reserved(Reads::new(alloc));
        }
        Ok(Tracker {
            alloc,
            notes,
            used: 0,
        })
    }

    /// Notes copies of the reads for a slot, behind those that it has.
    ///
    /// # Errors
    /// Out of memory; nothing is noted.
    pub fn note(&mut self, slot: u32, reads: &Reads) -> Result<(), AllocError>
        requires { slot < slots }
        ensures ok { OnOk result (ChangesReads self.old self.new slot (noted_reads self.old slot ++ reads.now)) }
        ensures err { OnErr result (self.new ≡ self.old) }
    {
        self.take(slot, reads.copy(self.alloc)?)
    }

    /// As `note`, without copies.
    ///
    /// # Errors
    /// Out of memory; nothing is noted.
    pub fn take(&mut self, slot: u32, reads: Reads) -> Result<(), AllocError>
        requires { slot < slots }
        ensures ok { OnOk result (ChangesReads self.old self.new slot (noted_reads self.old slot ++ reads)) }
        ensures err { OnErr result (self.new ≡ self.old) }
    {
        let slot = slot as usize;
        self.notes[slot].extend(reads)?;
        self.used = self.used.max(slot + 1);
        Ok(())
    }

    /// Keeps the first `reads` reads of a slot; does nothing where it has no more.
    pub fn truncate(&mut self, slot: u32, reads: usize)
        requires { slot < slots }
        ensures { ChangesReads self.old self.new slot (take reads (noted_reads self.old slot)) }
    {
        self.notes[slot as usize].truncate(reads);
        self.used = used_below(self.notes.as_slice(), self.used);
    }

    /// How many reads a slot has.
    pub fn len(&self, slot: u32) -> usize
        ensures { result ≡ length (noted_reads self.now slot) }
    {
        match self.notes.get(slot as usize) {
            Some(notes) => notes.len(),
            None => 0,
        }
    }

    /// Drops all notes of a slot.
    pub fn forget(&mut self, slot: u32)
        requires { slot < slots }
        ensures { ChangesReads self.old self.new slot [] }
    {
        self.notes[slot as usize].clear(self.alloc);
        self.used = used_below(self.notes.as_slice(), self.used);
    }

    /// Marks exactly the slots that read a range in which one of these keys lies.
    pub fn overlapped(&self, keys: &TouchedKeys, out: &mut MarkSet)
        ensures { (slot : ℕ) → slot < slots → is_marked out.new slot ≡ is_overlapped keys.now (noted_reads self.now slot) }
    {
        *out = MarkSet::new();
        for slot in 0..self.used {
            if self.notes[slot].are_overlapped(keys.as_slice()) {
                out.mark(slot);
            }
        }
    }
}

/// The least number, at most `used`, from which on no slot has notes.
fn used_below(notes: &[Reads], mut used: usize) -> usize
    requires within { used ≤ length notes.now }
    requires empty { AreEmptyFrom notes.now used }
    ensures less { result ≤ used }
    ensures empty { AreEmptyFrom notes.now result }
    ensures last { 0 < result → noted_reads notes.now (result - 1) ≢ [] }
{
    while used > 0 && notes[used - 1].is_empty() {
        used -= 1;
    }
    used
}
