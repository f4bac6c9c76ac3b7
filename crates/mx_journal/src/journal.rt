//! The journal.

ghost use Rattle.std.specs.Prelude.{◌≡◌, ◌+◌, ◌++◌, ◌∷◌, [], ⊤, false, true, List, length, Some, IfOk, OnErr, OnOk};
ghost use Rattle.mx_outside.specs.Causes.{HasCauseOf};
ghost use Rattle.mx_outside.specs.Disks.{Disk, Files, IfKnown, KnownAlike};
ghost use Rattle.mx_outside.specs.Moments.{Moments};
ghost use Rattle.mx_xlog.specs.Headers.{IsHead};
ghost use Rattle.mx_row.specs.declared.tx.Tx.{Tx};
ghost use Rattle.mx_row.specs.Rows.{IsTransaction};
ghost use Rattle.mx_row.specs.Clocks.{follows, clock_after_one};
ghost use Rattle.mx_journal.specs.Counting.{SameButPushed, caught_up};
ghost use Rattle.mx_journal.specs.declared.fault.JournalFault.TheVariants.{Failed};
ghost use Rattle.mx_images.specs.Fair.{IsFair};
ghost use Rattle.mx_journal.specs.Groups.{whole_text};
ghost use Rattle.mx_journal.specs.Crashes.{HasAtLeast, HasBegun, HasMost, MayBegin, NoFewer};
ghost use Rattle.mx_journal.specs.Written.{AddsPacked, IsWritten, Waits, IsNewest, HasEnded, Created, name_of};
ghost use Rattle.mx_images.specs.Changes.{IsNow, KeepsOthers, SameOthers};

use crate::fault::JournalFault;
use crate::making::{append_synced, make_file};
use crate::pack::Pack;
use mx_files::journal_name;
use mx_msgpack::Bytes;
use mx_outside::Dir;
use mx_row::Tx;
use mx_vclock::Vclock;
use mx_xlog::{Head, write_end, write_header};
use std::alloc::{AllocError, Global};

/// A journal that writes to one file of a directory, whose name is the signature of the vclock at
/// which the file begins. It doesn't own the directory; each call takes it.
///
/// Transactions are pushed, and wait until they are written out, in as few blocks as fit, and synced.
#[derive(Drop)]
pub struct Journal {
    head: Head,
    name: String,
    clock: Vclock,
    length: u64,
    synced: u64,
    waiting: Pack,
    next: Vclock,
    pushed: u64,
}

impl Journal {
    /// Begins a journal: a file that has a header and no block. It gets its name once it is durable,
    /// and replaces a file that has this name.
    ///
    /// Until it returns, each crash image is one of the directory as it was before, except for this
    /// file; after `Ok` each crash image has this file too. Files that aren't the database's are kept.
    ///
    /// # Errors
    /// A call on the directory failed, or out of memory.
    pub fn create<D: Dir>(alloc: Global, dir: &mut D, head: Head) -> Result<Journal, JournalFault>
        requires fits { IsHead head }
        requires kind { head.snapshot ≡ false }
        requires newest { IfKnown (D.states dir.old) (λ disk past. IsNewest (name_of head) disk) }
        ensures told { KnownAlike (D.states dir.old) (D.states dir.new) }
        ensures created { IfKnown (D.states dir.old) (λ disk past. IfOk result (λ journal.
            IsNow (D.states dir.new) (λ now. IsWritten journal now [] × Created head disk now))) }
        ensures moments { IfKnown (D.states dir.old) (λ disk past. Moments (MayBegin head disk) (MayBegin head) (D.states dir.new) disk past) }
        ensures others { IfKnown (D.states dir.old) (λ disk past. Moments (λ _. ⊤) KeepsOthers (D.states dir.new) disk past) }
        ensures there { IfKnown (D.states dir.old) (λ disk past. IfOk result (λ journal.
            IsNow (D.states dir.new) (λ now. (image : Files) → IsFair now image → HasBegun head disk image))) }
        ensures begins { IfOk result (λ journal. (journal.head ≡ head) × (journal.clock ≡ head.clock) × Waits journal []) }
        ensures cause { HasCauseOf Failed (D.faults dir.old) (D.faults dir.new) result }
    {
        let name = journal_name(alloc, head.clock.signature())?;
        let mut header = Bytes::new(alloc);
        write_header(alloc, &head, &mut header)?;
        make_file(alloc, dir, name.as_str(), header.as_slice())?;
        Ok(Journal {
            head,
            name,
            clock: head.clock,
            length: header.len() as u64,
            synced: 0,
            waiting: Pack::new(alloc),
            next: head.clock,
            pushed: 0,
        })
    }

    /// Adds a transaction to those that wait. It has the next lsn of its replica.
    ///
    /// # Errors
    /// Out of memory; the journal is as before.
    pub fn push(&mut self, alloc: Global, tx: &Tx) -> Result<(), AllocError>
        requires sound { IsTransaction tx.now }
        requires follows { follows self.old.next tx.now ≡ true }
        ensures waits { (waits : List Tx) → Waits self.old waits → OnOk result (Waits self.new (waits ++ tx.now ∷ [])) }
        ensures next { OnOk result (self.new.next ≡ clock_after_one self.old.next tx.now) }
        ensures written { (disk : Disk) (txs : List Tx) → IsWritten self.old disk txs → IsWritten self.new disk txs }
        ensures head { self.new.head ≡ self.old.head }
        ensures clock { self.new.clock ≡ self.old.clock }
        ensures err { OnErr result (self.new ≡ self.old) }
    {
        let Some(pushed) = self.pushed.checked_add(1) else {
            return Err(AllocError);
        };
        self.waiting.push(alloc, tx)?;
        self.note_pushed(tx, pushed);
        Ok(())
    }

    fn note_pushed(&mut self, tx: &Tx, pushed: u64)
        requires sound { IsTransaction tx.now }
        requires follows { follows self.old.next tx.now ≡ true }
        ensures next { self.new.next ≡ clock_after_one self.old.next tx.now }
        ensures pushed { self.new.pushed ≡ pushed }
        ensures others { SameButPushed self.old self.new }
    {
        self.next.set(tx.replica.0, tx.last_lsn().0);
        self.pushed = pushed;
    }

    /// Writes what waits, and syncs it. Says how many of its transactions are durable.
    ///
    /// After a crash meanwhile the journal's file has those that it had, and perhaps a prefix of those
    /// that wait; no other file changes.
    ///
    /// # Errors
    /// A call on the directory failed, or out of memory. The journal can't be used any more.
    pub fn write_out<D: Dir>(&mut self, alloc: Global, dir: &mut D) -> Result<u64, JournalFault>
        requires { IfKnown (D.states dir.old) (λ disk past. (txs : List Tx) × IsWritten self.old disk txs) }
        ensures told { KnownAlike (D.states dir.old) (D.states dir.new) }
        ensures written { (txs waits : List Tx) → IfKnown (D.states dir.old) (λ disk past. IsWritten self.old disk txs → Waits self.old waits
            → OnOk result (IsNow (D.states dir.new) (λ now. IsWritten self.new now (txs ++ waits) × SameOthers (name_of self.old.head) disk now))) }
        ensures moments { (txs waits : List Tx) → IfKnown (D.states dir.old) (λ disk past. IsWritten self.old disk txs → Waits self.old waits
            → Moments (λ now. SameOthers (name_of self.old.head) disk now × HasAtLeast self.old.head (txs ++ waits) (length txs) now)
            (NoFewer self.old.head (txs ++ waits)) (D.states dir.new) disk past) }
        ensures reads { (txs waits : List Tx) → IfKnown (D.states dir.old) (λ disk past. IsWritten self.old disk txs → Waits self.old waits
            → Moments (HasMost self.old.head (txs ++ waits)) (λ _ _. ⊤) (D.states dir.new) disk past) }
        ensures others { IfKnown (D.states dir.old) (λ disk past. Moments (λ _. ⊤) KeepsOthers (D.states dir.new) disk past) }
        ensures synced { (txs waits : List Tx) → IfKnown (D.states dir.old) (λ disk past. IsWritten self.old disk txs → Waits self.old waits
            → IfOk result (λ count. (count ≡ length (txs ++ waits)) × IsNow (D.states dir.new) (HasAtLeast self.old.head (txs ++ waits) count))) }
        ensures packed { (txs waits : List Tx) → IfKnown (D.states dir.old) (λ disk past. IsWritten self.old disk txs → Waits self.old waits
            → OnOk result (IsNow (D.states dir.new) (AddsPacked self.old.head waits disk))) }
        ensures none { IfOk result (λ count. Waits self.new [] × (count ≡ self.old.pushed) × (self.new.clock ≡ self.old.next)) }
        ensures head { self.new.head ≡ self.old.head }
        ensures cause { HasCauseOf Failed (D.faults dir.old) (D.faults dir.new) result }
    {
        if self.waiting.is_empty() {
            return Ok(self.note_written());
        }
        let blocks = self.waiting.take_blocks(alloc);
        let Some(length) = self.length.checked_add(blocks.len() as u64) else {
            return Err(JournalFault::NoMemory);
        };
        append_synced(alloc, dir, self.name.as_str(), blocks.as_slice())?;
        self.length = length;
        self.waiting.reuse(blocks);
        Ok(self.note_written())
    }

    fn note_written(&mut self) -> u64
        ensures journal { self.new ≡ caught_up self.old }
        ensures count { result ≡ self.old.pushed }
    {
        self.clock = self.next;
        self.synced = self.pushed;
        self.synced
    }

    /// Ends the journal in order: puts the marker of its file's end after the blocks, and syncs it.
    /// After a crash meanwhile the file has all of its transactions.
    ///
    /// # Errors
    /// A call on the directory failed, or out of memory.
    pub fn end<D: Dir>(self, alloc: Global, dir: &mut D) -> Result<(), JournalFault>
        requires written { IfKnown (D.states dir.old) (λ disk past. (txs : List Tx) × IsWritten self disk txs) }
        requires none { whole_text self.waiting ≡ [] }
        ensures told { KnownAlike (D.states dir.old) (D.states dir.new) }
        ensures ended { (txs : List Tx) → IfKnown (D.states dir.old) (λ disk past. IsWritten self disk txs
            → OnOk result (IsNow (D.states dir.new) (λ now. HasEnded self.head txs now × SameOthers (name_of self.head) disk now))) }
        ensures moments { (txs : List Tx) → IfKnown (D.states dir.old) (λ disk past. IsWritten self disk txs
            → Moments (λ now. SameOthers (name_of self.head) disk now × HasAtLeast self.head txs (length txs) now)
            (NoFewer self.head txs) (D.states dir.new) disk past) }
        ensures reads { (txs : List Tx) → IfKnown (D.states dir.old) (λ disk past. IsWritten self disk txs
            → Moments (HasMost self.head txs) (λ _ _. ⊤) (D.states dir.new) disk past) }
        ensures others { IfKnown (D.states dir.old) (λ disk past. Moments (λ _. ⊤) KeepsOthers (D.states dir.new) disk past) }
        ensures cause { HasCauseOf Failed (D.faults dir.old) (D.faults dir.new) result }
    {
        let mut marker = Bytes::new(alloc);
        write_end(&mut marker)?;
        append_synced(alloc, dir, self.name.as_str(), marker.as_slice())?;
        Ok(())
    }

    /// The vclock at which the journal's file begins.
    pub fn first(&self) -> &Vclock
        ensures { result.now ≡ self.now.head.clock }
    {
        &self.head.clock
    }

    /// The vclock that the journal's file goes up to.
    pub fn clock(&self) -> &Vclock
        ensures { result.now ≡ self.now.clock }
    {
        &self.clock
    }

    /// How many bytes the journal's file has.
    pub fn length(&self) -> u64
        ensures { result ≡ self.now.length }
    {
        self.length
    }
}
