//! Open transactions.

ghost use Rattle.std.specs.Prelude.{◌≡◌, ◌≢◌, ℕ, Bool, None, false, true, not, ◌||◌, if◌then◌else◌, [], ◌++◌, ◌<◌, length, slice_get, slice_set, IfOk, IfSome, OnOk, OnErr, IsSome, IsTrue, MatchResult, Ok, ◌↔◌, Some};
ghost use Rattle.std.specs.FinMap.{get, remove};
ghost use Rattle.std.specs.List.{AllByRecursion, AllZip, filter};
ghost use Rattle.std.specs.Option.{option_copied};
ghost use Rattle.mx_row.specs.Limits.{row_size as plain_row_size, saturated};
ghost use Rattle.mx_schema.specs.State as plain;
ghost use Rattle.mx_space.specs.declared.state.State as memory;
ghost use Rattle.mx_space.specs.KeptStates.{kept_at};
ghost use Rattle.mx_space.specs.Stored.{Holds};
ghost use Rattle.mx_tracker.specs.Marks.{is_marked};
ghost use Rattle.mx_tracker.specs.Overlaps.{is_overlapped};
ghost use Rattle.mx_tracker.specs.Tracks.{ChangesReads, noted_reads};
ghost use Rattle.mx_txn.specs.Slots.{IsLive, max_open};
ghost use Rattle.mx_write.specs.declared.writable.Writer.TheVariants.{Client};
ghost use Rattle.mx_write.specs.Judge.{judged_write};
ghost use Rattle.mx_write.specs.Made as spec;
ghost use Rattle.mx_judge.specs.Makes.{MakesWrite};
ghost use Rattle.mx_write.specs.Notes.{SpellsRead};
ghost use Rattle.mx_write.specs.Writable.{describes_schema};
ghost use Rattle.mx_write.specs.Writes as statement;
ghost use Rattle.mx_model.specs.RunAlone.{Run, run_with};
ghost use Rattle.mx_model.specs.statements.Answer.{Answer};
ghost use Rattle.mx_model.specs.Streams.{Streams, begins_beside, is_name, streams_left, transaction_named, without_named};
ghost use Rattle.mx_transactions.specs.Open.{HasRun, HasSlot, HaveOwnSlots, HoldsOpen, SlotHas, WritesNothing, slot_named};
ghost use Rattle.mx_txn.specs.declared.state.TxnState.TheVariants.{Aborted, Active, View};
ghost use Rattle.mx_transactions.specs.declared.work.Work.{Work};
ghost use Rattle.mx_transactions.specs.OpenSteps.{ChangesTo, ComesTo, DropsUnread, FindsOpen, IsTrimmed, KeepsMore, KeepsNoOthers, KeepsNoUnread, Moves, MovesSlot, StandsOn, StaysAt, TellsOpen, ViewsAreKept, beside, gets_view, has_rows, is_beside, is_reader};

use crate::names::{Named, OpenNames};
use crate::work::Work;
use mx_base::{ConnId, Refusal, SpaceId, TxnName};
use mx_judge::Made;
use mx_row::Row;
use mx_space::{KeptStates, State};
use mx_tracker::{MarkSet, Reads, TouchedKeys, Tracker};
use mx_txn::{MAX_OPEN, Slot, Slots, TxnState};
use std::alloc::{AllocError, Global};
use std::marker::Model;

/// How many transactions of a connection may be open.
const MAX_OPEN_OF_CONNECTION: usize = 64;

/// The open transactions, each in a slot. A transaction that begins takes no memory.
#[derive(Drop)]
pub struct OpenTransactions {
    alloc: Global,
    names: OpenNames,
    slots: Slots,
    /// What the active transaction of each slot has read.
    tracker: Tracker,
    /// What it has written.
    works: Vec<Work>,
    /// The states that views read.
    kept: KeptStates,
}

impl Model for OpenTransactions {
    ghost use Rattle.mx_transactions.specs.Open.{Open};

    ghost Value = { Open };

    ghost use Rattle.std.specs.Coded.{codes};
    ghost use Rattle.mx_transactions.specs.Codes.{kept_code, overlay_code, txns_code};

    ghost coded = { Prim.hlevel (codes, txns_code, kept_code, overlay_code) };

    ghost use Rattle.mx_transactions.specs.Open.{AreInSlots};

    ghost view = { λ o. record { names = o.names; slots = o.slots; tracks = o.tracker; works = o.works.items; kept = o.kept } };

    ghost invariant = { λ o. AreInSlots (record { names = o.names; slots = o.slots; tracks = o.tracker; works = o.works.items; kept = o.kept }) };
}

impl OpenTransactions {
    /// No transaction is open.
    pub fn new(alloc: Global) -> Result<OpenTransactions, AllocError>
        ensures names { IfOk result (λ all. all.names ≡ []) }
        ensures kept { IfOk result (λ all. (commits : ℕ) → kept_at commits all.kept ≡ None) }
    {
        Ok(OpenTransactions {
            alloc,
            names: OpenNames::new(alloc)?,
            slots: Slots::new(alloc)?,
            tracker: Tracker::new(alloc)?,
            works: idle_works(alloc)?,
            kept: KeptStates::new(alloc),
        })
    }

    /// Opens a transaction under a name, where so many commits were made before.
    ///
    /// # Errors
    /// A transaction is open under the name, or as many are open as may be, of the connection or in all.
    pub fn begin(&mut self, name: TxnName, commits: u64) -> Result<(), Refusal>
        ensures { (streams : Streams) → HoldsOpen streams self.old → commits ≡ length streams.journal
            → TellsOpen streams self.new name (begins_beside streams.transactions name.conn.0 (transaction_named name streams.transactions)) result }
    {
        if self.names.find(name).is_some() {
            return Err(Refusal::TransactionOpen);
        }
        if self.names.count(name.conn) >= MAX_OPEN_OF_CONNECTION {
            return Err(Refusal::AllOfConnectionOpen);
        }
        match self.slots.begin(commits) {
            Ok(slot) => {
                self.names.insert(Named { name, slot });
                Ok(())
            }
            Err(_) => Err(Refusal::AllTransactionsOpen),
        }
    }

    /// The slot of the transaction that is open under a name, and its state.
    pub fn find(&self, name: TxnName) -> Option<(Slot, TxnState)>
        ensures live { IfSome result (λ found. get self.now.slots found.0 ≡ Some found.1) }
        ensures named { IfSome result (λ found. slot_named name self.now.names ≡ Some found.0) }
        ensures apart { IfSome result (λ found. HaveOwnSlots self.now.names) }
        ensures found { (streams : Streams) → HoldsOpen streams self.now → FindsOpen streams self.now name result }
    {
        let slot = self.names.find(name)?;
        Some((slot, self.slots.state(slot)))
    }

    /// Takes out the transaction that is open under a name, in this slot, and returns what it has written. All
    /// states stay kept: a COMMIT moves other transactions behind this, which may need the one that was kept
    /// last.
    pub fn remove(&mut self, name: TxnName, slot: Slot) -> Work
        requires { slot_named name self.old.names ≡ Some slot }
        ensures value { slice_get self.old.works slot ≡ Some result }
        ensures left { (streams : Streams) → HoldsOpen streams self.old → HoldsOpen (beside streams (without_named name streams.transactions)) self.new }
        ensures names { self.new.names ≡ filter (λ named. not (is_name named.name name)) self.old.names }
        ensures gone { get self.new.slots slot ≡ None }
        ensures reads { noted_reads self.new.tracks slot ≡ [] }
        ensures others { (other : ℕ) → other ≢ slot → StaysAt self.old self.new other }
        ensures kept { self.new.kept ≡ self.old.kept }
        ensures whole { length self.new.works ≡ max_open }
    {
        self.slots.end(slot);
        self.tracker.forget(slot.number());
        let work = std::mem::replace(
            &mut self.works[slot.number() as usize],
            Work::new(self.alloc),
        );
        self.names.remove(name);
        work
    }

    /// Ends the transaction that is open under a name, in this slot, and drops the state that it read, unless
    /// another one reads it, and all before the oldest one that a view reads then.
    pub fn end(&mut self, name: TxnName, slot: Slot)
        requires { slot_named name self.old.names ≡ Some slot }
        ensures left { (streams : Streams) → HoldsOpen streams self.old → HoldsOpen (beside streams (without_named name streams.transactions)) self.new }
        ensures names { self.new.names ≡ filter (λ named. not (is_name named.name name)) self.old.names }
        ensures slots { self.new.slots ≡ remove self.old.slots slot }
        ensures kept { KeepsNoOthers self.old.kept self.new.kept }
        ensures trimmed { IsTrimmed self.new }
        ensures unread { KeepsNoUnread self.old self.new slot }
    {
        let left = self.slots.state(slot);
        self.slots.end(slot);
        clear(self.alloc, &mut self.tracker, &mut self.works, slot);
        self.names.remove(name);
        self.kept.trim(self.slots.oldest_view());
        remove_unread(&mut self.kept, &self.slots, left);
    }

    /// Ends those of a connection, each as `end` does.
    pub fn leave(&mut self, connection: ConnId)
        ensures left { (streams : Streams) → HoldsOpen streams self.old → HoldsOpen (streams_left streams connection.0) self.new }
        ensures kept { KeepsNoOthers self.old.kept self.new.kept }
        ensures trimmed { IsTrimmed self.old → IsTrimmed self.new }
        ensures unread { (slot : ℕ) → KeepsNoUnread self.old self.new slot }
    {
        while let Some(named) = self.names.find_of(connection) {
            self.end(named.name, named.slot);
        }
    }

    /// Whether none is open.
    pub fn is_empty(&self) -> bool
        ensures { IsTrue result ↔ (self.now.names ≡ []) }
    {
        self.names.is_empty()
    }

    /// Whether one is open, and no other.
    pub fn has_one(&self) -> bool
        ensures { IsTrue result ↔ (length self.now.names ≡ 1) }
    {
        self.names.len() == 1
    }

    // ---- one slot

    /// A state that a view reads, as the one after so many commits.
    pub fn kept(&self, commits: u64) -> Option<&State>
        ensures { option_copied result ≡ kept_at commits self.now.kept }
    {
        self.kept.at(commits)
    }

    /// What the active transaction of a slot has written.
    pub fn work(&self, slot: Slot) -> &Work
        ensures { slice_get self.now.works slot ≡ Some result.now }
    {
        &self.works[slot.number() as usize]
    }

    /// Notes what a statement of a slot's active transaction has read.
    ///
    /// # Errors
    /// Out of memory. Nothing is noted then.
    pub fn note(&mut self, slot: Slot, reads: Reads) -> Result<(), AllocError>
        requires live { IsLive self.old.slots slot }
        ensures ok { (has : SlotHas) → HasSlot self.old slot has → OnOk result (ChangesTo self.old self.new slot (record has { reads = has.reads ++ reads })) }
        ensures err { OnErr result (self.new ≡ self.old) }
    {
        self.tracker.take(slot.number(), reads)
    }

    /// Dooms a slot's transaction, with which a commit conflicts.
    pub fn doom(&mut self, slot: Slot, by: u64)
        requires { IsLive self.old.slots slot }
        ensures dooms { (now : SlotHas) × (now.state ≡ Some (Aborted by)) × ChangesTo self.old self.new slot now }
        ensures trimmed { IsTrimmed self.new }
        ensures unread { KeepsNoUnread self.old self.new slot }
    {
        let left = self.slots.state(slot);
        self.slots.abort(slot, by);
        clear(self.alloc, &mut self.tracker, &mut self.works, slot);
        self.kept.trim(self.slots.oldest_view());
        remove_unread(&mut self.kept, &self.slots, left);
    }

    /// Adds a write to a slot's active transaction: what it has read, its row of this size, and its change.
    ///
    /// # Errors
    /// Out of memory. The transaction is then as it was.
    pub fn add(
        &mut self,
        state: &State,
        slot: Slot,
        reads: Reads,
        space: SpaceId,
        row: Row,
        size: usize,
        made: Made,
    ) -> Result<(), AllocError>
        requires live { IsLive self.old.slots slot }
        ensures { (before : plain.State) (run : Run) (answer : Answer) (write : statement.Write) (to : spec.Made) (has : SlotHas) → Holds state.now before → StandsOn before run
            → HasSlot self.old slot has → HasRun before run has.work has.reads → AllZip SpellsRead reads answer.reads → describes_schema space.0 ≡ false
            → (judged_write Client run.state space.0 write).outcome ≡ Ok to → MakesWrite run.state space.0 write made to → to.row ≡ Some row → size ≡ saturated (plain_row_size row)
            → answer.row ≡ to.row → answer.change ≡ to.change → MatchResult result
            (λ _. ComesTo self.old self.new slot has before (run_with run answer))
            (λ _. ComesTo self.old self.new slot has before run) }
    {
        let before = self.tracker.len(slot.number());
        self.tracker.take(slot.number(), reads)?;
        let work = &mut self.works[slot.number() as usize];
        match work.add(self.alloc, state, space, row, size, made) {
            Ok(()) => Ok(()),
            Err(fault) => {
                self.tracker.truncate(slot.number(), before);
                Err(fault)
            }
        }
    }

    // ---- commits

    /// Which slots read what these keys touch.
    pub fn overlapped(&self, keys: &TouchedKeys) -> MarkSet
        ensures marks { (slot : ℕ) → slot < max_open → is_marked result slot ≡ is_overlapped keys.now (noted_reads self.now.tracks slot) }
        ensures whole { length self.now.works ≡ max_open }
    {
        let mut marks = MarkSet::new();
        self.tracker.overlapped(keys, &mut marks);
        marks
    }

    /// Keeps the state after so many commits where a commit by these marks gives a transaction a view of it,
    /// but for that of one slot.
    ///
    /// # Errors
    /// Out of memory. Nothing is kept then.
    pub fn prepare(
        &mut self,
        state: &State,
        commits: u64,
        marks: &MarkSet,
        committing: Option<Slot>,
    ) -> Result<(), AllocError>
        ensures same { KeepsMore self.old self.new }
        ensures new { (before : plain.State) → Holds state.now before → (memory : memory.State) → kept_at commits self.old.kept ≡ None
            → kept_at commits self.new.kept ≡ Some memory → Holds memory before }
        ensures others { (number : ℕ) → number ≢ commits → kept_at number self.new.kept ≡ kept_at number self.old.kept }
        ensures ready { OnOk result (ViewsAreKept self.new marks.now commits committing) }
        ensures spares { ((slot : ℕ) → gets_view self.old marks.now committing slot ≡ false) → self.new ≡ self.old }
        ensures err { OnErr result ((number : ℕ) → kept_at number self.new.kept ≡ kept_at number self.old.kept) }
    {
        if self.gives_view(marks, committing) {
            self.kept.keep(self.alloc, commits, state)
        } else {
            Ok(())
        }
    }

    /// Whether a commit by these marks gives a transaction a view, but for that of one slot.
    fn gives_view(&self, marks: &MarkSet, committing: Option<Slot>) -> bool
        ensures gives { result ≡ true → (slot : ℕ) × (gets_view self.now marks.now committing slot ≡ true) }
        ensures none { result ≡ false → (slot since : ℕ) → Some slot ≢ committing → get self.now.slots slot ≡ Some (Active since) → is_marked marks.now slot ≡ true
            → (work : Work) → slice_get self.now.works slot ≡ Some work → has_rows work ≡ true }
    {
        let mut from = 0;
        while let Some(slot) = self.slots.next_live(from) {
            if self.gets_view(slot, marks, &committing) {
                return true;
            }
            from = slot.number() + 1;
        }
        false
    }

    /// Moves each transaction that a commit overlaps, of which these are the marks, after so many commits: to
    /// a view of the state before it, or to its doom where it has written, or where the commit changes a space
    /// or an index.
    pub fn move_overlapped(&mut self, marks: &MarkSet, is_schema: bool, commits: u64)
        ensures moves { Moves self.old self.new marks.now is_schema commits }
        ensures trimmed { IsTrimmed self.new }
    {
        let mut from = 0;
        while let Some(slot) = self.slots.next_live(from) {
            self.move_one(slot, marks.has(slot.number()), is_schema, commits);
            from = slot.number() + 1;
        }
        self.kept.trim(self.slots.oldest_view());
    }

    /// Whether a slot's transaction is active and has written nothing.
    fn is_active_without_rows(&self, slot: Slot) -> bool
        requires live { IsLive self.now.slots slot }
        ensures reader { result ≡ true → is_reader self.now slot ≡ true }
        ensures rows { (since : ℕ) → get self.now.slots slot ≡ Some (Active since) → (work : Work) → slice_get self.now.works slot ≡ Some work → result ≡ not (has_rows work) }
    {
        match self.slots.state(slot) {
            TxnState::Active { .. } => self.works[slot.number() as usize]
                .rows
                .as_slice()
                .is_empty(),
            _ => false,
        }
    }

    fn move_one(&mut self, slot: Slot, is_marked: bool, is_schema: bool, commits: u64)
        requires live { IsLive self.old.slots slot }
        ensures moves { (has : SlotHas) → HasSlot self.old slot has → (now : SlotHas) × MovesSlot is_schema is_marked commits has now × ChangesTo self.old self.new slot now }
        ensures kept { self.new.kept ≡ self.old.kept }
    {
        match self.slots.state(slot) {
            TxnState::Active { .. } => {
                if is_marked {
                    self.move_active(slot, is_schema, commits);
                }
            }
            TxnState::View { at } => {
                if is_schema {
                    self.slots.abort(slot, at);
                }
            }
            TxnState::Aborted { .. } => {}
        }
    }

    fn move_active(&mut self, slot: Slot, is_schema: bool, commits: u64)
        requires live { IsLive self.old.slots slot }
        ensures moves { (has : SlotHas) → HasSlot self.old slot has → (now : SlotHas) × (now.state ≡ Some (if has_rows has.work || is_schema then Aborted commits else View commits))
            × ChangesTo self.old self.new slot now }
        ensures kept { self.new.kept ≡ self.old.kept }
    {
        let is_doomed = self.is_doomed(slot, is_schema);
        clear(self.alloc, &mut self.tracker, &mut self.works, slot);
        if is_doomed {
            self.slots.abort(slot, commits);
        } else {
            self.slots.to_view(slot, commits);
        }
    }

    /// Whether a commit that overlaps an active transaction dooms it.
    fn is_doomed(&self, slot: Slot, is_schema: bool) -> bool
        ensures { (work : Work) → slice_get self.now.works slot ≡ Some work → result ≡ (has_rows work || is_schema) }
    {
        !self.works[slot.number() as usize]
            .rows
            .as_slice()
            .is_empty()
            || is_schema
    }

    /// Whether a commit by these marks gives a slot's transaction a view, but for that of one slot.
    fn gets_view(&self, slot: Slot, marks: &MarkSet, committing: &Option<Slot>) -> bool
        requires live { IsLive self.now.slots slot }
        ensures gives { result ≡ true → gets_view self.now marks.now committing.now slot ≡ true }
        ensures none { result ≡ false → (since : ℕ) → Some slot ≢ committing.now → get self.now.slots slot ≡ Some (Active since) → is_marked marks.now slot ≡ true
            → (work : Work) → slice_get self.now.works slot ≡ Some work → has_rows work ≡ true }
    {
        is_other(slot, committing) && marks.has(slot.number()) && self.is_active_without_rows(slot)
    }
}

/// Whether a slot is another one than that of a commit.
fn is_other(slot: Slot, committing: &Option<Slot>) -> bool
    ensures beside { result ≡ true → is_beside committing.now slot ≡ true }
    ensures other { Some slot ≢ committing.now → result ≡ true }
{
    match committing {
        Some(committing) => slot.number() != committing.number(),
        None => true,
    }
}

/// Drops what a slot's transaction has read and written.
fn clear(alloc: Global, tracker: &mut Tracker, works: &mut Vec<Work>, slot: Slot)
    requires { length works.old.items ≡ max_open }
    ensures reads { ChangesReads tracker.old tracker.new slot [] }
    ensures work { (work : Work) × WritesNothing work × (works.new.items ≡ slice_set works.old.items slot work) }
{
    tracker.forget(slot.number());
    works[slot.number() as usize] = Work::new(alloc);
}

/// Drops the state that a transaction read, where it had a view, unless another one reads it.
fn remove_unread(kept: &mut KeptStates, slots: &Slots, left: TxnState)
    ensures drops { DropsUnread slots.now kept.old kept.new }
    ensures unread { (at : ℕ) → left ≡ View at → ((slot : ℕ) → get slots.now slot ≢ Some (View at)) → kept_at at kept.new ≡ None }
{
    let TxnState::View { at } = left else {
        return;
    };
    if slots.has_view(at) {
        return;
    }
    kept.remove(at);
}

/// Works without writes, one for each slot.
fn idle_works(alloc: Global) -> Result<Vec<Work>, AllocError>
    ensures length { IfOk result (λ works. length works.items ≡ max_open) }
    ensures idle { IfOk result (λ works. AllByRecursion WritesNothing works.items) }
{
    let mut works = Vec::with_capacity(alloc, MAX_OPEN as usize)?;
    for _ in 0..MAX_OPEN {
        works.push_reserved(Work::new(alloc));
    }
    Ok(works)
}
