//! SELECT.

ghost use Rattle.std.specs.Prelude.{◌≡◌, ◌≢◌, ◌⊎◌, ℕ, List, Option, Some, Ok, Err, IsOk, IfSome, MatchResult, OnOk};
ghost use Rattle.std.specs.Option.{option_map};
ghost use Rattle.mx_base.specs.declared.refusal.Refusal.TheVariants.{OutOfMemory};
ghost use Rattle.mx_key.specs.Comparable.{edges_of};
ghost use Rattle.mx_key.specs.Keys.{Key, AreFit};
ghost use Rattle.mx_key.specs.Parts.{key_of_array};
ghost use Rattle.mx_key.specs.Ranges.{AreFitEnds, Range, range_of};
ghost use Rattle.mx_msgpack.specs.Items.{IsArray};
ghost use Rattle.mx_schema.specs.declared.index_def.IndexKind.TheVariants.{Hash};
ghost use Rattle.mx_schema.specs.State as plain;
ghost use Rattle.mx_schema.specs.State.{source_of};
ghost use Rattle.mx_entries.specs.declared.pick.SelectFault.TheVariants.{TooLong};
ghost use Rattle.mx_space.specs.OwnChanges.{HoldsView};
ghost use Rattle.mx_space.specs.Stored.{Holds};
ghost use Rattle.mx_write.specs.Notes.{AddsReads};
ghost use Rattle.mx_model.specs.SelectSteps.{RefusesKey, TakesKey};
ghost use Rattle.mx_model.specs.statements.Select.{part_count, range_reads, select_answer_in};
ghost use Rattle.mx_engine.specs.SelectFaults.{IsFaultRefusal};
ghost use Rattle.mx_engine.specs.Steps.{IsReplyOf};
ghost use Rattle.mx_engine.specs.Views.{reply_of};

use crate::answer::Answered;
use crate::engine::Engine;
use mx_base::{IndexId, Refusal, SpaceId, Unsupported};
use mx_judge::{Notes, find_index, find_space};
use mx_key::{IterKind, KeyRange, range};
use mx_model::{misfit_refusal, part_count_refusal, takes_iterator};
use mx_msgpack::{Tuples, known_array};
use mx_schema::{IndexDef, IndexKind, source_of};
use mx_space::{Pick, SelectFault, StateView};
use std::alloc::{AllocError, Global};

impl Engine {
    /// The key is known to be an array.
    pub(crate) fn select(
        &self,
        space: SpaceId,
        index: IndexId,
        pick: &Pick<'_>,
        found: &mut Tuples,
    ) -> Result<Answered, Refusal>
        requires { IsArray pick.now.key.now }
        ensures { (state : plain.State) → Holds self.now.state state → IsReplyOf (reply_of result found.new)
            (select_answer_in state space.0 index.0 pick.now.limit pick.now.offset pick.now.iterator pick.now.key.now) }
    {
        let view = StateView::of(&self.state);
        let mut notes = Notes::off();
        select(view, self.alloc, &mut notes, space, index, pick, found)
    }
}

/// Answers a SELECT of what is seen of a state, and notes what it reads, also where it is refused. The key is
/// known to be an array.
pub(crate) fn select(
    view: StateView<'_>,
    alloc: Global,
    notes: &mut Notes,
    space: SpaceId,
    index: IndexId,
    pick: &Pick<'_>,
    found: &mut Tuples,
) -> Result<Answered, Refusal>
    requires { IsArray pick.now.key.now }
    ensures told { (seen : plain.State) → HoldsView view.entry seen → IsReplyOf (reply_of result found.new)
        (select_answer_in seen space.0 index.0 pick.now.limit pick.now.offset pick.now.iterator pick.now.key.now) }
    ensures notes { (seen : plain.State) → HoldsView view.entry seen → (result ≡ Err OutOfMemory) ⊎ AddsReads notes.old notes.new
        (select_answer_in seen space.0 index.0 pick.now.limit pick.now.offset pick.now.iterator pick.now.key.now).reads }
{
    notes.note_space(alloc, space)?;
    let stored = find_space(view, space)?;
    notes.note_indexes(alloc, space)?;
    let def = find_index(alloc, stored.schema(), index)?;
    check_key(def, pick.iterator, pick.key)?;
    match view.select(alloc, space, stored, def, pick, found) {
        Ok(read) => {
            note_read(notes, space, def.id, read)?;
            Ok(Answered::Tuples)
        }
        Err(fault) => {
            note_fault(alloc, notes, space, def, pick, fault)?;
            Err(fault_refusal(def, fault))
        }
    }
}

/// The refusal of a SELECT that has this fault.
fn fault_refusal(def: &IndexDef, fault: SelectFault) -> Refusal
    ensures { IsFaultRefusal def.now fault result }
{
    match fault {
        SelectFault::Misfit(misfit) => misfit_refusal(def, misfit),
        SelectFault::TooLong => Refusal::ResultTooLong,
        SelectFault::NoMemory => Refusal::OutOfMemory,
    }
}

/// Notes what was read by a key where a SELECT has this fault: all of its range, where the tuples are too long.
fn note_fault(
    alloc: Global,
    notes: &mut Notes,
    space: SpaceId,
    def: &IndexDef,
    pick: &Pick<'_>,
    fault: SelectFault,
) -> Result<(), AllocError>
    ensures long { (key : Key) → fault ≡ TooLong → key_of_array def.now.key pick.now.key.now ≡ Ok key → AreFit key
        → OnOk result (AddsReads notes.old notes.new (range_reads (source_of space.0) def.now.id.0 (Some (range_of pick.now.iterator key)))) }
    ensures other { fault ≢ TooLong → IsOk result × (notes.new ≡ notes.old) }
{
    match fault {
        SelectFault::TooLong => note_whole_range(alloc, notes, space, def, pick),
        SelectFault::Misfit(_) => Ok(()),
        SelectFault::NoMemory => Ok(()),
    }
}

/// Notes the range of an index's keys that was read, where one was.
fn note_read(
    notes: &mut Notes,
    space: SpaceId,
    index: IndexId,
    read: Option<KeyRange>,
) -> Result<(), AllocError>
    ensures { (range : Option Range) → IfSome range AreFitEnds → read ≡ option_map edges_of range
        → OnOk result (AddsReads notes.old notes.new (range_reads (source_of space.0) index.0 range)) }
{
    match read {
        Some(range) => notes.note_range(source_of(space), index, range),
        None => Ok(()),
    }
}

/// Notes that all of the range was read that an iterator scans from a key, which fits the index.
fn note_whole_range(
    alloc: Global,
    notes: &mut Notes,
    space: SpaceId,
    def: &IndexDef,
    pick: &Pick<'_>,
) -> Result<(), AllocError>
    ensures { (key : Key) → key_of_array def.now.key pick.now.key.now ≡ Ok key → AreFit key
        → OnOk result (AddsReads notes.old notes.new (range_reads (source_of space.0) def.now.id.0 (Some (range_of pick.now.iterator key)))) }
{
    if notes.as_reads().is_none() {
        return Ok(());
    }
    let read = range(alloc, &def.key, pick.iterator, pick.key)?;
    notes.note_range(source_of(space), def.id, read)
}

/// Checks that an index takes an iterator with a key, which is an array, but for the types of its parts.
///
/// # Errors
/// The refusal of a SELECT by them; or out of memory.
fn check_key(def: &IndexDef, iterator: IterKind, key: &[u8]) -> Result<(), Refusal>
    requires array { IsArray key.now }
    ensures { MatchResult result
        (λ _. TakesKey def.now iterator key.now)
        (λ refusal. RefusesKey def.now iterator key.now refusal ⊎ (refusal ≡ OutOfMemory)) }
{
    match def.kind {
        IndexKind::Tree => Ok(()),
        IndexKind::Hash => check_hash_key(def, iterator, known_array(key).count),
    }
}

/// The same of a hash index and a key of so many parts: it finds the tuple of a whole key, or gives all.
fn check_hash_key(def: &IndexDef, iterator: IterKind, parts: u32) -> Result<(), Refusal>
    ensures { (key : List ℕ) → def.now.kind ≡ Hash → parts ≡ part_count key → MatchResult result
        (λ _. TakesKey def.now iterator key)
        (λ refusal. RefusesKey def.now iterator key refusal ⊎ (refusal ≡ OutOfMemory)) }
{
    if !takes_iterator(def.kind, iterator, parts) {
        let what = Unsupported::HashIterator;
        return Err(Refusal::Unsupported { what });
    }
    if parts == 0 || parts as usize == def.key.len() {
        return Ok(());
    }
    Err(part_count_refusal(def, parts)?)
}
