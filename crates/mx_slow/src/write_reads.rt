//! What a write reads of the plain slow program, stage by stage.

ghost use Rattle.std.specs.Prelude.{◌≡◌, ◌≢◌, ℕ, List, [], ◌∷◌, Option, Some, None, IfOk, MatchResult};
ghost use Rattle.std.specs.Option.{option_copied};
ghost use Rattle.mx_key.specs.Comparable.{comparable_of};
ghost use Rattle.mx_key.specs.Keys.{Key, AreFit};
ghost use Rattle.mx_request.specs.declared.request.Request.{Request};
ghost use Rattle.mx_schema.specs.declared.index_def.IndexDef as plain_index;
ghost use Rattle.mx_schema.specs.declared.schema.Schema as plain_schema;
ghost use Rattle.mx_schema.specs.Catalogues.{schema_of};
ghost use Rattle.mx_schema.specs.Picks.{Indexed};
ghost use Rattle.mx_schema.specs.State as plain;
ghost use Rattle.mx_schema.specs.State.{tuples_in};
ghost use Rattle.mx_schema.specs.Stored.{StoresSpace, stored_list};
ghost use Rattle.mx_write.specs.declared.writable.Writer.TheVariants.{Client};
ghost use Rattle.mx_write.specs.Delete.{deletes};
ghost use Rattle.mx_write.specs.Insert.{inserts};
ghost use Rattle.mx_write.specs.Judge.{judged_write};
ghost use Rattle.mx_write.specs.Judged.{Judged};
ghost use Rattle.mx_write.specs.Lookup.{all_indexes, holder_of, other_indexes, own_key};
ghost use Rattle.mx_write.specs.Made as spec;
ghost use Rattle.mx_write.specs.Reads.{key_read};
ghost use Rattle.mx_write.specs.Replace.{replaces};
ghost use Rattle.mx_write.specs.Stages.{HasOwnKey, IsReplaced};
ghost use Rattle.mx_write.specs.Unique.{are_free, is_another};
ghost use Rattle.mx_write.specs.Update.{put_in_place, update_found, updates};
ghost use Rattle.mx_write.specs.Upsert.{upsert_found, upserts};
ghost use Rattle.mx_write.specs.Views.{write_view};
ghost use Rattle.mx_write.specs.Writes as statement;
ghost use Rattle.mx_write.specs.Writes.{write_in};
ghost use Rattle.mx_model.specs.Answers.{answer_to};
ghost use Rattle.mx_slow_state.specs.SlowState.{KeepsTuples};
ghost use Rattle.mx_slow.specs.SlowReads.{HasRead};
ghost use Rattle.mx_slow.specs.SlowReadSteps.{AddsUpTo, HasAdded, StopsAfter};
ghost use Rattle.mx_slow_state.specs.SlowWrites.{IsEntry, IsSite, in_writable, of_key, of_tuple};

use crate::read_ranges::ReadRanges;
use mx_base::{IndexId, Refusal, SpaceId};
use mx_judge::{find_index, find_key, find_unique_index};
use mx_msgpack::Bytes;
use mx_schema::{INDEX_ROWS, IndexDef, Keyed, SPACE_ROWS, array_or_empty, parts_or_none};
use mx_slow_state::{Site, SlowSpace, SlowState, find, find_entry, holder, is_another, refused};
use mx_write::{
    DELETE, INSERT, REPLACE, UPDATE, UPSERT, Write, Writer, check_bytes, primary_name,
    update_tuple, upsert_tuple, write_refusal,
};
use std::alloc::AllocError;

/// What a write reads.
///
/// # Errors
/// Out of memory.
pub(crate) fn write_reads(
    state: &SlowState,
    space: SpaceId,
    write: &Write<'_>,
) -> Result<ReadRanges, AllocError>
    ensures { (before : plain.State) (asked : Request) → KeepsTuples state.now before → write_in asked ≡ Some (space.0, write_view write.now)
        → IfOk result (λ reads. HasRead reads (answer_to before asked).reads) }
{
    let mut reads = ReadRanges::new(state.alloc);
    match judge_reads(state, space, write, &mut reads) {
        Ok(()) => Ok(reads),
        Err(refusal) => {
            refused(refusal)?;
            Ok(reads)
        }
    }
}

/// Adds what a write reads.
///
/// # Errors
/// Why it stops there.
fn judge_reads(
    state: &SlowState,
    space: SpaceId,
    write: &Write<'_>,
    reads: &mut ReadRanges,
) -> Result<(), Refusal>
    ensures { (before : plain.State) → KeepsTuples state.now before → MatchResult result
        (λ _. HasAdded reads.old reads.new (judged_write Client before space.0 (write_view write.now)).reads)
        (λ why. StopsAfter why reads.old reads.new (judged_write Client before space.0 (write_view write.now)).reads) }
{
    match *write {
        Write::Insert { tuple } => insert_reads(state, space, tuple, reads),
        Write::Replace { tuple } => replace_reads(state, space, tuple, reads),
        Write::Update {
            index,
            base,
            key,
            operations,
        } => update_reads(state, space, index, base, key, operations, reads),
        Write::Delete { index, key } => delete_reads(state, space, index, key, reads),
        Write::Upsert {
            base,
            tuple,
            operations,
        } => upsert_reads(state, space, base, tuple, operations, reads),
    }
}

/// What an INSERT reads.
fn insert_reads(
    state: &SlowState,
    space: SpaceId,
    tuple: &[u8],
    reads: &mut ReadRanges,
) -> Result<(), Refusal>
    ensures { (before : plain.State) → KeepsTuples state.now before → MatchResult result
        (λ _. HasAdded reads.old reads.new (inserts Client before space.0 tuple.now).reads)
        (λ why. StopsAfter why reads.old reads.new (inserts Client before space.0 tuple.now).reads) }
{
    let (site, key) = read_site_of_tuple(state, INSERT, space, tuple, reads)?;
    state.check_description(site.space, tuple)?;
    read_duplicates(&site, key, tuple, reads)?;
    Ok(())
}

/// What a REPLACE reads.
fn replace_reads(
    state: &SlowState,
    space: SpaceId,
    tuple: &[u8],
    reads: &mut ReadRanges,
) -> Result<(), Refusal>
    ensures { (before : plain.State) → KeepsTuples state.now before → MatchResult result
        (λ _. HasAdded reads.old reads.new (replaces Client before space.0 tuple.now).reads)
        (λ why. StopsAfter why reads.old reads.new (replaces Client before space.0 tuple.now).reads) }
{
    let (site, key) = read_site_of_tuple(state, REPLACE, space, tuple, reads)?;
    read_duplicates_in_others(&site, Some(&key), tuple, reads)?;
    Ok(())
}

/// What an UPDATE reads.
fn update_reads(
    state: &SlowState,
    space: SpaceId,
    index: IndexId,
    base: u32,
    key: &[u8],
    operations: &[u8],
    reads: &mut ReadRanges,
) -> Result<(), Refusal>
    ensures { (before : plain.State) → KeepsTuples state.now before → MatchResult result
        (λ _. HasAdded reads.old reads.new (updates Client before space.0 index.0 base key.now operations.now).reads)
        (λ why. StopsAfter why reads.old reads.new (updates Client before space.0 index.0 base key.now operations.now).reads) }
{
    let (site, found) = read_site_of_key(state, UPDATE, space, index, key, reads)?;
    match found {
        Some(one) => read_update(&site, base, operations, one, reads),
        None => Ok(()),
    }
}

/// What a DELETE reads.
fn delete_reads(
    state: &SlowState,
    space: SpaceId,
    index: IndexId,
    key: &[u8],
    reads: &mut ReadRanges,
) -> Result<(), Refusal>
    ensures { (before : plain.State) → KeepsTuples state.now before → MatchResult result
        (λ _. HasAdded reads.old reads.new (deletes Client before space.0 index.0 key.now).reads)
        (λ why. StopsAfter why reads.old reads.new (deletes Client before space.0 index.0 key.now).reads) }
{
    read_site_of_key(state, DELETE, space, index, key, reads)?;
    Ok(())
}

/// What an UPSERT reads.
fn upsert_reads(
    state: &SlowState,
    space: SpaceId,
    base: u32,
    tuple: &[u8],
    operations: &[u8],
    reads: &mut ReadRanges,
) -> Result<(), Refusal>
    ensures { (before : plain.State) → KeepsTuples state.now before → MatchResult result
        (λ _. HasAdded reads.old reads.new (upserts Client before space.0 base tuple.now operations.now).reads)
        (λ why. StopsAfter why reads.old reads.new (upserts Client before space.0 base tuple.now operations.now).reads) }
{
    let (site, key) = read_site_of_tuple(state, UPSERT, space, tuple, reads)?;
    let copy = Bytes::from_slice(state.alloc, key.as_slice())?;
    reads.push_key(state.alloc, space, IndexId(0), copy)?;
    match find(site.tuples, &key) {
        Some(one) => read_upsert(&site, base, tuple, operations, &key, one, reads),
        None => Ok(read_duplicates_in_others(&site, Some(&key), tuple, reads)?),
    }
}

/// As `site_of_key`, with what it reads.
fn read_site_of_key<'a>(
    state: &'a SlowState,
    kind: u8,
    space: SpaceId,
    index: IndexId,
    key: &[u8],
    reads: &mut ReadRanges,
) -> Result<(Site<'a>, Option<&'a Keyed>), Refusal>
    ensures { (before : plain.State) (rest : plain_schema.Schema → plain_index.IndexDef → Option Indexed → Judged spec.Made) → KeepsTuples state.now before → MatchResult result
        (λ found. (found.0.space ≡ space) × IsSite before found.0 × (entry : Option Indexed) × IsEntry found.0.primary.now (option_copied found.1) entry
        × AddsUpTo reads.old reads.new (rest found.0.schema.now found.0.primary.now entry).reads (of_key before space.0 kind index.0 key.now rest).reads)
        (λ why. StopsAfter why reads.old reads.new (of_key before space.0 kind index.0 key.now rest).reads) }
{
    let named = primary_name(index, key);
    let found = read_writable_space(state, kind, space, named, reads)?;
    reads.push_rows(state.alloc, INDEX_ROWS, space)?;
    let schema = &found.schema;
    let def = find_unique_index(state.alloc, schema, index)?;
    let primary = find_index(state.alloc, schema, IndexId(0))?;
    let asked = find_key(state.alloc, def, array_or_empty(key))?;
    let site = Site {
        alloc: state.alloc,
        space,
        schema,
        primary,
        tuples: found.tuples.as_slice(),
    };
    let entry = find_entry(&site, def, &asked)?;
    reads.push_key(state.alloc, space, index, asked)?;
    Ok((site, entry))
}

/// As `site_of_tuple`, with what it reads.
fn read_site_of_tuple<'a>(
    state: &'a SlowState,
    kind: u8,
    space: SpaceId,
    tuple: &[u8],
    reads: &mut ReadRanges,
) -> Result<(Site<'a>, Bytes), Refusal>
    ensures { (before : plain.State) (rest : plain_schema.Schema → plain_index.IndexDef → Judged spec.Made) → KeepsTuples state.now before → MatchResult result
        (λ found. (found.0.space ≡ space) × IsSite before found.0 × HasOwnKey found.0.primary.now tuple.now found.1
        × AddsUpTo reads.old reads.new (rest found.0.schema.now found.0.primary.now).reads (of_tuple before space.0 kind tuple.now rest).reads)
        (λ why. StopsAfter why reads.old reads.new (of_tuple before space.0 kind tuple.now rest).reads) }
{
    let found = read_writable_space(state, kind, space, Some(tuple), reads)?;
    reads.push_rows(state.alloc, INDEX_ROWS, space)?;
    let schema = &found.schema;
    let primary = find_index(state.alloc, schema, IndexId(0))?;
    let key = check_bytes(state.alloc, schema, primary, tuple)?;
    let site = Site {
        alloc: state.alloc,
        space,
        schema,
        primary,
        tuples: found.tuples.as_slice(),
    };
    Ok((site, key))
}

/// As `writable_space`, with what it reads.
fn read_writable_space<'a>(
    state: &'a SlowState,
    kind: u8,
    space: SpaceId,
    named: Option<&[u8]>,
    reads: &mut ReadRanges,
) -> Result<&'a SlowSpace, Refusal>
    ensures { (before : plain.State) (rest : plain_schema.Schema → Judged spec.Made) → KeepsTuples state.now before → MatchResult result
        (λ found. StoresSpace (schema_of before space.0) found.now.schema (stored_list found.now.tuples.items) (tuples_in before space.0)
        × AddsUpTo reads.old reads.new (rest found.now.schema).reads (in_writable before space.0 kind (option_copied named.entry) rest).reads)
        (λ why. StopsAfter why reads.old reads.new (in_writable before space.0 kind (option_copied named.entry) rest).reads) }
{
    reads.push_rows(state.alloc, SPACE_ROWS, space)?;
    state.writable_space(kind, space, named)
}

/// What an UPDATE reads beyond the tuple that it found.
fn read_update(
    site: &Site<'_>,
    base: u32,
    operations: &[u8],
    one: &Keyed,
    reads: &mut ReadRanges,
) -> Result<(), Refusal>
    ensures { (before : plain.State) (own : Key) (index : ℕ) (key : List ℕ) → IsSite before site.now → AreFit own → one.now.key ≡ comparable_of own → MatchResult result
        (λ _. HasAdded reads.old reads.new (update_found Client before site.now.space.0 index base key operations.now site.now.schema.now site.now.primary.now (Some (own, one.now.tuple))).reads)
        (λ why. StopsAfter why reads.old reads.new (update_found Client before site.now.space.0 index base key operations.now site.now.schema.now site.now.primary.now (Some (own, one.now.tuple))).reads) }
{
    let old = one.tuple.as_slice();
    if let Some(refusal) = write_refusal(Writer::Client, site.space, UPDATE, Some(old)) {
        return Err(refusal);
    }
    let new = update_tuple(site.alloc, base, array_or_empty(old), operations)?;
    read_in_place(site, &one.key, new.as_slice(), reads)
}

/// What an UPSERT of a tuple reads beyond the one that has its primary key.
fn read_upsert(
    site: &Site<'_>,
    base: u32,
    tuple: &[u8],
    operations: &[u8],
    key: &Bytes,
    one: &Keyed,
    reads: &mut ReadRanges,
) -> Result<(), Refusal>
    ensures { (before : plain.State) → IsSite before site.now → HasOwnKey site.now.primary.now tuple.now key.now → MatchResult result
        (λ _. HasAdded reads.old reads.new (upsert_found Client before site.now.space.0 base tuple.now operations.now site.now.schema.now site.now.primary.now (Some one.now.tuple)).reads)
        (λ why. StopsAfter why reads.old reads.new (upsert_found Client before site.now.space.0 base tuple.now operations.now site.now.schema.now site.now.primary.now (Some one.now.tuple)).reads) }
{
    let old = one.tuple.as_slice();
    let new = upsert_tuple(site.alloc, base, array_or_empty(old), operations)?;
    read_in_place(site, key, new.as_slice(), reads)
}

/// What is read of a tuple that is put in the place of the one that has this primary key.
fn read_in_place(
    site: &Site<'_>,
    key: &Bytes,
    tuple: &[u8],
    reads: &mut ReadRanges,
) -> Result<(), Refusal>
    ensures { (before : plain.State) (own : Key) (write : statement.Write) (shown : List (List ℕ)) → IsSite before site.now → AreFit own → key.now ≡ comparable_of own → MatchResult result
        (λ _. HasAdded reads.old reads.new (put_in_place before site.now.space.0 site.now.schema.now site.now.primary.now write own tuple.now shown).reads)
        (λ why. StopsAfter why reads.old reads.new (put_in_place before site.now.space.0 site.now.schema.now site.now.primary.now write own tuple.now shown).reads) }
{
    let new_key = check_bytes(site.alloc, site.schema, site.primary, tuple)?;
    if new_key != *key {
        return Ok(());
    }
    read_duplicates_in_others(site, Some(key), tuple, reads)?;
    Ok(())
}

/// What is read to know whether another tuple has a new tuple's key in a unique index, where this is its
/// primary key.
fn read_duplicates(
    site: &Site<'_>,
    key: Bytes,
    tuple: &[u8],
    reads: &mut ReadRanges,
) -> Result<(), AllocError>
    ensures { (before : plain.State) → IsSite before site.now → HasOwnKey site.now.primary.now tuple.now key
        → IfOk result (λ _. HasAdded reads.old reads.new (are_free before site.now.space.0 site.now.schema.now site.now.primary.now None tuple.now
        (all_indexes site.now.primary.now site.now.schema.now)).reads) }
{
    let found = find(site.tuples, &key);
    reads.push_key(site.alloc, site.space, site.primary.id, key)?;
    match found {
        Some(_) => Ok(()),
        None => read_duplicates_in_others(site, None, tuple, reads),
    }
}

/// What is read to know whether another tuple has a tuple's key in a unique index but the primary one. The
/// tuple that has the primary key `replaced` is no other one.
fn read_duplicates_in_others(
    site: &Site<'_>,
    replaced: Option<&Bytes>,
    tuple: &[u8],
    reads: &mut ReadRanges,
) -> Result<(), AllocError>
    ensures { (before : plain.State) (key : Option Key) → IsSite before site.now → IsReplaced (option_copied replaced.entry) key
        → IfOk result (λ _. HasAdded reads.old reads.new (are_free before site.now.space.0 site.now.schema.now site.now.primary.now key tuple.now
        (other_indexes site.now.schema.now.indexes)).reads) }
{
    for def in site.schema.indexes.as_slice() {
        if def.id.0 == 0 || !def.unique {
            continue;
        }
        if read_holder(site, replaced, tuple, def, reads)? {
            return Ok(());
        }
    }
    Ok(())
}

/// Whether another tuple has the tuple's key in this index, of another number than 0, with what is read.
fn read_holder(
    site: &Site<'_>,
    replaced: Option<&Bytes>,
    tuple: &[u8],
    def: &IndexDef,
    reads: &mut ReadRanges,
) -> Result<bool, AllocError>
    ensures { (before : plain.State) (key : Option Key) → IsSite before site.now → def.now.id.0 ≢ 0 → IsReplaced (option_copied replaced.entry) key → IfOk result (λ is.
        (is ≡ is_another site.now.primary.now key (holder_of before site.now.space.0 def.now (own_key def.now tuple.now)))
        × HasAdded reads.old reads.new (key_read site.now.space.0 def.now.id.0 (own_key def.now tuple.now) ∷ [])) }
{
    let key = parts_or_none(site.alloc, &def.key, tuple)?;
    let holder = holder(site, def, &key)?;
    reads.push_key(site.alloc, site.space, def.id, key)?;
    match holder {
        Some(holder) => is_another(site, replaced, holder.as_slice()),
        None => Ok(false),
    }
}
