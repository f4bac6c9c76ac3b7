//! A space under a transaction's own writes.

ghost use Rattle.std.specs.Prelude.{◌≡◌, ◌≢◌, ◌⊎◌, ℕ, Option, Some, None, true, IfOk, MatchOption, MatchResult};
ghost use Rattle.std.specs.FinMap as finite;
ghost use Rattle.std.specs.Option.{option_copied};
ghost use Rattle.mx_msgpack.specs.Items.{IsArray};
ghost use Rattle.mx_key.specs.Comparable.{comparable_of};
ghost use Rattle.mx_key.specs.Keys.{Key, AreFit};
ghost use Rattle.mx_schema.specs.declared.index_def.IndexDef as indexed;
ghost use Rattle.mx_schema.specs.declared.schema.Schema as described;
ghost use Rattle.mx_schema.specs.Catalogues.{index_with};
ghost use Rattle.mx_schema.specs.Picks.{tuples_by_index};
ghost use Rattle.mx_schema.specs.Sound.{AreUnique, HaveKeys};
ghost use Rattle.mx_schema.specs.State as plain;
ghost use Rattle.mx_entries.specs.declared.build_fault.BuildFault.TheVariants.{NoMemory};
ghost use Rattle.mx_entries.specs.Builds.{build_fault};
ghost use Rattle.mx_entries.specs.Built.{AreLong};
ghost use Rattle.mx_entries.specs.KeptEntries.{HoldsOneEach};
ghost use Rattle.mx_space.specs.Kept.{StoresIndexed};
ghost use Rattle.mx_entries.specs.OwnWrites.{IsHolder, OwnWrites, under};
ghost use Rattle.mx_space.specs.Overlays.{Sees, StoresWritten};
ghost use Rattle.mx_space.specs.OwnChanges.{ShowsTuples};
ghost use Rattle.mx_entries.specs.Scans.{SelectsByKey};

use crate::index::Index;
use crate::overlay::OverlaidSpace;
use crate::space::Space;
use crate::view_select::{select_shown, select_stored};
use mx_entries::{BuildFault, Pick, SelectFault};
use mx_key::KeyRange;
use mx_msgpack::{Bytes, Tuples};
use mx_schema::{IndexDef, Schema};
use std::alloc::{AllocError, Global};

/// A space under a transaction's own writes, where it has any.
#[derive(Clone, Copy, Drop)]
pub struct SpaceView<'a> {
    pub space: &'a Space,
    pub over: Option<&'a OverlaidSpace>,
}

impl<'a> SpaceView<'a> {
    /// What describes the space.
    pub fn schema(self) -> &'a Schema
        ensures { result.now ≡ self.entry.space.now.schema }
    {
        self.space.schema()
    }

    /// The tuple whose primary key has these comparable bytes.
    pub fn tuple(self, key: &Bytes) -> Option<&'a [u8]>
        ensures sees { (schema : Option described.Schema) (all : plain.Tuples) (written : OwnWrites) (wanted : Key) → Sees schema self.entry all written
            → AreFit wanted → key.now ≡ comparable_of wanted → option_copied result ≡ finite.get (under written all) wanted }
        ensures shown { (schema : Option described.Schema) (tuples : plain.Tuples) (wanted : Key) → ShowsTuples schema self.entry tuples
            → AreFit wanted → key.now ≡ comparable_of wanted → option_copied result ≡ finite.get tuples wanted }
    {
        let Some(over) = self.over else {
            return self.space.tuple(key);
        };
        if over.hides(key) {
            return over.own().tuple(key);
        }
        self.space.tuple(key)
    }

    /// The tuple that has the key of these comparable bytes in a unique index, or in that of the number 0,
    /// where each tuple has a key in the index and no two have one, both of the tuples that are seen and of
    /// the space's.
    pub fn holder(
        self,
        alloc: Global,
        def: &IndexDef,
        key: &Bytes,
    ) -> Result<Option<&'a [u8]>, AllocError>
        ensures sees { (schema : Option described.Schema) (all : plain.Tuples) (written : OwnWrites) (primary : indexed.IndexDef) (wanted : Key) → Sees schema self.entry all written
            → index_with 0 self.entry.space.now.schema.indexes ≡ Some primary → index_with def.now.id.0 self.entry.space.now.schema.indexes ≡ Some def.now
            → HoldsOneEach def.now all → HoldsOneEach def.now (under written all) → AreFit wanted → key.now ≡ comparable_of wanted
            → IfOk result (λ found. option_copied found ≡ finite.get (tuples_by_index def.now (under written all)) wanted) }
        ensures shown { (schema : Option described.Schema) (tuples : plain.Tuples) (wanted : Key) → ShowsTuples schema self.entry tuples
            → index_with def.now.id.0 self.entry.space.now.schema.indexes ≡ Some def.now → (def.now.id.0 ≡ 0) ⊎ (def.now.unique ≡ true)
            → AreFit wanted → key.now ≡ comparable_of wanted → IfOk result (λ found. option_copied found ≡ finite.get (tuples_by_index def.now tuples) wanted) }
    {
        if def.id.0 == 0 {
            return Ok(self.tuple(key));
        }
        match self.over {
            Some(over) => holder_under(alloc, self.space, over, def, key),
            None => unique_holder(alloc, self.space, def, key),
        }
    }

    /// Puts into `found`, in place of what it had, the tuples that an iterator picks of an index of those that
    /// are seen. As `State::select`, of a space that shows no other's tuples.
    pub(crate) fn select(
        self,
        alloc: Global,
        def: &IndexDef,
        wanted: &Pick<'_>,
        found: &mut Tuples,
    ) -> Result<Option<KeyRange>, SelectFault>
        requires array { IsArray wanted.now.key.now }
        ensures { (schema : Option described.Schema) (all : plain.Tuples) (written : OwnWrites) (long : ℕ) → Sees schema self.entry all written → AreLong long all
            → AreLong long (under written all) → index_with def.now.id.0 self.entry.space.now.schema.indexes ≡ Some def.now
            → HaveKeys def.now (under written all) → (def.now.unique ≡ true → AreUnique def.now (under written all)) → (def.now.unique ≡ true → HoldsOneEach def.now all)
            → SelectsByKey (finite.entries (tuples_by_index def.now (under written all))) def.now wanted.now found.new result }
    {
        match self.over {
            Some(over) => select_shown(alloc, self.space, over, def, wanted, found),
            None => select_stored(alloc, self.space, def, wanted, found),
        }
    }

    /// Whether an index can be made of the tuples, as `Space::add_index` makes it, where there are no writes.
    ///
    /// # Errors
    /// As of `Space::add_index`.
    pub fn check_index(self, alloc: Global, def: &IndexDef) -> Result<(), BuildFault>
        ensures { (schema : Option described.Schema) (tuples : plain.Tuples) → ShowsTuples schema self.entry tuples → self.entry.over ≡ None
            → (def.now.id.0 ≡ 0 → tuples ≡ finite.empty) → (def.now.id.0 ≢ 0 → index_with 0 self.entry.space.now.schema.indexes ≢ None)
            → MatchResult result
            (λ _. build_fault def.now tuples ≡ None)
            (λ why. (build_fault def.now tuples ≡ Some why) ⊎ (why ≡ NoMemory)) }
    {
        self.space.check_index(alloc, def)
    }
}

/// The tuple that is seen under writes and has a key in a unique index of another number than 0.
pub(crate) fn holder_under<'a>(
    alloc: Global,
    space: &'a Space,
    over: &'a OverlaidSpace,
    def: &IndexDef,
    key: &Bytes,
) -> Result<Option<&'a [u8]>, AllocError>
    ensures { (schema : Option described.Schema) (all : plain.Tuples) (written : OwnWrites) (long : ℕ) (wanted : Key) → StoresIndexed schema space.now all
        → StoresWritten schema over.now written → AreLong long all → AreLong long (under written finite.empty) → index_with def.now.id.0 space.now.schema.indexes ≡ Some def.now
        → HoldsOneEach def.now all → HoldsOneEach def.now (under written all) → def.now.id.0 ≢ 0 → AreFit wanted → key.now ≡ comparable_of wanted
        → IfOk result (λ found. option_copied found ≡ finite.get (tuples_by_index def.now (under written all)) wanted) }
{
    match unique_holder(alloc, over.own(), def, key)? {
        Some(tuple) => Ok(Some(tuple)),
        None => shown_holder(alloc, space, over, def, key),
    }
}

/// The tuple of a space that has a key in a unique index of another number than 0.
fn unique_holder<'a>(
    alloc: Global,
    space: &'a Space,
    def: &IndexDef,
    key: &Bytes,
) -> Result<Option<&'a [u8]>, AllocError>
    ensures { (schema : Option described.Schema) (all : plain.Tuples) (long : ℕ) (wanted : Key) → StoresIndexed schema space.now all
        → AreLong long all → index_with def.now.id.0 space.now.schema.indexes ≡ Some def.now
        → HoldsOneEach def.now all → def.now.id.0 ≢ 0 → AreFit wanted → key.now ≡ comparable_of wanted
        → IfOk result (λ found. option_copied found ≡ finite.get (tuples_by_index def.now all) wanted) }
{
    let Some(primary) = holder_key(alloc, space, def, key)? else {
        return Ok(None);
    };
    Ok(space.tuple(&primary))
}

/// The tuple of a space that has a key in a unique index of another number than 0, unless the transaction
/// wrote it. No tuple that the transaction put has the key.
fn shown_holder<'a>(
    alloc: Global,
    space: &'a Space,
    over: &OverlaidSpace,
    def: &IndexDef,
    key: &Bytes,
) -> Result<Option<&'a [u8]>, AllocError>
    ensures { (schema : Option described.Schema) (all : plain.Tuples) (written : OwnWrites) (long : ℕ) (wanted : Key) → StoresIndexed schema space.now all
        → StoresWritten schema over.now written → AreLong long all → index_with def.now.id.0 space.now.schema.indexes ≡ Some def.now
        → HoldsOneEach def.now all → HoldsOneEach def.now (under written all) → def.now.id.0 ≢ 0 → AreFit wanted → key.now ≡ comparable_of wanted
        → finite.get (tuples_by_index def.now (under written finite.empty)) wanted ≡ None
        → IfOk result (λ found. option_copied found ≡ finite.get (tuples_by_index def.now (under written all)) wanted) }
{
    let Some(primary) = holder_key(alloc, space, def, key)? else {
        return Ok(None);
    };
    if over.hides(&primary) {
        return Ok(None);
    }
    Ok(space.tuple(&primary))
}

/// The primary key of the tuple that has a key in a unique index of another number than 0.
fn holder_key(
    alloc: Global,
    space: &Space,
    def: &IndexDef,
    key: &Bytes,
) -> Result<Option<Bytes>, AllocError>
    ensures { (schema : Option described.Schema) (all : plain.Tuples) (long : ℕ) (wanted : Key) → StoresIndexed schema space.now all
        → AreLong long all → index_with def.now.id.0 space.now.schema.indexes ≡ Some def.now
        → HoldsOneEach def.now all → def.now.id.0 ≢ 0 → AreFit wanted → key.now ≡ comparable_of wanted → IfOk result (λ found. MatchOption found
        (None ≡ finite.get (tuples_by_index def.now all) wanted)
        (λ own. IsHolder def.now all wanted own)) }
{
    let Some(index) = space.index(def.id) else {
        return Ok(None);
    };
    let Some((_, primary)) = index.find(key) else {
        return Ok(None);
    };
    Ok(Some(Bytes::from_slice(alloc, primary)?))
}
