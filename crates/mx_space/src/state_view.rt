//! A state under a transaction's own writes.

ghost use Rattle.std.specs.Prelude.{◌≡◌, None, Some, IfSome};
ghost use Rattle.std.specs.Option.{option_copied};
ghost use Rattle.mx_msgpack.specs.Items.{IsArray};
ghost use Rattle.mx_schema.specs.Catalogues.{index_with, schema_of};
ghost use Rattle.mx_schema.specs.Picks.{entries_of};
ghost use Rattle.mx_schema.specs.State as plain;
ghost use Rattle.mx_schema.specs.State.{tuples_in};
ghost use Rattle.mx_space.specs.OwnChanges.{HoldsView, ShowsTuples, ShowsSpace, overlaid_in};
ghost use Rattle.mx_entries.specs.Scans.{SelectsByKey};
ghost use Rattle.mx_space.specs.Stored.{Holds};

use crate::overlay::OverlaidSpace;
use crate::own_changes::Overlay;
use crate::state::{State, select_rows_of};
use crate::view::SpaceView;
use mx_base::SpaceId;
use mx_entries::{Pick, SelectFault};
use mx_key::KeyRange;
use mx_msgpack::Tuples;
use mx_schema::{IndexDef, source_of};
use std::alloc::Global;

/// A state under a transaction's own writes, where it has any. None of them is of a row that describes a
/// space or an index.
#[derive(Clone, Copy, Drop)]
pub struct StateView<'a> {
    pub state: &'a State,
    pub over: Option<&'a Overlay>,
}

impl<'a> StateView<'a> {
    /// A state without own writes.
    pub fn of(state: &'a State) -> StateView<'a>
        ensures shown { (seen : plain.State) → Holds state.now seen → HoldsView result seen }
        ensures no_writes { result.over ≡ None }
    {
        StateView { state, over: None }
    }

    /// The space of this number; `None` where there is none.
    pub fn space(self, id: SpaceId) -> Option<SpaceView<'a>>
        ensures shown { (seen : plain.State) → HoldsView self.entry seen → ShowsSpace (schema_of seen id.0) result (tuples_in seen id.0) }
        ensures no_writes { self.entry.over ≡ None → IfSome result (λ space. space.over ≡ None) }
    {
        let space = self.state.space(id)?;
        let over = self.writes_in(id);
        Some(SpaceView { space, over })
    }

    /// The own writes in a space.
    fn writes_in(self, id: SpaceId) -> Option<&'a OverlaidSpace>
        ensures { option_copied result ≡ overlaid_in id.0 (option_copied self.entry.over) }
    {
        self.over?.space(id)
    }

    /// As `State::select`, of a space that is seen.
    pub fn select(
        self,
        alloc: Global,
        id: SpaceId,
        space: SpaceView<'_>,
        def: &IndexDef,
        wanted: &Pick<'_>,
        found: &mut Tuples,
    ) -> Result<Option<KeyRange>, SelectFault>
        requires array { IsArray wanted.now.key.now }
        ensures { (seen : plain.State) → HoldsView self.entry seen → ShowsTuples (schema_of seen id.0) space.entry (tuples_in seen id.0)
            → index_with def.now.id.0 space.entry.space.now.schema.indexes ≡ Some def.now
            → SelectsByKey (entries_of seen id.0 def.now) def.now wanted.now found.new result }
    {
        let source = source_of(id);
        if source == id {
            return space.select(alloc, def, wanted, found);
        }
        select_rows_of(alloc, self.state, source, def, wanted, found)
    }
}
