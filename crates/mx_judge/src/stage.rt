//! Noting the change that a write came to among a transaction's own writes.

ghost use Rattle.std.specs.Prelude.{◌≡◌, ◌∷◌, false, Ok, Some, List, MatchResult};
ghost use Rattle.mx_schema.specs.Catalogues.{schema_of};
ghost use Rattle.mx_schema.specs.State as plain;
ghost use Rattle.mx_entries.specs.OwnStates.{AreNoDescriptions, state_with_own};
ghost use Rattle.mx_space.specs.OwnChanges.{HoldsOwn};
ghost use Rattle.mx_space.specs.Stored.{Holds};
ghost use Rattle.mx_write.specs.declared.writable.Writer.TheVariants.{Client};
ghost use Rattle.mx_write.specs.Change.{Change};
ghost use Rattle.mx_write.specs.Judge.{judged_write};
ghost use Rattle.mx_write.specs.Made as spec;
ghost use Rattle.mx_judge.specs.Makes.{MakesWrite};
ghost use Rattle.mx_write.specs.Writable.{describes_schema};
ghost use Rattle.mx_write.specs.Writes as statement;

use crate::made::{Effect, Made};
use mx_base::SpaceId;
use mx_schema::Keyed;
use mx_space::{Overlay, State};
use std::alloc::{AllocError, Global};

impl Made {
    /// As `install`, among a transaction's own writes over a state. The write is of no row that describes a
    /// space or an index, and was judged over the state under the earlier ones.
    ///
    /// # Errors
    /// Out of memory. The own writes are then as they were.
    pub fn stage(
        self,
        alloc: Global,
        overlay: &mut Overlay,
        state: &State,
        space: SpaceId,
    ) -> Result<(), AllocError>
        ensures { (base seen : plain.State) (own : List Change) (write : statement.Write) (made : spec.Made) → Holds state.now base → seen ≡ state_with_own base own
            → AreNoDescriptions own → HoldsOwn (schema_of base) overlay.old own → describes_schema space.0 ≡ false → (judged_write Client seen space.0 write).outcome ≡ Ok made
            → MakesWrite seen space.0 write self made → MatchResult result
            (λ _. (change : Change) × (made.change ≡ Some change) × HoldsOwn (schema_of base) overlay.new (change ∷ own))
            (λ _. HoldsOwn (schema_of base) overlay.new own) }
    {
        let Made { key, effect, .. } = self;
        match effect {
            Effect::Put { tuple, .. } => overlay.put(alloc, state, space, Keyed { key, tuple }),
            Effect::Removed { .. } => overlay.remove(alloc, state, space, &key),
        }
    }
}
