//! The spaces that a database has of its own.

ghost use Rattle.std.specs.Prelude.{◌≡◌};
ghost use Rattle.mx_schema.specs.State.{source_of};

use mx_base::SpaceId;

/// The space of settings.
pub const SETTINGS: u32 = 272;

/// The space whose rows describe spaces.
pub const SPACE_ROWS: u32 = 280;

/// The space that shows the rows that describe spaces.
pub const SHOWN_SPACE_ROWS: u32 = 281;

/// The space whose rows describe indexes.
pub const INDEX_ROWS: u32 = 288;

/// The space that shows the rows that describe indexes.
pub const SHOWN_INDEX_ROWS: u32 = 289;

/// The space of the nodes of the replica set.
pub const CLUSTER: u32 = 320;

/// The space whose tuples a space has: its own, or those whose rows it shows.
pub fn source_of(space: SpaceId) -> SpaceId
    ensures { result.0 ≡ source_of space.0 }
{
    match space.0 {
        SHOWN_SPACE_ROWS => SpaceId(SPACE_ROWS),
        SHOWN_INDEX_ROWS => SpaceId(INDEX_ROWS),
        _ => space,
    }
}
