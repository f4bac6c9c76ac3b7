//! What a database has: its spaces and indexes, as the rows that describe them say.
#![tactic(auto)]

mod bootstrap;
mod catalogue;
mod catalogue_rows;
mod checks;
mod fault;
mod format_row;
mod index_def;
mod index_row;
mod keyed;
mod laws;
mod members;
mod names;
mod part_row;
mod schema;
mod settings;
mod space_def;
mod space_row;
mod spaces;
mod text_map;

pub use bootstrap::{first_index_rows, first_setting_rows, first_space_rows};
pub use catalogue::Catalogue;
pub use catalogue_rows::{from_row_slices, from_rows};
pub use checks::first_number;
pub use fault::SchemaFault;
pub use index_def::{IndexDef, IndexDefs, IndexKind, IndexRow};
pub use index_row::index_of_row;
pub use keyed::{Keyed, array_or_empty, index_tuple, key_array, key_tuple, parts_or_none};
pub use laws::{
    a_catalogue_is_that_of_its_state, a_new_database_has_its_catalogue,
    index_rows_stand_under_their_numbers, indexes_have_spaces, rows_change_the_schema,
    rows_make_one_catalogue,
};
pub use members::is_member;
pub use schema::Schema;
pub use settings::is_leader;
pub use space_def::SpaceDef;
pub use space_row::space_of_row;
pub use spaces::{
    CLUSTER, INDEX_ROWS, SETTINGS, SHOWN_INDEX_ROWS, SHOWN_SPACE_ROWS, SPACE_ROWS, source_of,
};
