//! Judging writes: what an INSERT, REPLACE, UPDATE, DELETE or UPSERT comes to over a state in memory, or why it is
//! refused.
#![tactic(auto)]

mod delete;
mod descriptions;
mod entry;
mod insert;
mod install;
mod judge;
mod lookup;
mod made;
mod notes;
mod place;
mod replace;
mod scope;
mod stage;
mod target;
mod touched;
mod unique;
mod update;
mod upsert;

pub use descriptions::{described_index, described_space};
pub use lookup::{find_index, find_key, find_space, find_unique_index, index_missing, not_built};
pub use made::{Effect, Made, make, row_of};
pub use notes::Notes;
pub use scope::Scope;
pub use touched::touch_stood;
