//! What a database is and does, apart from how: states, answers, histories, replies.
#![tactic(auto)]

mod ids;
mod laws;
mod node;
mod reply;
mod run_laws;
mod statements;

pub use ids::Ids;
pub use laws::{
    a_change_touches_all_that_it_changes, a_commit_is_its_statements, replies_are_determined,
    rows_make_their_changes, untouched_runs_are_answered_the_same,
    untouched_statements_are_answered_the_same,
};
pub use node::{WRITABLE_NODE, is_write, next_lsn};
pub use reply::Reply;
pub use run_laws::{a_commit_leaves_a_run_that_it_misses, what_a_run_touches};
pub use statements::select::{iterator_of, misfit_refusal, part_count_refusal, takes_iterator};
