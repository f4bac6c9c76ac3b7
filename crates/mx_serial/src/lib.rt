//! What holds of whole histories: their order, what is told before it is durable, and serializability.
#![tactic(auto)]

mod laws;
mod transaction_laws;

pub use laws::commits_are_sound;
pub use transaction_laws::{
    a_commit_makes_what_its_statements_did, a_commit_moves_what_it_overlaps,
    a_commit_was_answered_alone, a_conflict_has_its_commit, a_statement_is_kept_as_it_was_told,
    a_view_keeps_its_place, a_write_dooms_what_is_overlapped,
    committed_rows_are_those_of_running_alone, committed_transactions_are_serializable,
    conflict_is_told_where_a_transaction_is_doomed, every_transaction_ended_or_is_open,
    every_transaction_ran_alone, legal_histories_are_serializable,
    memory_runs_out_only_where_it_is_asked_for, open_transactions_stand_alone,
    out_of_memory_is_never_demanded, transactions_have_a_serial_order,
    transactions_of_a_history_ran_alone, what_was_told_is_recorded,
};
