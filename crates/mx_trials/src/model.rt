//! The laws of the model and of the schema, which are calls without arguments.

use mx_directory::a_directory_stands_once;
use mx_model::{replies_are_determined, rows_make_their_changes};
use mx_schema::{
    a_catalogue_is_that_of_its_state, a_new_database_has_its_catalogue, rows_make_one_catalogue,
};
use mx_serial::commits_are_sound;
use mx_write::{a_row_makes_its_write_again, a_write_keeps_a_state_sound, a_write_leaves_a_row};

#[test]
fn laws_hold(_rt: HostRuntime) {
    a_directory_stands_once();
    commits_are_sound();
    replies_are_determined();
    rows_make_their_changes();
    a_new_database_has_its_catalogue();
    rows_make_one_catalogue();
    a_catalogue_is_that_of_its_state();
    a_row_makes_its_write_again();
    a_write_leaves_a_row();
    a_write_keeps_a_state_sound();
}
