//! Writes: INSERT, REPLACE, UPDATE, DELETE and UPSERT as requests and rows ask for them, and what each of them
//! makes of a plain state, or why it is refused.
#![tactic(auto)]

mod checks;
mod laws;
mod operations;
mod type_name;
mod writable;
mod write;

pub use checks::{check_bytes, check_tuple, fault_refusal};
pub use laws::{a_row_makes_its_write_again, a_write_keeps_a_state_sound, a_write_leaves_a_row};
pub use operations::{update_tuple, upsert_tuple};
pub use type_name::type_of;
pub use writable::{Writer, describes_schema, primary_name, tuple_in_space, write_refusal};
pub use write::{
    DELETE, INSERT, REPLACE, UPDATE, UPSERT, Write, write_in, write_of, write_of_request,
};
