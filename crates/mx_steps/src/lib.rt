//! Steps of tests: requests in short, what the plain slow program and the engine tell, and states of tuples.
//!
//! Nothing here stops a program: a reply that isn't the expected one is a `StepFault`, at which a test
//! fails.
#![tactic(auto)]

mod asked;
mod database;
mod fault;
mod state;
mod told;
mod tuples;

pub use asked::{Asked, NAME, NO_KEY, request_of};
pub use database::{
    Database, Step, StreamStep, ask_engine, engine_at, expect, ids_of, play, play_at, play_both,
    play_streams_at, slow_program,
};
pub use fault::StepFault;
pub use mx_engine::{Engine, Pending};
pub use mx_recover::bootstrap;
pub use mx_samples::{ALL, EQ, FIRST_INDEXES, FIRST_SPACES, GE, GT, LE, LT, REQ};
pub use mx_slow::{ReadRange, Slow};
pub use state::{put, replace_in, state_of};
pub use told::{Told, bytes_of, check_refusal, check_reply};
pub use tuples::{tuple_of_maximum_size, tuple_with};
