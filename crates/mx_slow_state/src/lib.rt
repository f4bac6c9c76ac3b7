//! The state of the plain slow program: the tuples of a space in one list, which is looked through.
#![tactic(auto)]

mod slow_state;

pub use slow_state::{
    Site, SlowAnswer, SlowSpace, SlowState, SlowWrite, find, find_entry, gather, holder,
    index_tuples, is_another, key_refusal, next_of, refused,
};
