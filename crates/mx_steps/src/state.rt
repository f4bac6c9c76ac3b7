//! States in memory with tuples in the space 512.

use crate::fault::StepFault;
use mx_base::SpaceId;
use mx_judge::{Notes, Scope};
use mx_recover::bootstrap;
use mx_schema::array_or_empty;
use mx_space::{State, StateView};
use mx_write::Writer;
use std::alloc::Global;

/// Puts a tuple into a state.
///
/// # Errors
/// The state refuses the tuple, or an allocation failed.
pub fn put(alloc: Global, state: &mut State, tuple: &[u8]) -> Result<(), StepFault> {
    let made = replace_in(state, alloc).replace(array_or_empty(tuple), &mut Notes::off())?;
    Ok(made.install(alloc, state, SpaceId(512))?)
}

/// A REPLACE by a client in the space 512 of a state.
pub fn replace_in(state: &State, alloc: Global) -> Scope<'_> {
    Scope {
        view: StateView::of(state),
        alloc,
        writer: Writer::Client,
        space: SpaceId(512),
    }
}

/// The state of a new database into which these tuples were put.
///
/// # Errors
/// As of `put`.
pub fn state_of(alloc: Global, tuples: &[&[u8]]) -> Result<State, StepFault> {
    let mut state = bootstrap(alloc)?;
    for tuple in tuples {
        put(alloc, &mut state, tuple)?;
    }
    Ok(state)
}
