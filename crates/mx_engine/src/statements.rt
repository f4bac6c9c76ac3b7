//! What the engine does for each statement.

pub(crate) mod select;
mod step;
pub(crate) mod write;
