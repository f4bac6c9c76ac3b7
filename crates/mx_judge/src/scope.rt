//! Where a write is judged.

use mx_base::SpaceId;
use mx_schema::{IndexDef, Schema};
use mx_space::{SpaceView, StateView};
use mx_write::Writer;
use std::alloc::Global;

/// A space of a state as it is seen, and who writes there.
#[derive(Clone, Copy)]
pub struct Scope<'a> {
    pub view: StateView<'a>,
    pub alloc: Global,
    pub writer: Writer,
    pub space: SpaceId,
}

/// The space, which is there and has a primary index.
#[derive(Clone, Copy)]
pub(crate) struct Target<'a> {
    pub scope: Scope<'a>,
    pub stored: SpaceView<'a>,
    pub schema: &'a Schema,
    pub primary: &'a IndexDef,
}
