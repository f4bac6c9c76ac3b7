//! A space with its indexes.

ghost use Rattle.std.specs.Prelude.{◌≡◌, IfOk};
ghost use Rattle.std.specs.Option.{option_copied};
ghost use Rattle.mx_schema.specs.Catalogues.{index_with};

use crate::index_def::{IndexDef, IndexDefs};
use crate::space_def::SpaceDef;
use mx_base::IndexId;
use std::alloc::{AllocError, Global};

/// A space with its indexes.
#[derive(Drop)]
pub struct Schema {
    pub def: SpaceDef,
    pub indexes: IndexDefs,
}

impl Schema {
    /// The index of this number; `None` where the space hasn't got one.
    pub fn index(&self, id: IndexId) -> Option<&IndexDef>
        ensures { option_copied result ≡ index_with id.0 self.now.indexes }
    {
        self.indexes.with_id(id)
    }

    /// A copy of the space's description.
    pub fn copy(&self, alloc: Global) -> Result<Schema, AllocError>
        ensures { IfOk result (λ copy. copy ≡ self.now) }
    {
        Ok(Schema {
            def: self.def.copy(alloc)?,
            indexes: self.indexes.copy(alloc)?,
        })
    }
}
