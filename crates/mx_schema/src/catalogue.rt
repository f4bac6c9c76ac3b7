//! The catalogue: which spaces there are, each with its indexes.

ghost use Rattle.std.specs.Prelude.{◌≡◌, ◌⊎◌, ℕ, Ok, Err, MatchResult, OnOk};
ghost use Rattle.std.specs.BTreeMap.{get_by};
ghost use Rattle.std.specs.FinMap as map;
ghost use Rattle.std.specs.Option.{option_copied};
ghost use Rattle.std.specs.Ordering.{nat_cmp};
ghost use Rattle.mx_base.specs.declared.refusal.Refusal.TheVariants.{OutOfMemory};
ghost use Rattle.mx_schema.specs.declared.index_def.IndexRow.{IndexRow};
ghost use Rattle.mx_schema.specs.Catalogues.{index_among, space_among};
ghost use Rattle.mx_schema.specs.SchemaChecks.{new_index, new_space, space_named, with_index_row, with_space};

use crate::checks::{new_index, new_space};
use crate::index_def::{IndexDef, IndexDefs, IndexRow};
use crate::schema::Schema;
use crate::space_def::SpaceDef;
use mx_base::{IndexId, Name, Refusal, SpaceId};
use mx_tuple::Tuple;
use std::alloc::{AllocError, Global};
use std::collections::BTreeMap;
use std::marker::Model;

/// The spaces by number, each with its indexes: what the rows of the two spaces that describe them say.
#[derive(Drop)]
pub struct Catalogue {
    schemas: BTreeMap<u32, Schema>,
}

impl Model for Catalogue {
    ghost use Rattle.std.specs.Coded.{coded_ℕ};
    ghost use Rattle.std.specs.FinMap.{code, from_entries};
    ghost use Rattle.mx_schema.specs.contracts.schema.Schema as schema;
    ghost use Rattle.mx_schema.specs.Catalogues.{Catalogue};

    ghost Value = { Catalogue };

    ghost coded = { code coded_ℕ schema.the_row.coded };

    ghost view = { λ c. from_entries c.schemas.entries };
}

impl Catalogue {
    /// No space.
    pub fn new(alloc: Global) -> Catalogue
        ensures { result ≡ map.empty }
    {
        Catalogue {
            schemas: BTreeMap::new(alloc),
        }
    }

    /// The space of this number with its indexes; `None` where there is none.
    pub fn schema(&self, space: SpaceId) -> Option<&Schema>
        ensures { option_copied result ≡ map.get self.now space.0 }
    {
        self.schemas.get(&space.0)
    }

    /// The space of this number; `None` where there is none.
    pub fn space(&self, id: SpaceId) -> Option<&SpaceDef>
        ensures { option_copied result ≡ space_among self.now id.0 }
    {
        match self.schema(id) {
            Some(schema) => Some(&schema.def),
            None => None,
        }
    }

    /// The index of this number of a space; `None` where there is none.
    pub fn index(&self, space: SpaceId, id: IndexId) -> Option<&IndexDef>
        ensures { option_copied result ≡ index_among self.now space.0 id.0 }
    {
        match self.schema(space) {
            Some(schema) => schema.index(id),
            None => None,
        }
    }

    /// The schemas by the numbers of their spaces.
    pub fn into_schemas(self) -> BTreeMap<u32, Schema>
        ensures { (space : ℕ) → get_by (nat_cmp space) result ≡ map.get self space }
    {
        self.schemas
    }

    /// The space that a new row describes.
    ///
    /// # Errors
    /// The row describes none; its number or its name is that of a space that is there; or out of memory.
    pub fn check_new_space(&self, alloc: Global, row: &Tuple) -> Result<SpaceDef, Refusal>
        ensures { MatchResult result
            (λ def. new_space self.now row.now.fields ≡ Ok def)
            (λ refusal. (new_space self.now row.now.fields ≡ Err refusal) ⊎ (refusal ≡ OutOfMemory)) }
    {
        match new_space(self, alloc, row) {
            Ok(judged) => judged,
            Err(_) => Err(Refusal::OutOfMemory),
        }
    }

    /// The index that a new row describes.
    ///
    /// # Errors
    /// Its space isn't there; the row describes none; its number or its name is that of an index of the
    /// space; or out of memory.
    pub fn check_new_index(&self, alloc: Global, row: &Tuple) -> Result<IndexDef, Refusal>
        ensures { MatchResult result
            (λ def. (described : IndexRow) × (described.def ≡ def) × (new_index self.now row.now.fields ≡ Ok described))
            (λ refusal. (new_index self.now row.now.fields ≡ Err refusal) ⊎ (refusal ≡ OutOfMemory)) }
    {
        match new_index(self, alloc, row) {
            Ok(Ok(described)) => Ok(described.def),
            Ok(Err(refusal)) => Err(refusal),
            Err(_) => Err(Refusal::OutOfMemory),
        }
    }

    /// The first space of this name, by ascending numbers.
    pub(crate) fn space_named(&self, name: &Name) -> Option<&SpaceDef>
        ensures { option_copied result ≡ space_named name.now (map.values self.now) }
    {
        for schema in self.schemas.values() {
            if schema.def.name == *name {
                return Some(&schema.def);
            }
        }
        None
    }

    /// Adds a space without indexes, in the place of one that has its number.
    pub(crate) fn insert_space(&mut self, alloc: Global, def: SpaceDef) -> Result<(), AllocError>
        ensures { OnOk result (self.new ≡ with_space self.old def) }
    {
        let schema = Schema {
            def,
            indexes: IndexDefs::new(alloc),
        };
        self.schemas.insert(schema.def.id.0, schema)?;
        Ok(())
    }

    /// Adds an index to its space, where that is there.
    pub(crate) fn insert_index(&mut self, row: IndexRow) -> Result<(), AllocError>
        ensures { OnOk result (self.new ≡ with_index_row self.old row) }
    {
        if let Some(schema) = self.schemas.get_mut(&row.space.0) {
            schema.indexes.insert(row.def)?;
        }
        Ok(())
    }
}
