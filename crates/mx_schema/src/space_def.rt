//! Spaces, as their rows describe them.

ghost use Rattle.std.specs.Prelude.{◌≡◌, IfOk};

use mx_base::{Name, SpaceId};
use mx_msgpack::Bytes;
use mx_tuple::{Format, FormatEntries, FormatEntry};
use std::alloc::{AllocError, Global};

/// A space: its number, its name, and what it asks of its tuples.
#[derive(Drop)]
pub struct SpaceDef {
    pub id: SpaceId,
    pub name: Name,
    pub format: Format,
}

impl SpaceDef {
    pub(crate) fn copy(&self, alloc: Global) -> Result<SpaceDef, AllocError>
        ensures { IfOk result (λ copy. copy ≡ self.now) }
    {
        Ok(SpaceDef {
            id: self.id,
            name: Name::from_slice(alloc, self.name.as_slice())?,
            format: Format {
                count: self.format.count,
                entries: copy_of_entries(alloc, &self.format.entries)?,
            },
        })
    }
}

fn copy_of_entries(alloc: Global, entries: &FormatEntries) -> Result<FormatEntries, AllocError>
    ensures { IfOk result (λ copy. copy ≡ entries.now) }
{
    let copies = copies_of(alloc, entries.as_slice())?;
    let Some(copy) = FormatEntries::from_vec(copies) else {
        return Err(AllocError);
    };
    Ok(copy)
}

fn copies_of(alloc: Global, entries: &[FormatEntry]) -> Result<Vec<FormatEntry>, AllocError>
    ensures { IfOk result (λ copies. copies.items ≡ entries.now) }
{
    let mut copies = Vec::with_capacity(alloc, entries.len())?;
    for entry in entries {
        copies.push_reserved(copy_of_entry(alloc, entry)?);
    }
    Ok(copies)
}

fn copy_of_entry(alloc: Global, entry: &FormatEntry) -> Result<FormatEntry, AllocError>
    ensures { IfOk result (λ copy. copy ≡ entry.now) }
{
    Ok(FormatEntry {
        name: Bytes::from_slice(alloc, entry.name.as_slice())?,
        kind: entry.kind,
        nullable: entry.nullable,
    })
}
