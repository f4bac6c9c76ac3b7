//! What can't be written so, whatever else is wrong with a tuple or a key.

ghost use Rattle.std.specs.Prelude.{◌≡◌, List, Ok};
ghost use Rattle.std.specs.Option.{option_copied};
ghost use Rattle.mx_base.specs.declared.kinds.Unsupported.TheVariants.{SystemSpaceWrite};
ghost use Rattle.mx_base.specs.declared.refusal.Refusal.TheVariants as refused;
ghost use Rattle.mx_msgpack.specs.Items.{items_of};
ghost use Rattle.mx_write.specs.Writable as spec;

use crate::write::{DELETE, INSERT, REPLACE, UPSERT};
use mx_base::{IndexId, Refusal, SpaceId, Unsupported};
use mx_msgpack::{Bytes, array_of, parted, unsigned_in};
use mx_schema::{
    CLUSTER, INDEX_ROWS, SETTINGS, SHOWN_INDEX_ROWS, SHOWN_SPACE_ROWS, SPACE_ROWS, is_leader,
    is_member,
};

/// The number of the first space that users may make.
const FIRST_USER_SPACE: u64 = 512;

/// Who writes.
#[derive(Clone, Copy, Drop, PartialEq, Eq)]
pub enum Writer {
    Client,
    /// A journal, whose rows were judged when they were written.
    Journal,
}

/// Whether the rows of a space describe spaces or indexes.
pub fn describes_schema(space: SpaceId) -> bool
    ensures { result ≡ spec.describes_schema space.0 }
{
    space.0 == SPACE_ROWS || space.0 == INDEX_ROWS
}

/// Why a write of this type can't be made in a space, of the row that this array names: its tuple or its
/// primary key, and none where it is named by another index.
pub fn write_refusal(
    writer: Writer,
    space: SpaceId,
    kind: u8,
    named: Option<&[u8]>,
) -> Option<Refusal>
    ensures { result ≡ spec.write_refusal writer space.0 kind (option_copied named.entry) }
{
    match space.0 {
        SPACE_ROWS | INDEX_ROWS => schema_refusal(kind, named),
        SHOWN_SPACE_ROWS | SHOWN_INDEX_ROWS => Some(system_write()),
        CLUSTER => cluster_refusal(writer, kind, named),
        SETTINGS => leader_refusal(writer, named),
        _ => None,
    }
}

/// The key by which a row is named, where it is a primary key.
pub fn primary_name(index: IndexId, key: &[u8]) -> Option<&[u8]>
    ensures { option_copied result ≡ spec.primary_name index.0 key.now }
{
    if index.0 == 0 { Some(key) } else { None }
}

/// A row that describes a space or an index is added and taken out, and never replaced.
fn schema_refusal(kind: u8, named: Option<&[u8]>) -> Option<Refusal>
    ensures { result ≡ spec.schema_refusal kind (option_copied named.entry) }
{
    if kind != INSERT && kind != DELETE {
        return Some(Refusal::Unsupported {
            what: Unsupported::SchemaInPlace,
        });
    }
    own_row_refusal(named)
}

/// The rows that describe the database's own spaces stay.
fn own_row_refusal(named: Option<&[u8]>) -> Option<Refusal>
    ensures { result ≡ spec.own_row_refusal (option_copied named.entry) }
{
    match named {
        Some(array) if begins_with_system_number(array) => Some(system_write()),
        _ => None,
    }
}

fn system_write() -> Refusal
    ensures { result ≡ refused.Unsupported SystemSpaceWrite }
{
    Refusal::Unsupported {
        what: Unsupported::SystemSpaceWrite,
    }
}

/// The nodes of a replica set aren't written by clients, and a journal's are rows of such nodes.
fn cluster_refusal(writer: Writer, kind: u8, named: Option<&[u8]>) -> Option<Refusal>
    ensures { result ≡ spec.cluster_refusal writer kind (option_copied named.entry) }
{
    match writer {
        Writer::Client => Some(system_write()),
        Writer::Journal => unless_member(kind, named),
    }
}

fn unless_member(kind: u8, named: Option<&[u8]>) -> Option<Refusal>
    ensures { result ≡ spec.unless_member kind (option_copied named.entry) }
{
    match named {
        Some(tuple) if names_by_tuple(kind) && !is_member(tuple) => Some(system_write()),
        _ => None,
    }
}

fn names_by_tuple(kind: u8) -> bool
    ensures { result ≡ spec.names_by_tuple kind }
{
    kind == INSERT || kind == REPLACE || kind == UPSERT
}

/// A tuple that an update made, where it may stand in the space.
///
/// # Errors
/// It should be the row of a node of the replica set, and isn't.
pub fn tuple_in_space(writer: Writer, space: SpaceId, tuple: Bytes) -> Result<Bytes, Refusal>
    ensures { result ≡ spec.tuple_in_space writer space.0 (Ok tuple) }
{
    match writer {
        Writer::Journal if space.0 == CLUSTER && !is_member(tuple.as_slice()) => {
            Err(system_write())
        }
        _ => Ok(tuple),
    }
}

fn leader_refusal(writer: Writer, named: Option<&[u8]>) -> Option<Refusal>
    ensures { result ≡ spec.leader_refusal writer (option_copied named.entry) }
{
    match writer {
        Writer::Client if names_leader(named) => Some(system_write()),
        _ => None,
    }
}

fn names_leader(named: Option<&[u8]>) -> bool
    ensures { result ≡ spec.names_leader (option_copied named.entry) }
{
    match named {
        Some(array) => is_leader(array),
        None => false,
    }
}

fn begins_with_system_number(array: &[u8]) -> bool
    ensures { result ≡ spec.begins_with_system_number (items_of array.now) }
{
    let Some(items) = array_of(array) else {
        return false;
    };
    if items.count == 0 {
        return false;
    }
    let (first, _) = parted(items.bytes);
    match unsigned_in(first) {
        Some(number) => number < FIRST_USER_SPACE,
        None => false,
    }
}
