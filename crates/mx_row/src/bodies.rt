//! The bodies of rows, read in place: each in one pass over the keys of its type.

ghost use Rattle.std.specs.Prelude.{◌≡◌, ◌⊎◌, IfSome};
ghost use Rattle.std.specs.Option.{option_copied, option_map};
ghost use Rattle.mx_msgpack.specs.Items.{IsOneValue};
ghost use Rattle.mx_row.specs.Rows.{delete_by, delete_type, insert_type, replace_type, row_at, short_enough, tuple_by, update_by, update_type, upsert_by, upsert_type};
ghost use Rattle.mx_row.specs.Views.{row_value};

use crate::row_ref::RowRef;
use crate::row_types;
use crate::size::{MAX_BODY_SIZE, row_size};
use crate::values::{base_in, held_array, held_number_to, held_operations};
use mx_base::{SpaceId, keys};
use mx_msgpack::values_at;

const MAX_SPACE: u64 = 0xffff_ffff;

/// The body of a row of this type that stands first, and the bytes after it.
#[inline]
#[tactic(auto, unfolding(crate::specs::Rows::row_at))]
pub(crate) fn row_at(kind: u64, bytes: &[u8]) -> Option<(RowRef<'_>, &[u8])>
    ensures { option_map (λ x. (row_value x.0, x.1.now)) result ≡ row_at kind bytes.now }
{
    match kind {
        2 => tuple_at(row_types::INSERT, bytes),
        3 => tuple_at(row_types::REPLACE, bytes),
        4 => update_at(bytes),
        5 => delete_at(bytes),
        9 => upsert_at(bytes),
        _ => None,
    }
}

#[inline]
#[tactic(auto, unfolding(crate::specs::Rows::row_at))]
fn tuple_at(kind: u8, bytes: &[u8]) -> Option<(RowRef<'_>, &[u8])>
    requires { (kind ≡ insert_type) ⊎ (kind ≡ replace_type) }
    ensures { option_map (λ x. (row_value x.0, x.1.now)) result ≡ row_at kind bytes.now }
{
    let mut values = [None; 2];
    let rest = values_at(&[keys::SPACE, keys::TUPLE], bytes, &mut values)?;
    let [space, tuple] = values;
    let row = tuple_of(kind, space, tuple)?;
    Some((row, rest))
}

#[inline]
#[tactic(auto, unfolding(crate::specs::Rows::tuple_by))]
fn tuple_of<'a>(kind: u8, space: Option<&'a [u8]>, tuple: Option<&'a [u8]>) -> Option<RowRef<'a>>
    requires { IfSome (option_copied tuple) IsOneValue }
    ensures { option_map row_value result ≡ tuple_by kind (option_copied space.entry) (option_copied tuple.entry) }
{
    let space = held_number_to(MAX_SPACE, space)?;
    let tuple = held_array(tuple)?;
    short_enough(RowRef {
        kind,
        space: SpaceId(space as u32),
        index_base: 0,
        tuple,
        key: &[],
        ops: &[],
    })
}

#[inline(never)]
#[tactic(auto, unfolding(crate::specs::Rows::row_at))]
fn update_at(bytes: &[u8]) -> Option<(RowRef<'_>, &[u8])>
    ensures { option_map (λ x. (row_value x.0, x.1.now)) result ≡ row_at update_type bytes.now }
{
    let mut values = [None; 4];
    let rest = values_at(
        &[keys::SPACE, keys::BASE, keys::PARTS, keys::TUPLE],
        bytes,
        &mut values,
    )?;
    let [space, base, key, ops] = values;
    let row = update_of(space, base, key, ops)?;
    Some((row, rest))
}

#[tactic(auto, unfolding(crate::specs::Rows::update_by))]
fn update_of<'a>(
    space: Option<&'a [u8]>,
    base: Option<&'a [u8]>,
    key: Option<&'a [u8]>,
    ops: Option<&'a [u8]>,
) -> Option<RowRef<'a>>
    requires key { IfSome (option_copied key) IsOneValue }
    requires ops { IfSome (option_copied ops) IsOneValue }
    ensures { option_map row_value result
        ≡ update_by (option_copied space.entry) (option_copied base.entry) (option_copied key.entry) (option_copied ops.entry) }
{
    let space = held_number_to(MAX_SPACE, space)?;
    let base = base_in(base)?;
    let key = held_array(key)?;
    let ops = held_operations(ops)?;
    short_enough(RowRef {
        kind: row_types::UPDATE,
        space: SpaceId(space as u32),
        index_base: base as u32,
        tuple: &[],
        key,
        ops,
    })
}

#[inline(never)]
#[tactic(auto, unfolding(crate::specs::Rows::row_at))]
fn delete_at(bytes: &[u8]) -> Option<(RowRef<'_>, &[u8])>
    ensures { option_map (λ x. (row_value x.0, x.1.now)) result ≡ row_at delete_type bytes.now }
{
    let mut values = [None; 2];
    let rest = values_at(&[keys::SPACE, keys::PARTS], bytes, &mut values)?;
    let [space, key] = values;
    let row = delete_of(space, key)?;
    Some((row, rest))
}

#[tactic(auto, unfolding(crate::specs::Rows::delete_by))]
fn delete_of<'a>(space: Option<&'a [u8]>, key: Option<&'a [u8]>) -> Option<RowRef<'a>>
    requires { IfSome (option_copied key) IsOneValue }
    ensures { option_map row_value result ≡ delete_by (option_copied space.entry) (option_copied key.entry) }
{
    let space = held_number_to(MAX_SPACE, space)?;
    let key = held_array(key)?;
    short_enough(RowRef {
        kind: row_types::DELETE,
        space: SpaceId(space as u32),
        index_base: 0,
        tuple: &[],
        key,
        ops: &[],
    })
}

#[inline(never)]
#[tactic(auto, unfolding(crate::specs::Rows::row_at))]
fn upsert_at(bytes: &[u8]) -> Option<(RowRef<'_>, &[u8])>
    ensures { option_map (λ x. (row_value x.0, x.1.now)) result ≡ row_at upsert_type bytes.now }
{
    let mut values = [None; 4];
    let rest = values_at(
        &[keys::SPACE, keys::BASE, keys::TUPLE, keys::OPERATIONS],
        bytes,
        &mut values,
    )?;
    let [space, base, tuple, ops] = values;
    let row = upsert_of(space, base, tuple, ops)?;
    Some((row, rest))
}

#[tactic(auto, unfolding(crate::specs::Rows::upsert_by))]
fn upsert_of<'a>(
    space: Option<&'a [u8]>,
    base: Option<&'a [u8]>,
    tuple: Option<&'a [u8]>,
    ops: Option<&'a [u8]>,
) -> Option<RowRef<'a>>
    requires tuple { IfSome (option_copied tuple) IsOneValue }
    requires ops { IfSome (option_copied ops) IsOneValue }
    ensures { option_map row_value result
        ≡ upsert_by (option_copied space.entry) (option_copied base.entry) (option_copied tuple.entry) (option_copied ops.entry) }
{
    let space = held_number_to(MAX_SPACE, space)?;
    let base = base_in(base)?;
    let tuple = held_array(tuple)?;
    let ops = held_operations(ops)?;
    short_enough(RowRef {
        kind: row_types::UPSERT,
        space: SpaceId(space as u32),
        index_base: base as u32,
        tuple,
        key: &[],
        ops,
    })
}

#[inline]
fn short_enough(row: RowRef<'_>) -> Option<RowRef<'_>>
    ensures { option_map row_value result ≡ short_enough (row_value row.entry) }
{
    if row_size(&row) > MAX_BODY_SIZE {
        return None;
    }
    Some(row)
}
