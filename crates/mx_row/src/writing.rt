//! Transactions of a journal, written in their shortest spelling.

ghost use Rattle.std.specs.Prelude.{◌≡◌, ◌≤◌, ◌<◌, ◌+◌, ◌∷◌, ◌++◌, Some, length, map, slice_get, take, MatchResult};
ghost use Rattle.std.specs.List.{concat};
ghost use Rattle.mx_msgpack.specs.Spelling.{shortest_unsigned};
ghost use Rattle.mx_base.specs.Keys.{base_key, row_number_key};
ghost use Rattle.mx_request.specs.Spelling.{entry_text, map_text, unless_default};
ghost use Rattle.mx_row.specs.Rows.{IsTransaction, delete_pairs, place_among, place_pairs, row_header_pairs, row_body_text, row_text, transaction_text, tuple_pairs, update_pairs, upsert_pairs};

use crate::header::Place;
use crate::row::Row;
use crate::row_types;
use crate::tx::Tx;
use mx_base::{ReplicaId, keys};
use mx_msgpack::{Bytes, write_map_head, write_unsigned};
use std::alloc::{AllocError, Global};

/// The leading bytes of maps of three, four and five pairs.
const MAP_OF_THREE: u8 = 0x83;

const MAP_OF_FOUR: u8 = 0x84;

const MAP_OF_FIVE: u8 = 0x85;

/// The maximum size of a row in bytes without its tuple, key and operations.
const MAX_KEYS_SIZE: usize = 32;

/// Adds the rows of a transaction.
///
/// # Errors
/// Out of memory; nothing is added.
pub fn write_tx(_alloc: Global, tx: &Tx, out: &mut Bytes) -> Result<(), AllocError>
    requires { IsTransaction tx.now }
    ensures { MatchResult result (λ _. out.new ≡ out.old ++ transaction_text tx.now) (λ _. out.new ≡ out.old) }
{
    let before = out.len();
    let written = write_rows(tx, out);
    if written.is_err() {
        out.truncate(before);
    }
    written
}

/// Adds the row of this place, counted from 0, as it stands in its transaction.
///
/// # Errors
/// Out of memory; nothing is added.
pub fn write_row(_alloc: Global, tx: &Tx, place: usize, out: &mut Bytes) -> Result<(), AllocError>
    requires sound { IsTransaction tx.now }
    requires there { place < length tx.now.rows }
    ensures { (row : Row) → slice_get tx.now.rows place ≡ Some row → MatchResult result
        (λ _. out.new ≡ out.old ++ row_text tx.now.replica.0 (tx.now.first.0 + place) (place_among (length tx.now.rows) place) row)
        (λ _. out.new ≡ out.old) }
{
    let rows = tx.rows.as_slice();
    let lsn = tx.first.0 + place as u64;
    let start = out.len();
    let written = write_placed(
        tx.replica,
        lsn,
        place_among(rows.len(), place),
        &rows[place],
        out,
    );
    if written.is_err() {
        out.truncate(start);
    }
    written
}

/// As `write_tx`, but at an error a prefix of the rows may have been added, as by each function below.
fn write_rows(tx: &Tx, out: &mut Bytes) -> Result<(), AllocError>
    requires { IsTransaction tx.now }
    ensures { MatchResult result (λ _. out.new ≡ out.old ++ transaction_text tx.now) (λ _. take (length out.old) out.new ≡ out.old) }
{
    let rows = tx.rows.as_slice();
    let mut number = 0;
    for row in rows {
        let lsn = tx.first.0 + number as u64;
        write_placed(tx.replica, lsn, place_among(rows.len(), number), row, out)?;
        number += 1;
    }
    Ok(())
}

/// The place of the row of this number, where there are so many rows.
fn place_among(count: usize, number: usize) -> Place
    requires { number < count }
    ensures { result ≡ place_among count number }
{
    if count == 1 {
        return Place::Alone;
    }
    Place::Numbered {
        number: number as u64,
        is_last: number + 1 == count,
    }
}

fn write_placed(
    replica: ReplicaId,
    lsn: u64,
    place: Place,
    row: &Row,
    out: &mut Bytes,
) -> Result<(), AllocError>
    ensures { MatchResult result
        (λ _. out.new ≡ out.old ++ row_text replica.0 lsn place row.now)
        (λ _. take (length out.old) out.new ≡ out.old) }
{
    out.reserve(row_room(row))?;
    write_head(row.kind, replica, lsn, place, out)?;
    write_body(row, out)?;
    Ok(())
}

/// As many bytes as the row takes, or a few more.
fn row_room(row: &Row) -> usize {
    MAX_KEYS_SIZE
        .saturating_add(row.tuple.len())
        .saturating_add(row.key.len())
        .saturating_add(row.ops.len())
}

#[tactic(auto, unfolding(mx_msgpack::specs::Spelling::map_head))]
fn write_head(
    kind: u8,
    replica: ReplicaId,
    lsn: u64,
    place: Place,
    out: &mut Bytes,
) -> Result<(), AllocError>
    ensures { MatchResult result
        (λ _. out.new ≡ out.old ++ map_text (row_header_pairs kind replica.0 lsn ++ place_pairs place))
        (λ _. take (length out.old) out.new ≡ out.old) }
{
    match place {
        Place::Alone => write_keys(MAP_OF_THREE, kind, replica, lsn, out),
        Place::Numbered {
            number,
            is_last: false,
        } => {
            write_keys(MAP_OF_FOUR, kind, replica, lsn, out)?;
            write_row_number(number, out)?;
            Ok(())
        }
        Place::Numbered {
            number,
            is_last: true,
        } => {
            write_keys(MAP_OF_FIVE, kind, replica, lsn, out)?;
            write_row_number(number, out)?;
            out.extend_from_slice(&[keys::IS_LAST, 1])?;
            Ok(())
        }
    }
}

/// Appends the leading byte of a header, and the keys that each header has.
fn write_keys(
    head: u8,
    kind: u8,
    replica: ReplicaId,
    lsn: u64,
    out: &mut Bytes,
) -> Result<(), AllocError>
    ensures { MatchResult result
        (λ _. out.new ≡ out.old ++ head ∷ concat (map entry_text (row_header_pairs kind replica.0 lsn)))
        (λ _. take (length out.old) out.new ≡ out.old) }
{
    out.extend_from_slice(&[head, keys::TYPE, kind, keys::REPLICA, replica.0, keys::LSN])?;
    write_unsigned(lsn, out)?;
    Ok(())
}

fn write_row_number(number: u64, out: &mut Bytes) -> Result<(), AllocError>
    ensures { MatchResult result
        (λ _. out.new ≡ out.old ++ entry_text (row_number_key, shortest_unsigned number))
        (λ _. take (length out.old) out.new ≡ out.old) }
{
    out.extend_from_slice(&[keys::ROW_NUMBER])?;
    write_unsigned(number, out)?;
    Ok(())
}

fn write_body(row: &Row, out: &mut Bytes) -> Result<(), AllocError>
    ensures { MatchResult result (λ _. out.new ≡ out.old ++ row_body_text row.now) (λ _. take (length out.old) out.new ≡ out.old) }
{
    match row.kind {
        row_types::UPDATE => write_update(row, out),
        row_types::DELETE => write_delete(row, out),
        row_types::UPSERT => write_upsert(row, out),
        _ => write_tuple(row, out),
    }
}

fn write_tuple(row: &Row, out: &mut Bytes) -> Result<(), AllocError>
    ensures { MatchResult result
        (λ _. out.new ≡ out.old ++ map_text (tuple_pairs row.now.space.0 row.now.tuple))
        (λ _. take (length out.old) out.new ≡ out.old) }
{
    write_map_head(2, out)?;
    write_number(keys::SPACE, row.space.0, out)?;
    write_array(keys::TUPLE, &row.tuple, out)?;
    Ok(())
}

fn write_update(row: &Row, out: &mut Bytes) -> Result<(), AllocError>
    ensures { MatchResult result
        (λ _. out.new ≡ out.old ++ map_text (update_pairs row.now.space.0 row.now.index_base row.now.key row.now.ops))
        (λ _. take (length out.old) out.new ≡ out.old) }
{
    write_map_head(3 + base_pairs(row.index_base), out)?;
    write_number(keys::SPACE, row.space.0, out)?;
    write_base(row.index_base, out)?;
    write_array(keys::PARTS, &row.key, out)?;
    write_array(keys::TUPLE, &row.ops, out)?;
    Ok(())
}

fn write_delete(row: &Row, out: &mut Bytes) -> Result<(), AllocError>
    ensures { MatchResult result
        (λ _. out.new ≡ out.old ++ map_text (delete_pairs row.now.space.0 row.now.key))
        (λ _. take (length out.old) out.new ≡ out.old) }
{
    write_map_head(2, out)?;
    write_number(keys::SPACE, row.space.0, out)?;
    write_array(keys::PARTS, &row.key, out)?;
    Ok(())
}

fn write_upsert(row: &Row, out: &mut Bytes) -> Result<(), AllocError>
    ensures { MatchResult result
        (λ _. out.new ≡ out.old ++ map_text (upsert_pairs row.now.space.0 row.now.index_base row.now.tuple row.now.ops))
        (λ _. take (length out.old) out.new ≡ out.old) }
{
    write_map_head(3 + base_pairs(row.index_base), out)?;
    write_number(keys::SPACE, row.space.0, out)?;
    write_base(row.index_base, out)?;
    write_array(keys::TUPLE, &row.tuple, out)?;
    write_array(keys::OPERATIONS, &row.ops, out)?;
    Ok(())
}

fn base_pairs(base: u32) -> usize
    ensures count { result ≡ length (unless_default base_key 0 base) }
    ensures few { result ≤ 1 }
{
    usize::from(base != 0)
}

fn write_base(base: u32, out: &mut Bytes) -> Result<(), AllocError>
    ensures { MatchResult result
        (λ _. out.new ≡ out.old ++ concat (map entry_text (unless_default base_key 0 base)))
        (λ _. take (length out.old) out.new ≡ out.old) }
{
    if base != 0 {
        write_number(keys::BASE, base, out)?;
    }
    Ok(())
}

fn write_number(key: u8, number: u32, out: &mut Bytes) -> Result<(), AllocError>
    ensures { MatchResult result (λ _. out.new ≡ out.old ++ entry_text (key, shortest_unsigned number)) (λ _. take (length out.old) out.new ≡ out.old) }
{
    out.extend_from_slice(&[key])?;
    write_unsigned(u64::from(number), out)?;
    Ok(())
}

fn write_array(key: u8, array: &Bytes, out: &mut Bytes) -> Result<(), AllocError>
    ensures { MatchResult result (λ _. out.new ≡ out.old ++ entry_text (key, array.now)) (λ _. take (length out.old) out.new ≡ out.old) }
{
    out.extend_from_slice(&[key])?;
    out.extend_from_slice(array.as_slice())?;
    Ok(())
}
