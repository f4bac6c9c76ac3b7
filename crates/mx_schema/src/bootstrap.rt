//! What a new database holds: the rows that describe its spaces and indexes, and its settings.

ghost use Rattle.std.specs.Prelude.{◌≡◌, ◌↔◌, ◌++◌, ◌∷◌, [], ℕ, List, map, IfOk, IsTrue, MatchOption};
ghost use Rattle.mx_msgpack.specs.Grammar.{Spells, Value, max_nesting};
ghost use Rattle.mx_msgpack.specs.Spelling.{shortest};
ghost use Rattle.mx_schema.specs.RowParts.{is_among};
ghost use Rattle.mx_schema.specs.Bootstrap.{first_indexes, first_settings, first_spaces, rows_of};
ghost use Rattle.mx_schema.specs.SchemaChecks.{IsOneOf};

use crate::names::is_text;
use mx_msgpack::{Bytes, ReadBad, Tuples, read_value, write_value};
use std::alloc::{AllocError, Global};

/// Whether a row spells the same value as one of a new database's rows of spaces.
pub(crate) fn is_first_space(alloc: Global, row: &[u8]) -> Result<bool, AllocError>
    ensures { IfOk result (λ is. IsTrue is ↔ IsOneOf first_spaces row.now) }
{
    is_one_of(alloc, &first_space_rows(), row)
}

/// Whether a row spells the same value as one of a new database's rows of indexes.
pub(crate) fn is_first_index(alloc: Global, row: &[u8]) -> Result<bool, AllocError>
    ensures { IfOk result (λ is. IsTrue is ↔ IsOneOf first_indexes row.now) }
{
    is_one_of(alloc, &first_index_rows(), row)
}

fn is_one_of(alloc: Global, rows: &[&[u8]], row: &[u8]) -> Result<bool, AllocError>
    ensures { (values : List Value) → map (λ r. r.now) rows.now ≡ rows_of values → IfOk result (λ is. IsTrue is ↔ IsOneOf values row.now) }
{
    match shortest_of(alloc, row)? {
        Some(spelling) => Ok(is_among(spelling.as_slice(), rows)),
        None => Ok(false),
    }
}

fn is_among(wanted: &[u8], rows: &[&[u8]]) -> bool
    ensures { result ≡ is_among wanted.now (map (λ row. row.now) rows.now) }
{
    for row in rows {
        if is_text(row, wanted) {
            return true;
        }
    }
    false
}

/// The shortest spelling of the value that these bytes are; `None` where they aren't one value.
fn shortest_of(alloc: Global, bytes: &[u8]) -> Result<Option<Bytes>, AllocError>
    ensures { IfOk result (λ found. MatchOption found
        ((value : Value) → ¬ Spells max_nesting value bytes.now)
        (λ spelling. (value : Value) × Spells max_nesting value bytes.now × (spelling ≡ shortest value))) }
{
    let (value, size) = match read_value(alloc, bytes) {
        Ok(found) => found,
        Err(ReadBad::Bad(_)) => return Ok(None),
        Err(ReadBad::NoMemory) => return Err(AllocError),
    };
    if size != bytes.len() {
        return Ok(None);
    }
    let mut spelling = Bytes::new(alloc);
    write_value(alloc, &value, &mut spelling)?;
    Ok(Some(spelling))
}

/// The rows of the space of spaces in a new database.
pub fn first_space_rows() -> [&'static [u8]; 7]
    ensures { map (λ row. row.now) result ≡ rows_of first_spaces }
{
    [
        b"\x97\xcd\x01\x10\x01\xa7_schema\xa5memtx\x00\x80\x90",
        b"\x97\xcd\x01\x18\x01\xa6_space\xa5memtx\x00\x80\x90",
        b"\x97\xcd\x01\x19\x01\xa7_vspace\xa5memtx\x00\x80\x90",
        b"\x97\xcd\x01 \x01\xa6_index\xa5memtx\x00\x80\x90",
        b"\x97\xcd\x01!\x01\xa7_vindex\xa5memtx\x00\x80\x90",
        b"\x97\xcd\x01@\x01\xa8_cluster\xa5memtx\x00\x80\x90",
        b"\x97\xcd\x02\x00\x01\xa4test\xa5memtx\x00\x80\x90",
    ]
}

/// The rows of the space of indexes in a new database.
pub fn first_index_rows() -> [&'static [u8]; 12]
    ensures { map (λ row. row.now) result ≡ rows_of first_indexes }
{
    [
        b"\x96\xcd\x01\x10\x00\xa7primary\xa4tree\x81\xa6unique\xc3\x91\x92\x00\xa6string",
        b"\x96\xcd\x01\x18\x00\xa7primary\xa4tree\x81\xa6unique\xc3\x91\x92\x00\xa8unsigned",
        b"\x96\xcd\x01\x18\x02\xa4name\xa4tree\x81\xa6unique\xc3\x91\x92\x02\xa6string",
        b"\x96\xcd\x01\x19\x00\xa7primary\xa4tree\x81\xa6unique\xc3\x91\x92\x00\xa8unsigned",
        b"\x96\xcd\x01\x19\x02\xa4name\xa4tree\x81\xa6unique\xc3\x91\x92\x02\xa6string",
        b"\x96\xcd\x01 \x00\xa7primary\xa4tree\x81\xa6unique\xc3\x92\x92\x00\xa8unsigned\x92\x01\xa8unsigned",
        b"\x96\xcd\x01 \x02\xa4name\xa4tree\x81\xa6unique\xc3\x92\x92\x00\xa8unsigned\x92\x02\xa6string",
        b"\x96\xcd\x01!\x00\xa7primary\xa4tree\x81\xa6unique\xc3\x92\x92\x00\xa8unsigned\x92\x01\xa8unsigned",
        b"\x96\xcd\x01!\x02\xa4name\xa4tree\x81\xa6unique\xc3\x92\x92\x00\xa8unsigned\x92\x02\xa6string",
        b"\x96\xcd\x01@\x00\xa7primary\xa4tree\x81\xa6unique\xc3\x91\x92\x00\xa8unsigned",
        b"\x96\xcd\x01@\x01\xa4uuid\xa4tree\x81\xa6unique\xc3\x91\x92\x01\xa6string",
        b"\x96\xcd\x02\x00\x00\xa7primary\xa4tree\x81\xa6unique\xc3\x91\x92\x00\xa8unsigned",
    ]
}

/// The settings of a new database.
pub fn first_setting_rows() -> [&'static [u8]; 1]
    ensures { map (λ row. row.now) result ≡ rows_of first_settings }
{
    [b"\x92\xa6leader\x01"]
}
