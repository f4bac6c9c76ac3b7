//! The calls of `mx_row`.

use mx_arguments::{Arguments, Hex, no_call};
use mx_row::{
    RowFault, RowRef, read_tx, read_tx_in_place, row_size, to_owned, write_row, write_tx,
};
use std::alloc::AllocError;
use std::fmt;

/// The answer of the call of this name.
pub fn answer(call: &str, arguments: &mut Arguments<'_>) -> Result<String, AllocError> {
    match call {
        "read" => read(arguments),
        "size" => sized(arguments),
        "rewrite" => rewritten(arguments),
        "tx" => begun(arguments),
        "write" => written(arguments),
        _ => no_call(arguments),
    }
}

/// A row's type, space, base, tuple, key and operations.
#[derive(Clone, Copy)]
struct Shown<'a>(RowRef<'a>);

impl fmt::Display for Shown<'_> {
    fn fmt<W: fmt::Write>(&self, f: &mut fmt::Formatter<W>) -> fmt::Result {
        let row = &self.0;
        let kind = row.kind;
        let space = row.space.0;
        let base = row.index_base;
        write!(
            f,
            "{kind} {space} {base} {} {} {}",
            Hex(row.tuple),
            Hex(row.key),
            Hex(row.ops)
        )
    }
}

/// The transaction that stands first: its replica id and first lsn, its rows, and the bytes after it.
fn read(arguments: &mut Arguments<'_>) -> Result<String, AllocError> {
    let alloc = arguments.alloc();
    let bytes = arguments.bytes();
    match read_tx_in_place(alloc, bytes.as_slice())? {
        Some((tx, rest)) => {
            let mut answer = format!(in alloc; "ok {} {}", tx.replica.0, tx.first.0)?;
            for row in tx.rows.as_slice() {
                write!(answer, " {}", Shown(*row))?;
            }
            write!(answer, " {}", Hex(rest))?;
            Ok(answer)
        }
        None => String::from_str(alloc, "none"),
    }
}

/// How many bytes the transaction takes that stands first, that the bytes end inside one, or the place of the
/// row that none has.
fn begun(arguments: &mut Arguments<'_>) -> Result<String, AllocError> {
    let alloc = arguments.alloc();
    let bytes = arguments.bytes();
    match read_tx(alloc, bytes.as_slice()) {
        Ok(Some((_, size))) => format!(in alloc; "ok {size}"),
        Ok(None) => String::from_str(alloc, "cut"),
        Err(RowFault::Bad { at }) => format!(in alloc; "bad {at}"),
        Err(RowFault::NoMemory) => Err(AllocError),
    }
}

/// How many bytes each body takes, spelled shortest, of the transaction that stands first.
fn sized(arguments: &mut Arguments<'_>) -> Result<String, AllocError> {
    let alloc = arguments.alloc();
    let bytes = arguments.bytes();
    match read_tx_in_place(alloc, bytes.as_slice())? {
        Some((tx, _)) => {
            let mut answer = String::from_str(alloc, "ok")?;
            for row in tx.rows.as_slice() {
                write!(answer, " {}", row_size(row))?;
            }
            Ok(answer)
        }
        None => String::from_str(alloc, "none"),
    }
}

/// Bytes, and the transaction that stands first in others as it is written after them.
fn rewritten(arguments: &mut Arguments<'_>) -> Result<String, AllocError> {
    let alloc = arguments.alloc();
    let mut out = arguments.bytes();
    let bytes = arguments.bytes();
    match read_tx_in_place(alloc, bytes.as_slice())? {
        Some((tx, _)) => {
            let owned = to_owned(alloc, &tx)?;
            write_tx(alloc, &owned, &mut out)?;
            format!(in alloc; "{}", Hex(out.as_slice()))
        }
        None => String::from_str(alloc, "none"),
    }
}

/// Bytes, and after them the row of a place of the transaction that stands first in others, as it is
/// written there.
fn written(arguments: &mut Arguments<'_>) -> Result<String, AllocError> {
    let alloc = arguments.alloc();
    let place: usize = arguments.number();
    let mut out = arguments.bytes();
    let bytes = arguments.bytes();
    match read_tx_in_place(alloc, bytes.as_slice())? {
        Some((tx, _)) if place < tx.rows.as_slice().len() => {
            let owned = to_owned(alloc, &tx)?;
            write_row(alloc, &owned, place, &mut out)?;
            format!(in alloc; "{}", Hex(out.as_slice()))
        }
        _ => String::from_str(alloc, "none"),
    }
}
