//! The calls of `mx_xlog`.

use crate::vclock::{Components, clock_of};
use mx_arguments::{Arguments, Fault, Hex, no_call};
use mx_msgpack::Bytes;
use mx_xlog::{
    Block, Head, HeadFault, checksum, read_block, read_header, write_block, write_end, write_header,
};
use std::alloc::AllocError;
use std::fmt;

/// The answer of the call of this name.
pub fn answer(call: &str, arguments: &mut Arguments<'_>) -> Result<String, AllocError> {
    match call {
        "checksum" => summed(arguments),
        "write_block" => written_block(arguments),
        "write_end" => written_end(arguments),
        "read_block" => block(arguments),
        "write_header" => written_header(arguments),
        "read_header" => header(arguments),
        "cut_header" => cut_header(arguments),
        _ => no_call(arguments),
    }
}

fn summed(arguments: &mut Arguments<'_>) -> Result<String, AllocError> {
    let bytes = arguments.bytes();
    let sum = checksum(bytes.as_slice());
    format!(in arguments.alloc(); "{sum:08x}")
}

/// Bytes, and a block of rows that is written after them.
fn written_block(arguments: &mut Arguments<'_>) -> Result<String, AllocError> {
    let alloc = arguments.alloc();
    let mut out = arguments.bytes();
    let rows = arguments.bytes();
    if rows.is_empty() || rows.len() > 4_194_304 {
        let what = String::from_str(alloc, "a block has 1 to 4194304 bytes of rows");
        arguments.refuse(Fault::of(what));
        return Ok(String::new(alloc));
    }
    write_block(alloc, rows.as_slice(), &mut out)?;
    format!(in alloc; "{}", Hex(out.as_slice()))
}

/// Bytes, and the marker of a file's end after them.
fn written_end(arguments: &mut Arguments<'_>) -> Result<String, AllocError> {
    let mut out = arguments.bytes();
    write_end(&mut out)?;
    format!(in arguments.alloc(); "{}", Hex(out.as_slice()))
}

/// What stands at a place of the bytes.
fn block(arguments: &mut Arguments<'_>) -> Result<String, AllocError> {
    let alloc = arguments.alloc();
    let at = arguments.number();
    let bytes = arguments.bytes();
    match read_block(bytes.as_slice(), at) {
        Block::Rows { from, to } => format!(in alloc; "rows {from} {to}"),
        Block::End => String::from_str(alloc, "end"),
        Block::Empty => String::from_str(alloc, "empty"),
        Block::Torn(at) => format!(in alloc; "torn {at}"),
    }
}

/// The header of a file: whether it is a snapshot, its instance, replica set, replica id and vclock.
fn written_header(arguments: &mut Arguments<'_>) -> Result<String, AllocError> {
    let alloc = arguments.alloc();
    let head = Head {
        snapshot: arguments.truth(),
        instance: arguments.uuid(),
        set: arguments.uuid(),
        replica: arguments.number(),
        clock: clock_of(arguments),
    };
    let mut out = Bytes::new(alloc);
    write_header(alloc, &head, &mut out)?;
    format!(in alloc; "{}", Hex(out.as_slice()))
}

/// The header that the bytes begin with, and its size, or the first line that no header has there.
fn header(arguments: &mut Arguments<'_>) -> Result<String, AllocError> {
    let alloc = arguments.alloc();
    let bytes = arguments.bytes();
    match read_header(bytes.as_slice()) {
        Ok((head, size)) => format!(in alloc; "ok {size} {}", Fields(&head)),
        Err(HeadFault { line }) => format!(in alloc; "err {line}"),
    }
}

/// The fields of a header, in the order in which `written_header` takes them.
#[derive(Clone, Copy)]
struct Fields<'a>(&'a Head);

impl fmt::Display for Fields<'_> {
    fn fmt<W: fmt::Write>(&self, f: &mut fmt::Formatter<W>) -> fmt::Result {
        let snapshot = self.0.snapshot;
        let instance = &self.0.instance;
        let set = &self.0.set;
        let replica = self.0.replica;
        let clock = Components(&self.0.clock);
        write!(f, "{snapshot} {instance} {set} {replica} {clock}")
    }
}

/// The fault's line of each prefix that isn't the whole of the bytes, from the empty one on, and 0
/// where a header stands there.
fn cut_header(arguments: &mut Arguments<'_>) -> Result<String, AllocError> {
    let bytes = arguments.bytes();
    let mut lines = String::new(arguments.alloc());
    for size in 0..bytes.len() {
        let line = fault_line(bytes.as_slice().split_at(size).0);
        write!(lines, "{line}")?;
    }
    Ok(lines)
}

fn fault_line(bytes: &[u8]) -> u8 {
    match read_header(bytes) {
        Ok(_) => 0,
        Err(fault) => fault.line,
    }
}
