//! The calls of `mx_tuple`. A format is written as a count and entries, as in `0 Unsigned,String?`; a
//! `?` says that the field takes Nil.

use mx_arguments::{Arguments, Fault, Hex, no_call};
use mx_msgpack::Bytes;
use mx_tuple::{
    FieldFault, FieldKind, Format, FormatEntries, FormatEntry, Tuple, TupleBad, check, from_bytes,
};
use std::alloc::{AllocError, Global};
use std::fmt;

/// The answer of the call of this name.
pub fn answer(call: &str, arguments: &mut Arguments<'_>) -> Result<String, AllocError> {
    match call {
        "fields" => fields(arguments),
        "places" => places(arguments),
        "check" => checked(arguments),
        _ => no_call(arguments),
    }
}

/// The bytes of a tuple, its fields, two after the last, which are none, and the bytes again.
fn fields(arguments: &mut Arguments<'_>) -> Result<String, AllocError> {
    let alloc = arguments.alloc();
    let bytes = arguments.bytes();
    match from_bytes(alloc, bytes.as_slice()) {
        Ok(tuple) => taken_apart(alloc, tuple),
        Err(TupleBad::Bad) => String::from_str(alloc, "err Bad"),
        Err(TupleBad::NoMemory) => Err(AllocError),
    }
}

fn taken_apart(alloc: Global, tuple: Tuple) -> Result<String, AllocError> {
    let mut answer = format!(in alloc; "ok {} {}", Hex(tuple.bytes()), tuple.count())?;
    for number in 0..tuple.count() {
        write!(answer, " {}", Field(tuple.field(number)))?;
    }
    let behind = Field(tuple.field(tuple.count()));
    let last = Field(tuple.field(u32::MAX));
    write!(answer, " {behind} {last}")?;
    write!(answer, " {}", Hex(tuple.into_bytes().as_slice()))?;
    Ok(answer)
}

/// The bytes of a field, if there is one.
#[derive(Clone, Copy)]
struct Field<'a>(Option<&'a [u8]>);

impl fmt::Display for Field<'_> {
    fn fmt<W: fmt::Write>(&self, f: &mut fmt::Formatter<W>) -> fmt::Result {
        match self.0 {
            Some(bytes) => write!(f, "{}", Hex(bytes)),
            None => f.write_str("none"),
        }
    }
}

/// The next argument as a tuple, if it isn't refused.
fn tuple_of(arguments: &mut Arguments<'_>) -> Option<Tuple> {
    let text = arguments.text();
    let bytes = arguments.bytes_in(text);
    match from_bytes(arguments.alloc(), bytes.as_slice()) {
        Ok(tuple) => return Some(tuple),
        Err(TupleBad::Bad) => arguments.refuse_text("tuple", text),
        Err(TupleBad::NoMemory) => arguments.refuse(Fault::NoMemory),
    }
    None
}

/// The places where the fields of a tuple begin, and where the last one ends.
fn places(arguments: &mut Arguments<'_>) -> Result<String, AllocError> {
    let alloc = arguments.alloc();
    let Some(tuple) = tuple_of(arguments) else {
        return Ok(String::new(alloc));
    };
    let places = tuple.places();
    format!(in alloc; "{places:?}")
}

/// The next arguments as a format.
fn format_of(arguments: &mut Arguments<'_>) -> Result<Format, AllocError> {
    let count: u32 = arguments.number();
    let mut entries = Vec::new(arguments.alloc());
    for text in arguments.items() {
        entries.push(entry_in(arguments, text))?;
    }
    // No line that fits into memory has too many entries.
    let Some(entries) = FormatEntries::from_vec(entries) else {
        return Err(AllocError);
    };
    Ok(Format { count, entries })
}

fn entry_in(arguments: &mut Arguments<'_>, text: &str) -> FormatEntry {
    let (kind, nullable) = match text.strip_suffix('?') {
        Some(kind) => (kind, true),
        None => (text, false),
    };
    FormatEntry {
        name: Bytes::new(arguments.alloc()),
        kind: field_kind(arguments, kind),
        nullable,
    }
}

fn field_kind(arguments: &mut Arguments<'_>, text: &str) -> FieldKind {
    match text {
        "Any" => FieldKind::Any,
        "Unsigned" => FieldKind::Unsigned,
        "Integer" => FieldKind::Integer,
        "String" => FieldKind::String,
        "Boolean" => FieldKind::Boolean,
        "Varbinary" => FieldKind::Varbinary,
        "Scalar" => FieldKind::Scalar,
        "Array" => FieldKind::Array,
        "Map" => FieldKind::Map,
        _ => {
            arguments.refuse_text("type of a field", text);
            FieldKind::Any
        }
    }
}

/// Whether a tuple meets a format.
fn checked(arguments: &mut Arguments<'_>) -> Result<String, AllocError> {
    let alloc = arguments.alloc();
    let format = format_of(arguments)?;
    let Some(tuple) = tuple_of(arguments) else {
        return Ok(String::new(alloc));
    };
    match check(&format, &tuple) {
        Ok(()) => String::from_str(alloc, "ok"),
        Err(FieldFault::Missing { field }) => format!(in alloc; "missing {field}"),
        Err(FieldFault::Wrong { field, expected }) => {
            format!(in alloc; "wrong {field} {expected:?}")
        }
        Err(FieldFault::Count { has, expected }) => format!(in alloc; "count {has} {expected}"),
    }
}
