//! The calls of `mx_key`. A key is written as an array of MessagePack, and the parts of an index as in
//! `0:Unsigned,1:String`.

use crate::msgpack::value_in;
use mx_arguments::{Arguments, Hex, no_call};
use mx_key::{
    FieldSlices, IterKind, KeyDef, KeyFault, KeyRange, Misfit, Part, PartKind, comparable, key_of,
    misfit, range,
};
use mx_msgpack::{Bytes, Value};
use std::alloc::{AllocError, Global};
use std::cmp::Ordering;
use std::fmt;
use std::ops::Bound;

/// The answer of the call of this name.
pub fn answer(call: &str, arguments: &mut Arguments<'_>) -> Result<String, AllocError> {
    match call {
        "comparable" => spelled(arguments),
        "order" => ordered(arguments),
        "range" => bounds(arguments),
        "holds" => held(arguments),
        "holds_until" => held_until(arguments),
        "misfit" => fit(arguments),
        "of_fields" => made(arguments),
        "field" => field(arguments),
        _ => no_call(arguments),
    }
}

/// The comparable bytes of the key that a text spells.
fn key_in(arguments: &mut Arguments<'_>, text: &str) -> Result<Bytes, AllocError> {
    let value = value_in(arguments, text);
    let Value::Array(values) = &value else {
        arguments.refuse_text("key", text);
        return Ok(Bytes::new(arguments.alloc()));
    };
    comparable(arguments.alloc(), values)
}

/// The comparable bytes of the key that the next argument spells.
fn next_key(arguments: &mut Arguments<'_>) -> Result<Bytes, AllocError> {
    let text = arguments.text();
    key_in(arguments, text)
}

fn spelled(arguments: &mut Arguments<'_>) -> Result<String, AllocError> {
    let key = next_key(arguments)?;
    format!(in arguments.alloc(); "{}", Hex(key.as_slice()))
}

/// How the bytes of a key compare to those of each other one, and, with an `x`, which of these are a
/// prefix of them.
fn ordered(arguments: &mut Arguments<'_>) -> Result<String, AllocError> {
    let alloc = arguments.alloc();
    let key = next_key(arguments)?;
    let mut orders = String::new(alloc);
    let mut prefixes = String::new(alloc);
    for text in arguments.others() {
        let other = key_in(arguments, text)?;
        orders.push_str(sign(key.cmp(&other)))?;
        prefixes.push_str(mark(key.as_slice().starts_with(other.as_slice())))?;
    }
    format!(in alloc; "{orders} {prefixes}")
}

fn sign(order: Ordering) -> &'static str {
    match order {
        Ordering::Less => "<",
        Ordering::Equal => "=",
        Ordering::Greater => ">",
    }
}

fn mark(truth: bool) -> &'static str {
    if truth { "x" } else { "-" }
}

/// The next argument as the parts of an index.
fn def_of(arguments: &mut Arguments<'_>) -> Result<KeyDef, AllocError> {
    let mut def = KeyDef::new(arguments.alloc());
    for text in arguments.items() {
        let (field, kind) = text.split_once(':').unwrap_or((text, ""));
        def.push(Part {
            field: arguments.number_in(field),
            kind: part_kind(arguments, kind),
        })?;
    }
    Ok(def)
}

fn part_kind(arguments: &mut Arguments<'_>, text: &str) -> PartKind {
    match text {
        "Unsigned" => PartKind::Unsigned,
        "Integer" => PartKind::Integer,
        "String" => PartKind::String,
        "Boolean" => PartKind::Boolean,
        "Varbinary" => PartKind::Varbinary,
        "Scalar" => PartKind::Scalar,
        _ => {
            arguments.refuse_text("type of a part", text);
            PartKind::Scalar
        }
    }
}

/// The next argument as an iterator.
fn iterator_of(arguments: &mut Arguments<'_>) -> IterKind {
    match arguments.text() {
        "Eq" => IterKind::Eq,
        "Req" => IterKind::Req,
        "All" => IterKind::All,
        "Lt" => IterKind::Lt,
        "Le" => IterKind::Le,
        "Ge" => IterKind::Ge,
        "Gt" => IterKind::Gt,
        text => {
            arguments.refuse_text("iterator", text);
            IterKind::All
        }
    }
}

/// The range of the next arguments, an index and a key, by an iterator.
fn range_of(arguments: &mut Arguments<'_>, iterator: IterKind) -> Result<KeyRange, AllocError> {
    let def = def_of(arguments)?;
    let key = arguments.bytes();
    range(arguments.alloc(), &def, iterator, key.as_slice())
}

/// The ends of a range.
fn bounds(arguments: &mut Arguments<'_>) -> Result<String, AllocError> {
    let alloc = arguments.alloc();
    let iterator = iterator_of(arguments);
    let range = range_of(arguments, iterator)?;
    let low = End(range.low_bound());
    let high = End(range.high_bound());
    format!(in alloc; "from {low} to {high}")
}

/// An end of a range.
#[derive(Clone, Copy)]
struct End<'a>(Bound<&'a Bytes>);

impl fmt::Display for End<'_> {
    fn fmt<W: fmt::Write>(&self, f: &mut fmt::Formatter<W>) -> fmt::Result {
        match self.0 {
            Bound::Included(end) => write!(f, "included {}", Hex(end.as_slice())),
            Bound::Excluded(end) => write!(f, "excluded {}", Hex(end.as_slice())),
            Bound::Unbounded => f.write_str("unbounded"),
        }
    }
}

/// With an `x` for each of the other keys that lies in a range.
fn held(arguments: &mut Arguments<'_>) -> Result<String, AllocError> {
    let iterator = iterator_of(arguments);
    let range = range_of(arguments, iterator)?;
    held_in(arguments, &range)
}

fn held_in(arguments: &mut Arguments<'_>, range: &KeyRange) -> Result<String, AllocError> {
    let alloc = arguments.alloc();
    let mut held = String::new(alloc);
    for text in arguments.others() {
        let key = key_in(arguments, text)?;
        held.push_str(mark(range.holds(&key)))?;
    }
    Ok(held)
}

/// As `held`, where the range ends with a key; and the iterator's direction.
fn held_until(arguments: &mut Arguments<'_>) -> Result<String, AllocError> {
    let alloc = arguments.alloc();
    let iterator = iterator_of(arguments);
    let mut range = range_of(arguments, iterator)?;
    let last = next_key(arguments)?;
    let down = iterator.descends();
    range.end_with(alloc, down, last.as_slice())?;
    let held = held_in(arguments, &range)?;
    let direction = if down { "down" } else { "up" };
    format!(in alloc; "{direction} {held}")
}

/// Why a key doesn't fit an index.
fn fit(arguments: &mut Arguments<'_>) -> Result<String, AllocError> {
    let alloc = arguments.alloc();
    let def = def_of(arguments)?;
    let key = arguments.bytes();
    match misfit(&def, key.as_slice()) {
        None => String::from_str(alloc, "fits"),
        Some(Misfit::TooLong { parts }) => format!(in alloc; "long {parts}"),
        Some(Misfit::WrongPart { part, expected }) => {
            format!(in alloc; "wrong {part} {expected:?}")
        }
    }
}

/// The next argument as places in bytes.
fn places_of(arguments: &mut Arguments<'_>) -> Result<Vec<usize>, AllocError> {
    let mut places = Vec::new(arguments.alloc());
    for text in arguments.items() {
        places.push(arguments.number_in(text))?;
    }
    Ok(places)
}

/// The comparable bytes of the key that fields make: the index, the places of the fields, and the
/// bytes.
fn made(arguments: &mut Arguments<'_>) -> Result<String, AllocError> {
    let alloc = arguments.alloc();
    let def = def_of(arguments)?;
    let places = places_of(arguments)?;
    let bytes = arguments.bytes();
    let fields = FieldSlices {
        bytes: bytes.as_slice(),
        places: places.as_slice(),
    };
    match key_of(alloc, &def, &fields) {
        Ok(key) => format!(in alloc; "{}", Hex(key.as_slice())),
        Err(KeyFault::Missing { field }) => format!(in alloc; "missing {field}"),
        Err(KeyFault::Wrong { field, expected }) => {
            format!(in alloc; "wrong {field} {expected:?}")
        }
        Err(KeyFault::NoMemory) => Err(AllocError),
    }
}

/// A field: its number, the places of the fields, and the bytes.
fn field(arguments: &mut Arguments<'_>) -> Result<String, AllocError> {
    let alloc = arguments.alloc();
    let number: u32 = arguments.number();
    let places = places_of(arguments)?;
    let bytes = arguments.bytes();
    let fields = FieldSlices {
        bytes: bytes.as_slice(),
        places: places.as_slice(),
    };
    match fields.field(number) {
        Some(field) => format!(in alloc; "{}", Hex(field)),
        None => String::from_str(alloc, "none"),
    }
}
