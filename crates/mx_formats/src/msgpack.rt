//! The calls of `mx_msgpack`.

use mx_arguments::{Arguments, Fault, Hex, no_call};
use mx_msgpack::{
    Bad, Bytes, Pairs, ReadBad, Tuples, Value, ValueRef, Values, read_ref, read_value, skip,
    unsigned_at, values_at, write_map_head, write_str_head, write_unsigned, write_value,
};
use std::alloc::{AllocError, Global};
use std::fmt;

/// The answer of the call of this name.
pub fn answer(call: &str, arguments: &mut Arguments<'_>) -> Result<String, AllocError> {
    match call {
        "skip" => skipped(arguments),
        "read" => read(arguments),
        "size" => sized(arguments),
        "short" => short(arguments),
        "unsigned" => unsigned(arguments),
        "values_at" => map_values(arguments),
        "write_unsigned" => written_unsigned(arguments),
        "write_heads" => written_heads(arguments),
        "rewrite" => rewritten(arguments),
        "rewrite_twice" => rewritten_twice(arguments),
        "bytes" => bytes(arguments),
        "tuples" => tuples(arguments),
        "values" => values(arguments),
        "pairs" => pairs(arguments),
        _ => no_call(arguments),
    }
}

/// Why bytes spell no value, and where.
#[derive(Clone, Copy)]
struct Flaw(Bad);

impl fmt::Display for Flaw {
    fn fmt<W: fmt::Write>(&self, f: &mut fmt::Formatter<W>) -> fmt::Result {
        match self.0 {
            Bad::Unused(at) => write!(f, "err Unused {at}"),
            Bad::Short => f.write_str("err Short"),
            Bad::Deep(at) => write!(f, "err Deep {at}"),
            Bad::Long(at) => write!(f, "err Long {at}"),
        }
    }
}

fn skipped(arguments: &mut Arguments<'_>) -> Result<String, AllocError> {
    let alloc = arguments.alloc();
    let bytes = arguments.bytes();
    match skip(bytes.as_slice()) {
        Ok(size) => format!(in alloc; "ok {size}"),
        Err(bad) => format!(in alloc; "{}", Flaw(bad)),
    }
}

/// A value: what it is, and the bytes that it holds, or only how many.
#[derive(Clone, Copy)]
struct Shown<'a> {
    value: ValueRef<'a>,
    is_whole: bool,
}

impl fmt::Display for Shown<'_> {
    fn fmt<W: fmt::Write>(&self, f: &mut fmt::Formatter<W>) -> fmt::Result {
        let is_whole = self.is_whole;
        match self.value {
            ValueRef::Nil => f.write_str("nil"),
            ValueRef::Bool(truth) => write!(f, "bool {truth}"),
            ValueRef::Int(number) => write!(f, "int {number}"),
            ValueRef::Str(text) => write!(f, "str {}", Held::of(text, is_whole)),
            ValueRef::Bin(bytes) => write!(f, "bin {}", Held::of(bytes, is_whole)),
            ValueRef::Array { count, items } => {
                write!(f, "array {count} {}", Held::of(items, is_whole))
            }
            ValueRef::Map { count, items } => {
                write!(f, "map {count} {}", Held::of(items, is_whole))
            }
            ValueRef::Opaque(spelling) => write!(f, "opaque {}", Held::of(spelling, is_whole)),
        }
    }
}

/// Bytes that a value holds, or only how many there are.
#[derive(Clone, Copy)]
enum Held<'a> {
    Bytes(&'a [u8]),
    Count(usize),
}

impl<'a> Held<'a> {
    fn of(bytes: &'a [u8], is_whole: bool) -> Held<'a> {
        if is_whole {
            Held::Bytes(bytes)
        } else {
            Held::Count(bytes.len())
        }
    }
}

impl fmt::Display for Held<'_> {
    fn fmt<W: fmt::Write>(&self, f: &mut fmt::Formatter<W>) -> fmt::Result {
        match self {
            Held::Bytes(bytes) => write!(f, "{}", Hex(bytes)),
            Held::Count(count) => write!(f, "of {count}"),
        }
    }
}

/// The value that stands first, with all that it holds.
fn read(arguments: &mut Arguments<'_>) -> Result<String, AllocError> {
    first_value(arguments, true)
}

/// As `read`, with the number of bytes in place of the bytes that a value holds.
fn sized(arguments: &mut Arguments<'_>) -> Result<String, AllocError> {
    first_value(arguments, false)
}

fn first_value(arguments: &mut Arguments<'_>, is_whole: bool) -> Result<String, AllocError> {
    let alloc = arguments.alloc();
    let bytes = arguments.bytes();
    match read_ref(bytes.as_slice()) {
        Ok((value, size)) => format!(in alloc; "ok {size} {}", Shown { value, is_whole }),
        Err(bad) => format!(in alloc; "{}", Flaw(bad)),
    }
}

/// How many of the so many shortest prefixes end inside a value.
fn short(arguments: &mut Arguments<'_>) -> Result<String, AllocError> {
    let limit: u64 = arguments.number();
    let bytes = arguments.bytes();
    let mut count: u64 = 0;
    for size in 0..bytes.len() {
        if (size as u64) < limit && is_short(bytes.as_slice().split_at(size).0) {
            count = count.saturating_add(1);
        }
    }
    format!(in arguments.alloc(); "ok {count}")
}

/// Whether the bytes end inside a value.
fn is_short(bytes: &[u8]) -> bool {
    skip(bytes) == Err(Bad::Short) && matches!(read_ref(bytes), Err(Bad::Short))
}

fn unsigned(arguments: &mut Arguments<'_>) -> Result<String, AllocError> {
    let alloc = arguments.alloc();
    let bytes = arguments.bytes();
    match unsigned_at(bytes.as_slice()) {
        Some((number, rest)) => format!(in alloc; "ok {number} {}", Hex(rest)),
        None => String::from_str(alloc, "none"),
    }
}

/// The values under three keys of the map that stands first, and the bytes after it.
fn map_values(arguments: &mut Arguments<'_>) -> Result<String, AllocError> {
    let alloc = arguments.alloc();
    let keys = [arguments.number(), arguments.number(), arguments.number()];
    let bytes = arguments.bytes();
    let mut values = [None; 3];
    match values_at(&keys, bytes.as_slice(), &mut values) {
        Some(rest) => format!(in alloc; "ok {} {}", Found(&values), Hex(rest)),
        None => String::from_str(alloc, "none"),
    }
}

/// The values under some keys, with commas between them, and `none` where a key has none.
#[derive(Clone, Copy)]
struct Found<'a>(&'a [Option<&'a [u8]>]);

impl fmt::Display for Found<'_> {
    fn fmt<W: fmt::Write>(&self, f: &mut fmt::Formatter<W>) -> fmt::Result {
        let mut between = "";
        for value in self.0 {
            f.write_str(between)?;
            match value {
                Some(value) => write!(f, "{}", Hex(value))?,
                None => f.write_str("none")?,
            }
            between = ",";
        }
        Ok(())
    }
}

/// Bytes, and a number that is written after them.
fn written_unsigned(arguments: &mut Arguments<'_>) -> Result<String, AllocError> {
    let mut out = arguments.bytes();
    let number = arguments.number();
    write_unsigned(number, &mut out)?;
    format!(in arguments.alloc(); "{}", Hex(out.as_slice()))
}

/// The heads of a text and a map, of which so many bytes are kept.
fn written_heads(arguments: &mut Arguments<'_>) -> Result<String, AllocError> {
    let size: u8 = arguments.number();
    let count: u8 = arguments.number();
    let kept: u8 = arguments.number();
    let mut out = Bytes::new(arguments.alloc());
    write_str_head(usize::from(size), &mut out)?;
    write_map_head(usize::from(count), &mut out)?;
    out.truncate(usize::from(kept));
    format!(in arguments.alloc(); "{}", Hex(out.as_slice()))
}

/// What is written of the value that stands first, and how many bytes it took.
fn written(alloc: Global, bytes: &[u8]) -> Result<(Bytes, usize), ReadBad> {
    let (value, size) = read_value(alloc, bytes)?;
    let mut out = Bytes::new(alloc);
    write_value(alloc, &value, &mut out)?;
    Ok((out, size))
}

fn rewritten(arguments: &mut Arguments<'_>) -> Result<String, AllocError> {
    let alloc = arguments.alloc();
    let bytes = arguments.bytes();
    match written(alloc, bytes.as_slice()) {
        Ok((out, size)) => format!(in alloc; "ok {size} {}", Hex(out.as_slice())),
        Err(ReadBad::Bad(bad)) => format!(in alloc; "{}", Flaw(bad)),
        Err(ReadBad::NoMemory) => Err(AllocError),
    }
}

/// How many bytes the value that stands first took, and how many are written of it; and whether they
/// are read and written as the same.
fn rewritten_twice(arguments: &mut Arguments<'_>) -> Result<String, AllocError> {
    let alloc = arguments.alloc();
    let bytes = arguments.bytes();
    match written(alloc, bytes.as_slice()) {
        Ok((out, size)) => compared(alloc, size, &out),
        Err(ReadBad::Bad(bad)) => format!(in alloc; "{}", Flaw(bad)),
        Err(ReadBad::NoMemory) => Err(AllocError),
    }
}

/// The size of a value, how many bytes are written of it, and whether they are read and written as the
/// same.
fn compared(alloc: Global, size: usize, out: &Bytes) -> Result<String, AllocError> {
    let len = out.len();
    match written(alloc, out.as_slice()) {
        Ok((again, end)) if end == len && again == *out => format!(in alloc;
            "ok {size} {len} same"
        ),
        Err(ReadBad::NoMemory) => Err(AllocError),
        _ => format!(in alloc; "ok {size} {len} other"),
    }
}

/// How many bytes there are, whether there is none, and whether they are the same as a vector's.
fn bytes(arguments: &mut Arguments<'_>) -> Result<String, AllocError> {
    let alloc = arguments.alloc();
    let bytes = arguments.bytes();
    let other = Bytes::from_vec(arguments.bytes().as_slice().to_vec(alloc)?);
    let copy = Bytes::from_slice(alloc, bytes.as_slice())?;
    let count = copy.len();
    let is_empty = copy.is_empty();
    let same = copy == other;
    format!(in alloc; "{count} {is_empty} {same}")
}

/// Tuples of these bytes, put into a list that had another one.
fn tuples(arguments: &mut Arguments<'_>) -> Result<String, AllocError> {
    let mut tuples = Tuples::new(arguments.alloc());
    tuples.push(b"\x90")?;
    tuples.clear();
    for text in arguments.others() {
        tuples.push(arguments.bytes_in(text).as_slice())?;
    }
    format!(in arguments.alloc(); "{}", All(&tuples))
}

/// How many tuples there are, and their bytes, one after the other; or `empty`.
#[derive(Clone, Copy)]
struct All<'a>(&'a Tuples);

impl fmt::Display for All<'_> {
    fn fmt<W: fmt::Write>(&self, f: &mut fmt::Formatter<W>) -> fmt::Result {
        if self.0.is_empty() {
            return f.write_str("empty");
        }
        let count = self.0.len();
        write!(f, "{count} {}", Hex(self.0.bytes()))
    }
}

/// The value that a text spells.
pub(crate) fn value_in(arguments: &mut Arguments<'_>, text: &str) -> Value {
    let alloc = arguments.alloc();
    let bytes = arguments.bytes_in(text);
    match read_value(alloc, bytes.as_slice()) {
        Ok((value, _)) => value,
        Err(ReadBad::Bad(bad)) => {
            arguments.refuse(Fault::of(format!(in alloc; "{bad}: {text:?}")));
            Value::Nil
        }
        Err(ReadBad::NoMemory) => {
            arguments.refuse(Fault::NoMemory);
            Value::Nil
        }
    }
}

/// These values in a row, taken apart and put together again.
fn values(arguments: &mut Arguments<'_>) -> Result<String, AllocError> {
    let alloc = arguments.alloc();
    let mut values = Values::new(alloc);
    for text in arguments.others() {
        values.push(value_in(arguments, text))?;
    }
    let values = Values::from_vec(values.into_vec());
    if values.is_empty() {
        return String::from_str(alloc, "empty");
    }
    let count = values.len();
    let shown = values.as_slice();
    format!(in alloc; "{count} {shown:?}")
}

/// These keys and values in a row, taken apart and put together again.
fn pairs(arguments: &mut Arguments<'_>) -> Result<String, AllocError> {
    let alloc = arguments.alloc();
    let mut pairs = Pairs::new(alloc);
    for pair in arguments.others().as_slice().chunks(2) {
        if let [key, value] = pair {
            pairs.push((value_in(arguments, key), value_in(arguments, value)))?;
        } else {
            let what = String::from_str(alloc, "a key without a value");
            arguments.refuse(Fault::of(what));
        }
    }
    let pairs = Pairs::from_vec(pairs.into_vec());
    if pairs.is_empty() {
        return String::from_str(alloc, "empty");
    }
    let count = pairs.len();
    let shown = pairs.as_slice();
    format!(in alloc; "{count} {shown:?}")
}
