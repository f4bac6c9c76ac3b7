//! The calls of `mx_schema`. Rows are written in hexadecimal with commas between them, `-` for none,
//! and stand behind those of a new database.

use mx_arguments::{Arguments, Fault, Text, no_call};
use mx_base::{IndexId, Refusal, SpaceId, code_of, text_of};
use mx_key::KeyDef;
use mx_msgpack::Bytes;
use mx_schema::{
    Catalogue, IndexDef, IndexKind, Schema, SchemaFault, SpaceDef, first_index_rows,
    first_setting_rows, first_space_rows, from_row_slices, is_member,
};
use mx_tuple::{Format, Tuple, TupleBad, from_bytes};
use std::alloc::{AllocError, Global};
use std::fmt;

/// The answer of the call of this name.
pub fn answer(call: &str, arguments: &mut Arguments<'_>) -> Result<String, AllocError> {
    match call {
        "first" => first(arguments),
        "new_space" => new_space(arguments),
        "new_index" => new_index(arguments),
        "from_rows" => from_rows(arguments),
        "is_member" => member(arguments),
        _ => no_call(arguments),
    }
}

/// The rows of a new database, those of spaces, of indexes, and the settings.
fn first(arguments: &mut Arguments<'_>) -> Result<String, AllocError> {
    let alloc = arguments.alloc();
    let spaces = first_space_rows();
    let indexes = first_index_rows();
    let settings = first_setting_rows();
    format!(in alloc; "{} {} {}", Rows(&spaces), Rows(&indexes), Rows(&settings))
}

/// Whether a row is that of a node of the replica set.
fn member(arguments: &mut Arguments<'_>) -> Result<String, AllocError> {
    let row = arguments.bytes();
    format!(in arguments.alloc(); "{}", is_member(row.as_slice()))
}

/// How many rows there are, and their bytes.
#[derive(Clone, Copy)]
struct Rows<'a>(&'a [&'a [u8]]);

impl fmt::Display for Rows<'_> {
    fn fmt<W: fmt::Write>(&self, f: &mut fmt::Formatter<W>) -> fmt::Result {
        write!(f, "{}:", self.0.len())?;
        for row in self.0 {
            for byte in row.iter() {
                write!(f, "{byte:02x}")?;
            }
        }
        Ok(())
    }
}

/// The space that a new row describes beside other rows, which are the first two arguments.
fn new_space(arguments: &mut Arguments<'_>) -> Result<String, AllocError> {
    let alloc = arguments.alloc();
    let Some(catalogue) = catalogue_of(arguments)? else {
        return Ok(String::new(alloc));
    };
    let Some(row) = row_of(arguments) else {
        return Ok(String::new(alloc));
    };
    match catalogue.check_new_space(alloc, &row) {
        Ok(def) => format!(in alloc; "ok {}", Space(&def)),
        Err(refusal) => refused(alloc, &refusal),
    }
}

/// The index that a new row describes beside other rows, which are the first two arguments.
fn new_index(arguments: &mut Arguments<'_>) -> Result<String, AllocError> {
    let alloc = arguments.alloc();
    let Some(catalogue) = catalogue_of(arguments)? else {
        return Ok(String::new(alloc));
    };
    let Some(row) = row_of(arguments) else {
        return Ok(String::new(alloc));
    };
    match catalogue.check_new_index(alloc, &row) {
        Ok(def) => format!(in alloc; "ok {}", Index(&def)),
        Err(refusal) => refused(alloc, &refusal),
    }
}

/// What rows make beside those of a new database: the spaces of these numbers, or the first row that
/// is refused.
fn from_rows(arguments: &mut Arguments<'_>) -> Result<String, AllocError> {
    let alloc = arguments.alloc();
    let spaces = rows_of(arguments)?;
    let indexes = rows_of(arguments)?;
    match made(alloc, spaces.as_slice(), indexes.as_slice()) {
        Ok(catalogue) => shown(arguments, &catalogue),
        Err(SchemaFault::Row { place, refusal }) => {
            let text = refused(alloc, &refusal)?;
            format!(in alloc; "row {place} {text}")
        }
        Err(SchemaFault::NoMemory) => Err(AllocError),
    }
}

/// The spaces of the other arguments' numbers.
fn shown(arguments: &mut Arguments<'_>, catalogue: &Catalogue) -> Result<String, AllocError> {
    let mut answer = String::from_str(arguments.alloc(), "ok")?;
    for text in arguments.others() {
        let space = SpaceId(arguments.number_in(text));
        match catalogue.schema(space) {
            Some(schema) => write!(answer, " | {}", Whole(schema))?,
            None => answer.push_str(" | none")?,
        }
    }
    Ok(answer)
}

/// The next two arguments as the rows of a catalogue, if they make one.
fn catalogue_of(arguments: &mut Arguments<'_>) -> Result<Option<Catalogue>, AllocError> {
    let alloc = arguments.alloc();
    let spaces = rows_of(arguments)?;
    let indexes = rows_of(arguments)?;
    match made(alloc, spaces.as_slice(), indexes.as_slice()) {
        Ok(catalogue) => Ok(Some(catalogue)),
        Err(SchemaFault::Row { place, refusal }) => {
            let text = refused(alloc, &refusal)?;
            arguments.refuse(Fault::of(format!(in alloc; "row {place} {text}")));
            Ok(None)
        }
        Err(SchemaFault::NoMemory) => Err(AllocError),
    }
}

/// The next argument as rows.
fn rows_of(arguments: &mut Arguments<'_>) -> Result<Vec<Bytes>, AllocError> {
    let mut rows = Vec::new(arguments.alloc());
    for text in arguments.items() {
        rows.push(arguments.bytes_in(text))?;
    }
    Ok(rows)
}

/// The catalogue of a new database's rows, and then these.
fn made(alloc: Global, spaces: &[Bytes], indexes: &[Bytes]) -> Result<Catalogue, SchemaFault> {
    let spaces = behind(alloc, &first_space_rows(), spaces)?;
    let indexes = behind(alloc, &first_index_rows(), indexes)?;
    from_row_slices(alloc, spaces.as_slice(), indexes.as_slice())
}

/// A new database's rows, and then others.
fn behind<'a>(
    alloc: Global,
    first: &[&'a [u8]],
    others: &'a [Bytes],
) -> Result<Vec<&'a [u8]>, AllocError> {
    let mut rows: Vec<&'a [u8]> = Vec::new(alloc);
    for row in first {
        rows.push(*row)?;
    }
    for row in others {
        rows.push(row.as_slice())?;
    }
    Ok(rows)
}

/// The next argument as a row, if it is an array.
fn row_of(arguments: &mut Arguments<'_>) -> Option<Tuple> {
    let text = arguments.text();
    let bytes = arguments.bytes_in(text);
    match from_bytes(arguments.alloc(), bytes.as_slice()) {
        Ok(row) => return Some(row),
        Err(TupleBad::Bad) => arguments.refuse_text("row", text),
        Err(TupleBad::NoMemory) => arguments.refuse(Fault::NoMemory),
    }
    None
}

/// The number and the text of a refusal.
fn refused(alloc: Global, refusal: &Refusal) -> Result<String, AllocError> {
    let text = text_of(alloc, refusal)?;
    format!(in alloc; "err {} {}", code_of(refusal), Text(text.as_slice()))
}

/// A space: its number, its name, how many fields its tuples have, and its format.
#[derive(Clone, Copy)]
struct Space<'a>(&'a SpaceDef);

impl fmt::Display for Space<'_> {
    fn fmt<W: fmt::Write>(&self, f: &mut fmt::Formatter<W>) -> fmt::Result {
        let def = self.0;
        write!(f, "{} {} ", def.id.0, Text(def.name.as_slice()))?;
        Entries(&def.format).fmt(f)
    }
}

/// A format: how many fields, and its entries, a `?` behind those that take Nil.
#[derive(Clone, Copy)]
struct Entries<'a>(&'a Format);

impl fmt::Display for Entries<'_> {
    fn fmt<W: fmt::Write>(&self, f: &mut fmt::Formatter<W>) -> fmt::Result {
        write!(f, "{} [", self.0.count)?;
        for entry in self.0.entries.as_slice() {
            let mark = if entry.nullable { "?" } else { "" };
            write!(f, " {}:{:?}{mark}", Text(entry.name.as_slice()), entry.kind)?;
        }
        f.write_str(" ]")
    }
}

/// An index: its number, its name, its type, whether it is unique, and its parts.
#[derive(Clone, Copy)]
struct Index<'a>(&'a IndexDef);

impl fmt::Display for Index<'_> {
    fn fmt<W: fmt::Write>(&self, f: &mut fmt::Formatter<W>) -> fmt::Result {
        let def = self.0;
        let kind = match def.kind {
            IndexKind::Tree => "tree",
            IndexKind::Hash => "hash",
        };
        let unique = if def.unique {
            "unique"
        } else {
            "with duplicates"
        };
        write!(
            f,
            "{} {} {kind} {unique} ",
            def.id.0,
            Text(def.name.as_slice())
        )?;
        Parts(&def.key).fmt(f)
    }
}

#[derive(Clone, Copy)]
struct Parts<'a>(&'a KeyDef);

impl fmt::Display for Parts<'_> {
    fn fmt<W: fmt::Write>(&self, f: &mut fmt::Formatter<W>) -> fmt::Result {
        f.write_str("[")?;
        for part in self.0.as_slice() {
            write!(f, " {}:{:?}", part.field, part.kind)?;
        }
        f.write_str(" ]")
    }
}

/// A space with its indexes.
#[derive(Clone, Copy)]
struct Whole<'a>(&'a Schema);

impl fmt::Display for Whole<'_> {
    fn fmt<W: fmt::Write>(&self, f: &mut fmt::Formatter<W>) -> fmt::Result {
        Space(&self.0.def).fmt(f)?;
        for def in self.0.indexes.as_slice() {
            f.write_str("; ")?;
            Index(def).fmt(f)?;
        }
        let primary = self.0.index(IndexId(0)).is_some();
        write!(f, "; {primary}")
    }
}
