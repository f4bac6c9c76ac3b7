//! Formats: what a space asks of its tuples' fields.

ghost use Rattle.std.specs.Prelude.{◌≡◌, ◌<◌, ◌≤◌, [], length, MatchOption};
ghost use Rattle.mx_tuple.specs.Fields.{max_fields};
ghost use Rattle.mx_tuple.specs.Formats.{entry_value_type};

use mx_msgpack::{Bytes, ValueType};
use std::alloc::Global;
use std::marker::Model;

/// The maximum number of a tuple's fields, and so of a format's entries.
const MAX_FIELDS: usize = u32::MAX as usize;

/// The type of a field.
#[derive(Clone, Copy, Debug, Drop, PartialEq, Eq)]
pub enum FieldKind {
    Any,
    /// Numbers of 0 or more.
    Unsigned,
    Integer,
    String,
    Boolean,
    Varbinary,
    /// Booleans, numbers, texts and bytes.
    Scalar,
    Array,
    Map,
}

impl FieldKind {
    pub(crate) fn value_type(self) -> ValueType
        ensures { result ≡ entry_value_type self }
    {
        match self {
            FieldKind::Any => ValueType::Any,
            FieldKind::Unsigned => ValueType::Unsigned,
            FieldKind::Integer => ValueType::Integer,
            FieldKind::String => ValueType::String,
            FieldKind::Boolean => ValueType::Boolean,
            FieldKind::Varbinary => ValueType::Varbinary,
            FieldKind::Scalar => ValueType::Scalar,
            FieldKind::Array => ValueType::Array,
            FieldKind::Map => ValueType::Map,
        }
    }
}

/// What a format says of the field in an entry's place.
#[derive(Drop)]
pub struct FormatEntry {
    pub name: Bytes,
    pub kind: FieldKind,
    /// Nil is taken too, and an absent field.
    pub nullable: bool,
}

/// The entries of a format, in the order of the fields: at most 2^32 - 1, as many as a tuple can have
/// fields.
#[derive(Drop)]
pub struct FormatEntries {
    items: Vec<FormatEntry>,
}

impl Model for FormatEntries {
    ghost use Rattle.std.specs.Prelude.{List, ◌≤◌, length};
    ghost use Rattle.mx_tuple.specs.declared.formats.FormatEntry.{FormatEntry};
    ghost use Rattle.mx_tuple.specs.Fields.{max_fields};

    ghost Value = { List FormatEntry };

    ghost view = { λ f. f.items.items };

    ghost invariant = { λ f. length f.items.items ≤ max_fields };
}

/// What a space asks of its tuples.
#[derive(Drop)]
pub struct Format {
    /// How many fields a tuple has; 0 for any number.
    pub count: u32,
    pub entries: FormatEntries,
}

impl FormatEntries {
    /// No entry.
    pub fn new(alloc: Global) -> FormatEntries
        ensures { result ≡ [] }
    {
        FormatEntries {
            items: Vec::new(alloc),
        }
    }

    /// The entries of the vector; `None` where they are more than 2^32 - 1.
    pub fn from_vec(items: Vec<FormatEntry>) -> Option<FormatEntries>
        ensures { MatchOption result (max_fields < length items.items) (λ entries. entries ≡ items.items) }
    {
        if items.len() > MAX_FIELDS {
            return None;
        }
        Some(FormatEntries { items })
    }

    /// The entries as a vector.
    pub fn into_vec(self) -> Vec<FormatEntry>
        ensures { result.items ≡ self }
    {
        self.items
    }

    /// The entries in place.
    pub fn as_slice(&self) -> &[FormatEntry]
        ensures value { result.now ≡ self.now }
        ensures within { length self.now ≤ max_fields }
    {
        self.items.as_slice()
    }
}
