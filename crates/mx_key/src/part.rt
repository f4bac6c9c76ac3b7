//! The parts of an index's keys.

ghost use Rattle.std.specs.Prelude.{◌≡◌};
ghost use Rattle.mx_key.specs.Parts.{part_value_type};

use mx_msgpack::ValueType;

/// The type of a part.
#[derive(Clone, Copy, Debug, Drop, PartialEq, Eq)]
pub enum PartKind {
    /// Numbers of 0 or more.
    Unsigned,
    Integer,
    String,
    Boolean,
    Varbinary,
    /// Booleans, numbers, texts and bytes.
    Scalar,
}

impl PartKind {
    pub(crate) fn value_type(self) -> ValueType
        ensures { result ≡ part_value_type self }
    {
        match self {
            PartKind::Unsigned => ValueType::Unsigned,
            PartKind::Integer => ValueType::Integer,
            PartKind::String => ValueType::String,
            PartKind::Boolean => ValueType::Boolean,
            PartKind::Varbinary => ValueType::Varbinary,
            PartKind::Scalar => ValueType::Scalar,
        }
    }
}

/// A part of an index's keys: a field of its tuples, counted from 0, of a type.
#[derive(Clone, Copy, Drop, PartialEq, Eq)]
pub struct Part {
    pub field: u32,
    pub kind: PartKind,
}
