//! The types that a format and a key ask of values.

ghost use Rattle.std.specs.Prelude.{◌≡◌};
ghost use Rattle.mx_msgpack.specs.Types as types;
ghost use Rattle.mx_msgpack.specs.Types.{is_any};
ghost use Rattle.mx_msgpack.specs.View.{view};
ghost use Rattle.mx_msgpack.specs.declared.value_type.ValueType.TheVariants.{Scalar};

use crate::value_ref::ValueRef;

/// The type of a value.
#[derive(Clone, Copy, Drop, PartialEq, Eq)]
pub enum ValueType {
    Any,
    /// Numbers of 0 or more.
    Unsigned,
    Integer,
    String,
    Boolean,
    Varbinary,
    /// Booleans, numbers, texts and bytes.
    Scalar,
    Array,
    Map,
}

impl ValueType {
    /// Whether a value is of the type.
    pub fn takes(self, value: &ValueRef<'_>) -> bool
        ensures { result ≡ types.takes self (view value.now) }
    {
        match self {
            ValueType::Any => true,
            ValueType::Unsigned => matches!(value, ValueRef::Int(number) if *number >= 0),
            ValueType::Integer => matches!(value, ValueRef::Int(_)),
            ValueType::String => matches!(value, ValueRef::Str(_)),
            ValueType::Boolean => matches!(value, ValueRef::Bool(_)),
            ValueType::Varbinary => matches!(value, ValueRef::Bin(_)),
            ValueType::Scalar => is_scalar(value),
            ValueType::Array => matches!(value, ValueRef::Array { .. }),
            ValueType::Map => matches!(value, ValueRef::Map { .. }),
        }
    }

    /// Whether the type is that of all values.
    pub fn is_any(self) -> bool
        ensures { result ≡ is_any self }
    {
        matches!(self, ValueType::Any)
    }
}

fn is_scalar(value: &ValueRef<'_>) -> bool
    ensures { result ≡ types.takes Scalar (view value.now) }
{
    matches!(
        value,
        ValueRef::Bool(_) | ValueRef::Int(_) | ValueRef::Str(_) | ValueRef::Bin(_)
    )
}
