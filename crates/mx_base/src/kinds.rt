//! Words that refusals use.

ghost use Rattle.std.specs.Prelude.{◌≡◌};
ghost use Rattle.mx_base.specs.Refusals.{type_text, unsupported_text};

/// The type that a key part or a field has to be of.
#[derive(Clone, Copy, Debug, Drop, PartialEq, Eq)]
pub enum TypeName {
    Unsigned,
    Integer,
    String,
    Boolean,
    Varbinary,
    Scalar,
    Array,
    Map,
}

/// What isn't supported.
#[derive(Clone, Copy, Debug, Drop, PartialEq, Eq)]
pub enum Unsupported {
    Authentication,
    SchemaInTransaction,
    SchemaInPlace,
    SystemSpaceWrite,
    HashIterator,
}

impl TypeName {
    /// The type's name.
    pub fn text(self) -> &'static str
        ensures { result.now ≡ type_text self }
    {
        match self {
            TypeName::Unsigned => "unsigned",
            TypeName::Integer => "integer",
            TypeName::String => "string",
            TypeName::Boolean => "boolean",
            TypeName::Varbinary => "varbinary",
            TypeName::Scalar => "scalar",
            TypeName::Array => "array",
            TypeName::Map => "map",
        }
    }
}

impl Unsupported {
    /// What isn't supported, in words.
    pub fn text(self) -> &'static str
        ensures { result.now ≡ unsupported_text self }
    {
        match self {
            Unsupported::Authentication => "authentication",
            Unsupported::SchemaInTransaction => "schema statement in a transaction",
            Unsupported::SchemaInPlace => "change of a schema row in place",
            Unsupported::SystemSpaceWrite => "write to a system space",
            Unsupported::HashIterator => "iterator of a hash index",
        }
    }
}
