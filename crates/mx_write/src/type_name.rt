//! The names of types in refusals.

ghost use Rattle.std.specs.Prelude.{◌≡◌};
ghost use Rattle.mx_write.specs.Lookup as lookup;

use mx_base::TypeName;
use mx_key::PartKind;

/// The name of a key part's type.
pub fn type_of(kind: PartKind) -> TypeName
    ensures { result ≡ lookup.type_of kind }
{
    match kind {
        PartKind::Unsigned => TypeName::Unsigned,
        PartKind::Integer => TypeName::Integer,
        PartKind::String => TypeName::String,
        PartKind::Boolean => TypeName::Boolean,
        PartKind::Varbinary => TypeName::Varbinary,
        PartKind::Scalar => TypeName::Scalar,
    }
}
