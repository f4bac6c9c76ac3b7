//! The operators, each named by one byte.

ghost use Rattle.std.specs.Prelude.{◌≡◌};
ghost use Rattle.mx_operations.specs.Operations.{operator_of};

/// What an operation does to a field.
#[derive(Clone, Copy)]
pub(crate) enum Operator {
    Assign,
    Insert,
    Delete,
    Add,
    Subtract,
    And,
    Or,
    Xor,
    Splice,
}

pub(crate) fn operator_of(letter: u8) -> Option<Operator>
    ensures { result ≡ operator_of letter }
{
    match letter {
        b'=' => Some(Operator::Assign),
        b'!' => Some(Operator::Insert),
        b'#' => Some(Operator::Delete),
        b'+' => Some(Operator::Add),
        b'-' => Some(Operator::Subtract),
        b'&' => Some(Operator::And),
        b'|' => Some(Operator::Or),
        b'^' => Some(Operator::Xor),
        b':' => Some(Operator::Splice),
        _ => None,
    }
}
