//! Why bytes spell no update operations.

/// Why bytes spell no operation.
#[derive(Clone, Copy, Debug, Drop, PartialEq, Eq)]
pub enum ShapeFault {
    /// The operator is a text of one byte, and none of those that there are.
    UnknownOperator,
    /// They aren't an array, the operator isn't a text of one byte, or its arguments are of another
    /// number or type.
    BadArgument,
}

/// The first of several operations that isn't one.
#[derive(Clone, Copy, Drop, PartialEq, Eq)]
pub struct OperationFault {
    /// Which one, counted from 0.
    pub place: u32,
    pub fault: ShapeFault,
}
