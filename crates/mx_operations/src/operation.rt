//! Update operations.

/// What is done to a field of a tuple. A field's number counts from the front or, below 0, from the
/// end.
#[derive(Clone, Copy, Drop)]
pub enum Operation<'a> {
    /// `=`: the field becomes this value, which is spelled so.
    Assign {
        field: i128,
        value: &'a [u8],
    },
    /// `!`: this value is inserted before the field.
    Insert {
        field: i128,
        value: &'a [u8],
    },
    /// `#`: so many fields are deleted, 1 at least.
    Delete {
        field: i128,
        count: u64,
    },
    /// `+`: the sum of the field's number and this one.
    Add {
        field: i128,
        operand: i128,
    },
    /// `-`: the difference.
    Subtract {
        field: i128,
        operand: i128,
    },
    /// `&`, of two numbers of 0 or more.
    And {
        field: i128,
        operand: u64,
    },
    /// `|`, of two numbers of 0 or more.
    Or {
        field: i128,
        operand: u64,
    },
    /// `^`, of two numbers of 0 or more.
    Xor {
        field: i128,
        operand: u64,
    },
    /// `:`: at a position of the field's text so many bytes are cut out, and this text comes in their
    /// place.
    Splice {
        field: i128,
        position: i128,
        cut: i128,
        text: &'a [u8],
    },
}
