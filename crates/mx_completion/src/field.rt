//! What a map has to have under its keys.

/// What a map has to have under a key.
#[derive(Clone, Copy)]
pub struct Field {
    pub key: u8,
    pub form: Form,
}

/// Which values a key may have, and what each costs.
#[derive(Clone, Copy)]
pub enum Form {
    /// No value.
    Absent,
    /// A number from the least one to the greatest one, which costs nothing.
    Number { least: u64, most: u64 },
    /// Any value but the number 1, or none; it costs nothing.
    NotOne,
    /// A number of 32 bits, which costs as many bytes as its shortest spelling.
    Space,
    /// 0, or no value, which costs nothing, or 1, which costs 2 bytes.
    Base,
    /// An array, which costs its bytes.
    Array,
    /// An array of update operations, which costs its bytes.
    Operations,
}
