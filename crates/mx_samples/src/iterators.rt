//! The numbers of iterators (IPROTO).

/// The tuples of a key.
pub const EQ: u8 = 0;

/// The tuples of a key, the last one first.
pub const REQ: u8 = 1;

/// All tuples.
pub const ALL: u8 = 2;

/// Those below a key, the highest first.
pub const LT: u8 = 3;

/// Those below a key, and those of it, the highest first.
pub const LE: u8 = 4;

/// Those of a key, and those above it.
pub const GE: u8 = 5;

/// Those above a key.
pub const GT: u8 = 6;
