//! The types of rows, which are those of the write requests.

pub const INSERT: u8 = 2;

pub const REPLACE: u8 = 3;

pub const UPDATE: u8 = 4;

pub const DELETE: u8 = 5;

pub const UPSERT: u8 = 9;
