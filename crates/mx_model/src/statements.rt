//! What statements are answered.

pub mod select;
