//! Keys: their parts, their order as bytes, and the ranges that iterators scan.
#![tactic(auto)]

mod arrays;
mod edge;
mod encoding;
mod fault;
mod fields;
mod iterator;
mod key_def;
mod keys;
mod laws;
mod part;
mod part_ref;
mod prefix;
mod ranges;
mod writing;

pub use arrays::key_array_of_tuple;
pub use edge::{Edge, KeyRange};
pub use encoding::comparable;
pub use fault::{KeyFault, Misfit, NoKey, RangeFault};
pub use fields::FieldSlices;
pub use iterator::IterKind;
pub use key_def::KeyDef;
pub use keys::{key_of, key_of_tuple};
pub use laws::{
    a_key_is_read_from_its_array, a_prefix_is_the_first_parts, a_range_holds_its_keys,
    bytes_are_ordered_as_keys,
};
pub use part::{Part, PartKind};
pub use prefix::prefix_size;
pub use ranges::{misfit, range, range_of_key, whole_key};
