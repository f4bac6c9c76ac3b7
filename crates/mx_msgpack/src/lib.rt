//! MessagePack: reading values in place, and writing them (MessagePack specification).
#![tactic(auto)]

mod bad;
mod decode;
mod encode;
mod head;
mod items;
mod laws;
mod lookup;
mod maps;
mod projections;
mod readers;
mod size;
mod value;
mod value_ref;
mod value_type;

pub use bad::Bad;
pub use decode::{ReadBad, read_value};
pub use encode::{
    write_array_head, write_int, write_map_head, write_str_head, write_unsigned, write_value,
};
pub use items::{Items, array_of, is_array, known_array, parted};
pub use laws::{
    a_value_or_its_fault_stands_first, array_items_are_spelled, no_spelling_begins_another,
    what_is_written_is_read_again, what_is_written_is_shortest,
};
pub use lookup::values_at;
pub use maps::{PairRef, PairsRef, first_pair};
pub use mx_bytes::{Bytes, Tuples};
pub use projections::{array_in, bool_in, int_in, map_in, text_in};
pub use readers::{number_at, unsigned_32_at, unsigned_at, unsigned_in};
pub use size::{MAX_LENGTH, skip};
pub use value::{Pairs, Value, Values};
pub use value_ref::{ValueRef, read_ref};
pub use value_type::ValueType;
