//! Tuples: their fields in place, and the formats that they meet.
#![tactic(auto)]

mod checking;
mod formats;
mod laws;
mod tuple;

pub use checking::{FieldFault, check};
pub use formats::{FieldKind, Format, FormatEntries, FormatEntry};
pub use laws::a_field_is_a_value;
pub use tuple::{MAX_TUPLE_SIZE, Tuple, TupleBad, from_bytes};
