//! What bytes that end inside a value can still become, and how many more it takes at least.
#![tactic(auto)]

mod completion;
mod costs;
mod field;
mod head;
mod leading;
mod map;
mod number;
mod operations;
mod pairs;
mod sums;
mod value;

pub use completion::Completion;
pub use field::{Field, Form};
pub use map::least_cost;
pub use number::{NumberRange, number_range, unsigned_completion};
pub use operations::operations_completion;
pub use value::{array_completion, int_completion, text_completion, value_completion};
