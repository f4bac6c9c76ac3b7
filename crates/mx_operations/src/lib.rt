//! Update operations as arrays of MessagePack spell them.
#![tactic(auto)]

mod fault;
mod operation;
mod operations;
mod operator;
mod reading;

pub use fault::{OperationFault, ShapeFault};
pub use operation::Operation;
pub use operations::{MAX_OPERATIONS, first_fault};
pub use reading::read_operation;
