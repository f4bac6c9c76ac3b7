//! Applying update operations to tuples.
#![tactic(auto)]

mod arithmetic;
mod change;
mod failure;
mod fault;
mod field;
mod fields;
mod laws;
mod number;
mod ops;
mod place;
mod size;
mod splice;
mod update;
mod writing;

pub use fault::OpFault;
pub use laws::operations_without_fault_are_read;
pub use ops::{Ops, read_ops};
pub use update::{apply, apply_upsert};
