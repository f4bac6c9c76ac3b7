//! Tests of what SELECTs find and what requests read: of a state in memory, of the plain slow program and of
//! the engine.
#![tactic(auto)]

#[cfg(test)]
mod hash_index;
#[cfg(test)]
mod reads;
#[cfg(test)]
mod schema;
#[cfg(test)]
mod select;
