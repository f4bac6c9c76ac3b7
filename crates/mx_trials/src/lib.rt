//! Tests of the layers below the run: of states in memory, of what writes and other requests that are no
//! SELECTs are told, and of the laws that are calls.
#![tactic(auto)]

#[cfg(test)]
mod commits;
#[cfg(test)]
mod engine;
#[cfg(test)]
mod model;
#[cfg(test)]
mod names;
#[cfg(test)]
mod replace;
#[cfg(test)]
mod requests;
#[cfg(test)]
mod reserves;
#[cfg(test)]
mod schema;
#[cfg(test)]
mod spaces;
#[cfg(test)]
mod user_spaces;
#[cfg(test)]
mod writes;
