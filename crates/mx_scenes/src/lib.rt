//! Tests of whole runs over streams and directories in memory, and of the journals that they write.
#![tactic(auto)]

#[cfg(test)]
mod connections;
#[cfg(test)]
mod crashes;
#[cfg(test)]
mod directories;
#[cfg(test)]
mod harness;
#[cfg(test)]
mod journals;
#[cfg(test)]
mod replace;
#[cfg(test)]
mod requests;
#[cfg(test)]
mod schema;
#[cfg(test)]
mod select_runs;
#[cfg(test)]
mod statuses;
