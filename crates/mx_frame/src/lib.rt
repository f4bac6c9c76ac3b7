//! The packets of a connection, however its bytes are split (IPROTO, "Packet structure").
#![tactic(auto)]

mod framer;
mod laws;
mod size;

pub use framer::{Framed, Framer};
pub use laws::{packets_are_spelled, what_is_framed_stays};
