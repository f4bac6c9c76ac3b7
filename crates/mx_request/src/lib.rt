//! Requests: what the packets of a client ask (IPROTO, "Request structure").
#![tactic(auto)]

mod bodies;
mod decode;
mod encode;
mod fault;
mod fields;
mod header;
mod laws;
mod operators;
mod packet;
mod request;
mod request_ref;
mod request_type;
mod type_number;
mod value_fault;
mod values;

pub use decode::read_request;
pub use encode::write_request;
pub use fault::RequestFault;
pub use laws::{what_is_asked_is_read_again, what_is_read_can_be_asked};
pub use packet::{AskedRef, PacketRef, read_packet};
pub use request::{Ask, Head3, Request};
pub use request_ref::{RequestRef, to_owned};
