//! What a connection is sent: the greeting, and replies as packets (IPROTO, "Greeting message" and "Response structure").
#![tactic(auto)]

mod body;
mod greeting;
mod laws;
mod packet;
mod replies;

pub use body::ReplyBody;
pub use greeting::write_greeting;
pub use laws::replies_are_packets;
pub use replies::{write_error, write_id, write_ok, write_tuples};
