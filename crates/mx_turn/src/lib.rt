//! A value that threads change in turn, each change an entry of one history.
#![tactic(auto)]

mod board;
pub mod counter;
mod logged;
mod rule;
mod turn;
mod view;

pub use board::{Busy, Held, Seat, Turn};
pub use logged::Logged;
pub use view::View;
