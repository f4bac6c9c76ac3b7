//! The engine: it answers requests on a state, and hands out what they commit.
#![tactic(auto)]

mod answer;
mod engine;
mod pending;
mod statement;
mod statements;
mod transactions;
mod txs;

pub use answer::{Answer, Answered};
pub use engine::Engine;
pub use pending::Pending;
pub use txs::Txs;
