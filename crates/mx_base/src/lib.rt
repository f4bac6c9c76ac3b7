//! Names and numbers that all layers speak of, and the refusals with their numbers and texts.
#![tactic(auto)]

mod ids;
pub mod keys;
mod kinds;
mod name;
mod refusal;
mod refusal_text;
mod text;

pub use ids::{ConnId, IndexId, Lsn, ReplicaId, SpaceId, StreamId, SyncId, TxnName};
pub use kinds::{TypeName, Unsupported};
pub use name::Name;
pub use refusal::{Reach, Refusal, code_of};
pub use refusal_text::text_of;
