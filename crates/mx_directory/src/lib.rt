//! What a directory recovers to, its first damage, and which commits survive a crash.
#![tactic(auto)]

mod damage;
mod laws;

pub use damage::{Damage, DamageKind};
pub use laws::a_directory_stands_once;
