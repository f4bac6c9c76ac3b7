//! What a reply carries.

use mx_msgpack::Tuples;
use mx_vclock::Vclock;

/// The body of a reply that is no refusal.
#[derive(Drop)]
pub enum ReplyBody {
    /// Nothing.
    Empty,
    /// Tuples, each as the bytes of one array.
    Tuples(Tuples),
    /// A vclock.
    Clock(Vclock),
}
