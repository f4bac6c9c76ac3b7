//! Replies to requests.

use mx_base::Refusal;
use mx_msgpack::Tuples;

/// A reply to a request.
#[derive(Drop)]
pub enum Reply {
    /// It was done, and there is nothing to return.
    Empty,
    /// The tuples that were found, or the one that was put in its place.
    Tuples(Tuples),
    /// The protocol's version and features.
    Id,
    /// Why it is refused.
    Refused(Refusal),
}
