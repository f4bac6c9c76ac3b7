//! Memory that is kept from request to request.

ghost use Rattle.std.specs.Prelude.{◌≡◌, []};

use mx_msgpack::{Bytes, Tuples};
use std::alloc::Global;

/// The tuples of an answer, and the packet of a reply.
#[derive(Drop)]
pub struct Buffers {
    pub found: Tuples,
    pub packet: Bytes,
}

impl Buffers {
    /// Both are empty.
    pub fn new(alloc: Global) -> Buffers
        ensures found { result.found ≡ [] }
        ensures packet { result.packet ≡ [] }
    {
        Buffers {
            found: Tuples::new(alloc),
            packet: Bytes::new(alloc),
        }
    }
}
