//! An entry of a hash index.

ghost use Rattle.std.specs.Prelude.{◌≡◌};

use mx_msgpack::Bytes;
use std::alloc::AllocError;

/// An entry's key: the comparable bytes of an index key, and behind them those of a primary key.
#[derive(Drop)]
pub(crate) struct HeldEntry {
    pub(crate) key: Bytes,
    /// Where the primary key begins.
    pub(crate) begin: u32,
}

impl Clone for HeldEntry {
    ghost is_clone = { λ entry copy. copy ≡ entry };

    fn clone(&self) -> Result<HeldEntry, AllocError> {
        Ok(HeldEntry {
            key: self.key.clone()?,
            begin: self.begin,
        })
    }
}
