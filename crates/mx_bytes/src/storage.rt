//! Bytes in place, or in a vector.

use crate::short_bytes::ShortBytes;

/// A row of bytes: in place, or in a vector, which may be short too.
#[derive(Drop)]
pub(crate) enum Storage {
    Short(ShortBytes),
    Long(Vec<u8>),
}

const _: () = prove!(size_of::<Storage>() == 32);
