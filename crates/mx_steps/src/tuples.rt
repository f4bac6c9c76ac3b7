//! Long tuples.

use mx_msgpack::Bytes;
use std::alloc::{AllocError, Global};

/// A tuple of this prefix and so many bytes after it.
pub fn tuple_with(alloc: Global, prefix: &[u8], after: usize) -> Result<Bytes, AllocError> {
    let mut bytes = Bytes::from_slice(alloc, prefix)?;
    bytes.extend_from_slice(Vec::from_elem(alloc, b'a', after)?.as_slice())?;
    Ok(bytes)
}

/// A tuple of exactly 1,048,576 bytes: a key below 128, and 1,048,569 bytes, which is 0xffff9.
pub fn tuple_of_maximum_size(alloc: Global, key: u8) -> Result<Bytes, AllocError> {
    tuple_with(alloc, &[0x92, key, 0xc6, 0x00, 0x0f, 0xff, 0xf9], 1_048_569)
}
