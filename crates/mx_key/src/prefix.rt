//! The first parts of a key's comparable bytes.

ghost use Rattle.std.specs.Prelude.{◌≡◌, ◌≤◌, false, length};
ghost use Rattle.mx_key.specs.Prefixes.{content_size, part_size, prefix_size};

use crate::writing::{BOOLEAN, BOOLEAN_SIZE, ESCAPE, NUMBER, NUMBER_SIZE};

/// The size in bytes of the first parts, so many of them.
pub fn prefix_size(bytes: &[u8], parts: usize) -> usize
    ensures size { result ≡ prefix_size parts bytes.now }
    ensures within { result ≤ length bytes.now }
{
    let mut size = 0;
    let mut left = parts;
    while left > 0 {
        let (_, rest) = bytes.split_at(size);
        size += part_size(rest);
        left -= 1;
    }
    size
}

fn part_size(bytes: &[u8]) -> usize
    ensures size { result ≡ part_size bytes.now }
    ensures within { result ≤ length bytes.now }
{
    match bytes.first() {
        Some(&BOOLEAN) => bytes.len().min(BOOLEAN_SIZE),
        Some(&NUMBER) => bytes.len().min(NUMBER_SIZE),
        Some(_) => content_size(bytes),
        None => 0,
    }
}

/// The size of a text or other bytes, with the kind in front.
fn content_size(bytes: &[u8]) -> usize
    ensures size { result ≡ content_size false bytes.now }
    ensures within { result ≤ length bytes.now }
{
    let mut size = 0;
    let mut was_zero = false;
    while size < bytes.len() {
        let byte = bytes[size];
        size += 1;
        if was_zero && byte != ESCAPE {
            return size;
        }
        was_zero = !was_zero && byte == 0;
    }
    size
}
