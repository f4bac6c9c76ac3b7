//! The size before a packet.

ghost use Rattle.std.specs.Prelude.{◌≡◌, ◌⊎◌, ◌∷◌, ℕ, Some};
ghost use Rattle.mx_frame.specs.Packets.{size_at, size_behind};
ghost use Rattle.mx_frame.specs.Views.{IsSize};

use byteorder::{BigEndian, ByteOrder};

/// The maximum size of a packet in bytes, without its size field.
const MAX_PACKET_SIZE: u64 = 2_097_152;

/// What bytes begin with, where a packet's size is expected.
#[derive(Clone, Copy)]
pub(crate) enum Size {
    /// A size, spelled in `head` bytes.
    Whole { head: usize, size: usize },
    /// A prefix of a size.
    Part,
    /// No size that a packet may have.
    Wrong,
}

/// Reads the first size, from at most 9 bytes.
#[tactic(auto, unfolding(crate::specs::Packets::size_at))]
pub(crate) fn size_at(bytes: &[u8]) -> Size
    ensures { IsSize result bytes.now (size_at bytes.now) }
{
    let Some((leading, rest)) = bytes.split_first() else {
        return Size::Part;
    };
    match *leading {
        0x00..=0x7f => Size::Whole {
            head: 1,
            size: usize::from(*leading),
        },
        0xcc => size_behind(1, rest),
        0xcd => size_behind(2, rest),
        0xce => size_behind(4, rest),
        0xcf => size_behind(8, rest),
        _ => Size::Wrong,
    }
}

/// Reads a big-endian size of `width` bytes after its leading byte.
fn size_behind(width: usize, rest: &[u8]) -> Size
    requires { (width ≡ 1) ⊎ (width ≡ 2) ⊎ (width ≡ 4) ⊎ (width ≡ 8) }
    ensures { (leading : ℕ) → IsSize result (leading ∷ rest.now) (size_behind leading (Some width) rest.now) }
{
    if rest.len() < width {
        return Size::Part;
    }
    let size = BigEndian::read_uint(rest, width);
    if size > MAX_PACKET_SIZE {
        return Size::Wrong;
    }
    Size::Whole {
        head: 1 + width,
        size: size as usize,
    }
}
