//! The checksum of a block's data.

ghost use Rattle.std.specs.Prelude.{◌≡◌, ◌<◌, ◌%◌, suc};
ghost use Rattle.std.specs.List.{fold};
ghost use Rattle.mx_xlog.specs.Checksums.{checksum_of, next_checksum};
ghost use Rattle.mx_xlog.specs.Registers.{after_zeros};

use crate::tables::AFTER_BYTES;
use byteorder::{ByteOrder, LittleEndian};

/// The checksum of bytes: CRC-32C's polynomial, reflected, over a register that begins at 0 and isn't
/// inverted at the end.
pub fn checksum(bytes: &[u8]) -> u32
    ensures { result ≡ checksum_of bytes.now }
{
    let mut register = 0;
    let mut rest = bytes;
    while let Some((eight, others)) = rest.split_first_chunk::<8>() {
        register = after_eight(register, eight);
        rest = others;
    }
    for byte in rest {
        register = next_checksum(register, *byte);
    }
    register
}

#[inline]
fn after_eight(register: u32, eight: &[u8; 8]) -> u32
    ensures { result ≡ fold next_checksum register eight.now }
{
    let mixed = u64::from(register) ^ LittleEndian::read_u64(eight);
    entry(7, mixed)
        ^ entry(6, mixed >> 8)
        ^ entry(5, mixed >> 16)
        ^ entry(4, mixed >> 24)
        ^ entry(3, mixed >> 32)
        ^ entry(2, mixed >> 40)
        ^ entry(1, mixed >> 48)
        ^ entry(0, mixed >> 56)
}

#[inline]
fn next_checksum(register: u32, byte: u8) -> u32
    ensures { result ≡ next_checksum register byte }
{
    entry(0, u64::from(register ^ u32::from(byte))) ^ (register >> 8)
}

/// The register that held the lowest byte alone, after it and so many bytes 0.
#[inline]
fn entry(zeros: usize, bytes: u64) -> u32
    requires { zeros < 8 }
    ensures { result ≡ after_zeros (suc zeros) (bytes % 256) }
{
    AFTER_BYTES[zeros][(bytes & 0xff) as usize]
}
