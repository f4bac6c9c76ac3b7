//! The packet of a reply: its size, its header and its body.

ghost use Rattle.std.specs.Prelude.{◌≡◌, ◌+◌, ◌<◌, ◌++◌, ◌∷◌, ◌^◌, length, take, OnOk, MatchResult};
ghost use Rattle.byteorder.specs.Endian.{big_bytes};
ghost use Rattle.mx_reply.specs.Replies.{reply_header, reply_packet};

use byteorder::{BigEndian, ByteOrder};
use mx_base::SyncId;
use mx_msgpack::Bytes;
use std::alloc::AllocError;

/// The size of a header in bytes, without the five of the packet's size before it.
const HEADER_SIZE: usize = 23;

/// The header of a reply.
#[derive(Clone, Copy, Drop)]
pub(crate) struct Header {
    /// The schema version.
    pub(crate) schema: u32,
    /// The sync of the request.
    pub(crate) sync: SyncId,
    /// The type, which is 0 for a success.
    pub(crate) kind: u32,
}

/// More than 2^32 - 1 bytes after the packet's size are an error, too.
pub(crate) fn write_packet(
    header: Header,
    prefix: &[u8],
    rest: &[u8],
    out: &mut Bytes,
) -> Result<(), AllocError>
    ensures written { MatchResult result
        (λ _. out.new ≡ out.old ++ reply_packet header.schema header.sync.0 header.kind (prefix.now ++ rest.now))
        (λ _. out.new ≡ out.old) }
    ensures fits { OnOk result (23 + length (prefix.now ++ rest.now) < 2 ^ 32) }
{
    let before = out.len();
    let written = write_pieces(header, prefix, rest, out);
    if written.is_err() {
        out.truncate(before);
    }
    written
}

fn write_pieces(
    header: Header,
    prefix: &[u8],
    rest: &[u8],
    out: &mut Bytes,
) -> Result<(), AllocError>
    ensures written { MatchResult result
        (λ _. out.new ≡ out.old ++ reply_packet header.schema header.sync.0 header.kind (prefix.now ++ rest.now))
        (λ _. take (length out.old) out.new ≡ out.old) }
    ensures fits { OnOk result (23 + length (prefix.now ++ rest.now) < 2 ^ 32) }
{
    let body_size = rest.len().saturating_add(prefix.len());
    let Ok(size) = u32::try_from(body_size.saturating_add(HEADER_SIZE)) else {
        return Err(AllocError);
    };
    let head = packet_head(size, header);
    out.reserve(body_size.saturating_add(head.len()))?;
    out.extend_from_slice(&head)?;
    out.extend_from_slice(prefix)?;
    out.extend_from_slice(rest)?;
    Ok(())
}

fn packet_head(size: u32, header: Header) -> [u8; 28]
    ensures { result ≡ (0xce ∷ big_bytes 4 size) ++ reply_header header.schema header.sync.0 header.kind }
{
    let mut head = [
        0xce, 0, 0, 0, 0, 0x83, 0x00, 0xce, 0, 0, 0, 0, 0x01, 0xcf, 0, 0, 0, 0, 0, 0, 0, 0, 0x05,
        0xce, 0, 0, 0, 0,
    ];
    BigEndian::write_u32(&mut head[1..], size);
    BigEndian::write_u32(&mut head[8..], header.kind);
    BigEndian::write_u64(&mut head[14..], header.sync.0);
    BigEndian::write_u32(&mut head[24..], header.schema);
    head
}
