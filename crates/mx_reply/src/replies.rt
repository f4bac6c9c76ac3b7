//! Replies as packets (IPROTO, "Response structure").

ghost use Rattle.std.specs.Prelude.{◌≡◌, ◌+◌, ◌<◌, ◌^◌, ◌++◌, ◌∷◌, length, OnOk, MatchResult};
ghost use Rattle.byteorder.specs.Endian.{big_bytes};
ghost use Rattle.mx_reply.specs.declared.body.ReplyBody.TheVariants as body;
ghost use Rattle.mx_reply.specs.Replies.{reply_body_text, error_packet, id_packet, ok_packet, refusal_body};

use crate::body::ReplyBody;
use crate::packet::{Header, write_packet};
use byteorder::{BigEndian, ByteOrder};
use mx_base::{Refusal, SyncId, code_of, text_of};
use mx_msgpack::{Bytes, MAX_LENGTH, Tuples, write_str_head};
use std::alloc::{AllocError, Global};

/// Appends a success: a packet of type 0 with this sync and schema version, and the body's map.
///
/// # Errors
/// Out of memory, or the packet has more than 2^32 - 1 bytes; nothing was appended.
pub fn write_ok(
    alloc: Global,
    sync: SyncId,
    schema: u32,
    body: &ReplyBody,
    out: &mut Bytes,
) -> Result<(), AllocError>
    ensures written { MatchResult result (λ _. out.new ≡ out.old ++ ok_packet schema sync.0 body.now) (λ _. out.new ≡ out.old) }
    ensures fits { OnOk result (23 + length (reply_body_text body.now) < 2 ^ 32) }
{
    let header = Header {
        schema,
        sync,
        kind: 0,
    };
    match body {
        ReplyBody::Empty => write_packet(header, &[0x80], &[], out),
        ReplyBody::Tuples(tuples) => write_tuples(sync, schema, tuples, out),
        ReplyBody::Clock(clock) => {
            // The map is made first, since its size stands before it.
            let mut map = Bytes::new(alloc);
            clock.write(&mut map)?;
            write_packet(header, &[0x81, 0x26], map.as_slice(), out)
        }
    }
}

/// As `write_ok` of tuples, which stay the caller's.
///
/// # Errors
/// Out of memory, or the packet has more than 2^32 - 1 bytes; nothing was appended.
pub fn write_tuples(
    sync: SyncId,
    schema: u32,
    tuples: &Tuples,
    out: &mut Bytes,
) -> Result<(), AllocError>
    ensures written { MatchResult result (λ _. out.new ≡ out.old ++ ok_packet schema sync.0 (body.Tuples tuples.now)) (λ _. out.new ≡ out.old) }
    ensures fits { OnOk result (23 + length (reply_body_text (body.Tuples tuples.now)) < 2 ^ 32) }
{
    let header = Header {
        schema,
        sync,
        kind: 0,
    };
    let Ok(count) = u32::try_from(tuples.len()) else {
        return Err(AllocError);
    };
    write_packet(header, &tuples_head(count), tuples.bytes(), out)
}

/// A map of one pair, whose value is an array of so many tuples, up to the first of them.
fn tuples_head(count: u32) -> [u8; 7]
    ensures { result ≡ 0x81 ∷ 0x30 ∷ 0xdd ∷ big_bytes 4 count }
{
    let mut head = [0x81, 0x30, 0xdd, 0, 0, 0, 0];
    BigEndian::write_u32(&mut head[3..], count);
    head
}

/// Appends a refusal: a packet whose type is 0x8000 plus the refusal's number, with this sync and
/// schema version, and the refusal's text in a map.
///
/// # Errors
/// Out of memory, or the text has more than 2,097,152 bytes; nothing was appended.
pub fn write_error(
    alloc: Global,
    sync: SyncId,
    schema: u32,
    refusal: &Refusal,
    out: &mut Bytes,
) -> Result<(), AllocError>
    ensures written { MatchResult result (λ _. out.new ≡ out.old ++ error_packet schema sync.0 refusal.now) (λ _. out.new ≡ out.old) }
    ensures fits { OnOk result (23 + length (refusal_body refusal.now) < 2 ^ 32) }
{
    let text = text_of(alloc, refusal)?;
    if text.len() > MAX_LENGTH as usize {
        return Err(AllocError);
    }
    let mut prefix = Bytes::from_slice(alloc, &[0x81, 0x31])?;
    write_str_head(text.len(), &mut prefix)?;
    let kind = 0x8000 + u32::from(code_of(refusal));
    let header = Header { schema, sync, kind };
    write_packet(header, prefix.as_slice(), text.as_slice(), out)
}

/// Appends the reply to a request for the protocol's version and features: a packet of type 0 with
/// this sync and schema version, and both in a map.
///
/// # Errors
/// Nothing was appended.
pub fn write_id(
    _alloc: Global,
    sync: SyncId,
    schema: u32,
    out: &mut Bytes,
) -> Result<(), AllocError>
    ensures written { MatchResult result (λ _. out.new ≡ out.old ++ id_packet schema sync.0) (λ _. out.new ≡ out.old) }
{
    let header = Header {
        schema,
        sync,
        kind: 0,
    };
    let body = [0x82, 0x54, 0x01, 0x55, 0x92, 0x00, 0x01];
    write_packet(header, &body, &[], out)
}
