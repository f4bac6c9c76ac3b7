//! Encoding requests as packets.

ghost use Rattle.std.specs.Prelude.{◌≡◌, ℕ, ◌+◌, ◌<◌, ◌≤◌, ◌^◌, ◌++◌, ◌∷◌, length, map, take, OnOk, MatchResult};
ghost use Rattle.std.specs.List.{concat};
ghost use Rattle.byteorder.specs.Endian.{big_bytes};
ghost use Rattle.mx_msgpack.specs.Spelling.{shortest_unsigned};
ghost use Rattle.mx_vclock.specs.Spelling.{clock_map};
ghost use Rattle.mx_request.specs.declared.request.Request.TheVariants as request;
ghost use Rattle.mx_request.specs.Spelling.{body_pairs, request_body_text, header_pairs, type_number, map_text, entry_text, request_packet, unless_default, uuid_str};

use crate::request::{Head3, Request};
use byteorder::{BigEndian, ByteOrder};
use mx_base::{IndexId, SpaceId, keys};
use mx_msgpack::{Bytes, write_map_head, write_str_head, write_unsigned};
use mx_vclock::Vclock;
use std::alloc::{AllocError, Global};
use uuid::Uuid;

/// The limit of a selection that has none.
const NO_LIMIT: u64 = 0xffff_ffff;

/// Adds the packet of a request, its size included: a header of type, sync and stream, and a body
/// where the request has keys. A key whose value is its default is omitted.
///
/// # Errors
/// Out of memory, or header and body have more than 2^32 - 1 bytes together. Nothing is added.
pub fn write_request(
    alloc: Global,
    head: &Head3,
    request: &Request,
    out: &mut Bytes,
) -> Result<(), AllocError>
    requires { head.now.kind ≡ type_number request.now }
    ensures written { MatchResult result (λ _. out.new ≡ out.old ++ request_packet head.now request.now) (λ _. out.new ≡ out.old) }
    ensures fits { OnOk result (length (map_text (header_pairs head.now) ++ request_body_text (body_pairs request.now)) < 2 ^ 32) }
{
    let mut content = Bytes::new(alloc);
    write_header(head, &mut content)?;
    write_body(request, &mut content)?;
    write_sized(&content, out)
}

/// More than 2^32 - 1 bytes are an error, too.
fn write_sized(content: &Bytes, out: &mut Bytes) -> Result<(), AllocError>
    ensures written { MatchResult result (λ _. out.new ≡ out.old ++ ((0xce ∷ big_bytes 4 (length content.now)) ++ content.now)) (λ _. out.new ≡ out.old) }
    ensures fits { OnOk result (length content.now < 2 ^ 32) }
{
    let Ok(size) = u32::try_from(content.len()) else {
        return Err(AllocError);
    };
    let mut head = [0xce, 0, 0, 0, 0];
    BigEndian::write_u32(&mut head[1..], size);
    let before = out.len();
    let written = write_both(&head, content.as_slice(), out);
    if written.is_err() {
        out.truncate(before);
    }
    written
}

fn write_both(first: &[u8], second: &[u8], out: &mut Bytes) -> Result<(), AllocError>
    ensures { MatchResult result (λ _. out.new ≡ out.old ++ (first.now ++ second.now)) (λ _. take (length out.old) out.new ≡ out.old) }
{
    out.extend_from_slice(first)?;
    out.extend_from_slice(second)
}

fn write_header(head: &Head3, out: &mut Bytes) -> Result<(), AllocError>
    ensures { OnOk result (out.new ≡ out.old ++ map_text (header_pairs head.now)) }
{
    let count = 1 + pairs_unless(0, head.sync.0) + pairs_unless(0, head.stream.0);
    write_map_head(count, out)?;
    write_number(keys::TYPE, u64::from(head.kind), out)?;
    write_unless(0, keys::SYNC, head.sync.0, out)?;
    write_unless(0, keys::STREAM, head.stream.0, out)
}

fn write_body(request: &Request, out: &mut Bytes) -> Result<(), AllocError>
    ensures { OnOk result (out.new ≡ out.old ++ request_body_text (body_pairs request.now)) }
{
    match request {
        Request::Select {
            space,
            index,
            limit,
            offset,
            iterator,
            key,
        } => write_select(*space, *index, *limit, *offset, *iterator, key, out),
        Request::Insert { space, tuple } => write_tuple(*space, tuple, out),
        Request::Replace { space, tuple } => write_tuple(*space, tuple, out),
        Request::Update {
            space,
            index,
            base,
            key,
            ops,
        } => write_update(*space, *index, *base, key, ops, out),
        Request::Delete { space, index, key } => write_delete(*space, *index, key, out),
        Request::Upsert {
            space,
            base,
            tuple,
            ops,
        } => write_upsert(*space, *base, tuple, ops, out),
        Request::Join { instance } => write_join(instance, out),
        Request::Subscribe {
            instance,
            set,
            clock,
        } => write_subscribe(instance, set, clock, out),
        Request::Ack { clock } => write_ack(clock, out),
        Request::Nop
        | Request::Ping
        | Request::Begin
        | Request::Commit
        | Request::Rollback
        | Request::Id => Ok(()),
    }
}

fn write_select(
    space: SpaceId,
    index: IndexId,
    limit: u32,
    offset: u32,
    iterator: u8,
    key: &Bytes,
    out: &mut Bytes,
) -> Result<(), AllocError>
    ensures { OnOk result (out.new ≡ out.old ++ map_text (body_pairs (request.Select space index limit offset iterator key.now))) }
{
    let index = u64::from(index.0);
    let limit = u64::from(limit);
    let offset = u64::from(offset);
    let iterator = u64::from(iterator);
    let optional = pairs_unless(0, index)
        + pairs_unless(NO_LIMIT, limit)
        + pairs_unless(0, offset)
        + pairs_unless(0, iterator);
    write_map_head(2 + optional, out)?;
    write_number(keys::SPACE, u64::from(space.0), out)?;
    write_unless(0, keys::INDEX, index, out)?;
    write_unless(NO_LIMIT, keys::LIMIT, limit, out)?;
    write_unless(0, keys::OFFSET, offset, out)?;
    write_unless(0, keys::ITERATOR, iterator, out)?;
    write_array(keys::PARTS, key, out)
}

fn write_tuple(space: SpaceId, tuple: &Bytes, out: &mut Bytes) -> Result<(), AllocError>
    ensures { OnOk result (out.new ≡ out.old ++ map_text (body_pairs (request.Insert space tuple.now))) }
{
    write_map_head(2, out)?;
    write_number(keys::SPACE, u64::from(space.0), out)?;
    write_array(keys::TUPLE, tuple, out)
}

fn write_update(
    space: SpaceId,
    index: IndexId,
    base: u32,
    key: &Bytes,
    operations: &Bytes,
    out: &mut Bytes,
) -> Result<(), AllocError>
    ensures { OnOk result (out.new ≡ out.old ++ map_text (body_pairs (request.Update space index base key.now operations.now))) }
{
    let index = u64::from(index.0);
    let base = u64::from(base);
    write_map_head(3 + pairs_unless(0, index) + pairs_unless(0, base), out)?;
    write_number(keys::SPACE, u64::from(space.0), out)?;
    write_unless(0, keys::INDEX, index, out)?;
    write_unless(0, keys::BASE, base, out)?;
    write_array(keys::PARTS, key, out)?;
    write_array(keys::TUPLE, operations, out)
}

fn write_delete(
    space: SpaceId,
    index: IndexId,
    key: &Bytes,
    out: &mut Bytes,
) -> Result<(), AllocError>
    ensures { OnOk result (out.new ≡ out.old ++ map_text (body_pairs (request.Delete space index key.now))) }
{
    let index = u64::from(index.0);
    write_map_head(2 + pairs_unless(0, index), out)?;
    write_number(keys::SPACE, u64::from(space.0), out)?;
    write_unless(0, keys::INDEX, index, out)?;
    write_array(keys::PARTS, key, out)
}

fn write_upsert(
    space: SpaceId,
    base: u32,
    tuple: &Bytes,
    operations: &Bytes,
    out: &mut Bytes,
) -> Result<(), AllocError>
    ensures { OnOk result (out.new ≡ out.old ++ map_text (body_pairs (request.Upsert space base tuple.now operations.now))) }
{
    let base = u64::from(base);
    write_map_head(3 + pairs_unless(0, base), out)?;
    write_number(keys::SPACE, u64::from(space.0), out)?;
    write_unless(0, keys::BASE, base, out)?;
    write_array(keys::TUPLE, tuple, out)?;
    write_array(keys::OPERATIONS, operations, out)
}

fn write_join(instance: &Uuid, out: &mut Bytes) -> Result<(), AllocError>
    ensures { OnOk result (out.new ≡ out.old ++ map_text (body_pairs (request.Join instance.now))) }
{
    write_map_head(1, out)?;
    write_uuid(keys::INSTANCE, instance, out)
}

fn write_subscribe(
    instance: &Uuid,
    set: &Uuid,
    clock: &Vclock,
    out: &mut Bytes,
) -> Result<(), AllocError>
    ensures { OnOk result (out.new ≡ out.old ++ map_text (body_pairs (request.Subscribe instance.now set.now clock.now))) }
{
    write_map_head(3, out)?;
    write_uuid(keys::INSTANCE, instance, out)?;
    write_uuid(keys::REPLICA_SET, set, out)?;
    write_clock(keys::CLOCK, clock, out)
}

fn write_ack(clock: &Vclock, out: &mut Bytes) -> Result<(), AllocError>
    ensures { OnOk result (out.new ≡ out.old ++ map_text (body_pairs (request.Ack clock.now))) }
{
    write_map_head(1, out)?;
    write_clock(keys::CLOCK, clock, out)
}

fn pairs_unless(default: u64, number: u64) -> usize
    ensures count { (key : ℕ) → result ≡ length (unless_default key default number) }
    ensures few { result ≤ 1 }
{
    usize::from(number != default)
}

fn write_unless(default: u64, key: u8, number: u64, out: &mut Bytes) -> Result<(), AllocError>
    ensures { OnOk result (out.new ≡ out.old ++ concat (map entry_text (unless_default key default number))) }
{
    if number != default {
        write_number(key, number, out)?;
    }
    Ok(())
}

fn write_number(key: u8, number: u64, out: &mut Bytes) -> Result<(), AllocError>
    ensures { OnOk result (out.new ≡ out.old ++ entry_text (key, shortest_unsigned number)) }
{
    out.extend_from_slice(&[key])?;
    write_unsigned(number, out)
}

fn write_array(key: u8, array: &Bytes, out: &mut Bytes) -> Result<(), AllocError>
    ensures { OnOk result (out.new ≡ out.old ++ entry_text (key, array.now)) }
{
    out.extend_from_slice(&[key])?;
    out.extend_from_slice(array.as_slice())
}

fn write_uuid(key: u8, id: &Uuid, out: &mut Bytes) -> Result<(), AllocError>
    ensures { OnOk result (out.new ≡ out.old ++ entry_text (key, uuid_str id.now)) }
{
    let mut buffer = Uuid::encode_buffer();
    let text = id.hyphenated().encode_lower(&mut buffer);
    out.extend_from_slice(&[key])?;
    write_str_head(text.len(), out)?;
    out.extend_from_slice(text.as_bytes())
}

fn write_clock(key: u8, clock: &Vclock, out: &mut Bytes) -> Result<(), AllocError>
    ensures { OnOk result (out.new ≡ out.old ++ entry_text (key, clock_map clock.now)) }
{
    out.extend_from_slice(&[key])?;
    clock.write(out)
}
