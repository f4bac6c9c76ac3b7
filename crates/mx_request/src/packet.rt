//! What a packet asks, in place (IPROTO, "Packet structure").

ghost use Rattle.std.specs.Prelude.{◌≡◌};
ghost use Rattle.std.specs.Option.{option_copied};
ghost use Rattle.mx_msgpack.specs.Maps.{pairs_in};
ghost use Rattle.mx_request.specs.InPlace.{asked_view, packet_view};
ghost use Rattle.mx_request.specs.PacketParts.{asked_by, asked_with, if_whole, is_body, shown_asked};
ghost use Rattle.mx_request.specs.Packets.{packet_in};

use crate::bodies::{body_request, is_body};
use crate::header::{Header, head_of, header_at, numbers_of};
use crate::request_ref::RequestRef;
use mx_base::{Refusal, StreamId, SyncId};

/// What a packet asks, in place. `sync` and `stream` are those of its header where they are there and
/// numbers of 0 or more, else 0.
#[derive(Drop)]
pub struct PacketRef<'a> {
    pub sync: SyncId,
    pub stream: StreamId,
    pub asked: AskedRef<'a>,
}

/// A request, or why there is none.
#[derive(Drop)]
pub enum AskedRef<'a> {
    Request(RequestRef<'a>),
    /// The request is refused: its type first, then its keys in ascending order, then its update
    /// operations.
    Refused(Refusal),
    /// The packet isn't one map, or two, and nothing else: the connection ends.
    NotMessagePack,
}

/// Reads what a packet asks, its header and its body in one pass each. Keys that the request has no use
/// for are skipped, and of a key that comes more than once the last value counts.
pub fn read_packet(packet: &[u8]) -> PacketRef<'_>
    ensures { packet_view result ≡ packet_in packet.now }
{
    let (header, rest) = header_at(packet);
    let (sync, stream) = numbers_of(header);
    PacketRef {
        sync,
        stream,
        asked: asked_with(header, rest),
    }
}

#[inline]
fn asked_with<'a>(header: Header, body: Option<&'a [u8]>) -> AskedRef<'a>
    ensures { asked_view result ≡ asked_with (option_copied body.entry)
        (asked_by header.number header.sync header.stream) }
{
    match body {
        Some(body) => asked_in(header, body),
        None => AskedRef::NotMessagePack,
    }
}

#[inline]
fn asked_in<'a>(header: Header, body: &'a [u8]) -> AskedRef<'a>
    ensures { asked_view result ≡ if_whole (is_body body.now)
        (asked_by header.number header.sync header.stream (pairs_in body.now)) }
{
    match head_of(header, body) {
        Ok((request_type, _)) => {
            let mut is_whole = false;
            let asked = body_request(request_type, body, &mut is_whole);
            asked_where(is_whole, asked)
        }
        Err(refusal) => asked_where(is_body(body), Err(refusal)),
    }
}

#[inline(always)]
fn asked_where<'a>(is_whole: bool, asked: Result<RequestRef<'a>, Refusal>) -> AskedRef<'a>
    ensures { asked_view result ≡ if_whole is_whole (shown_asked asked.entry) }
{
    match asked {
        _ if !is_whole => AskedRef::NotMessagePack,
        Ok(request) => AskedRef::Request(request),
        Err(refusal) => AskedRef::Refused(refusal),
    }
}
