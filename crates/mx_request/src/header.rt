//! The header of a packet.

ghost use Rattle.std.specs.Prelude.{◌≡◌};
ghost use Rattle.std.specs.Option.{option_copied, option_map};
ghost use Rattle.mx_base.specs.Keys.{stream_key, sync_key, type_key};
ghost use Rattle.mx_msgpack.specs.Maps.{map_at, pairs_in, value_under};
ghost use Rattle.mx_msgpack.specs.Reading.{Gives};
ghost use Rattle.mx_request.specs.PacketParts.{head_by, number_in};
ghost use Rattle.mx_request.specs.Requests.{legal_value, or_zero};

use crate::fields::{legal_value, number_in};
use crate::request::Head3;
use crate::request_type::{RequestType, request_type_of};
use mx_base::{Refusal, StreamId, SyncId, keys};
use mx_msgpack::values_at;

/// The numbers of a header, 0 where one isn't there; `None` for a value that is no number of 0 or more.
#[derive(Clone, Copy)]
pub(crate) struct Header {
    pub(crate) number: Option<u64>,
    pub(crate) sync: Option<u64>,
    pub(crate) stream: Option<u64>,
}

/// The header that stands first, and the bytes after it; `None` for these where no map does.
#[inline]
pub(crate) fn header_at(bytes: &[u8]) -> (Header, Option<&[u8]>)
    ensures number { result.0.number ≡ number_in (value_under type_key (pairs_in bytes.now)) }
    ensures sync { result.0.sync ≡ number_in (value_under sync_key (pairs_in bytes.now)) }
    ensures stream { result.0.stream ≡ number_in (value_under stream_key (pairs_in bytes.now)) }
    ensures rest { option_copied result.1 ≡ option_map (λ x. x.1) (map_at bytes.now) }
{
    let mut values = [None; 3];
    let rest = values_at(&[keys::TYPE, keys::SYNC, keys::STREAM], bytes, &mut values);
    let [number, sync, stream] = values;
    let header = Header {
        number: number_in(number),
        sync: number_in(sync),
        stream: number_in(stream),
    };
    (header, rest)
}

/// The sync and the stream, each 0 where it isn't there or no number of 0 or more.
#[inline]
pub(crate) fn numbers_of(header: Header) -> (SyncId, StreamId)
    ensures sync { result.0.0 ≡ or_zero (legal_value sync_key header.sync) }
    ensures stream { result.1.0 ≡ or_zero (legal_value stream_key header.stream) }
{
    let sync = header.sync.unwrap_or(0);
    let stream = header.stream.unwrap_or(0);
    (SyncId(sync), StreamId(stream))
}

/// The request type, with this body, and what the header holds.
#[inline]
#[tactic(auto, unfolding(crate::specs::PacketParts::head_by))]
pub(crate) fn head_of(header: Header, body: &[u8]) -> Result<(RequestType, Head3), Refusal>
    ensures { Gives (λ x. x) result (head_by header.number header.sync header.stream (pairs_in body.now)) }
{
    let number = legal_value(keys::TYPE, header.number)?;
    let request_type = request_type_of(number, body)?;
    let head = Head3 {
        sync: SyncId(legal_value(keys::SYNC, header.sync)?),
        stream: StreamId(legal_value(keys::STREAM, header.stream)?),
        kind: number as u8,
    };
    Ok((request_type, head))
}
