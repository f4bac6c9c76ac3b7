//! Decoding requests from the maps of a packet.

ghost use Rattle.std.specs.Prelude.{◌≡◌};
ghost use Rattle.mx_msgpack.specs.Maps.{pairs_in};
ghost use Rattle.mx_msgpack.specs.Reading.{Gives};
ghost use Rattle.mx_request.specs.InPlace.{request_view};
ghost use Rattle.mx_request.specs.PacketParts.{request_by};
ghost use Rattle.mx_request.specs.Returns.{ReturnsRequest};

use crate::bodies::body_request;
use crate::fault::RequestFault;
use crate::header::{Header, head_of, header_at, numbers_of};
use crate::request::{Head3, Request};
use crate::request_ref::{RequestRef, to_owned};
use mx_base::Refusal;
use std::alloc::Global;

/// Reads what a packet's header and body ask. Each is one map; no bytes count as an empty one. Keys
/// that the request has no use for are skipped, and of a key that comes more than once the last value
/// counts.
///
/// # Errors
/// The request is refused: its type first, then its keys in ascending order, then its update operations.
/// Or out of memory.
pub fn read_request(
    alloc: Global,
    header: &[u8],
    body: &[u8],
) -> Result<(Head3, Request), RequestFault>
    ensures { ReturnsRequest result (pairs_in header.now) (pairs_in body.now) }
{
    let (header, _) = header_at(header);
    match request_in(header, body) {
        Ok((head, request)) => Ok((head, to_owned(alloc, request)?)),
        Err(refusal) => {
            let (sync, stream) = numbers_of(header);
            Err(RequestFault::Refused {
                sync,
                stream,
                refusal,
            })
        }
    }
}

fn request_in<'a>(header: Header, body: &'a [u8]) -> Result<(Head3, RequestRef<'a>), Refusal>
    ensures { Gives (λ asked. (asked.0, request_view asked.1)) result
        (request_by header.number header.sync header.stream (pairs_in body.now)) }
{
    let (request_type, head) = head_of(header, body)?;
    let request = body_request(request_type, body, &mut false)?;
    Ok((head, request))
}
