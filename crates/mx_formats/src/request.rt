//! The calls of `mx_request`.

use mx_arguments::{Arguments, Hex, no_call};
use mx_msgpack::Bytes;
use mx_request::{Head3, Request, RequestFault, read_request, write_request};
use std::alloc::{AllocError, Global};

/// The answer of the call of this name.
pub fn answer(call: &str, arguments: &mut Arguments<'_>) -> Result<String, AllocError> {
    match call {
        "read" => read(arguments),
        "fault" => fault(arguments),
        "rewrite" => rewritten(arguments),
        _ => no_call(arguments),
    }
}

/// What a header and a body ask, or why it is refused.
type Found = Result<(Head3, Request), RequestFault>;

/// What the next arguments, a header and a body, ask.
fn found(arguments: &mut Arguments<'_>) -> Found {
    let header = arguments.bytes();
    let body = arguments.bytes();
    read_request(arguments.alloc(), header.as_slice(), body.as_slice())
}

/// The sync, the stream, and what a header and a body ask or why it is refused.
fn read(arguments: &mut Arguments<'_>) -> Result<String, AllocError> {
    let found = found(arguments);
    shown(arguments.alloc(), &found)
}

fn shown(alloc: Global, found: &Found) -> Result<String, AllocError> {
    match found {
        Ok((head, request)) => {
            let sync = head.sync.0;
            let stream = head.stream.0;
            format!(in alloc; "ok {sync} {stream} {request:?}")
        }
        Err(
            RequestFault::Refused {
                sync,
                stream,
                refusal,
            },
        ) => {
            let sync = sync.0;
            let stream = stream.0;
            format!(in alloc; "err {sync} {stream} {refusal:?}")
        }
        Err(RequestFault::NoMemory) => Err(AllocError),
    }
}

/// Why a header and a body are refused.
fn fault(arguments: &mut Arguments<'_>) -> Result<String, AllocError> {
    let found = found(arguments);
    fault_shown(arguments.alloc(), &found)
}

fn fault_shown(alloc: Global, found: &Found) -> Result<String, AllocError> {
    match found {
        Ok(_) => String::from_str(alloc, "none"),
        Err(RequestFault::Refused { refusal, .. }) => format!(in alloc; "err {refusal:?}"),
        Err(RequestFault::NoMemory) => Err(AllocError),
    }
}

/// Bytes, and the packet that is written after them of what a header and a body ask.
fn rewritten(arguments: &mut Arguments<'_>) -> Result<String, AllocError> {
    let mut out = arguments.bytes();
    let found = found(arguments);
    rewritten_shown(arguments.alloc(), &found, &mut out)
}

fn rewritten_shown(alloc: Global, found: &Found, out: &mut Bytes) -> Result<String, AllocError> {
    match found {
        Ok((head, request)) => {
            write(alloc, head, request, out)?;
            format!(in alloc; "{}", Hex(out.as_slice()))
        }
        Err(RequestFault::Refused { refusal, .. }) => format!(in alloc; "err {refusal:?}"),
        Err(RequestFault::NoMemory) => Err(AllocError),
    }
}

/// Writes the packet of a request after the bytes.
fn write(
    alloc: Global,
    head: &Head3,
    request: &Request,
    out: &mut Bytes,
) -> Result<(), AllocError> {
    let head = Head3 {
        sync: head.sync,
        stream: head.stream,
        kind: request.kind(),
    };
    write_request(alloc, &head, request, out)
}
