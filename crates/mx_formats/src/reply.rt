//! The calls of `mx_reply`. A reply begins with the bytes that it is written after, its sync and the
//! version of the schema.

use crate::base::refusal_of;
use crate::vclock::clock_of;
use hex::FromHex;
use mx_arguments::{Arguments, Hex, no_call};
use mx_base::SyncId;
use mx_msgpack::{Bytes, Tuples};
use mx_reply::{ReplyBody, write_error, write_greeting, write_id, write_ok};
use std::alloc::AllocError;

/// The answer of the call of this name.
pub fn answer(call: &str, arguments: &mut Arguments<'_>) -> Result<String, AllocError> {
    match call {
        "ok" => answered(arguments),
        "error" => refused(arguments),
        "error_size" => refused_in(arguments),
        "id" => identified(arguments),
        "greeting" => greeting(arguments),
        _ => no_call(arguments),
    }
}

/// How a reply begins.
#[derive(Drop)]
struct Start {
    out: Bytes,
    sync: SyncId,
    schema: u32,
}

fn start_of(arguments: &mut Arguments<'_>) -> Start {
    Start {
        out: arguments.bytes(),
        sync: SyncId(arguments.number()),
        schema: arguments.number(),
    }
}

fn answered(arguments: &mut Arguments<'_>) -> Result<String, AllocError> {
    let alloc = arguments.alloc();
    let mut start = start_of(arguments);
    let body = body_of(arguments)?;
    write_ok(alloc, start.sync, start.schema, &body, &mut start.out)?;
    format!(in alloc; "{}", Hex(start.out.as_slice()))
}

/// The next arguments as the body of a reply.
fn body_of(arguments: &mut Arguments<'_>) -> Result<ReplyBody, AllocError> {
    match arguments.text() {
        "Empty" => Ok(ReplyBody::Empty),
        "Tuples" => Ok(ReplyBody::Tuples(tuples_of(arguments)?)),
        "Clock" => Ok(ReplyBody::Clock(clock_of(arguments))),
        text => {
            arguments.refuse_text("body", text);
            Ok(ReplyBody::Empty)
        }
    }
}

/// All arguments that are left as tuples.
fn tuples_of(arguments: &mut Arguments<'_>) -> Result<Tuples, AllocError> {
    let mut tuples = Tuples::new(arguments.alloc());
    for text in arguments.others() {
        tuples.push(arguments.bytes_in(text).as_slice())?;
    }
    Ok(tuples)
}

fn refused(arguments: &mut Arguments<'_>) -> Result<String, AllocError> {
    let alloc = arguments.alloc();
    let mut start = start_of(arguments);
    let refusal = refusal_of(arguments);
    write_error(alloc, start.sync, start.schema, &refusal, &mut start.out)?;
    format!(in alloc; "{}", Hex(start.out.as_slice()))
}

/// As `refused`, by how many bytes there are, and the first so many of them; and the bytes as they were
/// where the text is too long.
fn refused_in(arguments: &mut Arguments<'_>) -> Result<String, AllocError> {
    let alloc = arguments.alloc();
    let shown: usize = arguments.number();
    let mut start = start_of(arguments);
    let refusal = refusal_of(arguments);
    let written = write_error(alloc, start.sync, start.schema, &refusal, &mut start.out);
    let size = start.out.len();
    start.out.truncate(shown);
    let first = Hex(start.out.as_slice());
    match written {
        Ok(()) => format!(in alloc; "ok {size} {first}"),
        Err(AllocError) => format!(in alloc; "err NoMemory {first}"),
    }
}

fn identified(arguments: &mut Arguments<'_>) -> Result<String, AllocError> {
    let alloc = arguments.alloc();
    let mut start = start_of(arguments);
    write_id(alloc, start.sync, start.schema, &mut start.out)?;
    format!(in alloc; "{}", Hex(start.out.as_slice()))
}

/// The greeting of an instance, with a salt of 32 bytes.
fn greeting(arguments: &mut Arguments<'_>) -> Result<String, AllocError> {
    let alloc = arguments.alloc();
    let instance = arguments.uuid();
    let text = arguments.text();
    let Ok(salt) = <[u8; 32] as FromHex>::from_hex(text) else {
        arguments.refuse_text("salt of 32 bytes", text);
        return Ok(String::new(alloc));
    };
    let greeting = write_greeting(alloc, &instance, &salt)?;
    format!(in alloc; "{}", Hex(&greeting))
}
