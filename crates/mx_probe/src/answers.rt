//! The answer to a line.

use crate::stop::Stop;
use crate::{fake, hash, real, schema, session, tracker, txn, update};
use mx_arguments::{Arguments, Fault, no_call};
use mx_formats::{base, completion, frame, key, msgpack, reply, request, row, tuple, vclock, xlog};
use std::alloc::AllocError;

/// The answer to the call in a line of this number, or what is wrong with it, as a whole line.
pub fn line_of(host: &HostRuntime, number: usize, line: &str) -> Result<String, Stop> {
    let alloc = host.alloc();
    let (name, rest) = line.split_once(' ').unwrap_or((line, ""));
    let answer = match answer_of(host, name, Arguments::of(alloc, rest)) {
        Ok(answer) => format!(in alloc; "{answer}\n"),
        Err(Fault::NoCall) => format!(in alloc; "error: line {number}: no call {name:?}\n"),
        Err(Fault::Wrong(what)) => format!(in alloc; "error: line {number}: {what}\n"),
        Err(Fault::NoMemory) => Err(AllocError),
    };
    Ok(answer?)
}

/// The answer of a call to exactly these arguments.
fn answer_of(
    host: &HostRuntime,
    name: &str,
    mut arguments: Arguments<'_>,
) -> Result<String, Fault> {
    let answer = called(host, name, &mut arguments)?;
    arguments.end()?;
    Ok(answer)
}

/// The answer of a call, which counts only where the arguments have no fault.
fn called(
    host: &HostRuntime,
    name: &str,
    arguments: &mut Arguments<'_>,
) -> Result<String, AllocError> {
    let (crate_name, call) = name.split_once('.').unwrap_or(("", name));
    match crate_name {
        "msgpack" => msgpack::answer(call, arguments),
        "vclock" => vclock::answer(call, arguments),
        "xlog" => xlog::answer(call, arguments),
        "frame" => frame::answer(call, arguments),
        "key" => key::answer(call, arguments),
        "tuple" => tuple::answer(call, arguments),
        "base" => base::answer(call, arguments),
        "row" => row::answer(call, arguments),
        "completion" => completion::answer(call, arguments),
        "request" => request::answer(call, arguments),
        "reply" => reply::answer(call, arguments),
        "schema" => schema::answer(call, arguments),
        "update" => update::answer(call, arguments),
        "hash" => hash::answer(call, arguments),
        "txn" => txn::answer(call, arguments),
        "tracker" => tracker::answer(call, arguments),
        "session" => session::answer(call, arguments),
        "fake" => fake::answer(call, arguments),
        "real" => real::answer(host, call, arguments),
        _ => no_call(arguments),
    }
}
