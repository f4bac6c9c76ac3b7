//! Asks the plain slow program, one request on each line of standard input, and prints its replies.
//!
//! - `new` begins with a new database.
//! - `ask CONNECTION HEADER BODY` asks it what a packet's header and body say, in hexadecimal digits.
//! - `leave CONNECTION` disconnects a connection.
//!
//! Lines that are empty or begin with `#` ask nothing.
#![tactic(auto)]

mod answer;
mod line;

use crate::answer::History;
use std::alloc::{AllocError, Global};
use std::io::{Read, Write};
use std::process::ExitCode;

/// The statuses of the process where it can't go on.
const READ_FAULT: u8 = 3;

const WRITE_FAULT: u8 = 4;

const NO_MEMORY: u8 = 6;

fn main(rt: HostRuntime) -> ExitCode {
    match answer_all(rt.alloc(), rt.stdin(), rt.stdout()) {
        Ok(Some(status)) => ExitCode::from(status),
        Ok(None) => ExitCode::SUCCESS,
        Err(AllocError) => ExitCode::from(NO_MEMORY),
    }
}

/// Answers each line; the status where the input or the output fails.
fn answer_all<I: Read + Drop, O: Write + Drop>(
    alloc: Global,
    mut input: I,
    mut output: O,
) -> Result<Option<u8>, AllocError> {
    let mut text = String::new(alloc);
    if input.read_to_string(&mut text).is_err() {
        return Ok(Some(READ_FAULT));
    }
    let mut history = History::new(alloc)?;
    let mut out = String::new(alloc);
    for line in text.as_str().split('\n') {
        if line.is_empty() || line.starts_with('#') {
            continue;
        }
        history.take(line, &mut out)?;
    }
    if output.write_all(out.as_bytes()).is_err() {
        return Ok(Some(WRITE_FAULT));
    }
    Ok(None)
}
