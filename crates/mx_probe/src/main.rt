//! Answers calls on the crates below, one on each line of standard input.
#![tactic(auto)]

mod answers;
mod dir;
mod fake;
mod hash;
mod real;
mod schema;
mod session;
mod stop;
mod streams;
mod tracker;
mod txn;
mod update;

use std::io::{Read, Write};
use std::process::ExitCode;
use stop::Stop;

fn main(rt: HostRuntime) -> ExitCode {
    match answer_all(&rt, rt.stdin(), rt.stdout()) {
        Ok(()) => ExitCode::SUCCESS,
        Err(stop) => ExitCode::from(stop.number()),
    }
}

/// Answers each line of the input that has a call. Lines that are empty or begin with `#` have none.
fn answer_all<I: Read + Drop, O: Write + Drop>(
    host: &HostRuntime,
    mut input: I,
    mut output: O,
) -> Result<(), Stop> {
    let mut text = String::new(host.alloc());
    if let Err(error) = input.read_to_string(&mut text) {
        return Err(Stop::of_read(error.kind()));
    }
    let mut number: usize = 0;
    for line in text.as_str().split('\n') {
        number = number.saturating_add(1);
        if line.is_empty() || line.starts_with('#') {
            continue;
        }
        let answer = answers::line_of(host, number, line)?;
        if output.write_all(answer.as_bytes()).is_err() {
            return Err(Stop::WriteFault);
        }
    }
    Ok(())
}
