//! The calls of `mx_fake`. Each has a list of the calls on its object that fail, counted from 1.

use crate::dir;
use crate::dir::StepDir;
use crate::streams::{reads, sink_step};
use mx_arguments::{Arguments, Hex, no_call};
use mx_fake::{MemoryDir, MemorySink, MemorySource};
use std::alloc::{AllocError, Global};

/// The answer of the call of this name.
pub fn answer(call: &str, arguments: &mut Arguments<'_>) -> Result<String, AllocError> {
    match call {
        "source" => source(arguments),
        "sink" => sink(arguments),
        "dir" => dir(arguments),
        "midway" => midway(arguments),
        _ => no_call(arguments),
    }
}

/// The next argument as the calls that fail.
fn failing_of(arguments: &mut Arguments<'_>) -> Result<Vec<u64>, AllocError> {
    let mut failing = Vec::new(arguments.alloc());
    for text in arguments.items() {
        failing.push(arguments.number_in(text))?;
    }
    Ok(failing)
}

/// What each read of these bytes gives.
fn source(arguments: &mut Arguments<'_>) -> Result<String, AllocError> {
    let bytes = arguments.bytes().as_slice().to_vec(arguments.alloc())?;
    let failing = failing_of(arguments)?;
    reads(arguments, &mut MemorySource::new(bytes, failing))
}

/// What each step gives on a sink that is empty at first.
fn sink(arguments: &mut Arguments<'_>) -> Result<String, AllocError> {
    let alloc = arguments.alloc();
    let mut sink = MemorySink::new(alloc, failing_of(arguments)?);
    let mut answer = String::new(alloc);
    for text in arguments.others() {
        if !answer.is_empty() {
            answer.push(' ')?;
        }
        match text {
            "bytes" => write!(answer, "{}", Hex(sink.bytes()))?,
            "passed" => write!(answer, "{}", Hex(sink.passed()))?,
            _ => sink_step(arguments, text, &mut sink, &mut answer)?,
        }
    }
    Ok(answer)
}

/// What each step gives on a directory that is empty at first.
fn dir(arguments: &mut Arguments<'_>) -> Result<String, AllocError> {
    let failing = failing_of(arguments)?;
    steps(arguments, &mut MemoryDir::new(arguments.alloc(), failing))
}

/// As `dir`, where calls fail midway: after the ones that fail comes of how many bytes they append.
fn midway(arguments: &mut Arguments<'_>) -> Result<String, AllocError> {
    let failing = failing_of(arguments)?;
    let done = arguments.number();
    let alloc = arguments.alloc();
    steps(
        arguments,
        &mut MemoryDir::failing_midway(alloc, failing, done),
    )
}

fn steps(arguments: &mut Arguments<'_>, dir: &mut MemoryDir) -> Result<String, AllocError> {
    let mut answer = String::new(arguments.alloc());
    for text in arguments.others() {
        if !answer.is_empty() {
            answer.push(' ')?;
        }
        dir::step(arguments, text, dir, &mut answer)?;
    }
    Ok(answer)
}

impl StepDir for MemoryDir {
    fn may_name(&self, alloc: Global, name: &str) -> Result<bool, AllocError> {
        self.has(alloc, name)
    }
}
