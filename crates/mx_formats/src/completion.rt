//! The calls of `mx_completion`.

use mx_arguments::{Arguments, no_call};
use mx_completion::{
    Completion, array_completion, int_completion, number_range, operations_completion,
    text_completion, unsigned_completion, value_completion,
};
use std::alloc::AllocError;

/// The greatest room and the greatest least number that calls take.
const MAX_ROOM: usize = 64;

const MAX_LEAST: u64 = 0x7f;

/// The answer of the call of this name.
pub fn answer(call: &str, arguments: &mut Arguments<'_>) -> Result<String, AllocError> {
    match call {
        "value" => value(arguments),
        "array" => array(arguments),
        "text" => text(arguments),
        "int" => int(arguments),
        "unsigned" => unsigned(arguments),
        "operations" => operations(arguments),
        "range" => range(arguments),
        _ => no_call(arguments),
    }
}

/// Room, and bytes.
fn value(arguments: &mut Arguments<'_>) -> Result<String, AllocError> {
    let room: usize = arguments.number();
    let bytes = arguments.bytes();
    shown(
        arguments,
        value_completion(room.min(MAX_ROOM), bytes.as_slice()),
    )
}

/// Room, and bytes.
fn array(arguments: &mut Arguments<'_>) -> Result<String, AllocError> {
    let room: usize = arguments.number();
    let bytes = arguments.bytes();
    shown(
        arguments,
        array_completion(room.min(MAX_ROOM), bytes.as_slice()),
    )
}

fn text(arguments: &mut Arguments<'_>) -> Result<String, AllocError> {
    let bytes = arguments.bytes();
    shown(arguments, text_completion(bytes.as_slice()))
}

fn int(arguments: &mut Arguments<'_>) -> Result<String, AllocError> {
    let bytes = arguments.bytes();
    shown(arguments, int_completion(bytes.as_slice()))
}

/// The least number, and bytes.
fn unsigned(arguments: &mut Arguments<'_>) -> Result<String, AllocError> {
    let least: u64 = arguments.number();
    let bytes = arguments.bytes();
    shown(
        arguments,
        unsigned_completion(least.min(MAX_LEAST), bytes.as_slice()),
    )
}

fn operations(arguments: &mut Arguments<'_>) -> Result<String, AllocError> {
    let bytes = arguments.bytes();
    shown(arguments, operations_completion(bytes.as_slice()))
}

fn shown(arguments: &Arguments<'_>, completion: Completion) -> Result<String, AllocError> {
    let alloc = arguments.alloc();
    match completion {
        Completion::Whole { size } => format!(in alloc; "whole {size}"),
        Completion::Missing { least } => format!(in alloc; "missing {least}"),
        Completion::Impossible => String::from_str(alloc, "impossible"),
    }
}

/// The least number and the greatest one that bytes can become.
fn range(arguments: &mut Arguments<'_>) -> Result<String, AllocError> {
    let alloc = arguments.alloc();
    let bytes = arguments.bytes();
    match number_range(bytes.as_slice()) {
        Some(range) => format!(in alloc; "{} {}", range.least, range.most),
        None => String::from_str(alloc, "none"),
    }
}
