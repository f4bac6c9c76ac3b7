//! The calls of `mx_hash`. Steps are written as in `insert:6b:7`, and are taken on one map.

use mx_arguments::{Arguments, Hex, no_call};
use mx_hash::Hash;
use mx_msgpack::Bytes;
use std::alloc::{AllocError, Global};

/// The answer of the call of this name.
pub fn answer(call: &str, arguments: &mut Arguments<'_>) -> Result<String, AllocError> {
    match call {
        "steps" => steps(arguments),
        _ => no_call(arguments),
    }
}

/// What each step gives on a map that is empty at first.
fn steps(arguments: &mut Arguments<'_>) -> Result<String, AllocError> {
    let alloc = arguments.alloc();
    let mut hash = Hash::new(alloc)?;
    let mut answer = String::new(alloc);
    for text in arguments.others() {
        if !answer.is_empty() {
            answer.push(' ')?;
        }
        step(arguments, text, &mut hash, &mut answer)?;
    }
    Ok(answer)
}

fn step(
    arguments: &mut Arguments<'_>,
    text: &str,
    hash: &mut Hash,
    answer: &mut String,
) -> Result<(), AllocError> {
    let (name, rest) = text.split_once(':').unwrap_or((text, ""));
    let (first, second) = rest.split_once(':').unwrap_or((rest, ""));
    match name {
        "insert" => {
            let key = arguments.bytes_in(first);
            let before = insert(hash, key, arguments.number_in(second))?;
            show(before, answer)
        }
        "get" => {
            let key = arguments.bytes_in(rest);
            show(hash.get(&key), answer)
        }
        "remove" => {
            let key = arguments.bytes_in(rest);
            show(hash.remove(&key), answer)
        }
        "sorted" => show_keys(hash, answer),
        "fill" => {
            let count: u16 = arguments.number_in(first);
            let stride: u16 = arguments.number_in(second);
            fill(arguments.alloc(), hash, count, stride, answer)
        }
        "drain" => {
            let count: u16 = arguments.number_in(first);
            let stride: u16 = arguments.number_in(second);
            drain(arguments.alloc(), hash, count, stride, answer)
        }
        _ => {
            arguments.refuse_text("step", text);
            Ok(())
        }
    }
}

fn insert(hash: &mut Hash, key: Bytes, value: u64) -> Result<Option<u64>, AllocError> {
    hash.reserve(1)?;
    Ok(hash.insert(key, value))
}

fn show(number: Option<u64>, answer: &mut String) -> Result<(), AllocError> {
    match number {
        Some(number) => write!(answer, "{number}"),
        None => answer.push_str("none"),
    }
}

/// Adds all keys with commas between them.
fn show_keys(hash: &Hash, answer: &mut String) -> Result<(), AllocError> {
    let keys = hash.sorted()?;
    if keys.as_slice().is_empty() {
        return answer.push_str("none");
    }
    let mut between = "";
    for key in keys.as_slice() {
        write!(answer, "{between}{}", Hex(key.as_slice()))?;
        between = ",";
    }
    Ok(())
}

/// Inserts the numbers 0 to `count - 1`, each under the two bytes of its multiple of `stride`, and
/// tells how many keys were there.
fn fill(
    alloc: Global,
    hash: &mut Hash,
    count: u16,
    stride: u16,
    answer: &mut String,
) -> Result<(), AllocError> {
    hash.reserve(usize::from(count))?;
    let mut there: u64 = 0;
    for number in 0..count {
        let key = Bytes::from_slice(alloc, &number.wrapping_mul(stride).to_be_bytes())?;
        if insert(hash, key, u64::from(number))?.is_some() {
            there = there.saturating_add(1);
        }
    }
    write!(answer, "{there}")
}

/// Removes the same keys, and tells the sum of their numbers.
fn drain(
    alloc: Global,
    hash: &mut Hash,
    count: u16,
    stride: u16,
    answer: &mut String,
) -> Result<(), AllocError> {
    let mut sum: u64 = 0;
    for number in 0..count {
        let key = Bytes::from_slice(alloc, &number.wrapping_mul(stride).to_be_bytes())?;
        let removed = hash.remove(&key);
        sum = sum.saturating_add(removed.unwrap_or(0));
    }
    write!(answer, "{sum}")
}
