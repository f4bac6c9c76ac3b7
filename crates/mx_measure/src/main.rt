//! Works on MessagePack in standard input, so that it can be measured what that takes.
//! `mx_measure TIMES` steps over all values so many times, and prints how many there were.
//! `mx_measure TIMES apply` applies the operations behind a tuple so many times, and prints the new
//! tuple's size.
//! `mx_measure TIMES select` makes a state of the spaces that are described, puts a tuple, asks for it so
//! many times by a key, and prints how many tuples were found.
#![tactic(auto)]

mod select;

ghost use Rattle.std.specs.Prelude.{◌≤◌, length, IsTrue};
ghost use Rattle.mx_msgpack.specs.Items.{IsArray};
ghost use Rattle.mx_tuple.specs.Fields.{max_tuple_size};

use crate::select::found_after;
use mx_msgpack::{array_of, parted, skip};
use mx_tuple::MAX_TUPLE_SIZE;
use mx_update::{apply, read_ops};
use std::alloc::Global;
use std::env;
use std::env::Env;
use std::io::Read;
use std::process::ExitCode;

/// What is done with the input.
#[derive(Clone, Copy, Drop)]
enum Work {
    Skip,
    Apply,
    Select,
}

fn main(rt: HostRuntime) -> ExitCode {
    let Some((work, times)) = asked(&rt) else {
        return ExitCode::from(2);
    };
    let mut bytes = Vec::new(rt.alloc());
    if rt.stdin().read_to_end(&mut bytes).is_err() {
        return ExitCode::from(3);
    }
    let Some(number) = number_after(rt.alloc(), work, times, &bytes) else {
        return ExitCode::from(4);
    };
    let _ = println!(rt; "{number}");
    ExitCode::SUCCESS
}

/// The work that the arguments ask for, and how often.
fn asked<R: Env + AllocGlobal>(rt: &R) -> Option<(Work, u32)> {
    let arguments = env::args(rt).ok()?;
    let words: Vec<String> = arguments.skip(1).collect(rt.alloc()).ok()?;
    let times = words.first()?.parse().ok()?;
    match words.get(1) {
        None => Some((Work::Skip, times)),
        Some(word) => Some((work_of(word.as_str())?, times)),
    }
}

fn work_of(word: &str) -> Option<Work> {
    match word {
        "apply" => Some(Work::Apply),
        "select" => Some(Work::Select),
        _ => None,
    }
}

/// What the work tells when it is done so many times; `None` where the input isn't fit for it.
fn number_after(alloc: Global, work: Work, times: u32, bytes: &[u8]) -> Option<usize> {
    match work {
        Work::Skip => Some(count_after(times, bytes)),
        Work::Apply => size_after(alloc, times, bytes),
        Work::Select => found_after(alloc, times, bytes),
    }
}

fn count_after(times: u32, bytes: &[u8]) -> usize {
    let mut count = 0;
    for _ in 0..times {
        count = values_in(bytes);
    }
    count
}

/// The size of the tuple that operations make of the one before them.
fn size_after(alloc: Global, times: u32, bytes: &[u8]) -> Option<usize> {
    let (tuple, rest) = parted(bytes);
    let (operations, _) = parted(rest);
    if !is_tuple(tuple) {
        return None;
    }
    let ops = read_ops(alloc, operations).ok()?;
    let mut size = 0;
    for _ in 0..times {
        size = apply(alloc, tuple, &ops, 0).ok()?.len();
    }
    Some(size)
}

fn is_tuple(bytes: &[u8]) -> bool
    ensures { IsTrue result → IsArray bytes.now × (length bytes.now ≤ max_tuple_size) }
{
    match array_of(bytes) {
        Some(_) => bytes.len() <= MAX_TUPLE_SIZE,
        None => false,
    }
}

/// How many values stand in the bytes, one after the other.
fn values_in(bytes: &[u8]) -> usize {
    let mut rest = bytes;
    let mut count: usize = 0;
    while let Ok(size) = skip(rest) {
        if size == 0 {
            return count;
        }
        (_, rest) = rest.split_at(size);
        count = count.saturating_add(1);
    }
    count
}
