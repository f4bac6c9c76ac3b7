//! The calls of `mx_tracker`. Steps are taken on a tracker without notes, and on one set of marks. A range
//! is written as its space, its index and its two ends, as in `512:0:inc:62:exc:64`, with `open:-` for no
//! end, and a key as in `512:0:63`; commas stand between several.

use mx_arguments::{Arguments, Hex, no_call};
use mx_tracker::{Edge, MarkSet, Read, Reads, SLOTS, Touched, TouchedKeys, Tracker};
use std::alloc::AllocError;

/// The answer of the call of this name.
pub fn answer(call: &str, arguments: &mut Arguments<'_>) -> Result<String, AllocError> {
    match call {
        "steps" => steps(arguments),
        _ => no_call(arguments),
    }
}

/// What each step gives.
fn steps(arguments: &mut Arguments<'_>) -> Result<String, AllocError> {
    let alloc = arguments.alloc();
    let mut tracker = Tracker::new(alloc)?;
    let mut marks = MarkSet::new();
    let mut answer = String::new(alloc);
    for text in arguments.others() {
        if !answer.is_empty() {
            answer.push(' ')?;
        }
        step(arguments, text, &mut tracker, &mut marks, &mut answer)?;
    }
    Ok(answer)
}

fn step(
    arguments: &mut Arguments<'_>,
    text: &str,
    tracker: &mut Tracker,
    marks: &mut MarkSet,
    answer: &mut String,
) -> Result<(), AllocError> {
    let (name, rest) = text.split_once(':').unwrap_or((text, ""));
    match name {
        "note" => {
            let (slot, ranges) = rest.split_once(':').unwrap_or((rest, ""));
            let reads = reads_in(arguments, ranges)?;
            note(arguments, tracker, slot, &reads)?;
            answer.push_str("ok")
        }
        "overlapped" => {
            let keys = keys_in(arguments, rest)?;
            tracker.overlapped(&keys, marks);
            show(marks, answer)
        }
        "marks" => show(marks, answer),
        "truncate" => {
            let (slot, reads) = rest.split_once(':').unwrap_or((rest, ""));
            truncate(arguments, tracker, slot, reads);
            answer.push_str("ok")
        }
        "len" => {
            let slot: u32 = arguments.number_in(rest);
            write!(answer, "{}", tracker.len(slot))
        }
        "forget" => {
            forget(arguments, tracker, rest);
            answer.push_str("ok")
        }
        "first" => {
            let (count, keys) = rest.split_once(':').unwrap_or((rest, ""));
            let mut keys = keys_in(arguments, keys)?;
            keys.truncate(arguments.number_in(count));
            show_keys(&keys, answer)
        }
        _ => {
            arguments.refuse_text("step", text);
            Ok(())
        }
    }
}

fn note(
    arguments: &mut Arguments<'_>,
    tracker: &mut Tracker,
    text: &str,
    reads: &Reads,
) -> Result<(), AllocError> {
    let slot: u32 = arguments.number_in(text);
    if slot as usize >= SLOTS {
        arguments.refuse_text("slot", text);
        return Ok(());
    }
    tracker.note(slot, reads)
}

fn truncate(arguments: &mut Arguments<'_>, tracker: &mut Tracker, text: &str, reads: &str) {
    let slot: u32 = arguments.number_in(text);
    if slot as usize >= SLOTS {
        arguments.refuse_text("slot", text);
        return;
    }
    tracker.truncate(slot, arguments.number_in(reads));
}

fn forget(arguments: &mut Arguments<'_>, tracker: &mut Tracker, text: &str) {
    let slot: u32 = arguments.number_in(text);
    if slot as usize >= SLOTS {
        arguments.refuse_text("slot", text);
        return;
    }
    tracker.forget(slot);
}

/// The marked slots with commas between them.
fn show(marks: &MarkSet, answer: &mut String) -> Result<(), AllocError> {
    let mut between = "";
    for slot in 0..SLOTS as u32 {
        if marks.has(slot) {
            write!(answer, "{between}{slot}")?;
            between = ",";
        }
    }
    if between.is_empty() {
        return answer.push_str("none");
    }
    Ok(())
}

/// The keys with commas between them.
fn show_keys(keys: &TouchedKeys, answer: &mut String) -> Result<(), AllocError> {
    if keys.is_empty() {
        return answer.push_str("none");
    }
    let mut between = "";
    for touched in keys.as_slice() {
        let key = Hex(touched.key.as_slice());
        write!(answer, "{between}{}:{}:{key}", touched.space, touched.index)?;
        between = ",";
    }
    Ok(())
}

fn reads_in(arguments: &mut Arguments<'_>, text: &str) -> Result<Reads, AllocError> {
    let mut reads = Reads::new(arguments.alloc());
    if text == "-" {
        return Ok(reads);
    }
    for range in text.split(',') {
        let (space, range) = range.split_once(':').unwrap_or((range, ""));
        let (index, range) = range.split_once(':').unwrap_or((range, ""));
        let (low, range) = range.split_once(':').unwrap_or((range, ""));
        let (low_key, range) = range.split_once(':').unwrap_or((range, ""));
        let (high, high_key) = range.split_once(':').unwrap_or((range, ""));
        reads.push(Read {
            space: arguments.number_in(space),
            index: arguments.number_in(index),
            low: edge_in(arguments, low, low_key),
            high: edge_in(arguments, high, high_key),
        })?;
    }
    Ok(reads)
}

fn edge_in(arguments: &mut Arguments<'_>, kind: &str, key: &str) -> Edge {
    let key = arguments.bytes_in(key);
    match kind {
        "inc" => Edge::Inclusive(key),
        "exc" => Edge::Exclusive(key),
        "open" => Edge::Open,
        _ => {
            arguments.refuse_text("end of a range", kind);
            Edge::Open
        }
    }
}

fn keys_in(arguments: &mut Arguments<'_>, text: &str) -> Result<TouchedKeys, AllocError> {
    let mut keys = TouchedKeys::new(arguments.alloc());
    if text == "-" {
        return Ok(keys);
    }
    for key in text.split(',') {
        let (space, key) = key.split_once(':').unwrap_or((key, ""));
        let (index, key) = key.split_once(':').unwrap_or((key, ""));
        keys.push(Touched {
            space: arguments.number_in(space),
            index: arguments.number_in(index),
            key: arguments.bytes_in(key),
        })?;
    }
    Ok(keys)
}
