//! Values that more bytes may follow.

ghost use Rattle.std.specs.Prelude.{◌≡◌, ◌+◌, ◌*◌, ◌≤◌, length};
ghost use Rattle.mx_msgpack.specs.Grammar.{max_length};
ghost use Rattle.mx_completion.specs.Completions.{Completes, IsArraySpelling, IsIntSpelling, IsTextSpelling, IsValueSpelling, MissesAtMost};
ghost use Rattle.mx_completion.specs.LeadingBytes.{IsSized};
ghost use Rattle.mx_completion.specs.Sequences.{in_row};
ghost use Rattle.mx_completion.specs.ValueCompletions.{IsAsked, IsOfKind, IsWithinSize, bytes_completion, completed, inner_of, led_completion};

use crate::completion::{Completion, longer};
use crate::leading::{Kind, Leading, follow_count, holds_values, leading_of, padded_number};
use mx_msgpack::MAX_LENGTH;

/// What the bytes can become as a value in which at most so many containers stand one inside the other.
pub fn value_completion(room: usize, bytes: &[u8]) -> Completion
    requires { room ≤ 64 }
    ensures completes { Completes (IsValueSpelling room) bytes.now result }
    ensures within { MissesAtMost (5000000 * (room + 1)) result }
{
    completed(room, bytes)
}

/// What the bytes can become as an Array with at most so many containers one inside the other, itself among them.
pub fn array_completion(room: usize, bytes: &[u8]) -> Completion
    requires { room ≤ 64 }
    ensures { Completes (IsArraySpelling room) bytes.now result }
{
    if room == 0 {
        return Completion::Impossible;
    }
    kind_completion(Kind::Array, room, bytes)
}

/// What the bytes can become as a Str.
pub fn text_completion(bytes: &[u8]) -> Completion
    ensures { Completes IsTextSpelling bytes.now result }
{
    kind_completion(Kind::Text, 0, bytes)
}

/// What the bytes can become as an Int.
pub fn int_completion(bytes: &[u8]) -> Completion
    ensures { Completes IsIntSpelling bytes.now result }
{
    kind_completion(Kind::Int, 0, bytes)
}

/// What the bytes can become as a value of this type.
fn kind_completion(kind: Kind, room: usize, bytes: &[u8]) -> Completion
    requires room { room ≤ 64 }
    requires asked { IsAsked kind room }
    ensures { Completes (IsOfKind kind room) bytes.now result }
{
    let Some(byte) = bytes.first() else {
        return Completion::Missing { least: 1 };
    };
    let Some(leading) = leading_of(*byte) else {
        return Completion::Impossible;
    };
    if leading.kind == kind {
        completed(room, bytes)
    } else {
        Completion::Impossible
    }
}

#[cycle(value)]
fn completed(room: usize, bytes: &[u8]) -> Completion
    requires { room ≤ 64 }
    ensures exact { result ≡ completed room bytes.now }
    ensures within { IsWithinSize (length bytes.now) (5000000 * (room + 1)) result }
{
    let Some((byte, rest)) = bytes.split_first() else {
        return Completion::Missing { least: 1 };
    };
    match leading_of(*byte) {
        Some(leading) => longer(1, led_completion(room, leading, rest)),
        None => Completion::Impossible,
    }
}

/// The completion of what follows a leading byte.
#[cycle(value)]
fn led_completion(room: usize, leading: Leading, bytes: &[u8]) -> Completion
    requires room { room ≤ 64 }
    requires sized { IsSized leading }
    ensures exact { result ≡ led_completion (inner_of room) leading bytes.now }
    ensures within { IsWithinSize (length bytes.now) (5000000 * (room + 1)) result }
{
    let size = leading.length + padded_number(leading.width, bytes);
    let holds_values = holds_values(leading.kind);
    if size > MAX_LENGTH as usize || (holds_values && room == 0) {
        return Completion::Impossible;
    }
    let count = follow_count(leading.kind, size);
    if bytes.len() < leading.width {
        return Completion::Missing {
            least: leading.width - bytes.len() + count,
        };
    }
    let (_, content) = bytes.split_at(leading.width);
    if holds_values {
        longer(leading.width, values_completion(room - 1, count, content))
    } else {
        longer(leading.width, bytes_completion(count, content))
    }
}

/// So many values in a row.
#[cycle(value)]
fn values_completion(room: usize, count: usize, bytes: &[u8]) -> Completion
    requires room { room ≤ 64 }
    requires few { count ≤ 2 * max_length }
    ensures exact { result ≡ in_row (completed room) count bytes.now }
    ensures within { IsWithinSize (length bytes.now) (5000000 * (room + 1) + 2 * max_length) result }
{
    let mut left = count;
    let mut rest = bytes;
    while left > 0 {
        left -= 1;
        match completed(room, rest) {
            Completion::Whole { size } => (_, rest) = rest.split_at(size),
            // Each of the values behind it takes a byte at least.
            Completion::Missing { least } => return Completion::Missing {
                least: least + left,
            },
            Completion::Impossible => return Completion::Impossible,
        }
    }
    Completion::Whole {
        size: bytes.len() - rest.len(),
    }
}

fn bytes_completion(size: usize, bytes: &[u8]) -> Completion
    ensures exact { result ≡ bytes_completion size bytes.now }
    ensures within { IsWithinSize (length bytes.now) size result }
{
    if bytes.len() < size {
        Completion::Missing {
            least: size - bytes.len(),
        }
    } else {
        Completion::Whole { size }
    }
}
