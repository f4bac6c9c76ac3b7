//! The calls of `mx_txn`. Steps are written as in `view:0:5`, and are taken on slots that are vacant at
//! first. A transaction is named by how many were begun before it.

ghost use Rattle.std.specs.Prelude.{IfSome};
ghost use Rattle.mx_txn.specs.Slots.{IsLive};

use mx_arguments::{Arguments, no_call};
use mx_txn::{MAX_OPEN, Slot, Slots, TxnState};
use std::alloc::AllocError;

/// The answer of the call of this name.
pub fn answer(call: &str, arguments: &mut Arguments<'_>) -> Result<String, AllocError> {
    match call {
        "steps" => steps(arguments),
        _ => no_call(arguments),
    }
}

/// What each step gives.
fn steps(arguments: &mut Arguments<'_>) -> Result<String, AllocError> {
    let alloc = arguments.alloc();
    let mut slots = Slots::new(alloc)?;
    let mut begun = Vec::new(alloc);
    let mut answer = String::new(alloc);
    for text in arguments.others() {
        if !answer.is_empty() {
            answer.push(' ')?;
        }
        step(arguments, text, &mut slots, &mut begun, &mut answer)?;
    }
    Ok(answer)
}

fn step(
    arguments: &mut Arguments<'_>,
    text: &str,
    slots: &mut Slots,
    begun: &mut Vec<Option<Slot>>,
    answer: &mut String,
) -> Result<(), AllocError> {
    let (name, rest) = text.split_once(':').unwrap_or((text, ""));
    let (first, second) = rest.split_once(':').unwrap_or((rest, ""));
    match name {
        "begin" => {
            let at = arguments.number_in(first);
            begin(slots, begun, at, answer)
        }
        "fill" => {
            let count: u16 = arguments.number_in(first);
            fill(slots, begun, count, answer)
        }
        "oldest" => show(slots.oldest_view(), answer),
        "live" => write!(answer, "{}", slots.live()),
        "each" => write!(answer, "{}", count_each(slots)),
        "next" => {
            let from = arguments.number_in(first);
            show_next(slots, begun, from, answer)
        }
        "same" => {
            let one = open(arguments, slots, begun, first);
            let other = open(arguments, slots, begun, second);
            show_same(one, other, answer)
        }
        _ => open_step(arguments, text, slots, begun, answer),
    }
}

/// A step of one transaction.
fn open_step(
    arguments: &mut Arguments<'_>,
    text: &str,
    slots: &mut Slots,
    begun: &mut Vec<Option<Slot>>,
    answer: &mut String,
) -> Result<(), AllocError> {
    let (name, rest) = text.split_once(':').unwrap_or((text, ""));
    let (first, second) = rest.split_once(':').unwrap_or((rest, ""));
    let Some(slot) = open(arguments, slots, begun, first) else {
        return answer.push_str("ended");
    };
    match name {
        "state" => show_state(slots.state(slot), answer),
        "view" => {
            slots.to_view(slot, arguments.number_in(second));
            answer.push_str("ok")
        }
        "abort" => {
            slots.abort(slot, arguments.number_in(second));
            answer.push_str("ok")
        }
        "end" => {
            slots.end(slot);
            forget(begun, slot);
            answer.push_str("ok")
        }
        _ => {
            arguments.refuse_text("step", text);
            Ok(())
        }
    }
}

/// The slot of a transaction that is open.
fn open(
    arguments: &mut Arguments<'_>,
    slots: &Slots,
    begun: &[Option<Slot>],
    text: &str,
) -> Option<Slot>
    ensures { IfSome result (λ slot. IsLive slots.now slot) }
{
    let number: usize = arguments.number_in(text);
    let wanted = (*begun.get(number)?)?;
    let found = slots.next_live(wanted.number())?;
    if found == wanted { Some(found) } else { None }
}

fn forget(begun: &mut [Option<Slot>], slot: Slot) {
    for place in begun {
        if *place == Some(slot) {
            *place = None;
        }
    }
}

fn begin(
    slots: &mut Slots,
    begun: &mut Vec<Option<Slot>>,
    at: u64,
    answer: &mut String,
) -> Result<(), AllocError> {
    match slots.begin(at) {
        Ok(slot) => {
            write!(answer, "{}", begun.len())?;
            begun.push(Some(slot))?;
            Ok(())
        }
        Err(full) => write!(answer, "full:{}", full.live),
    }
}

/// Begins so many transactions, and tells for how many there was room.
fn fill(
    slots: &mut Slots,
    begun: &mut Vec<Option<Slot>>,
    count: u16,
    answer: &mut String,
) -> Result<(), AllocError> {
    let mut room: u64 = 0;
    for _ in 0..count {
        if let Ok(slot) = slots.begin(0) {
            begun.push(Some(slot))?;
            room = room.saturating_add(1);
        }
    }
    write!(answer, "{room}")
}

fn show(number: Option<u64>, answer: &mut String) -> Result<(), AllocError> {
    match number {
        Some(number) => write!(answer, "{number}"),
        None => answer.push_str("none"),
    }
}

fn show_state(state: TxnState, answer: &mut String) -> Result<(), AllocError> {
    match state {
        TxnState::Active { since } => write!(answer, "active:{since}"),
        TxnState::View { at } => write!(answer, "view:{at}"),
        TxnState::Aborted { by } => write!(answer, "aborted:{by}"),
    }
}

/// Whether two open transactions have one slot.
fn show_same(
    one: Option<Slot>,
    other: Option<Slot>,
    answer: &mut String,
) -> Result<(), AllocError> {
    match (one, other) {
        (Some(one), Some(other)) => write!(answer, "{}", one == other),
        _ => answer.push_str("ended"),
    }
}

/// The transaction of the first live slot from a number on.
fn show_next(
    slots: &Slots,
    begun: &[Option<Slot>],
    from: u32,
    answer: &mut String,
) -> Result<(), AllocError> {
    let Some(next) = slots.next_live(from) else {
        return answer.push_str("none");
    };
    for (number, slot) in begun.iter().enumerate() {
        if *slot == Some(next) {
            return write!(answer, "{number}");
        }
    }
    answer.push_str("unknown")
}

/// How many slots a walk over the live ones meets.
fn count_each(slots: &Slots) -> u32 {
    let mut count: u32 = 0;
    let mut from = 0;
    for _ in 0..=MAX_OPEN {
        let Some(slot) = slots.next_live(from) else {
            return count;
        };
        count = count.saturating_add(1);
        from = slot.number() + 1;
    }
    count
}
