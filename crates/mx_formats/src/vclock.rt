//! The calls of `mx_vclock`. A vclock is written as its components, as in `1:5,2:7`.

ghost use Rattle.std.specs.Prelude.{◌<◌, ◌≤◌};
ghost use Rattle.mx_vclock.specs.Vclocks.{max_lsn, replicas};

use mx_arguments::{Arguments, Hex, Text, no_call};
use mx_vclock::{BadText, Gap, MAX_LSN, Vclock};
use std::alloc::AllocError;
use std::fmt;

/// The answer of the call of this name.
pub fn answer(call: &str, arguments: &mut Arguments<'_>) -> Result<String, AllocError> {
    match call {
        "steps" => stepped(arguments),
        "write" => written(arguments),
        "follow" => followed(arguments),
        "compare" => compared(arguments),
        "signature" => signature(arguments),
        "read_text" => read(arguments),
        _ => no_call(arguments),
    }
}

/// The next argument as a vclock.
pub(crate) fn clock_of(arguments: &mut Arguments<'_>) -> Vclock {
    let mut clock = Vclock::new();
    for text in arguments.items() {
        let (id, lsn) = component_in(arguments, text);
        clock.set(id, lsn);
    }
    clock
}

/// A replica id and its lsn.
fn component_in(arguments: &mut Arguments<'_>, text: &str) -> (u8, u64)
    ensures id { result.0 < replicas }
    ensures lsn { result.1 ≤ max_lsn }
{
    let (id, lsn) = text.split_once(':').unwrap_or((text, ""));
    let id = replica_in(arguments, id);
    let number: u64 = arguments.number_in(lsn);
    if number > MAX_LSN {
        arguments.refuse_text("lsn", lsn);
        return (id, 0);
    }
    (id, number)
}

fn replica_in(arguments: &mut Arguments<'_>, text: &str) -> u8
    ensures { result < replicas }
{
    let id: u8 = arguments.number_in(text);
    if id >= 32 {
        arguments.refuse_text("replica id", text);
        return 0;
    }
    id
}

/// The components that aren't 0, and `-` where there is none.
#[derive(Clone, Copy)]
pub(crate) struct Components<'a>(pub(crate) &'a Vclock);

impl fmt::Display for Components<'_> {
    fn fmt<W: fmt::Write>(&self, f: &mut fmt::Formatter<W>) -> fmt::Result {
        let mut between = "";
        for id in 0..32_u8 {
            let lsn = self.0.get(id);
            if lsn != 0 {
                write!(f, "{between}{id}:{lsn}")?;
                between = ",";
            }
        }
        if between.is_empty() {
            return f.write_str("-");
        }
        Ok(())
    }
}

/// What an lsn doesn't follow.
#[derive(Clone, Copy)]
struct Missed(Gap);

impl fmt::Display for Missed {
    fn fmt<W: fmt::Write>(&self, f: &mut fmt::Formatter<W>) -> fmt::Result {
        let Gap { has, got } = self.0;
        write!(f, "gap {has} {got}")
    }
}

/// The text of the vclock in which each of these replica ids has come to its lsn, step by step.
fn stepped(arguments: &mut Arguments<'_>) -> Result<String, AllocError> {
    let alloc = arguments.alloc();
    let mut clock = Vclock::new();
    for text in arguments.items() {
        let (id, lsn) = component_in(arguments, text);
        if let Err(gap) = step_to(&mut clock, id, lsn) {
            return format!(in alloc; "{}", Missed(gap));
        }
    }
    let text = clock.text(alloc)?;
    format!(in alloc; "{}", Text(text.as_slice()))
}

fn step_to(clock: &mut Vclock, id: u8, last: u64) -> Result<(), Gap>
    requires { id < replicas }
{
    for lsn in 1..=last {
        clock.follow(id, lsn)?;
    }
    Ok(())
}

/// Bytes, and a vclock that is written after them.
fn written(arguments: &mut Arguments<'_>) -> Result<String, AllocError> {
    let mut out = arguments.bytes();
    clock_of(arguments).write(&mut out)?;
    format!(in arguments.alloc(); "{}", Hex(out.as_slice()))
}

/// The vclock after a step, or the gap and the vclock as it was.
fn followed(arguments: &mut Arguments<'_>) -> Result<String, AllocError> {
    let alloc = arguments.alloc();
    let mut clock = clock_of(arguments);
    let text = arguments.text();
    let id = replica_in(arguments, text);
    let lsn = arguments.number();
    match clock.follow(id, lsn) {
        Ok(()) => format!(in alloc; "ok {}", Components(&clock)),
        Err(gap) => format!(in alloc; "{} {}", Missed(gap), Components(&clock)),
    }
}

/// Whether a vclock covers the other one, and how they compare.
fn compared(arguments: &mut Arguments<'_>) -> Result<String, AllocError> {
    let clock = clock_of(arguments);
    let other = clock_of(arguments);
    let covers = clock.covers(&other);
    let order = clock.compare(&other);
    format!(in arguments.alloc(); "{covers} {order:?}")
}

fn signature(arguments: &mut Arguments<'_>) -> Result<String, AllocError> {
    let sum = clock_of(arguments).signature();
    format!(in arguments.alloc(); "{sum}")
}

/// The vclock of a text, or the place of the first byte after which none goes on.
fn read(arguments: &mut Arguments<'_>) -> Result<String, AllocError> {
    let alloc = arguments.alloc();
    let bytes = arguments.bytes();
    match Vclock::read_text(bytes.as_slice()) {
        Ok(clock) => format!(in alloc; "ok {}", Components(&clock)),
        Err(BadText { at }) => format!(in alloc; "err {at}"),
    }
}
