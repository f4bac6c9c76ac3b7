//! The calls of `mx_frame`.

use mx_arguments::{Arguments, Hex, no_call};
use mx_frame::{Framed, Framer};
use std::alloc::AllocError;
use std::fmt;

/// The answer of the call of this name.
pub fn answer(call: &str, arguments: &mut Arguments<'_>) -> Result<String, AllocError> {
    match call {
        "next" => next(arguments),
        "by_bytes" => by_bytes(arguments),
        "packets" => packets(arguments),
        _ => no_call(arguments),
    }
}

/// What stands first where these pieces came.
fn next(arguments: &mut Arguments<'_>) -> Result<String, AllocError> {
    let alloc = arguments.alloc();
    let mut framer = Framer::new(alloc);
    for text in arguments.others() {
        framer.feed(arguments.bytes_in(text).as_slice())?;
    }
    format!(in alloc; "{}", First(framer.next()))
}

/// What stands first.
#[derive(Clone, Copy)]
struct First<'a>(Framed<'a>);

impl fmt::Display for First<'_> {
    fn fmt<W: fmt::Write>(&self, f: &mut fmt::Formatter<W>) -> fmt::Result {
        match self.0 {
            Framed::Packet(content) => write!(f, "packet {}", Hex(content)),
            Framed::NeedMore => f.write_str("more"),
            Framed::Broken { at } => write!(f, "broken {at}"),
        }
    }
}

/// How many bytes come, one by one, before something stands first, and what this is.
fn by_bytes(arguments: &mut Arguments<'_>) -> Result<String, AllocError> {
    let alloc = arguments.alloc();
    let bytes = arguments.bytes();
    let mut framer = Framer::new(alloc);
    let mut count: u64 = 0;
    for byte in bytes.as_slice() {
        if framer.next() == Framed::NeedMore {
            framer.feed(&[*byte])?;
            count = count.saturating_add(1);
        }
    }
    format!(in alloc; "{count} {}", First(framer.next()))
}

/// The packets in these pieces, each passed as soon as it is whole, and what stands after them.
fn packets(arguments: &mut Arguments<'_>) -> Result<String, AllocError> {
    let alloc = arguments.alloc();
    let mut framer = Framer::new(alloc);
    let mut answer = String::new(alloc);
    for text in arguments.others() {
        framer.feed(arguments.bytes_in(text).as_slice())?;
        take_packets(&mut framer, &mut answer)?;
    }
    write!(answer, "{}", First(framer.next()))?;
    Ok(answer)
}

/// Passes the packets that are whole, and adds each to the answer.
fn take_packets(framer: &mut Framer, answer: &mut String) -> Result<(), AllocError> {
    while let Framed::Packet(content) = framer.next() {
        write!(answer, "{} ", Hex(content))?;
        framer.pass();
    }
    Ok(())
}
