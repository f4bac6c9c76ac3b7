//! Sources and sinks, for the calls of `mx_fake` and `mx_real`.

use mx_arguments::{Arguments, Hex};
use mx_outside::{Sink, Source};
use std::alloc::AllocError;

/// What reads into buffers give, whose sizes are all arguments that are left.
pub fn reads<S: Source>(
    arguments: &mut Arguments<'_>,
    source: &mut S,
) -> Result<String, AllocError> {
    let alloc = arguments.alloc();
    let mut answer = String::new(alloc);
    for text in arguments.others() {
        if !answer.is_empty() {
            answer.push(' ')?;
        }
        let room: u16 = arguments.number_in(text);
        let mut buffer = vec![in alloc; 0u8; usize::from(room)]?;
        let count = source.read(&mut buffer).ok();
        show_read(count, &buffer, &mut answer)?;
    }
    Ok(answer)
}

/// How many bytes were read, or that this failed, and the whole buffer.
pub fn show_read(
    count: Option<usize>,
    buffer: &[u8],
    answer: &mut String,
) -> Result<(), AllocError> {
    match count {
        Some(count) => write!(answer, "{count}:{}", Hex(buffer)),
        None => write!(answer, "failed:{}", Hex(buffer)),
    }
}

/// A step on a sink: `write:0102` or `flush`.
pub fn sink_step<S: Sink>(
    arguments: &mut Arguments<'_>,
    text: &str,
    sink: &mut S,
    answer: &mut String,
) -> Result<(), AllocError> {
    let (name, rest) = text.split_once(':').unwrap_or((text, ""));
    match name {
        "write" => match sink.write(arguments.bytes_in(rest).as_slice()) {
            Ok(count) => write!(answer, "{count}"),
            Err(_) => answer.push_str("failed"),
        },
        "flush" => match sink.flush() {
            Ok(()) => answer.push_str("ok"),
            Err(_) => answer.push_str("failed"),
        },
        _ => {
            arguments.refuse_text("step", text);
            Ok(())
        }
    }
}
