//! The greeting of a connection (IPROTO, "Greeting message").

ghost use Rattle.std.specs.Prelude.{◌≡◌, ◌++◌, IfOk, OnOk};
ghost use Rattle.mx_reply.specs.Greeting.{greeting_of, padded_line};

use base64::engine::general_purpose::STANDARD;
use std::alloc::{AllocError, Global};
use uuid::Uuid;

/// The size of a line in bytes, before its newline.
const LINE: usize = 63;

/// The greeting of an instance: product, version, protocol and the instance's UUID on one line, the
/// salt in base64 on the other. Each line has 64 bytes, with spaces before its newline.
#[tactic(auto, unfolding(crate::specs::Greeting::greeting_of))]
pub fn write_greeting(
    alloc: Global,
    instance: &Uuid,
    salt: &[u8; 32],
) -> Result<[u8; 128], AllocError>
    ensures { IfOk result (λ text. text ≡ greeting_of instance.now salt.now) }
{
    let mut text = Vec::with_capacity(alloc, 128)?;
    let mut buffer = Uuid::encode_buffer();
    let instance = instance.hyphenated().encode_lower(&mut buffer);
    let mut first = String::from_str(alloc, "Tarantool 2.11.0 (Binary) ")?;
    first.push_str(instance)?;
    push_line(&mut text, first.as_bytes())?;
    push_line(&mut text, STANDARD.encode(alloc, salt)?.as_bytes())?;
    let mut greeting = [0; 128];
    greeting.copy_from_slice(&text);
    Ok(greeting)
}

fn push_line(out: &mut Vec<u8>, text: &[u8]) -> Result<(), AllocError>
    ensures { OnOk result (out.new.items ≡ out.old.items ++ padded_line text.now) }
{
    out.extend_from_slice(text)?;
    out.resize(out.len() + LINE.saturating_sub(text.len()), b' ')?;
    out.push(b'\n')?;
    Ok(())
}
