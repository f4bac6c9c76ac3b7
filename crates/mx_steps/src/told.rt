//! What requests are told, in short.

use crate::asked::Asked;
use crate::fault::StepFault;
use mx_base::{Refusal, code_of, text_of};
use mx_model::Reply;
use mx_msgpack::{Bytes, Tuples};
use std::alloc::{AllocError, Global};

/// What a reply tells: its tuples' bytes, one after the other, or its refusal's number and text.
#[derive(Clone, Copy, Debug, Drop, PartialEq)]
pub enum Told<'a> {
    /// Nothing.
    Empty,
    /// The tuples.
    Tuples(&'a [u8]),
    /// What ID is told.
    Id,
    /// The refusal's number and text.
    Refused(u16, &'a [u8]),
}

/// The tuples' bytes, one after the other.
pub fn bytes_of(alloc: Global, tuples: &Tuples) -> Result<Bytes, AllocError> {
    Bytes::from_slice(alloc, tuples.bytes())
}

/// The bytes in what a reply tells.
fn bytes_in(alloc: Global, reply: &Reply) -> Result<Bytes, AllocError> {
    match reply {
        Reply::Tuples(tuples) => bytes_of(alloc, tuples),
        Reply::Refused(refusal) => text_of(alloc, refusal),
        Reply::Empty | Reply::Id => Ok(Bytes::new(alloc)),
    }
}

/// What a reply with these bytes tells.
fn outcome<'a>(reply: &Reply, bytes: &'a [u8]) -> Told<'a> {
    match reply {
        Reply::Empty => Told::Empty,
        Reply::Tuples(_) => Told::Tuples(bytes),
        Reply::Id => Told::Id,
        Reply::Refused(refusal) => Told::Refused(code_of(refusal), bytes),
    }
}

/// Compares a reply with what is expected of it.
///
/// # Errors
/// They differ, or an allocation failed.
pub fn check_reply(
    alloc: Global,
    reply: &Reply,
    asked: Asked<'_>,
    told: Told<'_>,
) -> Result<(), StepFault> {
    let bytes = bytes_in(alloc, reply)?;
    let is = outcome(reply, bytes.as_slice());
    if is == told {
        return Ok(());
    }
    let asked = asked.in_short();
    let text = format!(in alloc; "at {asked:?}: {is:?}, expected {told:?}")?;
    Err(StepFault::Differs(text))
}

/// Compares the number and the text of a refusal with what is expected of it.
///
/// # Errors
/// They differ, or an allocation failed.
pub fn check_refusal(alloc: Global, refusal: &Refusal, told: Told<'_>) -> Result<(), StepFault> {
    let text = text_of(alloc, refusal)?;
    let is = Told::Refused(code_of(refusal), text.as_slice());
    if is == told {
        return Ok(());
    }
    let text = format!(in alloc; "{is:?}, expected {told:?}")?;
    Err(StepFault::Differs(text))
}
