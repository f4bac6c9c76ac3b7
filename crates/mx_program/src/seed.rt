//! The seed of an installation: 32 bytes, from which the server's UUIDs and its salts are made.

ghost use Rattle.std.specs.Prelude.{◌≡◌, ◌↔◌, Ok, IsSome, IfSome, ◌≢◌, IfErr};
ghost use Rattle.hex.specs.Hex.{decode_of};
ghost use Rattle.mx_program.specs.Seeds.{IsSeedText};

use hex::FromHex;
use mx_top::Status;
use std::env;
use std::env::{Env, VarError};
use std::random::RandomSource;

/// The environment variable that sets the seed, for tests and for repeating a run.
const VARIABLE: &str = "VURANDY_SEED";

/// The seed of the environment variable, or else random bytes, so that no two installations share
/// their UUIDs.
pub fn of_installation<R: Env + AllocGlobal + RandomSource>(rt: &R) -> Result<[u8; 32], Status>
    ensures failed { IfErr result (λ status. status ≢ Status.Ok) }
{
    match env::var(rt, VARIABLE) {
        Ok(text) => of_text(text.as_str()).ok_or(Status::BadWords),
        Err(VarError::NotPresent) => random(rt),
        Err(VarError::NotUnicode) => Err(Status::BadWords),
        Err(VarError::OutOfMemory) => Err(Status::NoMemory),
    }
}

/// The seed of 64 hexadecimal digits, in either case.
pub fn of_text(text: &str) -> Option<[u8; 32]>
    ensures found { IsSome result ↔ IsSeedText text.now }
    ensures value { IfSome result (λ seed. decode_of text.now ≡ Ok seed) }
{
    <[u8; 32] as FromHex>::from_hex(text).ok()
}

/// A seed from the system's random source.
fn random(rt: &impl RandomSource) -> Result<[u8; 32], Status>
    ensures failed { IfErr result (λ status. status ≢ Status.Ok) }
{
    let mut seed = [0; 32];
    match rt.fill_bytes(&mut seed) {
        Ok(()) => Ok(seed),
        Err(_) => Err(Status::ReadFault),
    }
}
