//! Texts in the making.

ghost use Rattle.std.specs.Prelude.{◌≡◌, ◌<◌, ◌++◌, [], IfOk, decimal};
ghost use Rattle.mx_vclock.specs.Text as vclock;
ghost use Rattle.mx_base.specs.Refusals.{hex_digit, key_text, quoted};

use crate::name::Name;
use mx_msgpack::Bytes;
use mx_vclock::Vclock;
use std::alloc::{AllocError, Global};
use std::marker::Model;

/// A text that grows at its end.
#[derive(Drop)]
pub(crate) struct Text {
    alloc: Global,
    bytes: Bytes,
}

impl Model for Text {
    ghost use Rattle.std.specs.Prelude.{ℕ, List};

    ghost Value = { List ℕ };

    ghost view = { λ t. t.bytes };
}

impl Text {
    pub(crate) fn new(alloc: Global) -> Text
        ensures { result ≡ [] }
    {
        Text {
            alloc,
            bytes: Bytes::new(alloc),
        }
    }

    pub(crate) fn into_bytes(self) -> Bytes
        ensures { result ≡ self }
    {
        self.bytes
    }

    pub(crate) fn words(mut self, words: &str) -> Result<Text, AllocError>
        ensures { IfOk result (λ text. text ≡ self ++ words.now) }
    {
        self.bytes.extend_from_slice(words.as_bytes())?;
        Ok(self)
    }

    pub(crate) fn number(mut self, number: u64) -> Result<Text, AllocError>
        ensures { IfOk result (λ text. text ≡ self ++ decimal number) }
    {
        let digits = format!(in self.alloc; "{number}")?;
        self.bytes.extend_from_slice(digits.as_bytes())?;
        Ok(self)
    }

    pub(crate) fn key(mut self, key: u8) -> Result<Text, AllocError>
        ensures { IfOk result (λ text. text ≡ self ++ key_text key) }
    {
        let spelled = [b'0', b'x', hex_digit(key / 16), hex_digit(key % 16)];
        self.bytes.extend_from_slice(&spelled)?;
        Ok(self)
    }

    pub(crate) fn name(mut self, name: &Name) -> Result<Text, AllocError>
        ensures { IfOk result (λ text. text ≡ self ++ quoted name.now) }
    {
        self.bytes.extend_from_slice(b"\"")?;
        self.bytes.extend_from_slice(name.as_slice())?;
        self.bytes.extend_from_slice(b"\"")?;
        Ok(self)
    }

    pub(crate) fn clock(mut self, clock: &Vclock) -> Result<Text, AllocError>
        ensures { IfOk result (λ text. text ≡ self ++ vclock.vclock_text clock.now) }
    {
        let spelled = clock.text(self.alloc)?;
        self.bytes.extend_from_slice(spelled.as_slice())?;
        Ok(self)
    }
}

fn hex_digit(digit: u8) -> u8
    requires { digit < 16 }
    ensures { result ≡ hex_digit digit }
{
    match digit {
        0..10 => b'0' + digit,
        _ => b'a' + (digit - 10),
    }
}
