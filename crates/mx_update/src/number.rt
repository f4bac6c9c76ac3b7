//! Numbers from -2^63 up to 2^64 - 1.

ghost use Rattle.std.specs.Prelude.{◌≡◌, ◌+ℤ◌, ◌-ℤ◌, pos, length, Some, None, ℤ, if◌then◌else◌};
ghost use Rattle.mx_msgpack.specs.Readers.{as_unsigned};
ghost use Rattle.mx_msgpack.specs.Spelling.{shortest_int, shortest_negative, shortest_unsigned};
ghost use Rattle.mx_msgpack.specs.Writing.{Fits64};
ghost use Rattle.mx_update.specs.Updates.{is_64_bits};

use std::marker::Model;

const LEAST: i128 = i64::MIN as i128;

const GREATEST: i128 = u64::MAX as i128;

#[derive(Drop)]
pub(crate) struct Number {
    value: i128,
}

impl Model for Number {
    ghost use Rattle.std.specs.Prelude.{ℤ};
    ghost use Rattle.mx_msgpack.specs.Writing.{Fits64};

    ghost Value = { ℤ };

    ghost view = { λ n. n.value };

    ghost invariant = { λ n. Fits64 n.value };
}

impl Number {
    /// `None` where it isn't of 64 bits.
    pub(crate) fn new(value: &i128) -> Option<Number>
        ensures { result ≡ (if is_64_bits value.now then Some value.now else None) }
    {
        if *value < LEAST || *value > GREATEST {
            return None;
        }
        Some(Number { value: *value })
    }

    pub(crate) fn from_bits(bits: u64) -> Number
        ensures { result ≡ pos bits }
    {
        Number {
            value: i128::from(bits),
        }
    }

    pub(crate) fn value(&self) -> i128
        ensures value { result ≡ self.now }
        ensures fits { Fits64 result }
    {
        self.value
    }

    /// `None` below 0.
    pub(crate) fn bits(&self) -> Option<u64>
        ensures { result ≡ as_unsigned self.now }
    {
        match u64::try_from(self.value) {
            Ok(bits) => Some(bits),
            Err(_) => None,
        }
    }

    /// `None` where the sum isn't of 64 bits.
    pub(crate) fn sum(&self, operand: &i128) -> Option<Number>
        ensures { result ≡ (if is_64_bits (self.now +ℤ operand.now) then Some (self.now +ℤ operand.now) else None) }
    {
        let sum = self.value.checked_add(*operand)?;
        Number::new(&sum)
    }

    /// `None` where the difference isn't of 64 bits.
    pub(crate) fn difference(&self, operand: &i128) -> Option<Number>
        ensures { result ≡ (if is_64_bits (self.now -ℤ operand.now) then Some (self.now -ℤ operand.now) else None) }
    {
        let difference = self.value.checked_sub(*operand)?;
        Number::new(&difference)
    }

    /// In how many bytes it is spelled at the shortest.
    pub(crate) fn size(&self) -> usize
        ensures { result ≡ length (shortest_int self.now) }
    {
        if self.value >= 0 {
            unsigned_size(self.value as u64)
        } else {
            negative_size((-1 - self.value) as u64)
        }
    }
}

#[tactic(auto, unfolding(mx_msgpack::specs::Spelling::shortest_unsigned))]
fn unsigned_size(number: u64) -> usize
    ensures { result ≡ length (shortest_unsigned number) }
{
    match number {
        0..0x80 => 1,
        0x80..0x100 => 2,
        0x100..0x1_0000 => 3,
        0x1_0000..0x1_0000_0000 => 5,
        _ => 9,
    }
}

#[tactic(auto, unfolding(mx_msgpack::specs::Spelling::shortest_negative))]
fn negative_size(below: u64) -> usize
    ensures { result ≡ length (shortest_negative below) }
{
    match below {
        0..0x20 => 1,
        0x20..0x80 => 2,
        0x80..0x8000 => 3,
        0x8000..0x8000_0000 => 5,
        _ => 9,
    }
}
