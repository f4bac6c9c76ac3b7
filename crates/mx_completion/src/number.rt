//! Numbers of 0 or more that more bytes may follow.

ghost use Rattle.std.specs.Prelude.{◌≡◌, ◌<◌, ◌≤◌, length, IfSome};
ghost use Rattle.mx_completion.specs.Completions.{Completes, IsUnsignedSpelling};
ghost use Rattle.mx_completion.specs.Numbers.{IsRange};
ghost use Rattle.mx_completion.specs.NumberForms.{digits_behind, filled, filled_range, spelling_size};

use crate::completion::Completion;
use byteorder::{BigEndian, ByteOrder};
use mx_msgpack::unsigned_at;

/// All numbers from the least one to the greatest one.
#[derive(Clone, Copy)]
pub struct NumberRange {
    pub least: u64,
    pub most: u64,
}

/// The digits of a number behind a leading byte.
#[derive(Clone, Copy)]
struct Digits {
    width: usize,
    /// The greatest number; with a sign the digits of greater ones are of numbers below 0.
    most: u64,
}

/// Which numbers of 0 or more the bytes can become with one more byte or more; `None` where they can
/// become none.
pub fn number_range(bytes: &[u8]) -> Option<NumberRange>
    ensures { IsRange bytes.now result }
{
    let Some((leading, digits)) = bytes.split_first() else {
        return Some(NumberRange {
            least: 0,
            most: u64::MAX,
        });
    };
    filled_range(digits_behind(*leading)?, digits)
}

/// What the bytes can become as a number from this one on.
pub fn unsigned_completion(least: u64, bytes: &[u8]) -> Completion
    requires { least < 0x80 }
    ensures { Completes (IsUnsignedSpelling least) bytes.now result }
{
    if let Some((number, rest)) = unsigned_at(bytes) {
        if number < least {
            return Completion::Impossible;
        }
        return Completion::Whole {
            size: bytes.len() - rest.len(),
        };
    }
    let Some(range) = number_range(bytes) else {
        return Completion::Impossible;
    };
    if range.most < least {
        return Completion::Impossible;
    }
    Completion::Missing {
        least: spelling_size(bytes) - bytes.len(),
    }
}

fn digits_behind(leading: u8) -> Option<Digits>
    ensures value { result ≡ digits_behind leading }
    ensures few { IfSome result (λ digits. digits.width ≤ 8) }
{
    let (width, most) = match leading {
        0xcc => (1, u64::from(u8::MAX)),
        0xcd => (2, u64::from(u16::MAX)),
        0xce => (4, u64::from(u32::MAX)),
        0xcf => (8, u64::MAX),
        0xd0 => (1, 0x7f),
        0xd1 => (2, 0x7fff),
        0xd2 => (4, 0x7fff_ffff),
        0xd3 => (8, 0x7fff_ffff_ffff_ffff),
        _ => return None,
    };
    Some(Digits { width, most })
}

/// The numbers of these digits and one more digit or more.
fn filled_range(form: Digits, digits: &[u8]) -> Option<NumberRange>
    requires { form.width ≤ 8 }
    ensures { result ≡ filled_range form digits.now }
{
    if digits.len() >= form.width {
        return None;
    }
    let least = filled(0x00, form.width, digits);
    if least > form.most {
        return None;
    }
    Some(NumberRange {
        least,
        most: filled(0xff, form.width, digits).min(form.most),
    })
}

/// The number of the digits and as many of these bytes as are missing.
fn filled(byte: u8, width: usize, digits: &[u8]) -> u64
    requires some { length digits.now < width }
    requires few { width ≤ 8 }
    ensures { result ≡ filled byte width digits.now }
{
    let mut all = [byte; 8];
    all[..digits.len()].copy_from_slice(digits);
    BigEndian::read_uint(&all, width)
}

/// How many bytes a number takes that begins with these.
fn spelling_size(bytes: &[u8]) -> usize
    ensures { result ≡ spelling_size bytes.now }
{
    match bytes.split_first() {
        Some((leading, _)) => match digits_behind(*leading) {
            Some(digits) => 1 + digits.width,
            None => 1,
        },
        None => 1,
    }
}
