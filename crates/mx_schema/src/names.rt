//! Numbers up to a maximum, names and other texts.

ghost use Rattle.std.specs.Prelude.{◌≡◌};
ghost use Rattle.std.specs.Option.{option_copied};
ghost use Rattle.mx_schema.specs.SpaceRows.{name_in, number_up_to};
ghost use Rattle.mx_schema.specs.TextMaps.{is_same_text};

use mx_msgpack::{text_in, unsigned_in};

/// The maximum size of the name of a space or an index, in bytes.
const MAX_NAME_SIZE: usize = 255;

/// A number of 0 or more, up to the maximum.
pub(crate) fn number_up_to(maximum: u32, spelling: &[u8]) -> Option<u32>
    ensures { result ≡ number_up_to maximum spelling.now }
{
    let number = unsigned_in(spelling)?;
    if number > u64::from(maximum) {
        return None;
    }
    Some(number as u32)
}

/// A name of 1 to 255 bytes.
pub(crate) fn name_in(spelling: &[u8]) -> Option<&[u8]>
    ensures { option_copied result ≡ name_in spelling.now }
{
    let name = text_in(spelling)?;
    if name.is_empty() || name.len() > MAX_NAME_SIZE {
        return None;
    }
    Some(name)
}

pub(crate) fn is_text(text: &[u8], wanted: &[u8]) -> bool
    ensures { result ≡ is_same_text text.now wanted.now }
{
    text == wanted
}
