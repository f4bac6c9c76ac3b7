//! The rows of the space of settings.

ghost use Rattle.std.specs.Prelude.{◌≡◌};
ghost use Rattle.std.specs.Option.{option_copied};
ghost use Rattle.mx_msgpack.specs.Items.{items_of};
ghost use Rattle.mx_schema.specs.Settings.{first_text, is_leader};

use crate::names::is_text;
use mx_msgpack::{array_of, parted, text_in};

/// Whether a tuple is the setting that says which node may be written.
pub fn is_leader(tuple: &[u8]) -> bool
    ensures { result ≡ is_leader tuple.now }
{
    match first_text(tuple) {
        Some(text) => is_text(text, b"leader"),
        None => false,
    }
}

fn first_text(tuple: &[u8]) -> Option<&[u8]>
    ensures { option_copied result ≡ first_text (items_of tuple.now) }
{
    let items = array_of(tuple)?;
    if items.count == 0 {
        return None;
    }
    let (field, _) = parted(items.bytes);
    text_in(field)
}
