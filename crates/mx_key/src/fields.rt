//! The fields of a tuple, in place.

ghost use Rattle.std.specs.Prelude.{◌≡◌};
ghost use Rattle.std.specs.List.{slice_get};
ghost use Rattle.std.specs.Option.{option_copied};

use std::marker::Model;

/// A tuple's bytes, and the places in them where its fields begin, with the place where the last one
/// ends.
#[derive(Drop)]
pub struct FieldSlices<'a> {
    pub bytes: &'a [u8],
    pub places: &'a [usize],
}

impl<'a> Model for FieldSlices<'a> {
    ghost use Rattle.std.specs.Prelude.{ℕ, List};
    ghost use Rattle.mx_key.specs.Fields.{slices};

    ghost Value = { List (List ℕ) };

    ghost view = { λ f. slices f.bytes.now f.places.now };
}

impl<'a> FieldSlices<'a> {
    /// The bytes of a field, counted from 0. Of a field whose places lie outside the bytes or out of
    /// order only what is there.
    pub fn field(&self, n: u32) -> Option<&'a [u8]>
        ensures { option_copied result ≡ slice_get self.now n }
    {
        let from = *self.places.get(n as usize)?;
        let to = *self.places.get(n as usize + 1)?;
        let (_, rest) = self.bytes.split_at(from.min(self.bytes.len()));
        let (field, _) = rest.split_at(to.saturating_sub(from).min(rest.len()));
        Some(field)
    }
}
