//! Replacing a part of a text.

ghost use Rattle.std.specs.Prelude.{◌≡◌, ◌≤◌, IfSome};
ghost use Rattle.mx_update.specs.Returns.{Returns};
ghost use Rattle.mx_update.specs.Updates.{Text, cut_place, cut_size, spliced};
ghost use Rattle.mx_update.specs.Views.{field_view};

use crate::failure::Failure;
use crate::field::{Field, text_of};
use mx_msgpack::Bytes;
use std::alloc::Global;

/// The text of the field with `inserted` in the place of some of its bytes.
pub(crate) fn spliced(
    alloc: Global,
    base: u32,
    position: &i128,
    cut: &i128,
    inserted: &[u8],
    field: &Field<'_>,
) -> Result<Bytes, Failure>
    ensures { Returns Text result (spliced base position.now cut.now inserted.now (field_view field.now)) }
{
    let Some(text) = text_of(field) else {
        return Err(Failure::Argument);
    };
    let Some(place) = cut_place(base, text.len(), position) else {
        return Err(Failure::Argument);
    };
    let (front, rest) = text.split_at(place);
    let (_, back) = rest.split_at(cut_size(rest.len(), cut));
    let mut spliced = Bytes::new(alloc);
    spliced.reserve(text.len().saturating_add(inserted.len()))?;
    spliced.extend_from_slice(front)?;
    spliced.extend_from_slice(inserted)?;
    spliced.extend_from_slice(back)?;
    Ok(spliced)
}

/// Where a text of `size` bytes is cut.
fn cut_place(base: u32, size: usize, position: &i128) -> Option<usize>
    ensures place { result ≡ cut_place base size position.now }
    ensures within { IfSome result (λ place. place ≤ size) }
{
    let place = if *position >= 0 {
        *position - i128::from(base)
    } else {
        size as i128 + 1 + *position
    };
    if place < 0 {
        return None;
    }
    match usize::try_from(place) {
        Ok(place) => Some(place.min(size)),
        Err(_) => Some(size),
    }
}

/// How many of the `left` bytes are cut out.
fn cut_size(left: usize, cut: &i128) -> usize
    ensures size { result ≡ cut_size left cut.now }
    ensures within { result ≤ left }
{
    let size = if *cut >= 0 { *cut } else { left as i128 + *cut };
    if size < 0 {
        return 0;
    }
    match usize::try_from(size) {
        Ok(size) => size.min(left),
        Err(_) => left,
    }
}
