//! Where a field of a number stands.

ghost use Rattle.std.specs.Prelude.{◌≡◌};
ghost use Rattle.std.specs.Result.{result_ok};
ghost use Rattle.mx_update.specs.Updates.{place_of, place_within};

/// The place of the field of this number among `count` fields, where it stands before `limit`.
pub(crate) fn place_of(base: u32, count: usize, limit: usize, number: &i128) -> Option<usize>
    ensures { result ≡ result_ok (place_within limit (place_of base count number.now)) }
{
    let place = if *number >= 0 {
        *number - i128::from(base)
    } else {
        count as i128 + *number
    };
    match usize::try_from(place) {
        Ok(place) if place < limit => Some(place),
        _ => None,
    }
}
