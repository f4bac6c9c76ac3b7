//! Whether a tuple meets a format.

ghost use Rattle.std.specs.Prelude.{◌≡◌};
ghost use Rattle.std.specs.Option.{option_copied};
ghost use Rattle.mx_msgpack.specs.Types.{is_nil};
ghost use Rattle.mx_msgpack.specs.View.{view};
ghost use Rattle.mx_tuple.specs.Formats.{checked, fields_checked, meets};
ghost use Rattle.mx_tuple.specs.Steps.{field_checked};

use crate::formats::{FieldKind, Format, FormatEntries, FormatEntry};
use crate::tuple::Tuple;
use mx_msgpack::{ValueRef, read_ref};

/// Why a tuple doesn't meet a format. Fields count from 0.
#[derive(Clone, Copy, Drop, PartialEq, Eq)]
pub enum FieldFault {
    /// The field is absent.
    Missing { field: u32 },
    /// The field is of another type.
    Wrong { field: u32, expected: FieldKind },
    /// The tuple has another number of fields.
    Count { has: u32, expected: u32 },
}

/// Whether a tuple meets a format.
///
/// # Errors
/// The tuple has another number of fields than the format asks for, or the first field that is absent
/// or of another type.
pub fn check(format: &Format, tuple: &Tuple) -> Result<(), FieldFault>
    ensures { result ≡ checked format.now tuple.now.fields }
{
    let has = tuple.count();
    if format.count != 0 && has != format.count {
        return Err(FieldFault::Count {
            has,
            expected: format.count,
        });
    }
    check_fields(&format.entries, tuple)
}

fn check_fields(entries: &FormatEntries, tuple: &Tuple) -> Result<(), FieldFault>
    ensures { result ≡ fields_checked 0 entries.now tuple.now.fields }
{
    for (place, entry) in entries.as_slice().iter().enumerate() {
        let place = place as u32;
        check_field(place, entry, tuple.field(place))?;
    }
    Ok(())
}

fn check_field(place: u32, entry: &FormatEntry, field: Option<&[u8]>) -> Result<(), FieldFault>
    ensures { result ≡ field_checked place entry.now (option_copied field.entry) }
{
    match field {
        None => {
            if entry.nullable || entry.kind.value_type().is_any() {
                return Ok(());
            }
            Err(FieldFault::Missing { field: place })
        }
        Some(value) => {
            if meets(entry, value) {
                return Ok(());
            }
            Err(FieldFault::Wrong {
                field: place,
                expected: entry.kind,
            })
        }
    }
}

#[tactic(auto, unfolding(crate::specs::Formats::meets))]
fn meets(entry: &FormatEntry, field: &[u8]) -> bool
    ensures { result ≡ meets entry.now field.now }
{
    match read_ref(field) {
        Ok((value, _)) => {
            entry.kind.value_type().takes(&value) || (entry.nullable && is_nil(&value))
        }
        Err(_) => entry.kind.value_type().is_any(),
    }
}

fn is_nil(value: &ValueRef<'_>) -> bool
    ensures { result ≡ is_nil (view value.now) }
{
    matches!(value, ValueRef::Nil)
}
