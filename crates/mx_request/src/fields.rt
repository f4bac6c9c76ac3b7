//! The values under keys that have to be there, and under keys that have defaults.

ghost use Rattle.std.specs.Prelude.{◌≡◌, ◌≤◌, IfOk, IfSome};
ghost use Rattle.std.specs.Option.{option_copied};
ghost use Rattle.mx_request.specs.Values.{array_in, vclock_in, number_32, number_to, uuid_in};
ghost use Rattle.mx_msgpack.specs.Items.{IsOneValue};
ghost use Rattle.mx_request.specs.InPlace.{vclock_or_none};
ghost use Rattle.mx_request.specs.PacketParts.{number_in};
ghost use Rattle.mx_request.specs.Requests.{optional_value, required_value, legal_value};
ghost use Rattle.mx_request.specs.ValueFaults.{GivesValue, legal_or_fault};

use crate::value_fault::ValueFault;
use crate::values::{array_in, number_to, uuid_in, vclock_in};
use mx_msgpack::unsigned_in;
use uuid::Uuid;

/// The number that a value is, and 0 without one; `None` where it is no number of 0 or more.
#[inline(always)]
pub(crate) fn number_in(value: Option<&[u8]>) -> Option<u64>
    ensures { result ≡ number_in (option_copied value.entry) }
{
    match value {
        Some(value) => unsigned_in(value),
        None => Some(0),
    }
}

#[inline(always)]
pub(crate) fn optional_number(
    key: u8,
    default: u32,
    most: u32,
    value: Option<&[u8]>,
) -> Result<u32, ValueFault>
    requires { default ≤ most }
    ensures value { GivesValue (λ x. x) result (optional_value key default (number_to most) (option_copied value.entry)) }
    ensures most { IfOk result (λ number. number ≤ most) }
{
    match value {
        Some(value) => number_under(key, most, value),
        None => Ok(default),
    }
}

#[inline(always)]
pub(crate) fn required_number(key: u8, value: Option<&[u8]>) -> Result<u32, ValueFault>
    ensures { GivesValue (λ x. x) result (required_value key number_32 (option_copied value.entry)) }
{
    match value {
        Some(value) => number_under(key, u32::MAX, value),
        None => Err(ValueFault::Missing(key)),
    }
}

#[inline(always)]
pub(crate) fn required_array(key: u8, value: Option<&[u8]>) -> Result<&[u8], ValueFault>
    requires { IfSome (option_copied value) IsOneValue }
    ensures { GivesValue (λ array. array.now) result (required_value key array_in (option_copied value.entry)) }
{
    match value {
        Some(value) => legal_value(key, array_in(value)),
        None => Err(ValueFault::Missing(key)),
    }
}

pub(crate) fn required_uuid(key: u8, value: Option<&[u8]>) -> Result<Uuid, ValueFault>
    ensures { GivesValue (λ x. x) result (required_value key uuid_in (option_copied value.entry)) }
{
    match value {
        Some(value) => legal_value(key, uuid_in(value)),
        None => Err(ValueFault::Missing(key)),
    }
}

/// The value that is a vclock, as it stands.
pub(crate) fn required_clock(key: u8, value: Option<&[u8]>) -> Result<&[u8], ValueFault>
    ensures { GivesValue (λ clock. vclock_or_none clock.now) result (required_value key vclock_in (option_copied value.entry)) }
{
    match value {
        Some(value) => match vclock_in(value) {
            Some(_) => Ok(value),
            None => Err(ValueFault::Illegal(key)),
        },
        None => Err(ValueFault::Missing(key)),
    }
}

#[inline(always)]
fn number_under(key: u8, most: u32, value: &[u8]) -> Result<u32, ValueFault>
    ensures value { GivesValue (λ x. x) result (legal_value key (number_to most value.now)) }
    ensures most { IfOk result (λ number. number ≤ most) }
{
    let number = legal_value(key, number_to(u64::from(most), value))?;
    Ok(number as u32)
}

#[inline(always)]
pub(crate) fn legal_value<X>(key: u8, value: Option<X>) -> Result<X, ValueFault>
    ensures { result ≡ legal_or_fault key value }
{
    match value {
        Some(value) => Ok(value),
        None => Err(ValueFault::Illegal(key)),
    }
}
