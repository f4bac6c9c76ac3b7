//! The values that keys of rows take.

ghost use Rattle.std.specs.Prelude.{◌≡◌, ◌≤◌, IfSome, is_some};
ghost use Rattle.std.specs.Option.{option_copied};
ghost use Rattle.mx_msgpack.specs.Items.{IsOneValue};
ghost use Rattle.mx_msgpack.specs.Readers.{unsigned_in};
ghost use Rattle.mx_request.specs.Operators.{shape_fault};
ghost use Rattle.mx_request.specs.Values.{array_in, number_to};
ghost use Rattle.mx_row.specs.Values.{base_in, value_held, lsn_in, row_operations_in};

use mx_msgpack::{is_array, unsigned_in};
use mx_operations::first_fault;
use mx_vclock::MAX_LSN;

/// The greatest number of a tuple's first field.
const MAX_BASE: u64 = 1;

/// The number that a value is; `None` without one, or where it is no number of 0 or more.
#[inline(always)]
pub(crate) fn held_number(value: Option<&[u8]>) -> Option<u64>
    ensures { result ≡ value_held unsigned_in (option_copied value.entry) }
{
    match value {
        Some(value) => unsigned_in(value),
        None => None,
    }
}

#[inline(always)]
pub(crate) fn held_number_to(most: u64, value: Option<&[u8]>) -> Option<u64>
    ensures value { result ≡ value_held (number_to most) (option_copied value.entry) }
    ensures most { IfSome result (λ number. number ≤ most) }
{
    match value {
        Some(value) => number_to(most, value),
        None => None,
    }
}

#[inline(always)]
pub(crate) fn held_array(value: Option<&[u8]>) -> Option<&[u8]>
    requires { IfSome (option_copied value) IsOneValue }
    ensures { option_copied result ≡ value_held array_in (option_copied value.entry) }
{
    match value {
        Some(value) => array_in(value),
        None => None,
    }
}

#[inline]
pub(crate) fn held_operations(value: Option<&[u8]>) -> Option<&[u8]>
    requires { IfSome (option_copied value) IsOneValue }
    ensures { option_copied result ≡ value_held row_operations_in (option_copied value.entry) }
{
    match value {
        Some(value) => row_operations_in(value),
        None => None,
    }
}

#[inline(always)]
pub(crate) fn held_lsn(value: Option<&[u8]>) -> Option<u64>
    ensures { result ≡ value_held lsn_in (option_copied value.entry) }
{
    match value {
        Some(value) => lsn_in(value),
        None => None,
    }
}

#[inline]
pub(crate) fn base_in(value: Option<&[u8]>) -> Option<u64>
    ensures value { result ≡ base_in (option_copied value.entry) }
    ensures most { IfSome result (λ number. number ≤ 1) }
{
    match value {
        Some(value) => number_to(MAX_BASE, value),
        None => Some(0),
    }
}

#[inline(always)]
fn number_to(most: u64, value: &[u8]) -> Option<u64>
    ensures value { result ≡ number_to most value.now }
    ensures most { IfSome result (λ number. number ≤ most) }
{
    let number = unsigned_in(value)?;
    if number > most {
        return None;
    }
    Some(number)
}

#[inline(always)]
fn lsn_in(value: &[u8]) -> Option<u64>
    ensures { result ≡ lsn_in value.now }
{
    let number = number_to(MAX_LSN, value)?;
    if number == 0 {
        return None;
    }
    Some(number)
}

#[inline(always)]
fn array_in(value: &[u8]) -> Option<&[u8]>
    requires { IsOneValue value.now }
    ensures { option_copied result ≡ array_in value.now }
{
    if is_array(value) { Some(value) } else { None }
}

fn row_operations_in(value: &[u8]) -> Option<&[u8]>
    requires { IsOneValue value.now }
    ensures { option_copied result ≡ row_operations_in value.now }
{
    let operations = array_in(value)?;
    if is_misshapen(operations) {
        return None;
    }
    Some(operations)
}

/// Whether one of the operations hasn't the shape of one.
fn is_misshapen(operations: &[u8]) -> bool
    ensures { result ≡ is_some (shape_fault operations.now) }
{
    match mx_msgpack::array_in(operations) {
        Some(items) => first_fault(items).is_some(),
        None => false,
    }
}
