//! What a field costs, as a value stands and at least as bytes begin one.

ghost use Rattle.std.specs.Prelude.{◌≡◌, Some, None, if◌then◌else◌, length, nat_le};
ghost use Rattle.std.specs.Option.{option_copied};
ghost use Rattle.mx_msgpack.specs.Spelling.{shortest_unsigned};
ghost use Rattle.mx_completion.specs.Choices.{CostsAt};
ghost use Rattle.mx_completion.specs.Costs.{IsLeast, base_cost, cost_of};
ghost use Rattle.mx_completion.specs.declared.field.Form.TheVariants.{Array, Operations};
ghost use Rattle.mx_completion.specs.Sums.{any_cost, least_base, long_cost, number_cost, space_cost};

use crate::completion::Completion;
use crate::field::Form;
use crate::number::{NumberRange, number_range};
use crate::operations::operations_completion;
use crate::pairs::ROOM_INSIDE;
use crate::sums::{sum_within, within};
use crate::value::{array_completion, value_completion};
use mx_msgpack::{array_in, unsigned_in};
use mx_operations::first_fault;

pub(crate) fn cost_of(form: Form, value: Option<&[u8]>) -> Option<usize>
    ensures { result ≡ cost_of form (option_copied value.entry) }
{
    match value {
        Some(value) => value_cost(form, value),
        None => absent_cost(form),
    }
}

fn absent_cost(form: Form) -> Option<usize>
    ensures { result ≡ cost_of form None }
{
    match form {
        Form::Absent => Some(0),
        Form::Number { .. } => None,
        Form::NotOne => Some(0),
        Form::Space => None,
        Form::Base => Some(0),
        Form::Array => None,
        Form::Operations => None,
    }
}

fn value_cost(form: Form, value: &[u8]) -> Option<usize>
    ensures { result ≡ cost_of form (Some value.now) }
{
    match form {
        Form::Absent => None,
        Form::Number { least, most } => {
            let number = unsigned_in(value)?;
            if least <= number && number <= most {
                Some(0)
            } else {
                None
            }
        }
        Form::NotOne => {
            if unsigned_in(value) == Some(1) {
                None
            } else {
                Some(0)
            }
        }
        Form::Space => Some(shortest_size(u32::try_from(unsigned_in(value)?).ok()?)),
        Form::Base => base_cost(unsigned_in(value)?),
        Form::Array => array_cost(value),
        Form::Operations => operations_cost(value),
    }
}

fn base_cost(base: u64) -> Option<usize>
    ensures { result ≡ (if nat_le base 1 then Some (base_cost base) else None) }
{
    match base {
        0 => Some(0),
        1 => Some(2),
        _ => None,
    }
}

fn array_cost(value: &[u8]) -> Option<usize>
    ensures { result ≡ cost_of Array (Some value.now) }
{
    array_in(value)?;
    Some(value.len())
}

fn operations_cost(value: &[u8]) -> Option<usize>
    ensures { result ≡ cost_of Operations (Some value.now) }
{
    match first_fault(array_in(value)?) {
        Some(_) => None,
        None => Some(value.len()),
    }
}

/// The least cost of a value of the form that begins with these bytes and is longer.
pub(crate) fn least_from(most: usize, form: Form, bytes: &[u8]) -> Option<usize>
    ensures { IsLeast (CostsAt most form bytes.now) result }
{
    match form {
        Form::Absent => None,
        Form::Number {
            least,
            most: greatest,
        } => number_cost(least, greatest, number_range(bytes)),
        Form::NotOne => any_cost(value_completion(ROOM_INSIDE, bytes)),
        Form::Space => space_cost(most, number_range(bytes)),
        Form::Base => least_base(most, number_range(bytes)),
        Form::Array => long_cost(most, bytes.len(), array_completion(ROOM_INSIDE, bytes)),
        Form::Operations => long_cost(most, bytes.len(), operations_completion(bytes)),
    }
}

/// A number from the least one to the greatest one costs nothing.
fn number_cost(least: u64, greatest: u64, range: Option<NumberRange>) -> Option<usize>
    ensures { result ≡ number_cost least greatest range }
{
    let range = range?;
    if least <= greatest && least <= range.most && range.least <= greatest {
        Some(0)
    } else {
        None
    }
}

/// The lesser a number, the shorter its shortest spelling.
fn space_cost(most: usize, range: Option<NumberRange>) -> Option<usize>
    ensures { result ≡ space_cost most range }
{
    let number = u32::try_from(range?.least).ok()?;
    within(most, shortest_size(number))
}

fn least_base(most: usize, range: Option<NumberRange>) -> Option<usize>
    ensures { result ≡ least_base most range }
{
    match range?.least {
        0 => Some(0),
        1 => within(most, 2),
        _ => None,
    }
}

#[tactic(auto, unfolding(mx_msgpack::specs::Spelling::shortest_unsigned))]
fn shortest_size(number: u32) -> usize
    ensures { result ≡ length (shortest_unsigned number) }
{
    match number {
        0..=0x7f => 1,
        0x80..=0xff => 2,
        0x100..=0xffff => 3,
        _ => 5,
    }
}

/// Whatever begins a value can become one that isn't the number 1.
fn any_cost(completion: Completion) -> Option<usize>
    ensures { result ≡ any_cost completion }
{
    match completion {
        Completion::Missing { .. } => Some(0),
        Completion::Whole { .. } => None,
        Completion::Impossible => None,
    }
}

fn long_cost(most: usize, size: usize, completion: Completion) -> Option<usize>
    ensures { result ≡ long_cost most size completion }
{
    match completion {
        Completion::Missing { least } => sum_within(most, Some(size), Some(least)),
        Completion::Whole { .. } => None,
        Completion::Impossible => None,
    }
}
