//! The least cost of a map that more bytes may follow.

ghost use Rattle.std.specs.Prelude.{◌≡◌, ◌≤◌, length};
ghost use Rattle.std.specs.Option.{option_map};
ghost use Rattle.mx_msgpack.specs.Maps.{pairs_from};
ghost use Rattle.mx_completion.specs.Choices.{BecomesMap, BeginsMapAs, IsChoice, IsKept};
ghost use Rattle.mx_completion.specs.Costs.{AreKeys, CostsOf, IsLeast};

use crate::costs::{cost_of, least_from};
use crate::field::Field;
use crate::head::{Head, head_at};
use crate::leading::Kind;
use crate::pairs::{Begun, begun_pairs, last_value};
use crate::sums::{Choice, least_sum, within};
use mx_msgpack::MAX_LENGTH;

/// The least that the fields can cost in a map that the bytes can become with one more byte or more, up to
/// this cost; `None` where no such map has them.
pub fn least_cost(most: usize, fields: &[Field], bytes: &[u8]) -> Option<usize>
    requires keys { AreKeys fields.now }
    requires few { length fields.now ≤ 8 }
    ensures { IsLeast (CostsOf most fields.now bytes.now) result }
{
    let begun = begun_map(fields.len(), bytes)?;
    let mut choices = [Choice {
        kept: None,
        anew: None,
    }; 8];
    for (place, field) in fields.iter().enumerate() {
        choices[place] = choice_of(most, *field, &begun);
    }
    least_sum(most, &choices[..fields.len()], begun.free)
}

/// What the bytes begin as a map; `None` where they can become none.
fn begun_map(fields: usize, bytes: &[u8]) -> Option<Begun<'_>>
    requires few { fields ≤ 8 }
    ensures { BeginsMapAs fields (BecomesMap bytes.now) result }
{
    match head_at(Kind::Map, bytes)? {
        Head::Cut { count, .. } => {
            if count > MAX_LENGTH as usize {
                return None;
            }
            // As many pairs as there are fields can follow.
            Some(Begun {
                count: 0,
                pairs: &[],
                cut: None,
                free: fields,
            })
        }
        Head::Full { count, size } => {
            if count > MAX_LENGTH as usize {
                return None;
            }
            begun_pairs(count, bytes.split_at(size).1)
        }
    }
}

fn choice_of(most: usize, field: Field, begun: &Begun<'_>) -> Choice
    ensures { IsChoice most (pairs_from begun.now.count begun.now.pairs.now) (option_map (λ cut. (cut.0, cut.1.now)) begun.now.cut) field result }
{
    Choice {
        kept: kept_cost(most, field, begun),
        anew: least_from(most, field.form, &[]),
    }
}

fn kept_cost(most: usize, field: Field, begun: &Begun<'_>) -> Option<usize>
    ensures { IsKept most (pairs_from begun.now.count begun.now.pairs.now) (option_map (λ cut. (cut.0, cut.1.now)) begun.now.cut) field result }
{
    match begun.cut {
        Some((key, value)) if key == u64::from(field.key) => least_from(most, field.form, value),
        _ => {
            let cost = cost_of(field.form, last_value(field.key, begun.count, begun.pairs))?;
            within(most, cost)
        }
    }
}
