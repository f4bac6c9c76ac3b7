//! The least sum of costs of which each is kept as it stands or written anew.

ghost use Rattle.std.specs.Prelude.{◌≡◌, Some};
ghost use Rattle.mx_completion.specs.Sums.{least_sum, lesser, sum_within, up_to};

/// What a field costs as the map stands, and where a pair of it is written anew.
#[derive(Clone, Copy)]
pub(crate) struct Choice {
    pub(crate) kept: Option<usize>,
    pub(crate) anew: Option<usize>,
}

/// The least sum of a cost of each choice, of which at most so many are written anew.
pub(crate) fn least_sum(most: usize, choices: &[Choice], free: usize) -> Option<usize>
    ensures { result ≡ least_sum most choices.now free }
{
    let Some((choice, others)) = choices.split_first() else {
        return Some(0);
    };
    let kept = sum_within(most, choice.kept, least_sum(most, others, free));
    if free == 0 {
        return kept;
    }
    lesser(
        kept,
        sum_within(most, choice.anew, least_sum(most, others, free - 1)),
    )
}

pub(crate) fn sum_within(most: usize, first: Option<usize>, second: Option<usize>) -> Option<usize>
    ensures { result ≡ sum_within most first second }
{
    let sum = first?.checked_add(second?)?;
    within(most, sum)
}

pub(crate) fn within(most: usize, cost: usize) -> Option<usize>
    ensures { result ≡ up_to most (Some cost) }
{
    if cost <= most { Some(cost) } else { None }
}

fn lesser(one: Option<usize>, other: Option<usize>) -> Option<usize>
    ensures { result ≡ lesser one other }
{
    match (one, other) {
        (Some(first), Some(second)) => Some(first.min(second)),
        (None, _) => other,
        (_, None) => one,
    }
}
