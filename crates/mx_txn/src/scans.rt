//! Searches in the states of all slots.

ghost use Rattle.std.specs.Prelude.{◌≡◌, ℕ, ◌<◌, ◌≤◌, ◌-◌, length, IsSome};
ghost use Rattle.std.specs.FinMap.{get};
ghost use Rattle.mx_txn.specs.Slots.{max_open, IsOldestView, Txns};
ghost use Rattle.mx_txn.specs.Views.{lesser_of, AreVacantFrom, IsFirstVacant, state_at, txns_of, with_state};

use crate::slot::MAX_OPEN;
use crate::state::{TxnState, view_in};

pub(crate) fn first_vacant(states: &[Option<TxnState>], from: u32) -> Option<u32>
    requires { length states.now ≡ max_open }
    ensures { IsFirstVacant states.now from result }
{
    for number in from..MAX_OPEN {
        if states[number as usize].is_none() {
            return Some(number);
        }
    }
    None
}

/// The least number, at most `used`, from which on each slot is vacant.
pub(crate) fn used_below(states: &[Option<TxnState>], mut used: u32) -> u32
    requires within { used ≤ length states.now }
    requires vacant { AreVacantFrom states.now used }
    ensures less { result ≤ used }
    ensures vacant { AreVacantFrom states.now result }
    ensures last { 0 < result → IsSome (state_at states.now (result - 1)) }
{
    while used > 0 && states[used as usize - 1].is_none() {
        used -= 1;
    }
    used
}

/// The least view of these states, which come of others by one slot's change from `before` to `after`,
/// where `oldest` was the least view of those.
pub(crate) fn oldest_after(
    states: &[Option<TxnState>],
    oldest: Option<u64>,
    before: Option<TxnState>,
    after: Option<TxnState>,
) -> Option<u64>
    ensures { (txns : Txns) (slot : ℕ) → get txns slot ≡ before → txns_of states.now ≡ with_state txns slot after
        → IsOldestView txns oldest → IsOldestView (txns_of states.now) result }
{
    let ended = view_in(before);
    if ended.is_some() && ended == oldest {
        return oldest_of(states);
    }
    lesser_of(oldest, view_in(after))
}

fn oldest_of(states: &[Option<TxnState>]) -> Option<u64>
    ensures { IsOldestView (txns_of states.now) result }
{
    let mut oldest = None;
    for state in states {
        oldest = lesser_of(oldest, view_in(*state));
    }
    oldest
}

fn lesser_of(first: Option<u64>, second: Option<u64>) -> Option<u64>
    ensures { result ≡ lesser_of first second }
{
    match (first, second) {
        (Some(first), Some(second)) => Some(first.min(second)),
        (Some(number), None) | (None, Some(number)) => Some(number),
        (None, None) => None,
    }
}
