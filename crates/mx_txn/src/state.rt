//! The state of an open transaction.

ghost use Rattle.std.specs.Prelude.{◌≡◌, ◌≢◌, Some, MatchBool};
ghost use Rattle.mx_txn.specs.Views.{view_in};

/// What an open transaction reads, by the numbers of commits.
#[derive(Clone, Copy, PartialEq, Eq)]
pub enum TxnState {
    /// It began after this commit, and reads the newest state.
    Active { since: u64 },
    /// It reads the state after this commit.
    View { at: u64 },
    /// This commit conflicts with it.
    Aborted { by: u64 },
}

/// Which commit's state the transaction of a slot reads, where it has a view.
pub(crate) fn view_in(state: Option<TxnState>) -> Option<u64>
    ensures { result ≡ view_in state }
{
    match state {
        Some(TxnState::View { at }) => Some(at),
        _ => None,
    }
}

/// Whether the transaction of a slot reads the state after this commit.
pub(crate) fn is_view(state: Option<TxnState>, at: u64) -> bool
    ensures { MatchBool result (state ≡ Some (TxnState.View at)) (state ≢ Some (TxnState.View at)) }
{
    match state {
        Some(TxnState::View { at: place }) => place == at,
        _ => false,
    }
}
