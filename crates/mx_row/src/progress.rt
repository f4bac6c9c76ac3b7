//! The rows of a transaction that were read so far.

ghost use Rattle.std.specs.Prelude.{◌≡◌, ◌≤◌, length, true};
ghost use Rattle.mx_row.specs.Bodies.{max_body_size, row_body_text};
ghost use Rattle.mx_row.specs.Cuts.{has_room_behind, is_lsn_left, leads_on, may_follow, no_rows, and_row};
ghost use Rattle.mx_row.specs.Views.{row_value};

use crate::header::Header;
use crate::limits::{MAX_ROWS, MAX_TRANSACTION_SIZE, ROW_HEADER_SIZE};
use crate::reading::{comes_next, ends_transaction, row_number};
use crate::row_ref::RowRef;
use crate::size::row_size;
use mx_vclock::MAX_LSN;

/// How many bytes the smallest row takes, as the limits of a transaction count them.
pub(crate) const MIN_ROW_SIZE: usize = 37;

/// The first rows of a transaction, of which the last one doesn't end it.
#[derive(Clone, Copy)]
pub(crate) struct Progress {
    pub(crate) count: usize,
    /// How many bytes they take, as the limits of a transaction count them.
    pub(crate) size: usize,
    pub(crate) last: Option<Header>,
}

impl Progress {
    /// No row.
    pub(crate) fn none() -> Progress
        ensures { result ≡ no_rows }
    {
        Progress {
            count: 0,
            size: 0,
            last: None,
        }
    }

    /// Whether a row with this header may follow the last one, or be the first one.
    pub(crate) fn may_follow(&self, header: &Header) -> bool
        ensures { result ≡ may_follow self.now.last header.now }
    {
        match self.last {
            Some(last) => comes_next(&last, header),
            None => row_number(header.place) == 0,
        }
    }

    /// Whether the row may follow, and one more may follow it.
    pub(crate) fn leads_on(&self, header: &Header, row: &RowRef<'_>) -> bool
        requires room { has_room_behind self.now ≡ true }
        requires short { length (row_body_text (row_value row.now)) ≤ max_body_size }
        ensures { result ≡ leads_on self.now header.now (row_value row.now) }
    {
        self.may_follow(header)
            && !ends_transaction(header.place)
            && self.with_row(*header, row).has_room_behind()
    }

    /// These rows, and this one behind them.
    pub(crate) fn with_row(&self, header: Header, row: &RowRef<'_>) -> Progress
        requires room { has_room_behind self.now ≡ true }
        requires short { length (row_body_text (row_value row.now)) ≤ max_body_size }
        ensures { result ≡ and_row self.now header (row_value row.now) }
    {
        Progress {
            count: self.count + 1,
            size: self.size + (row_size(row) + ROW_HEADER_SIZE),
            last: Some(header),
        }
    }

    /// Whether one more row may follow within the limits.
    fn has_room_behind(&self) -> bool
        requires { self.now.size ≤ 8388608 }
        ensures { result ≡ has_room_behind self.now }
    {
        self.count < MAX_ROWS
            && self.size + MIN_ROW_SIZE <= MAX_TRANSACTION_SIZE
            && is_lsn_left(self.last)
    }
}

fn is_lsn_left(last: Option<Header>) -> bool
    ensures { result ≡ is_lsn_left last }
{
    match last {
        Some(last) => last.lsn.0 < MAX_LSN,
        None => true,
    }
}
