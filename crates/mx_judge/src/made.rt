//! What a write makes: a row of the journal, a change of the state, and the tuples of its reply.

ghost use Rattle.std.specs.Prelude.{◌≡◌, ◌<◌, ◌≤◌, length, MatchResult};
ghost use Rattle.mx_base.specs.declared.refusal.Refusal.TheVariants.{TransactionTooLong};
ghost use Rattle.mx_row.specs.Rows.{max_body_size, row_body_text};
ghost use Rattle.mx_row.specs.Views.{row_value};
ghost use Rattle.mx_write.specs.Made.{row_with};
ghost use Rattle.mx_write.specs.Views.{write_view};

use mx_base::{Refusal, SpaceId};
use mx_msgpack::Bytes;
use mx_row::{MAX_BODY_SIZE, RowRef, row_size};
use mx_write::{DELETE, INSERT, REPLACE, UPDATE, UPSERT, Write};

/// What a write makes of the tuple under one primary key of its space.
#[derive(Drop)]
pub struct Made {
    /// The comparable bytes of the primary key.
    pub key: Bytes,
    /// The primary key as an array, where the write's row has it.
    pub row_key: Bytes,
    pub effect: Effect,
}

#[derive(Drop)]
pub enum Effect {
    /// The tuple stands there now. The reply may show it.
    Put { tuple: Bytes, is_shown: bool },
    /// This tuple stood there, and none does now. The reply shows it.
    Removed { tuple: Bytes },
}

/// The row of a write: the request, with the primary key, which is this array, in place of its key.
pub fn row_of<'a, 'w: 'a>(space: SpaceId, write: &Write<'w>, key: &'a [u8]) -> RowRef<'a>
    ensures { row_value result ≡ row_with space.0 (write_view write.now) key.now }
{
    let none: &'a [u8] = &[];
    let (kind, index_base, tuple, key, ops) = match *write {
        Write::Insert { tuple } => (INSERT, 0, tuple, none, none),
        Write::Replace { tuple } => (REPLACE, 0, tuple, none, none),
        Write::Update {
            base,
            operations,
            ..
        } => (UPDATE, base, none, key, operations),
        Write::Delete { .. } => (DELETE, 0, none, key, none),
        Write::Upsert {
            base,
            tuple,
            operations,
        } => (UPSERT, base, tuple, none, operations),
    };
    RowRef {
        kind,
        space,
        index_base,
        tuple,
        key,
        ops,
    }
}

/// What a write makes, unless its row is too long.
///
/// # Errors
/// The refusal of a row that is too long.
pub fn make(
    space: SpaceId,
    write: &Write<'_>,
    key: Bytes,
    row_key: Bytes,
    effect: Effect,
) -> Result<Made, Refusal>
    ensures { MatchResult result
        (λ made. (made ≡ record { key = key; row_key = row_key; effect = effect })
        × (length (row_body_text (row_with space.0 (write_view write.now) row_key)) ≤ max_body_size))
        (λ refusal. (refusal ≡ TransactionTooLong) × (max_body_size < length (row_body_text (row_with space.0 (write_view write.now) row_key)))) }
{
    let row = row_of(space, write, row_key.as_slice());
    if row_size(&row) > MAX_BODY_SIZE {
        return Err(Refusal::TransactionTooLong);
    }
    Ok(Made {
        key,
        row_key,
        effect,
    })
}
