//! How many bytes a row's body takes.

ghost use Rattle.std.specs.Prelude.{◌≡◌, ◌<◌, ◌≤◌, ◌^◌, ◌+◌, ◌-◌, length};
ghost use Rattle.mx_msgpack.specs.Spelling.{shortest_unsigned};
ghost use Rattle.mx_base.specs.Keys.{base_key};
ghost use Rattle.mx_request.specs.Spelling.{unless_default};
ghost use Rattle.mx_request.proofs.WriterLaws.{pairs_text};
ghost use Rattle.mx_row.specs.Rows.{row_body_text};
ghost use Rattle.mx_row.specs.Views.{row_value};

use crate::row_ref::RowRef;
use crate::row_types;

/// The maximum size of a row's body in bytes, spelled shortest.
pub const MAX_BODY_SIZE: usize = 2_097_120;

/// How many bytes the row's body takes, spelled shortest, and `usize::MAX` where there are more.
#[inline]
pub fn row_size(row: &RowRef<'_>) -> usize
    ensures exact { length (row_body_text (row_value row.now)) < 2 ^ 64 → result ≡ length (row_body_text (row_value row.now)) }
    ensures most { 2 ^ 64 ≤ length (row_body_text (row_value row.now)) → result ≡ 2 ^ 64 - 1 }
{
    let space = 2 + spelled_len(row.space.0);
    let kind = row.kind;
    if kind == row_types::UPDATE {
        sum(space + base_size(row.index_base) + 2, row.key, row.ops)
    } else if kind == row_types::DELETE {
        sum(space + 1, row.key, &[])
    } else if kind == row_types::UPSERT {
        sum(space + base_size(row.index_base) + 2, row.tuple, row.ops)
    } else {
        sum(space + 1, row.tuple, &[])
    }
}

#[inline]
fn sum(few: usize, first: &[u8], second: &[u8]) -> usize
    requires { few ≤ 20 }
    ensures exact { few + length first.now + length second.now < 2 ^ 64 → result ≡ few + length first.now + length second.now }
    ensures most { 2 ^ 64 ≤ few + length first.now + length second.now → result ≡ 2 ^ 64 - 1 }
{
    first.len().saturating_add(second.len()).saturating_add(few)
}

/// The size of the base with its key, where it isn't 0.
#[inline]
fn base_size(base: u32) -> usize
    ensures exact { result ≡ length (pairs_text (unless_default base_key 0 base)) }
    ensures few { result ≤ 6 }
{
    if base == 0 { 0 } else { 1 + spelled_len(base) }
}

#[inline]
#[tactic(auto, unfolding(mx_msgpack::specs::Spelling::shortest_unsigned))]
fn spelled_len(number: u32) -> usize
    ensures exact { result ≡ length (shortest_unsigned number) }
    ensures few { result ≤ 5 }
{
    match number {
        0..=0x7f => 1,
        0x80..=0xff => 2,
        0x100..=0xffff => 3,
        _ => 5,
    }
}
