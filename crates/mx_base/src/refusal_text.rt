//! The texts of refusals.

ghost use Rattle.std.specs.Prelude.{◌≡◌, ◌++◌, IfOk, codes, decimal};
ghost use Rattle.mx_base.specs.declared.refusal.Refusal.TheVariants as refusal;
ghost use Rattle.mx_base.specs.Refusals.{key_text, outside_text, quoted, text_of, type_text};

use crate::ids::IndexId;
use crate::kinds::{TypeName, Unsupported};
use crate::name::Name;
use crate::refusal::{Reach, Refusal};
use crate::text::Text;
use mx_msgpack::Bytes;
use std::alloc::{AllocError, Global};

/// The refusal's text, as the client gets it.
pub fn text_of(alloc: Global, refusal: &Refusal) -> Result<Bytes, AllocError>
    ensures { IfOk result (λ text. text ≡ text_of refusal.now) }
{
    Ok(text_in(alloc, refusal)?.into_bytes())
}

fn text_in(alloc: Global, refusal: &Refusal) -> Result<Text, AllocError>
    ensures { IfOk result (λ text. text ≡ text_of refusal.now) }
{
    match refusal {
        Refusal::IllegalValue { key } => with_key(alloc, "Illegal value of key ", *key),
        Refusal::OutOfMemory => plain(alloc, "Out of memory"),
        Refusal::DuplicateKey { index, space } => duplicate_key(alloc, index, space),
        Refusal::Unsupported { what } => unsupported(alloc, *what),
        Refusal::ReadOnly { writable } => up_to_count(
            alloc,
            "Node is read-only, the writable node is ",
            u64::from(writable.0),
        ),
        Refusal::BadSpaceRow => plain(alloc, "Bad space row"),
        Refusal::SpaceExists { space } => with_name(alloc, "Space ", space, " exists"),
        Refusal::SpaceHasIndexes { space } => with_name(
            alloc,
            "Space ",
            space,
            " still has indexes",
        ),
        Refusal::BadIndexRow => plain(alloc, "Bad index row"),
        Refusal::PrimaryIndexLast { space } => with_name(
            alloc,
            "Primary index of space ",
            space,
            " has to be dropped last",
        ),
        Refusal::KeyPartType { part, expected } => with_type(alloc, "Key part ", *part, *expected),
        Refusal::KeyPartCount { parts, index } => key_part_count(alloc, *parts, *index),
        Refusal::NotMessagePack => plain(alloc, "Packet is not MessagePack"),
        Refusal::FieldType { field, expected } => with_type(alloc, "Field ", *field, *expected),
        Refusal::UnknownOperator => plain(alloc, "Unknown update operator"),
        Refusal::BadArgument { operation } => with_count(
            alloc,
            "Update operation ",
            u64::from(*operation),
            ": bad argument",
        ),
        Refusal::IndexMissing { index, space } => index_missing(alloc, *index, space),
        Refusal::SpaceMissing { space } => with_count(
            alloc,
            "Space ",
            u64::from(space.0),
            " does not exist",
        ),
        Refusal::FieldCount { fields, expected } => field_count(alloc, *fields, *expected),
        Refusal::FieldMissing { field } => with_count(
            alloc,
            "Field ",
            u64::from(*field),
            " is missing",
        ),
        Refusal::IndexNotUnique { index, space } => index_not_unique(alloc, index, space),
        Refusal::UnknownRequestType { kind } => up_to_count(alloc, "Unknown request type ", *kind),
        Refusal::MissingKey { key } => with_key(alloc, "Missing key ", *key),
        Refusal::TransactionOpen => plain(alloc, "Transaction is open in this stream"),
        Refusal::PrimaryKeyChanged { space } => with_name(
            alloc,
            "Primary key of space ",
            space,
            " is changed",
        ),
        Refusal::IntegerOverflow { operation } => with_count(
            alloc,
            "Update operation ",
            u64::from(*operation),
            ": integer overflow",
        ),
        Refusal::Conflict => plain(alloc, "Transaction has been aborted by conflict"),
        Refusal::AllTransactionsOpen => plain(alloc, "All 1024 transactions are open"),
        Refusal::TransactionTooLong => plain(alloc, "Transaction is too long"),
        Refusal::TupleTooLong { bytes } => with_count(
            alloc,
            "Tuple of ",
            *bytes,
            " bytes, 1048576 allowed",
        ),
        Refusal::AllOfConnectionOpen => plain(
            alloc,
            "All 64 transactions of the connection are open",
        ),
        Refusal::OutsideJournal { reached } => outside_journal(alloc, reached),
        Refusal::Overtaken { lsn } => up_to_count(
            alloc,
            "Overtaken by schema commit at lsn ",
            lsn.0,
        ),
        Refusal::ResultTooLong => plain(alloc, "Result is longer than 16777216 bytes"),
        Refusal::LsnsUsedUp => plain(alloc, "Log sequence numbers are used up"),
        Refusal::ReplicaIdsUsedUp => plain(alloc, "All 31 replica ids are used"),
        Refusal::AllViewsUsed => plain(alloc, "All 8 snapshot views are used"),
    }
}

fn plain(alloc: Global, words: &str) -> Result<Text, AllocError>
    ensures { IfOk result (λ text. text ≡ words.now) }
{
    let text = Text::new(alloc);
    text.words(words)
}

fn up_to_count(alloc: Global, before: &str, count: u64) -> Result<Text, AllocError>
    ensures { IfOk result (λ text. text ≡ before.now ++ decimal count) }
{
    let text = Text::new(alloc);
    text.words(before)?.number(count)
}

fn with_count(alloc: Global, before: &str, count: u64, after: &str) -> Result<Text, AllocError>
    ensures { IfOk result (λ text. text ≡ before.now ++ decimal count ++ after.now) }
{
    let text = Text::new(alloc);
    text.words(before)?.number(count)?.words(after)
}

fn with_key(alloc: Global, before: &str, key: u8) -> Result<Text, AllocError>
    ensures { IfOk result (λ text. text ≡ before.now ++ key_text key) }
{
    let text = Text::new(alloc);
    text.words(before)?.key(key)
}

fn with_name(alloc: Global, before: &str, name: &Name, after: &str) -> Result<Text, AllocError>
    ensures { IfOk result (λ text. text ≡ before.now ++ quoted name.now ++ after.now) }
{
    let text = Text::new(alloc);
    text.words(before)?.name(name)?.words(after)
}

fn with_type(
    alloc: Global,
    before: &str,
    place: u32,
    expected: TypeName,
) -> Result<Text, AllocError>
    ensures { IfOk result (λ text. text ≡ before.now ++ decimal place ++ codes ": " ++ type_text expected ++ codes " expected") }
{
    let text = Text::new(alloc);
    let text = text.words(before)?.number(u64::from(place))?;
    text.words(": ")?.words(expected.text())?.words(" expected")
}

fn duplicate_key(alloc: Global, index: &Name, space: &Name) -> Result<Text, AllocError>
    ensures { IfOk result (λ text. text ≡ text_of (refusal.DuplicateKey index.now space.now)) }
{
    let text = Text::new(alloc);
    let text = text.words("Duplicate key in unique index ")?.name(index)?;
    text.words(" of space ")?.name(space)
}

fn unsupported(alloc: Global, what: Unsupported) -> Result<Text, AllocError>
    ensures { IfOk result (λ text. text ≡ text_of (refusal.Unsupported what)) }
{
    let text = Text::new(alloc);
    text.words("Unsupported: ")?.words(what.text())
}

fn key_part_count(alloc: Global, parts: u32, index: u32) -> Result<Text, AllocError>
    ensures { IfOk result (λ text. text ≡ text_of (refusal.KeyPartCount parts index)) }
{
    let text = Text::new(alloc);
    let text = text.words("Key of ")?.number(u64::from(parts))?;
    text.words(" parts, index of ")?.number(u64::from(index))
}

fn index_missing(alloc: Global, index: IndexId, space: &Name) -> Result<Text, AllocError>
    ensures { IfOk result (λ text. text ≡ text_of (refusal.IndexMissing index space.now)) }
{
    let text = Text::new(alloc);
    let text = text.words("No index ")?.number(u64::from(index.0))?;
    text.words(" in space ")?.name(space)
}

fn field_count(alloc: Global, fields: u32, expected: u32) -> Result<Text, AllocError>
    ensures { IfOk result (λ text. text ≡ text_of (refusal.FieldCount fields expected)) }
{
    let text = Text::new(alloc);
    let text = text.words("Tuple of ")?.number(u64::from(fields))?;
    text.words(" fields, ")?
        .number(u64::from(expected))?
        .words(" expected")
}

fn index_not_unique(alloc: Global, index: &Name, space: &Name) -> Result<Text, AllocError>
    ensures { IfOk result (λ text. text ≡ text_of (refusal.IndexNotUnique index.now space.now)) }
{
    let text = Text::new(alloc);
    let text = text.words("Index ")?.name(index)?;
    text.words(" of space ")?
        .name(space)?
        .words(" is not unique")
}

fn outside_journal(alloc: Global, reached: &Reach) -> Result<Text, AllocError>
    ensures { IfOk result (λ text. text ≡ outside_text reached.now) }
{
    let text = Text::new(alloc).words("Vclock ")?.clock(&reached.asked)?;
    let text = text.words(" is not between ")?.clock(&reached.first)?;
    text.words(" and ")?.clock(&reached.last)
}
