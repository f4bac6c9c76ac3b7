//! Why a request is refused: a number and a text.

ghost use Rattle.std.specs.Prelude.{◌≡◌};
ghost use Rattle.mx_base.specs.declared.refusal.Refusal.TheVariants.{OutOfMemory};
ghost use Rattle.mx_base.specs.Refusals as refusals;

use crate::ids::{IndexId, Lsn, ReplicaId, SpaceId};
use crate::kinds::{TypeName, Unsupported};
use crate::name::Name;
use mx_vclock::Vclock;
use std::alloc::AllocError;

/// A refusal. Fields, key parts and operations count from 0.
#[derive(Debug, Drop)]
pub enum Refusal {
    /// The value under this key of a header or body is of the wrong type or out of range.
    IllegalValue { key: u8 },
    /// An allocation failed.
    OutOfMemory,
    /// Another tuple has the same key in this index.
    DuplicateKey { index: Name, space: Name },
    /// What is asked isn't supported.
    Unsupported { what: Unsupported },
    /// The node takes no writes; this one's does.
    ReadOnly { writable: ReplicaId },
    /// The row describes no space.
    BadSpaceRow,
    /// The space is there already.
    SpaceExists { space: Name },
    /// The space can't be dropped, since it has indexes.
    SpaceHasIndexes { space: Name },
    /// The row describes no index.
    BadIndexRow,
    /// The space's primary index can't be dropped before its other ones.
    PrimaryIndexLast { space: Name },
    /// A part of a key is of another type.
    KeyPartType { part: u32, expected: TypeName },
    /// A key has another number of parts than the index takes.
    KeyPartCount { parts: u32, index: u32 },
    /// A packet isn't one or two maps.
    NotMessagePack,
    /// A field of a tuple is of another type.
    FieldType { field: u32, expected: TypeName },
    /// No update operator has this letter.
    UnknownOperator,
    /// An update operation isn't of its operator's form, or can't be applied.
    BadArgument { operation: u32 },
    /// The space has no such index.
    IndexMissing { index: IndexId, space: Name },
    /// No space has this number.
    SpaceMissing { space: SpaceId },
    /// A tuple has another number of fields than its space asks for.
    FieldCount { fields: u32, expected: u32 },
    /// A tuple has no such field.
    FieldMissing { field: u32 },
    /// A write needs a unique index.
    IndexNotUnique { index: Name, space: Name },
    /// No request has this type.
    UnknownRequestType { kind: u64 },
    /// A header or body lacks this key.
    MissingKey { key: u8 },
    /// The stream has an open transaction already.
    TransactionOpen,
    /// A write would change a tuple's primary key.
    PrimaryKeyChanged { space: Name },
    /// The result of an update operation is outside the range of integers.
    IntegerOverflow { operation: u32 },
    /// The transaction read what a later commit has changed.
    Conflict,
    /// No further transaction can be opened.
    AllTransactionsOpen,
    /// A transaction has too many rows or bytes.
    TransactionTooLong,
    /// A tuple has more bytes than a tuple may.
    TupleTooLong { bytes: u64 },
    /// No further transaction can be opened on the connection.
    AllOfConnectionOpen,
    /// A replica can't be fed from where it is.
    OutsideJournal { reached: Box<Reach> },
    /// A schema commit came after the view was begun.
    Overtaken { lsn: Lsn },
    /// A result has more bytes than one may.
    ResultTooLong,
    /// The next lsn would pass the greatest one.
    LsnsUsedUp,
    /// No further replica can be registered.
    ReplicaIdsUsedUp,
    /// No further view can be begun.
    AllViewsUsed,
}

/// Where a replica is, and from where to where it could be fed.
#[derive(Clone, Copy, Debug, Drop)]
pub struct Reach {
    pub asked: Vclock,
    pub first: Vclock,
    pub last: Vclock,
}

impl From<AllocError> for Refusal {
    ghost from_gives = { λ _ e. e ≡ OutOfMemory };

    fn from(_fault: AllocError) -> Refusal {
        Refusal::OutOfMemory
    }
}

/// The refusal's number.
pub fn code_of(refusal: &Refusal) -> u16
    ensures { result ≡ refusals.code_of refusal.now }
{
    match refusal {
        Refusal::IllegalValue { .. } => 1,
        Refusal::OutOfMemory => 2,
        Refusal::DuplicateKey { .. } => 3,
        Refusal::Unsupported { .. } => 5,
        Refusal::ReadOnly { .. } => 7,
        Refusal::BadSpaceRow => 9,
        Refusal::SpaceExists { .. } => 10,
        Refusal::SpaceHasIndexes { .. } => 11,
        Refusal::BadIndexRow => 14,
        Refusal::PrimaryIndexLast { .. } => 17,
        Refusal::KeyPartType { .. } => 18,
        Refusal::KeyPartCount { .. } => 19,
        Refusal::NotMessagePack => 20,
        Refusal::FieldType { .. } => 23,
        Refusal::UnknownOperator => 28,
        Refusal::BadArgument { .. } => 29,
        Refusal::IndexMissing { .. } => 35,
        Refusal::SpaceMissing { .. } => 36,
        Refusal::FieldCount { .. } => 38,
        Refusal::FieldMissing { .. } => 39,
        Refusal::IndexNotUnique { .. } => 41,
        Refusal::UnknownRequestType { .. } => 48,
        Refusal::MissingKey { .. } => 69,
        Refusal::TransactionOpen => 79,
        Refusal::PrimaryKeyChanged { .. } => 94,
        Refusal::IntegerOverflow { .. } => 95,
        Refusal::Conflict => 97,
        Refusal::AllTransactionsOpen => 201,
        Refusal::TransactionTooLong => 202,
        Refusal::TupleTooLong { .. } => 203,
        Refusal::AllOfConnectionOpen => 204,
        Refusal::OutsideJournal { .. } => 205,
        Refusal::Overtaken { .. } => 206,
        Refusal::ResultTooLong => 207,
        Refusal::LsnsUsedUp => 208,
        Refusal::ReplicaIdsUsedUp => 209,
        Refusal::AllViewsUsed => 210,
    }
}
