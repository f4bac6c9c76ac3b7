//! The calls of `mx_base`. A refusal is written as its name and its fields, names of spaces and indexes
//! in hexadecimal.

use crate::vclock::clock_of;
use mx_arguments::{Arguments, Fault, Hex, Text, no_call};
use mx_base::{
    IndexId, Lsn, Name, Reach, Refusal, ReplicaId, SpaceId, TypeName, Unsupported, code_of, text_of,
};
use std::alloc::AllocError;

/// The answer of the call of this name.
pub fn answer(call: &str, arguments: &mut Arguments<'_>) -> Result<String, AllocError> {
    match call {
        "refusal" => refused(arguments),
        "names" => names(arguments),
        _ => no_call(arguments),
    }
}

/// The number and the text of a refusal.
fn refused(arguments: &mut Arguments<'_>) -> Result<String, AllocError> {
    let alloc = arguments.alloc();
    let refusal = refusal_of(arguments);
    let code = code_of(&refusal);
    let text = text_of(alloc, &refusal)?;
    format!(in alloc; "{code} {}", Text(text.as_slice()))
}

/// The next arguments as a refusal.
pub(crate) fn refusal_of(arguments: &mut Arguments<'_>) -> Refusal {
    let name = arguments.text();
    match plain(name) {
        Some(refusal) => refusal,
        None => of_numbers(name, arguments),
    }
}

/// A refusal without fields.
fn plain(name: &str) -> Option<Refusal> {
    match name {
        "OutOfMemory" => Some(Refusal::OutOfMemory),
        "BadSpaceRow" => Some(Refusal::BadSpaceRow),
        "BadIndexRow" => Some(Refusal::BadIndexRow),
        "NotMessagePack" => Some(Refusal::NotMessagePack),
        "UnknownOperator" => Some(Refusal::UnknownOperator),
        "TransactionOpen" => Some(Refusal::TransactionOpen),
        "Conflict" => Some(Refusal::Conflict),
        "AllTransactionsOpen" => Some(Refusal::AllTransactionsOpen),
        "TransactionTooLong" => Some(Refusal::TransactionTooLong),
        "AllOfConnectionOpen" => Some(Refusal::AllOfConnectionOpen),
        "ResultTooLong" => Some(Refusal::ResultTooLong),
        "LsnsUsedUp" => Some(Refusal::LsnsUsedUp),
        "ReplicaIdsUsedUp" => Some(Refusal::ReplicaIdsUsedUp),
        "AllViewsUsed" => Some(Refusal::AllViewsUsed),
        _ => None,
    }
}

/// A refusal whose fields are numbers, or one of those below.
fn of_numbers(name: &str, arguments: &mut Arguments<'_>) -> Refusal {
    match name {
        "IllegalValue" => Refusal::IllegalValue {
            key: arguments.number(),
        },
        "MissingKey" => Refusal::MissingKey {
            key: arguments.number(),
        },
        "ReadOnly" => Refusal::ReadOnly {
            writable: ReplicaId(arguments.number()),
        },
        "KeyPartCount" => Refusal::KeyPartCount {
            parts: arguments.number(),
            index: arguments.number(),
        },
        "BadArgument" => Refusal::BadArgument {
            operation: arguments.number(),
        },
        "IntegerOverflow" => Refusal::IntegerOverflow {
            operation: arguments.number(),
        },
        "SpaceMissing" => Refusal::SpaceMissing {
            space: SpaceId(arguments.number()),
        },
        "FieldCount" => Refusal::FieldCount {
            fields: arguments.number(),
            expected: arguments.number(),
        },
        "FieldMissing" => Refusal::FieldMissing {
            field: arguments.number(),
        },
        "UnknownRequestType" => Refusal::UnknownRequestType {
            kind: arguments.number(),
        },
        "TupleTooLong" => Refusal::TupleTooLong {
            bytes: arguments.number(),
        },
        "Overtaken" => Refusal::Overtaken {
            lsn: Lsn(arguments.number()),
        },
        _ => of_kind(name, arguments),
    }
}

/// A refusal with a type or what isn't supported, or with vclocks, or one of those below.
fn of_kind(name: &str, arguments: &mut Arguments<'_>) -> Refusal {
    match name {
        "Unsupported" => Refusal::Unsupported {
            what: unsupported(arguments),
        },
        "KeyPartType" => Refusal::KeyPartType {
            part: arguments.number(),
            expected: type_name(arguments),
        },
        "FieldType" => Refusal::FieldType {
            field: arguments.number(),
            expected: type_name(arguments),
        },
        "OutsideJournal" => outside_journal(arguments),
        _ => of_names(name, arguments),
    }
}

fn unsupported(arguments: &mut Arguments<'_>) -> Unsupported {
    let text = arguments.text();
    match text {
        "Authentication" => Unsupported::Authentication,
        "SchemaInTransaction" => Unsupported::SchemaInTransaction,
        "SchemaInPlace" => Unsupported::SchemaInPlace,
        "SystemSpaceWrite" => Unsupported::SystemSpaceWrite,
        "HashIterator" => Unsupported::HashIterator,
        _ => {
            arguments.refuse_text("feature that isn't supported", text);
            Unsupported::HashIterator
        }
    }
}

fn type_name(arguments: &mut Arguments<'_>) -> TypeName {
    let text = arguments.text();
    match text {
        "Unsigned" => TypeName::Unsigned,
        "Integer" => TypeName::Integer,
        "String" => TypeName::String,
        "Boolean" => TypeName::Boolean,
        "Varbinary" => TypeName::Varbinary,
        "Scalar" => TypeName::Scalar,
        "Array" => TypeName::Array,
        "Map" => TypeName::Map,
        _ => {
            arguments.refuse_text("type", text);
            TypeName::Scalar
        }
    }
}

fn outside_journal(arguments: &mut Arguments<'_>) -> Refusal {
    let reach = Reach {
        asked: clock_of(arguments),
        first: clock_of(arguments),
        last: clock_of(arguments),
    };
    match Box::new(arguments.alloc(), reach) {
        Ok(reached) => Refusal::OutsideJournal { reached },
        Err(_) => {
            arguments.refuse(Fault::NoMemory);
            Refusal::OutOfMemory
        }
    }
}

/// A refusal with the names of a space and an index.
fn of_names(name: &str, arguments: &mut Arguments<'_>) -> Refusal {
    match name {
        "SpaceExists" => Refusal::SpaceExists {
            space: name_of(arguments),
        },
        "SpaceHasIndexes" => Refusal::SpaceHasIndexes {
            space: name_of(arguments),
        },
        "PrimaryIndexLast" => Refusal::PrimaryIndexLast {
            space: name_of(arguments),
        },
        "PrimaryKeyChanged" => Refusal::PrimaryKeyChanged {
            space: name_of(arguments),
        },
        "DuplicateKey" => Refusal::DuplicateKey {
            index: name_of(arguments),
            space: name_of(arguments),
        },
        "IndexNotUnique" => Refusal::IndexNotUnique {
            index: name_of(arguments),
            space: name_of(arguments),
        },
        "IndexMissing" => Refusal::IndexMissing {
            index: IndexId(arguments.number()),
            space: name_of(arguments),
        },
        _ => {
            arguments.refuse_text("refusal", name);
            Refusal::OutOfMemory
        }
    }
}

/// The next argument as a name.
fn name_of(arguments: &mut Arguments<'_>) -> Name {
    let alloc = arguments.alloc();
    match arguments.bytes().as_slice().to_vec(alloc) {
        Ok(bytes) => Name::from_vec(bytes),
        Err(_) => {
            arguments.refuse(Fault::NoMemory);
            Name::from_vec(Vec::new(alloc))
        }
    }
}

/// The bytes of two names, one a copy and the other a vector's, and whether they are the same.
fn names(arguments: &mut Arguments<'_>) -> Result<String, AllocError> {
    let alloc = arguments.alloc();
    let bytes = arguments.bytes();
    let name = Name::from_slice(alloc, bytes.as_slice())?;
    let other = name_of(arguments);
    let same = name == other;
    format!(in alloc; "{} {} {same}", Hex(name.as_slice()), Hex(other.as_slice()))
}
