//! Statements where they stand in their requests.

ghost use Rattle.std.specs.Prelude.{◌≡◌, ◌&&◌, IfSome};
ghost use Rattle.std.specs.Option.{option_map};
ghost use Rattle.mx_request.specs.InPlace.{request_view};
ghost use Rattle.mx_request.specs.Spelling.{IsAskable};
ghost use Rattle.mx_write.specs.Writable.{describes_schema};
ghost use Rattle.mx_write.specs.Writes.{TupleIsBytes, write_in};
ghost use Rattle.mx_model.specs.RunAlone.{writes};
ghost use Rattle.mx_model.specs.statements.Select.{iterator_of};
ghost use Rattle.mx_model.specs.statements.Statement.{statement_of};
ghost use Rattle.mx_engine.specs.StatementViews.{AreKeysArrays, statement_view};

use mx_base::{IndexId, SpaceId};
use mx_model::iterator_of;
use mx_request::{Request, RequestRef};
use mx_schema::array_or_empty;
use mx_space::Pick;
use mx_write::{Write, describes_schema, write_in, write_of_request};

/// A SELECT.
#[derive(Clone, Copy)]
pub(crate) struct SelectRef<'a> {
    pub space: SpaceId,
    pub index: IndexId,
    pub limit: u32,
    pub offset: u32,
    pub iterator: u8,
    pub key: &'a [u8],
}

/// A SELECT, or a write in a space.
#[derive(Clone, Copy)]
pub(crate) enum StatementRef<'a> {
    Select(SelectRef<'a>),
    Write { space: SpaceId, write: Write<'a> },
}

impl<'a> SelectRef<'a> {
    /// What it picks of its index.
    pub(crate) fn pick(&self) -> Pick<'a>
        ensures { result ≡ record { iterator = iterator_of self.now.iterator; key = self.now.key; offset = self.now.offset; limit = self.now.limit } }
    {
        Pick {
            iterator: iterator_of(self.iterator),
            key: self.key,
            offset: self.offset,
            limit: self.limit,
        }
    }
}

impl StatementRef<'_> {
    /// Whether it writes the rows that describe spaces or indexes.
    pub(crate) fn writes_schema(&self) -> bool
        ensures { result ≡ (writes (statement_view self.now).operation && describes_schema (statement_view self.now).space) }
    {
        match self {
            StatementRef::Select(_) => false,
            StatementRef::Write { space, .. } => describes_schema(*space),
        }
    }
}

/// The statement that a request in place is; `None` where it is none.
pub(crate) fn statement_in<'a>(request: &RequestRef<'a>) -> Option<StatementRef<'a>>
    requires askable { IsAskable (request_view request.now) }
    ensures arrays { IfSome result AreKeysArrays }
    ensures bytes { TupleIsBytes (write_in (request_view request.now)) }
    ensures value { option_map statement_view result ≡ statement_of (request_view request.now) }
{
    if let RequestRef::Select {
        space,
        index,
        limit,
        offset,
        iterator,
        key,
    } = *request
    {
        return Some(StatementRef::Select(SelectRef {
            space,
            index,
            limit,
            offset,
            iterator,
            key,
        }));
    }
    let (space, write) = write_in(request)?;
    Some(StatementRef::Write { space, write })
}

/// The statement that a request is; `None` where it is none. A tuple or key that is no array is taken as one
/// without items.
pub(crate) fn statement_of(request: &Request) -> Option<StatementRef<'_>>
    ensures arrays { IfSome result AreKeysArrays }
    ensures bytes { TupleIsBytes (write_in request.now) }
    ensures value { IsAskable request.now → option_map statement_view result ≡ statement_of request.now }
{
    if let Request::Select {
        space,
        index,
        limit,
        offset,
        iterator,
        key,
    } = request
    {
        return Some(StatementRef::Select(SelectRef {
            space: *space,
            index: *index,
            limit: *limit,
            offset: *offset,
            iterator: *iterator,
            key: array_or_empty(key.as_slice()),
        }));
    }
    let (space, write) = write_of_request(request)?;
    Some(StatementRef::Write { space, write })
}
