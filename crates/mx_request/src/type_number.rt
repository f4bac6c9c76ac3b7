//! The numbers of the request types (IPROTO, "Request codes").

ghost use Rattle.std.specs.Prelude.{◌≡◌};
ghost use Rattle.mx_request.specs.InPlace.{request_view};
ghost use Rattle.mx_request.specs.Spelling.{type_number};

use crate::request::Request;
use crate::request_ref::RequestRef;

impl Request {
    /// The number of the request's type.
    pub fn kind(&self) -> u8
        ensures { result ≡ type_number self.now }
    {
        match self {
            Request::Ack { .. } => 0,
            Request::Select { .. } => 1,
            Request::Insert { .. } => 2,
            Request::Replace { .. } => 3,
            Request::Update { .. } => 4,
            Request::Delete { .. } => 5,
            Request::Upsert { .. } => 9,
            Request::Nop => 12,
            Request::Begin => 14,
            Request::Commit => 15,
            Request::Rollback => 16,
            Request::Ping => 64,
            Request::Join { .. } => 65,
            Request::Subscribe { .. } => 66,
            Request::Id => 73,
        }
    }
}

impl RequestRef<'_> {
    /// The number of the request's type.
    pub fn kind(&self) -> u8
        ensures { result ≡ type_number (request_view self.now) }
    {
        match self {
            RequestRef::Ack { .. } => 0,
            RequestRef::Select { .. } => 1,
            RequestRef::Insert { .. } => 2,
            RequestRef::Replace { .. } => 3,
            RequestRef::Update { .. } => 4,
            RequestRef::Delete { .. } => 5,
            RequestRef::Upsert { .. } => 9,
            RequestRef::Nop => 12,
            RequestRef::Begin => 14,
            RequestRef::Commit => 15,
            RequestRef::Rollback => 16,
            RequestRef::Ping => 64,
            RequestRef::Join { .. } => 65,
            RequestRef::Subscribe { .. } => 66,
            RequestRef::Id => 73,
        }
    }
}
