//! Why a header and a body are no request.

use mx_base::{Refusal, StreamId, SyncId};
use std::alloc::AllocError;

/// What comes in place of a request.
#[derive(Drop)]
pub enum RequestFault {
    /// The request is refused. `sync` and `stream` are those of its header where they are there and
    /// numbers of 0 or more, else 0.
    Refused {
        sync: SyncId,
        stream: StreamId,
        refusal: Refusal,
    },
    NoMemory,
}

impl From<AllocError> for RequestFault {
    ghost use Rattle.std.specs.Prelude.{◌≡◌};
    ghost use Rattle.mx_request.specs.declared.fault.RequestFault.TheVariants.{NoMemory};

    ghost from_gives = { λ _ e. e ≡ NoMemory };

    fn from(_error: AllocError) -> RequestFault {
        RequestFault::NoMemory
    }
}
