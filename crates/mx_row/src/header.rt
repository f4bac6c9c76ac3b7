//! What the header of a row says.

use mx_base::{Lsn, ReplicaId};

/// The header of a row.
#[derive(Clone, Copy)]
pub(crate) struct Header {
    /// The number of the row's type, which may be that of no row.
    pub(crate) kind: u64,
    pub(crate) replica: ReplicaId,
    pub(crate) lsn: Lsn,
    pub(crate) place: Place,
}

/// Which row of its transaction a row is.
#[derive(Clone, Copy)]
pub(crate) enum Place {
    /// The only one, which has no number.
    Alone,
    /// The one of this number, from 0 on.
    Numbered { number: u64, is_last: bool },
}
