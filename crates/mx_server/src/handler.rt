//! Who serves connections.

use mx_base::ConnId;
use mx_outside::Link;
use mx_session::LinkTurn;
use std::alloc::Global;

/// Who serves connections, turn by turn.
pub trait Handler {
    /// Gives a turn to connection `conn` with its link. Only after `LinkTurn::Again` does it get another.
    fn turn<L: Link>(&mut self, alloc: Global, conn: ConnId, link: &mut L) -> LinkTurn;
}
