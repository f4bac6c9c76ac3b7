//! Turns between the points of a gate.

use crate::handler::Handler;
use mx_base::ConnId;
use mx_outside::{Gate, Link};
use mx_session::LinkTurn;
use std::alloc::Global;

/// The point before a turn.
const BEFORE: u32 = 1;

/// The point after a turn.
const AFTER: u32 = 2;

/// A handler whose turns stand between the points of a gate.
#[derive(Drop)]
pub(crate) struct Gated<'a, H, G> {
    pub(crate) alloc: Global,
    pub(crate) handler: H,
    pub(crate) gate: &'a G,
}

impl<'a, H: Handler, G: Gate> Gated<'a, H, G> {
    /// Gives a connection a turn, and returns whether it goes on.
    pub(crate) fn give_turn<L: Link>(&mut self, conn: ConnId, link: &mut L) -> bool {
        self.gate.pass_point(conn.0, BEFORE);
        let turn = self.handler.turn(self.alloc, conn, link);
        self.gate.pass_point(conn.0, AFTER);
        match turn {
            LinkTurn::Again => true,
            LinkTurn::Closed | LinkTurn::LinkFault | LinkTurn::NoMemory => false,
        }
    }
}
