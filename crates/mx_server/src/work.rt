//! A worker of a server.

use crate::gated::Gated;
use crate::handler::Handler;
use crate::links::Links;
use crate::queue::{Found, Queue};
use mx_outside::{Gate, Link};
use std::alloc::Global;
use std::sync::Wait;

/// Takes links from the queue and gives them turns by the handler, until the queue is closed. At each
/// turn it passes point 1 of the connection before, and point 2 after it.
///
/// A link has its first turn before the next one is taken. While the queue has none, each link gets a
/// turn, and then all rest. A link is dropped after a turn that ends its connection, at the end, and
/// without a turn where memory for it runs out. Its connection then counts as closed.
pub fn worker<R: Wait, H: Handler + Drop, G: Gate, L: Link + Drop>(
    rt: &R,
    alloc: Global,
    handler: H,
    gate: &G,
    queue: Queue<L>,
) {
    let mut gated = Gated {
        alloc,
        handler,
        gate,
    };
    let mut links = Links::new(alloc);
    for _ in rt.forever() {
        let has_room = links.reserve().is_ok();
        match queue.take(rt, links.is_empty()) {
            Found::Link(conn, mut link) => {
                if has_room && gated.give_turn(conn, &mut link) {
                    links.push(conn, link);
                } else {
                    queue.end(rt, link);
                }
            }
            Found::Nothing => give_turns(rt, &mut gated, &queue, &mut links),
            Found::Closed => break,
        }
    }
    for link in links.into_links() {
        queue.end(rt, link);
    }
    for (_, link) in queue.take_all(rt, alloc) {
        queue.end(rt, link);
    }
}

/// Gives each link a turn, and then all rest.
fn give_turns<R: Wait, H: Handler, G: Gate, L: Link + Drop>(
    rt: &R,
    gated: &mut Gated<'_, H, G>,
    queue: &Queue<L>,
    links: &mut Links<L>,
) {
    for at in (0..links.len()).rev() {
        if let Some(link) = links.give_turn(at, gated) {
            queue.end(rt, link);
        }
    }
    L::rest(links.links_mut());
}
