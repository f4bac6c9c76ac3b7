//! The links that a worker keeps.

ghost use Rattle.std.specs.Prelude.{◌≡◌, ◌<◌, ◌++◌, ◌∷◌, [], vec_len, vec_capacity, OnOk};
ghost use Rattle.std.specs.List.{swap_remove};

use crate::gated::Gated;
use crate::handler::Handler;
use mx_base::ConnId;
use mx_outside::{Gate, Link};
use std::alloc::{AllocError, Global};

/// The links that a worker keeps, and at the same places the numbers of their connections.
#[derive(Drop)]
pub(crate) struct Links<L> {
    links: Vec<L>,
    conns: Vec<ConnId>,
    ghost even: { vec_len conns ≡ vec_len links },
}

impl<L> Links<L> {
    pub(crate) fn new(alloc: Global) -> Links<L> {
        Links {
            links: Vec::new(alloc),
            conns: Vec::new(alloc),
        }
    }

    pub(crate) fn is_empty(&self) -> bool {
        self.links.is_empty()
    }

    pub(crate) fn len(&self) -> usize
        ensures { result ≡ vec_len self.now.links }
    {
        self.links.len()
    }

    /// Makes room for one more.
    pub(crate) fn reserve(&mut self) -> Result<(), AllocError>
        ensures links { OnOk result (vec_len self.new.links < vec_capacity self.new.links) }
        ensures conns { OnOk result (vec_len self.new.conns < vec_capacity self.new.conns) }
    {
        self.links.reserve(1)?;
        self.conns.reserve(1)
    }

    /// Appends a link.
    pub(crate) fn push(&mut self, conn: ConnId, link: L)
        requires links { vec_len self.old.links < vec_capacity self.old.links }
        requires conns { vec_len self.old.conns < vec_capacity self.old.conns }
        ensures links { self.new.links.items ≡ self.old.links.items ++ link ∷ [] }
        ensures conns { self.new.conns.items ≡ self.old.conns.items ++ conn ∷ [] }
    {
        self.links.push_reserved(link);
        self.conns.push_reserved(conn);
    }

    /// Removes a link. The last one takes its place.
    fn remove(&mut self, at: usize) -> (ConnId, L)
        requires { at < vec_len self.old.links }
        ensures links { self.new.links.items ≡ swap_remove self.old.links.items at result.1 }
        ensures conns { self.new.conns.items ≡ swap_remove self.old.conns.items at result.0 }
    {
        let link = self.links.swap_remove(at);
        (self.conns.swap_remove(at), link)
    }

    /// All links.
    pub(crate) fn links_mut(&mut self) -> &mut [L] {
        &mut self.links
    }

    /// All links, in order.
    pub(crate) fn into_links(self) -> Vec<L> {
        let Links { links, conns: _ } = self;
        links
    }
}

impl<L: Link + Drop> Links<L> {
    /// Gives the link at a place a turn, and removes and returns it where its connection doesn't go on.
    pub(crate) fn give_turn<H: Handler, G: Gate>(
        &mut self,
        at: usize,
        gated: &mut Gated<'_, H, G>,
    ) -> Option<L> {
        if at >= self.links.len() || gated.give_turn(self.conns[at], &mut self.links[at]) {
            return None;
        }
        Some(self.remove(at).1)
    }
}
