//! Where connections in memory come from.

ghost use Rattle.std.specs.Prelude.{◌≡◌};

use crate::calls::ReadyCalls;
use crate::link::MemoryLink;
use crate::peer::MemoryPeer;
use mx_outside::{Accepted, Acceptor, LinkStop};
use std::alloc::Global;

/// Peers in memory that connect one after the other. When all have, none comes any more.
#[derive(Drop)]
pub struct MemoryAcceptor {
    alloc: Global,
    peers: Vec<MemoryPeer>,
    calls: ReadyCalls,
    waits: u64,
    given: u64,
}

impl MemoryAcceptor {
    /// Gives the links to these peers, in order. Of its calls those that `failing` lists fail,
    /// and those that `not_ready` lists give none yet, counted from 1.
    pub fn new(
        alloc: Global,
        peers: Vec<MemoryPeer>,
        failing: Vec<u64>,
        not_ready: Vec<u64>,
    ) -> MemoryAcceptor
        ensures peers { result.peers ≡ peers }
        ensures failing { result.calls.calls.failing ≡ failing }
        ensures not_ready { result.calls.not_ready ≡ not_ready }
        ensures faults { result.calls.calls.faults ≡ 0 }
        ensures waits { result.waits ≡ 0 }
        ensures given { result.given ≡ 0 }
    {
        MemoryAcceptor {
            alloc,
            peers,
            calls: ReadyCalls::new(failing, not_ready),
            waits: 0,
            given: 0,
        }
    }
}

impl Acceptor for MemoryAcceptor {
    type L = MemoryLink;

    ghost faults = { λ a. a.calls.calls.faults };

    ghost waits = { λ a. a.waits };

    ghost given = { λ a. a.given };

    fn accept(&mut self) -> Accepted<MemoryLink> {
        match self.calls.make(&mut self.waits) {
            Ok(()) => {}
            Err(LinkStop::NotReady) => return Accepted::NotReady,
            Err(LinkStop::Failed) => return Accepted::Failed,
        }
        let Some(given) = self.given.checked_add(1) else {
            self.calls.calls.fail();
            return Accepted::Failed;
        };
        if self.peers.is_empty() {
            self.waits = self.waits.saturating_add(1);
            return Accepted::NotReady;
        }
        let peer = self.peers.remove(0);
        self.given = given;
        Accepted::Link(MemoryLink::new(self.alloc, peer))
    }

    fn wake(&mut self) {}
}
