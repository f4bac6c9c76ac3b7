//! The peer of a connection in memory.

ghost use Rattle.std.specs.Prelude.{◌≡◌, IfOk};
ghost use Rattle.std.specs.Arc.{arc_value};

use std::alloc::{AllocError, Global};
use std::sync::{Arc, OnceLock};

/// What a peer sends, and how the link to it behaves.
#[derive(Drop)]
pub struct MemoryPeer {
    pub(crate) sends: Vec<u8>,
    pub(crate) most: usize,
    pub(crate) failing: Vec<u64>,
    pub(crate) not_ready: Vec<u64>,
    pub(crate) received: Arc<OnceLock<Vec<u8>>>,
}

impl MemoryPeer {
    /// A peer that sends these bytes and then ends its side. A call on the link to it reads or writes at
    /// most `most` bytes, or one where this is 0. Of the link's reads and writes those that `failing`
    /// lists fail, and those that `not_ready` lists aren't ready, counted together from 1.
    pub fn new(
        alloc: Global,
        sends: Vec<u8>,
        most: usize,
        failing: Vec<u64>,
        not_ready: Vec<u64>,
    ) -> Result<MemoryPeer, AllocError>
        ensures sends { IfOk result (λ peer. peer.sends ≡ sends) }
        ensures most { IfOk result (λ peer. peer.most ≡ most) }
        ensures failing { IfOk result (λ peer. peer.failing ≡ failing) }
        ensures not_ready { IfOk result (λ peer. peer.not_ready ≡ not_ready) }
    {
        Ok(MemoryPeer {
            sends,
            most,
            failing,
            not_ready,
            received: Arc::new(alloc, OnceLock::new())?,
        })
    }

    /// What tells the bytes that it received.
    pub fn received(&self) -> Result<Received, AllocError>
        ensures { IfOk result (λ received. arc_value received.bytes ≡ arc_value self.now.received) }
    {
        Ok(Received {
            bytes: Arc::try_clone(&self.received)?,
        })
    }
}

/// Tells what a peer received, from any thread.
#[derive(Drop)]
pub struct Received {
    bytes: Arc<OnceLock<Vec<u8>>>,
}

impl Received {
    /// All bytes that were written to the link, once it is dropped. Until then nothing is told.
    pub fn bytes(&self) -> Option<&[u8]> {
        match self.bytes.get() {
            Some(bytes) => Some(bytes),
            None => None,
        }
    }
}
