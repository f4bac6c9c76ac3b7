//! A connection in memory.

ghost use Rattle.std.specs.Prelude.{◌≡◌, Some, [], drop, min, max};
ghost use Rattle.mx_fake.specs.Contents.{link_left, link_came, link_gone, link_faults};

use crate::calls::ReadyCalls;
use crate::peer::MemoryPeer;
use mx_outside::{Link, LinkStop};
use std::alloc::Global;
use std::sync::{Arc, OnceLock};

/// A connection in memory. When it is dropped, its peer has received what was written to it.
pub struct MemoryLink {
    sends: Vec<u8>,
    at: usize,
    most: usize,
    taken: Vec<u8>,
    calls: ReadyCalls,
    read_waits: u64,
    write_waits: u64,
    received: Arc<OnceLock<Vec<u8>>>,
}

impl MemoryLink {
    /// The link to this peer.
    pub fn new(alloc: Global, peer: MemoryPeer) -> MemoryLink
        ensures sends { result.sends ≡ peer.sends }
        ensures most { result.most ≡ peer.most }
        ensures failing { result.calls.calls.failing ≡ peer.failing }
        ensures not_ready { result.calls.not_ready ≡ peer.not_ready }
        ensures received { result.received ≡ peer.received }
        ensures left { link_left result ≡ Some peer.sends.items }
        ensures came { link_came result ≡ Some [] }
        ensures gone { link_gone result ≡ Some [] }
        ensures faults { link_faults result ≡ 0 }
        ensures read_waits { result.read_waits ≡ 0 }
        ensures write_waits { result.write_waits ≡ 0 }
    {
        let MemoryPeer {
            sends,
            most,
            failing,
            not_ready,
            received,
        } = peer;
        MemoryLink {
            sends,
            at: 0,
            most,
            taken: Vec::new(alloc),
            calls: ReadyCalls::new(failing, not_ready),
            read_waits: 0,
            write_waits: 0,
            received,
        }
    }

    fn rest_of(&self) -> &[u8]
        ensures { result.now ≡ drop self.now.at self.now.sends.items }
    {
        self.sends.get(self.at..).unwrap_or(&[])
    }

    /// How many of so many bytes one call reads or writes.
    fn piece(&self, count: usize) -> usize
        ensures { result ≡ min count (max self.now.most 1) }
    {
        count.min(self.most.max(1))
    }
}

impl Drop for MemoryLink {
    fn drop(self) {
        let Self {
            sends: _,
            at: _,
            most: _,
            taken,
            calls: _,
            read_waits: _,
            write_waits: _,
            received,
        } = self;
        // Only the one link to a peer sets what it received.
        let _ = received.try_set(taken);
    }
}

impl Link for MemoryLink {
    ghost left = { link_left };

    ghost came = { link_came };

    ghost gone = { link_gone };

    ghost faults = { link_faults };

    ghost read_waits = { λ l. l.read_waits };

    ghost write_waits = { λ l. l.write_waits };

    fn read(&mut self, into: &mut [u8]) -> Result<usize, LinkStop> {
        self.calls.make(&mut self.read_waits)?;
        let rest = self.rest_of();
        let count = self.piece(rest.len().min(into.len()));
        into[..count].copy_from_slice(&rest[..count]);
        self.at += count;
        Ok(count)
    }

    fn write(&mut self, bytes: &[u8]) -> Result<usize, LinkStop> {
        self.calls.make(&mut self.write_waits)?;
        let count = self.piece(bytes.len());
        match self.taken.extend_from_slice(&bytes[..count]) {
            Ok(()) => Ok(count),
            Err(_) => {
                self.calls.calls.fail();
                Err(LinkStop::Failed)
            }
        }
    }

    fn rest(_links: &mut [MemoryLink]) {}

    fn call(&self) {}
}
