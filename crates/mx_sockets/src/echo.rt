//! What is held of one connection: bytes that were read and not yet written back.

use mx_outside::{Link, LinkStop};
use std::alloc::{AllocError, Global};

/// How many bytes are held at most.
const ROOM: usize = 16_384;

/// How many calls one turn makes at most.
const CALLS: usize = 32;

/// What is held of one connection.
#[derive(Drop)]
pub(crate) struct Echo {
    bytes: Vec<u8>,
    at: usize,
    until: usize,
    is_over: bool,
}

impl Echo {
    pub(crate) fn new(alloc: Global) -> Result<Echo, AllocError> {
        Ok(Echo {
            bytes: Vec::from_elem(alloc, 0, ROOM)?,
            at: 0,
            until: 0,
            is_over: false,
        })
    }

    /// Whether all is written back that will be.
    pub(crate) fn is_over(&self) -> bool {
        self.is_over
    }

    /// Reads and writes until the link isn't ready. Returns whether it got on.
    pub(crate) fn turn<L: Link>(&mut self, link: &mut L) -> bool {
        for made in 0..CALLS {
            if self.is_over {
                return true;
            }
            match self.step(link) {
                Ok(()) => {}
                Err(LinkStop::NotReady) => return made != 0,
                Err(LinkStop::Failed) => self.is_over = true,
            }
        }
        true
    }

    /// Writes what is held, and else reads.
    fn step<L: Link>(&mut self, link: &mut L) -> Result<(), LinkStop> {
        let held = self.bytes.get(self.at..self.until).unwrap_or(&[]);
        if held.is_empty() {
            let count = link.read(&mut self.bytes)?;
            self.at = 0;
            self.until = count;
            self.is_over = count == 0;
        } else {
            self.at = self.at.saturating_add(link.write(held)?);
        }
        Ok(())
    }
}
