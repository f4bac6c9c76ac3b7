//! Connections on their way to the worker.

use std::alloc::{AllocError, Global};
use std::mem;
use std::sync::{Condvar, Mutex, Wait};

/// Connections on their way to the worker.
#[derive(Drop)]
pub(crate) struct Queue<L> {
    links: Mutex<Vec<L>>,
    came: Condvar,
    alloc: Global,
}

impl<L: Drop> Queue<L> {
    pub(crate) fn new(alloc: Global) -> Queue<L> {
        Queue {
            links: Mutex::new(Vec::new(alloc)),
            came: Condvar::new(),
            alloc,
        }
    }

    pub(crate) fn put(&self, rt: &impl Wait, link: L) -> Result<(), AllocError> {
        self.links.lock(rt).push(link)?;
        self.came.notify_one();
        Ok(())
    }

    /// Takes those that wait. If the worker has none it waits for one.
    pub(crate) fn take(&self, rt: &impl Wait, has_none: bool) -> Vec<L> {
        let mut links = self.links.lock(rt);
        if has_none {
            links = self.came.wait_while(rt, links, |links| links.is_empty());
        }
        mem::replace(&mut *links, Vec::new(self.alloc))
    }
}
