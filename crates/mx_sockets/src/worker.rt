//! The worker, which serves all connections.

use crate::echo::Echo;
use crate::queue::Queue;
use mx_outside::{Link, Work};
use std::alloc::{AllocError, Global};
use std::sync::atomic::{AtomicU64, Ordering};
use std::sync::{Arc, Wait};

/// What the accepting thread and the worker share.
#[derive(Drop)]
pub(crate) struct Shared<L> {
    pub(crate) queue: Queue<L>,
    /// How many connections ended.
    pub(crate) ended: AtomicU64,
}

impl<L: Drop> Shared<L> {
    pub(crate) fn new(alloc: Global) -> Result<Arc<Shared<L>>, AllocError> {
        let shared = Shared {
            queue: Queue::new(alloc),
            ended: AtomicU64::new(0),
        };
        Ok(Arc::new(alloc, shared)?)
    }
}

/// The worker's work, which doesn't end.
#[derive(Drop)]
pub(crate) struct Worker<R, L> {
    pub(crate) rt: R,
    pub(crate) alloc: Global,
    pub(crate) shared: Arc<Shared<L>>,
}

impl<R: Wait + Drop, L: Link + Drop> Work for Worker<R, L> {
    fn work(self) {
        let mut links = Vec::new(self.alloc);
        let mut echoes = Vec::new(self.alloc);
        for _ in self.rt.forever() {
            let new = self.shared.queue.take(&self.rt, links.is_empty());
            // Where memory runs out the connections are closed.
            let _ = take_all(self.alloc, new, &mut links, &mut echoes);
            if !turn_all(&mut links, &mut echoes) {
                L::rest(&mut links);
            }
            drop_ended(&self.shared.ended, &mut links, &mut echoes);
        }
    }
}

/// Begins to serve these connections.
fn take_all<L: Drop>(
    alloc: Global,
    new: Vec<L>,
    links: &mut Vec<L>,
    echoes: &mut Vec<Echo>,
) -> Result<(), AllocError> {
    for link in new {
        let echo = Echo::new(alloc)?;
        links.push(link)?;
        echoes.push(echo)?;
    }
    Ok(())
}

/// Gives each connection a turn. Returns whether one got on.
fn turn_all<L: Link>(links: &mut [L], echoes: &mut [Echo]) -> bool {
    let mut got_on = false;
    for i in 0..links.len().min(echoes.len()) {
        if echoes[i].turn(&mut links[i]) {
            got_on = true;
        }
    }
    got_on
}

/// Closes the connections that are over, and tells the accepting thread.
fn drop_ended<L: Link + Drop>(ended: &AtomicU64, links: &mut Vec<L>, echoes: &mut Vec<Echo>) {
    for i in (0..links.len().min(echoes.len())).rev() {
        if i < links.len() && i < echoes.len() && echoes[i].is_over() {
            let link = links.swap_remove(i);
            echoes.swap_remove(i);
            ended.fetch_add(1, Ordering::SeqCst);
            link.call();
        }
    }
}
