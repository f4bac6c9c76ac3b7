//! Links on their way to workers.

ghost use Rattle.std.specs.Prelude.{◌≡◌, IfErr};

use mx_base::ConnId;
use mx_outside::Link;
use std::alloc::{AllocError, Global};
use std::collections::VecDeque;
use std::mem;
use std::sync::{Arc, Condvar, Mutex, Wait};

/// What lies under the lock.
#[derive(Drop)]
struct Contents<L> {
    links: VecDeque<(ConnId, L)>,
    is_closed: bool,
    ended: u64,
}

#[derive(Drop)]
struct Shared<L> {
    contents: Mutex<Contents<L>>,
    came: Condvar,
}

/// Links on their way to workers, and how many connections were closed. Each thread has a value of its
/// own of the same queue.
#[derive(Drop)]
pub struct Queue<L> {
    shared: Arc<Shared<L>>,
}

/// What a worker finds in the queue.
#[derive(Drop)]
pub(crate) enum Found<L> {
    /// The link of this connection, which is now the worker's.
    Link(ConnId, L),
    /// No link.
    Nothing,
    /// The queue is closed.
    Closed,
}

impl<L: Drop> Queue<L> {
    /// An empty queue.
    pub fn new(alloc: Global) -> Result<Queue<L>, AllocError> {
        let shared = Shared {
            contents: Mutex::new(Contents {
                links: VecDeque::new(alloc),
                is_closed: false,
                ended: 0,
            }),
            came: Condvar::new(),
        };
        Ok(Queue {
            shared: Arc::new(alloc, shared)?,
        })
    }

    /// One more value of the same queue.
    pub fn share(&self) -> Result<Queue<L>, AllocError> {
        Ok(Queue {
            shared: Arc::try_clone(&self.shared)?,
        })
    }

    /// Hands the link of this connection to a worker.
    ///
    /// # Errors
    /// Out of memory, or the queue is closed. The link is handed back, and its connection counts as closed.
    pub fn put<R: Wait>(&self, rt: &R, conn: ConnId, link: L) -> Result<(), L>
        ensures { IfErr result (λ back. back ≡ link) }
    {
        let mut contents = self.shared.contents.lock(rt);
        if contents.is_closed {
            contents.count_end();
            return Err(link);
        }
        match contents.links.push_back((conn, link)) {
            Ok(()) => {
                self.shared.came.notify_one();
                Ok(())
            }
            Err(failed) => {
                contents.count_end();
                Err(failed.value.1)
            }
        }
    }

    /// Tells the workers to end. From now on no link can be put.
    pub fn close<R: Wait>(&self, rt: &R) {
        self.shared.contents.lock(rt).is_closed = true;
        self.shared.came.notify_all();
    }

    /// How many connections were closed.
    pub fn ended<R: Wait>(&self, rt: &R) -> u64 {
        self.shared.contents.lock(rt).ended
    }

    /// Takes the first link. A worker that keeps none waits for one, or for the end.
    pub(crate) fn take<R: Wait>(&self, rt: &R, keeps_none: bool) -> Found<L> {
        let mut contents = self.shared.contents.lock(rt);
        if keeps_none {
            contents = self.shared.came.wait_while(rt, contents, |contents| {
                contents.links.is_empty() && !contents.is_closed
            });
        }
        if contents.is_closed {
            return Found::Closed;
        }
        match contents.links.pop_front() {
            Some((conn, link)) => Found::Link(conn, link),
            None => Found::Nothing,
        }
    }

    /// Takes all links.
    pub(crate) fn take_all<R: Wait>(&self, rt: &R, alloc: Global) -> VecDeque<(ConnId, L)> {
        let mut contents = self.shared.contents.lock(rt);
        mem::replace(&mut contents.links, VecDeque::new(alloc))
    }
}

impl<L: Link + Drop> Queue<L> {
    /// Drops the link of a connection, which counts as closed, and calls the acceptor. The acceptor finds
    /// it counted and dropped, since both are done under the lock.
    pub(crate) fn end<R: Wait>(&self, rt: &R, link: L) {
        let mut contents = self.shared.contents.lock(rt);
        link.call();
        drop(link);
        contents.count_end();
    }
}

impl<L> Contents<L> {
    fn count_end(&mut self) {
        self.ended = self.ended.saturating_add(1);
    }
}
