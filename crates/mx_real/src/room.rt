//! Where the links of one worker wait.

use mio::{Events, Poll, Registry, Token, Waker};
use std::alloc::Global;
use std::io;
use std::net::Net;
use std::sync::{Mutex, MutexGuard, Wait};
use std::time::Duration;

/// The longest wait, in milliseconds.
const MAX_WAIT: u64 = 10;

/// The token of what ends a wait. Links are numbered from 1.
pub(crate) const WAKER: Token = Token(0);

/// How many events one wait gives. The next one gives the others.
const MAX_EVENTS: usize = 64;

/// The longest wait.
pub(crate) fn max_wait() -> Duration {
    Duration::from_millis(MAX_WAIT)
}

/// What the links of one worker wait in.
#[derive(Drop)]
pub(crate) struct Room {
    number: usize,
    waker: Waker,
    watch: Mutex<Watch>,
}

/// Which links wait, and what was told of them last.
#[derive(Drop)]
pub(crate) struct Watch {
    poll: Poll,
    events: Events,
}

impl Room {
    pub(crate) fn new(net: &impl Net, alloc: Global, number: usize) -> io::Result<Room> {
        let watch = Watch::new(net, alloc)?;
        let waker = Waker::new(watch.registry(), WAKER)?;
        Ok(Room {
            number,
            waker,
            watch: Mutex::new(watch),
        })
    }

    pub(crate) fn number(&self) -> usize {
        self.number
    }

    /// The watch, which one thread uses at a time.
    pub(crate) fn enter(&self, rt: &impl Wait) -> MutexGuard<'_, Watch> {
        self.watch.lock(rt)
    }

    /// Ends the present or the next wait.
    pub(crate) fn wake(&self) {
        let _ = self.waker.wake();
    }
}

impl Watch {
    pub(crate) fn new(net: &impl Net, alloc: Global) -> io::Result<Watch> {
        Ok(Watch {
            poll: Poll::new(net)?,
            events: Events::with_capacity(alloc, MAX_EVENTS)?,
        })
    }

    pub(crate) fn registry(&self) -> &Registry {
        self.poll.registry()
    }

    /// Waits until there is something to tell, for at most `max_wait`.
    pub(crate) fn wait(&mut self) -> io::Result<()> {
        self.poll.poll(&mut self.events, Some(max_wait()))
    }

    /// Whether the last wait told of this source.
    pub(crate) fn tells_of(&self, token: Token) -> bool {
        self.events.iter().any(|event| event.token() == token)
    }
}
