//! What an acceptor and its links share: how they end each other's waits.

use crate::room::{Room, WAKER};
use mio::{Registry, Waker};
use std::alloc::Global;
use std::io;
use std::net::Net;
use std::sync::{Arc, Mutex, Wait};

/// What an acceptor and its links share.
#[derive(Drop)]
pub(crate) struct Hub<R> {
    rt: R,
    alloc: Global,
    door: Waker,
    rooms: Mutex<Vec<Arc<Room>>>,
}

impl<R: Net + Wait + Drop> Hub<R> {
    /// The hub of an acceptor that waits for these sources.
    pub(crate) fn new(rt: R, alloc: Global, registry: &Registry) -> io::Result<Hub<R>> {
        Ok(Hub {
            rt,
            alloc,
            door: Waker::new(registry, WAKER)?,
            rooms: Mutex::new(Vec::new(alloc)),
        })
    }

    pub(crate) fn rt(&self) -> &R {
        &self.rt
    }

    /// A room for the links of a worker: one that no link has any more, or a new one.
    pub(crate) fn empty_room(&self) -> io::Result<Arc<Room>> {
        let mut rooms = self.rooms.lock(&self.rt);
        for room in rooms.iter() {
            if Arc::strong_count(room) == 1 {
                return Ok(Arc::try_clone(room)?);
            }
        }
        let number = rooms.len();
        let room = Arc::new(self.alloc, Room::new(&self.rt, self.alloc, number)?)?;
        // The waits were perhaps to end before there was this room.
        room.wake();
        rooms.push(Arc::try_clone(&room)?)?;
        Ok(room)
    }

    /// Ends the waits in all rooms, the present ones or the next.
    pub(crate) fn wake_all(&self) {
        for room in self.rooms.lock(&self.rt).iter() {
            room.wake();
        }
    }

    /// Ends the acceptor's wait, the present one or the next.
    pub(crate) fn call(&self) {
        let _ = self.door.wake();
    }
}
