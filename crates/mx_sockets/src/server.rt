//! The accepting thread.

use crate::end::End;
use crate::worker::{Shared, Worker};
use mx_outside::{Accepted, Acceptor, Spawner};
use std::io::Write;
use std::sync::atomic::Ordering;
use std::sync::{Arc, Wait};

/// Starts the worker, and gives it each connection.
pub(crate) fn serve<
    R: AllocGlobal + Wait + Copy + Send + Drop + 'static,
    A: Acceptor,
    P: Spawner,
    O: Write,
>(rt: R, acceptor: &mut A, spawner: &mut P, output: &mut O) -> Result<(), End> {
    let alloc = rt.alloc();
    let shared = Shared::new(alloc)?;
    let worker = Worker {
        rt,
        alloc,
        shared: Arc::try_clone(&shared)?,
    };
    if spawner.start(worker).is_err() {
        return Err(End::Failed);
    }
    let mut told = 0;
    for _ in rt.forever() {
        match acceptor.accept() {
            Accepted::Link(link) => {
                shared.queue.put(&rt, link)?;
                acceptor.wake();
            }
            Accepted::NotReady => {}
            Accepted::Failed | Accepted::NoMemory => return Err(End::Failed),
        }
        let ended = shared.ended.load(Ordering::SeqCst);
        if ended != told {
            tell(output, ended)?;
            told = ended;
        }
    }
    unreachable!()
}

/// Writes a line with a number.
pub(crate) fn tell<O: Write>(output: &mut O, number: u64) -> Result<(), End> {
    if writeln!(output, "{number}").is_err() || output.flush().is_err() {
        return Err(End::Failed);
    }
    Ok(())
}
