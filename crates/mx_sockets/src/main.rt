//! An echo server over the sockets and threads of `mx_real`, which a test talks with, and the same over
//! connections in memory.
//!
//! - `mx_sockets PORT` listens on a port of 127.0.0.1, and with 0 on any that is free. One thread
//!   accepts connections, and another writes back what comes on them. Its lines are the port, and then
//!   how many connections have ended, each time that this changes. It doesn't end by itself.
//! - `mx_sockets memory` serves three connections in memory.
#![tactic(auto)]

mod echo;
mod end;
mod memory;
mod queue;
mod server;
mod worker;

use end::End;
use mx_real::{SystemSpawner, TcpAcceptor};
use std::env;
use std::env::Env;
use std::io::Write;
use std::net::{Net, TcpListener, TcpStream};
use std::process::ExitCode;
use std::sync::Wait;
use std::thread::Threads;
use std::time::Clock;

fn main(rt: HostRuntime) -> ExitCode {
    match run(rt, rt.stdout()) {
        Ok(()) => ExitCode::SUCCESS,
        Err(end) => {
            let _ = eprintln!(rt; "{end}");
            ExitCode::from(end.status())
        }
    }
}

/// Does what the one argument asks for.
fn run<
    R: Env
        + AllocGlobal
        + Net<Listener = TcpListener, Stream = TcpStream>
        + Wait
        + Clock
        + Threads
        + Copy
        + Send
        + Sync
        + Drop
        + 'static,
    O: Write + Drop,
>(rt: R, mut output: O) -> Result<(), End> {
    let Some(text) = argument(&rt)? else {
        return Err(End::Usage);
    };
    if text.as_str() == "memory" {
        return memory::run(rt, &mut output);
    }
    let Ok(port) = text.as_str().parse() else {
        return Err(End::Usage);
    };
    match TcpAcceptor::bind(rt.alloc(), rt, port) {
        Ok(mut acceptor) => {
            server::tell(&mut output, u64::from(acceptor.port()))?;
            server::serve(rt, &mut acceptor, &mut SystemSpawner::new(rt), &mut output)
        }
        Err(fault) => Err(End::Listen(fault)),
    }
}

/// The argument, where there is just one.
fn argument<R: Env + AllocGlobal>(rt: &R) -> Result<Option<String>, End> {
    let Ok(arguments) = env::args(rt) else {
        return Ok(None);
    };
    let mut texts: Vec<String> = arguments.skip(1).collect(rt.alloc())?;
    if texts.len() != 1 {
        return Ok(None);
    }
    Ok(texts.pop())
}
