//! A port of this machine that is listened on.

ghost use Rattle.std.specs.Prelude.{◌≡◌, IfOk};

use crate::hub::Hub;
use crate::link::TcpLink;
use crate::listen_fault::ListenFault;
use crate::no_link::{NoLink, no_link_of};
use crate::room::Watch;
use mio::net::{TcpListener, TcpStream};
use mio::{Interest, Token};
use mx_outside::{Accepted, Acceptor};
use std::alloc::Global;
use std::io;
use std::io::ErrorKind;
use std::net::{Ipv4Addr, Net, SocketAddr, SocketAddrV4};
use std::sync::{Arc, Wait};
use std::time::Clock;

/// The token of the listener.
const LISTENER: Token = Token(1);

/// A port of 127.0.0.1 that is listened on.
///
/// That all descriptors are in use is no fault: no connection comes until one of them is closed.
#[derive(Drop)]
pub struct TcpAcceptor<R> {
    listener: TcpListener,
    watch: Watch,
    hub: Arc<Hub<R>>,
    port: u16,
    may_have_more: bool,
    faults: u64,
    waits: u64,
    given: u64,
}

impl<R: Net + Wait + Drop> TcpAcceptor<R> {
    /// Listens on a port, and with 0 on any that is free.
    pub fn bind(alloc: Global, rt: R, port: u16) -> Result<TcpAcceptor<R>, ListenFault>
        ensures faults { IfOk result (λ acceptor. acceptor.faults ≡ 0) }
        ensures waits { IfOk result (λ acceptor. acceptor.waits ≡ 0) }
        ensures given { IfOk result (λ acceptor. acceptor.given ≡ 0) }
    {
        match TcpAcceptor::listen(alloc, rt, port) {
            Ok(acceptor) => Ok(acceptor),
            Err(error) => Err(ListenFault::of(port, error)),
        }
    }

    fn listen(alloc: Global, rt: R, port: u16) -> io::Result<TcpAcceptor<R>>
        ensures faults { IfOk result (λ acceptor. acceptor.faults ≡ 0) }
        ensures waits { IfOk result (λ acceptor. acceptor.waits ≡ 0) }
        ensures given { IfOk result (λ acceptor. acceptor.given ≡ 0) }
    {
        let address = SocketAddr::V4(SocketAddrV4::new(Ipv4Addr::LOCALHOST, port));
        let mut listener = TcpListener::bind(&rt, address)?;
        let port = listener.local_addr()?.port();
        let watch = Watch::new(&rt, alloc)?;
        watch
            .registry()
            .register(&mut listener, LISTENER, Interest::READABLE)?;
        let hub = Arc::new(alloc, Hub::new(rt, alloc, watch.registry())?)?;
        Ok(TcpAcceptor {
            listener,
            watch,
            hub,
            port,
            may_have_more: true,
            faults: 0,
            waits: 0,
            given: 0,
        })
    }

    /// The port that it listens on.
    pub fn port(&self) -> u16
        ensures { result ≡ self.now.port }
    {
        self.port
    }

    /// The next connection, which it waits for if none has come.
    fn next_stream(&mut self) -> io::Result<Option<TcpStream>>
        ensures faults { self.new.faults ≡ self.old.faults }
        ensures waits { self.new.waits ≡ self.old.waits }
        ensures given { self.new.given ≡ self.old.given }
    {
        if let Some(stream) = self.stream_that_came()? {
            return Ok(Some(stream));
        }
        self.watch.wait()?;
        if self.watch.tells_of(LISTENER) {
            self.may_have_more = true;
        }
        self.stream_that_came()
    }

    /// The next connection, if one has come. The system isn't asked where it would tell of one.
    fn stream_that_came(&mut self) -> io::Result<Option<TcpStream>>
        ensures faults { self.new.faults ≡ self.old.faults }
        ensures waits { self.new.waits ≡ self.old.waits }
        ensures given { self.new.given ≡ self.old.given }
    {
        if !self.may_have_more {
            return Ok(None);
        }
        match self.listener.accept() {
            Ok((stream, _)) => {
                // Without it replies are slower, and all the same.
                let _ = stream.set_nodelay(true);
                Ok(Some(stream))
            }
            Err(error) => {
                if error.kind() == ErrorKind::WouldBlock {
                    self.may_have_more = false;
                }
                match no_link_of(&error) {
                    NoLink::NotReady => Ok(None),
                    _ => Err(error),
                }
            }
        }
    }
}

impl<R: Net + Wait + Clock + Send + Sync + Drop + 'static> Acceptor for TcpAcceptor<R> {
    type L = TcpLink<R>;

    ghost faults = { λ a. a.faults };

    ghost waits = { λ a. a.waits };

    ghost given = { λ a. a.given };

    fn accept(&mut self) -> Accepted<TcpLink<R>> {
        let Some(given) = self.given.checked_add(1) else {
            self.faults = self.faults.saturating_add(1);
            return Accepted::Failed;
        };
        let Ok(hub) = Arc::try_clone(&self.hub) else {
            return Accepted::NoMemory;
        };
        match self.next_stream() {
            Ok(Some(stream)) => {
                self.given = given;
                Accepted::Link(TcpLink::new(hub, given, stream))
            }
            Ok(None) => {
                self.waits = self.waits.saturating_add(1);
                Accepted::NotReady
            }
            Err(error) => match no_link_of(&error) {
                NoLink::NoMemory => Accepted::NoMemory,
                _ => {
                    self.faults = self.faults.saturating_add(1);
                    Accepted::Failed
                }
            },
        }
    }

    fn wake(&mut self) {
        self.hub.wake_all();
    }
}
