//! Why a call for the next connection gives none.

ghost use Rattle.std.specs.Prelude.{◌≡◌, ◌∷◌, ◌↔◌, [], pos, Contains, IfSome, IfNone, IsSomeAnd, IsTrue, ◌⊎◌};
ghost use Rattle.std.specs.IoError.{error_kind, raw_os_error};
ghost use Rattle.mx_real.specs.NoLinks.{no_link_of_kind, passing_numbers};
ghost use Rattle.mx_real.specs.declared.no_link.NoLink.TheVariants.{NotReady, Failed};

use std::io;
use std::io::ErrorKind;

/// Linux's numbers of errors that have no kind: there are no more descriptors in the system or in the
/// process, and a connection broke its protocol.
const ENFILE: i32 = 23;

const EMFILE: i32 = 24;

const EPROTO: i32 = 71;

/// Why a call for the next connection gives none.
#[derive(Clone, Copy, Drop, PartialEq, Eq)]
pub(crate) enum NoLink {
    /// None has come, or one has failed before it was accepted, or there is no descriptor for it.
    NotReady,
    /// The listener failed.
    Failed,
    /// The system ran out of memory.
    NoMemory,
}

/// What an error of the system is at a call for the next connection.
pub(crate) fn no_link_of(error: &io::Error) -> NoLink
    ensures named { IfSome (no_link_of_kind (error_kind error.now)) (λ no_link. result ≡ no_link) }
    ensures numbered { IfNone (no_link_of_kind (error_kind error.now)) (
        result ≡ NotReady ↔ IsSomeAnd (raw_os_error error.now) (Contains passing_numbers)) }
    ensures other { IfNone (no_link_of_kind (error_kind error.now)) (result ≡ NotReady ⊎ result ≡ Failed) }
{
    match named(error.kind()) {
        Some(no_link) => no_link,
        None => match error.raw_os_error() {
            Some(number) if is_passing(number) => NoLink::NotReady,
            _ => NoLink::Failed,
        },
    }
}

/// What an error of this kind is. The others go by their numbers.
fn named(kind: ErrorKind) -> Option<NoLink>
    ensures { result ≡ no_link_of_kind kind }
{
    match kind {
        ErrorKind::WouldBlock => Some(NoLink::NotReady),
        ErrorKind::Interrupted => Some(NoLink::NotReady),
        ErrorKind::ConnectionAborted => Some(NoLink::NotReady),
        ErrorKind::ConnectionReset => Some(NoLink::NotReady),
        ErrorKind::TimedOut => Some(NoLink::NotReady),
        ErrorKind::HostUnreachable => Some(NoLink::NotReady),
        ErrorKind::NetworkUnreachable => Some(NoLink::NotReady),
        ErrorKind::NetworkDown => Some(NoLink::NotReady),
        ErrorKind::PermissionDenied => Some(NoLink::NotReady),
        ErrorKind::OutOfMemory => Some(NoLink::NoMemory),
        _ => None,
    }
}

fn is_passing(number: i32) -> bool
    ensures { IsTrue result ↔ Contains passing_numbers number }
{
    [ENFILE, EMFILE, EPROTO].contains(&number)
}
