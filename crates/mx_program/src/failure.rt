//! A run that failed, as it is printed on standard error.

ghost use Rattle.std.specs.Prelude.{◌≡◌, ◌≢◌, ◌↔◌, IsOk, IfOk, IfErr};
ghost use Rattle.mx_top.specs.declared.status.Status.TheVariants.{NoMemory};
ghost use Rattle.mx_program.specs.Exits.{unopened};

use mx_real::OpenFault;
use mx_top::Status;
use std::alloc::{AllocError, AllocFailed, Global};
use std::fmt;
use std::fmt::{Display, Formatter};

/// The status of a run that failed, and why its directory wasn't opened.
#[derive(Debug, Drop)]
pub struct Failure {
    pub status: Status,
    cause: Option<String>,
}

impl Failure {
    /// A run that ended with this status.
    pub fn of(status: Status) -> Failure
        ensures { result.status ≡ status }
    {
        Failure {
            status,
            cause: None,
        }
    }

    /// A run whose directory wasn't opened.
    pub fn of_directory(alloc: Global, path: &str, fault: OpenFault) -> Result<Failure, AllocError>
        ensures status { IfOk result (λ failure. failure.status ≡ unopened fault) }
        ensures failed { IfOk result (λ failure. failure.status ≢ Status.Ok) }
    {
        let status = unopened(&fault);
        let cause = match fault {
            OpenFault::NoMemory => None,
            _ => Some(format!(in alloc; "{path}: {fault}")?),
        };
        Ok(Failure { status, cause })
    }
}

/// The result of a run that ended with this status: a success at `Ok` alone.
pub fn result_of(status: Status) -> Result<(), Failure>
    ensures ok { IsOk result ↔ (status ≡ Status.Ok) }
    ensures status { IfErr result (λ failure. failure.status ≡ status) }
    ensures failed { IfErr result (λ failure. failure.status ≢ Status.Ok) }
{
    match status {
        Status::Ok => Ok(()),
        failed => Err(Failure::of(failed)),
    }
}

/// The status of a run whose directory wasn't opened.
fn unopened(fault: &OpenFault) -> Status
    ensures status { result ≡ unopened fault.now }
    ensures failed { result ≢ Status.Ok }
{
    match fault {
        OpenFault::NotFolder => Status::DiskFault,
        OpenFault::NotOpened(_) => Status::DiskFault,
        OpenFault::InUse => Status::DiskFault,
        OpenFault::NoMemory => Status::NoMemory,
    }
}

impl Display for Failure {
    fn fmt<W: fmt::Write>(&self, f: &mut Formatter<W>) -> fmt::Result {
        write!(f, "{}", self.status)?;
        match &self.cause {
            Some(cause) => write!(f, "\n{cause}"),
            None => Ok(()),
        }
    }
}

impl From<Status> for Failure {
    ghost from_gives = { λ status failure. failure.status ≡ status };

    fn from(status: Status) -> Failure {
        Failure::of(status)
    }
}

impl From<AllocError> for Failure {
    ghost from_gives = { λ _ failure. failure.status ≡ NoMemory };

    fn from(_: AllocError) -> Failure {
        Failure::of(Status::NoMemory)
    }
}

impl<T: Drop> From<AllocFailed<T>> for Failure {
    ghost from_gives = { λ _ failure. failure.status ≡ NoMemory };

    fn from(_: AllocFailed<T>) -> Failure {
        Failure::of(Status::NoMemory)
    }
}
