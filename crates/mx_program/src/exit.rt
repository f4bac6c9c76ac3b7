//! The exit status of each status of a run.

ghost use Rattle.std.specs.Prelude.{◌≡◌};
ghost use Rattle.mx_program.specs.Exits.{exit_number};

use mx_top::Status;

/// The number that the process ends with.
pub fn number(status: &Status) -> u8
    ensures { result ≡ exit_number status.now }
{
    match status {
        Status::Ok => 0,
        Status::BadInput { .. } => 1,
        Status::BadWords => 2,
        Status::ReadFault => 3,
        Status::WriteFault => 4,
        Status::DiskFault => 5,
        Status::NoMemory => 6,
        Status::Damaged(_) => 7,
    }
}
