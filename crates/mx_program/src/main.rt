//! The program: its arguments, its seed and its standard streams, given to the top call.
#![tactic(auto)]

mod exit;
mod failure;
mod help;
mod seed;
#[cfg(test)]
mod tests;

ghost use Rattle.std.specs.Prelude.{◌≡◌, ◌≢◌, IfOk, IfErr, length};

use failure::{Failure, result_of};
use mx_outside::Names;
use mx_real::{FolderDir, ReaderSource, WriterSink};
use mx_top::{Status, directory_argument};
use std::env;
use std::env::Env;
use std::fs::{File, Files};
use std::io::{ErrorKind, Read, Write};
use std::process::ExitCode;
use std::random::RandomSource;

fn main(rt: HostRuntime) -> ExitCode {
    match respond(&rt, rt.stdin(), rt.stdout()) {
        Ok(()) => ExitCode::SUCCESS,
        Err(failure) => {
            // The exit status says it too, where standard error takes nothing.
            let _ = eprintln!(rt; "{failure}");
            ExitCode::from(exit::number(&failure.status))
        }
    }
}

/// Does what the arguments ask for. An `Err` has the status of a run that failed.
fn respond<
    R: Env + AllocGlobal + RandomSource + Files<File = File> + Clone + Drop,
    I: Read + Drop,
    O: Write + Drop,
>(rt: &R, input: I, mut output: O) -> Result<(), Failure>
    ensures failed { IfErr result (λ failure. failure.status ≢ Status.Ok) }
{
    let arguments = arguments(rt)?;
    match help::notice_in(&arguments) {
        Some(notice) => match output.write_all(notice.text().as_bytes()) {
            Ok(()) => Ok(()),
            Err(_) => Err(Failure::of(Status::WriteFault)),
        },
        None => run(rt, &arguments, input, output),
    }
}

/// The arguments after the program's name.
fn arguments<R: Env + AllocGlobal>(rt: &R) -> Result<Names, Status>
    ensures failed { IfErr result (λ status. status ≢ Status.Ok) }
{
    let arguments = match env::args(rt) {
        Ok(arguments) => arguments,
        Err(error) if error.kind() == ErrorKind::OutOfMemory => return Err(Status::NoMemory),
        Err(_) => return Err(Status::BadWords),
    };
    match arguments.skip(1).collect(rt.alloc()) {
        Ok(texts) => Ok(Names::from_vec(texts)),
        Err(_) => Err(Status::NoMemory),
    }
}

/// Runs the command of the arguments on its directory, which is created if it is missing.
fn run<
    R: Env + AllocGlobal + RandomSource + Files<File = File> + Clone + Drop,
    I: Read + Drop,
    O: Write + Drop,
>(rt: &R, arguments: &Names, input: I, output: O) -> Result<(), Failure>
    ensures failed { IfErr result (λ failure. failure.status ≢ Status.Ok) }
{
    let Some(path) = directory_argument(arguments) else {
        return Err(Failure::of(Status::BadWords));
    };
    let seed = seed::of_installation(rt)?;
    let mut dirs = open_directory(rt, path)?;
    let status = mx_top::run(
        rt.alloc(),
        arguments,
        &seed,
        &mut dirs,
        &mut ReaderSource::new(input),
        &mut WriterSink::new(output),
    );
    result_of(status)
}

/// Opens the one directory of this path.
fn open_directory<R: AllocGlobal + Files<File = File> + Clone + Drop>(
    rt: &R,
    path: &str,
) -> Result<Vec<FolderDir<R>>, Failure>
    ensures one { IfOk result (λ dirs. length dirs.items ≡ 1) }
    ensures failed { IfErr result (λ failure. failure.status ≢ Status.Ok) }
{
    let alloc = rt.alloc();
    let mut dirs = Vec::new(alloc);
    match FolderDir::open(alloc, rt.clone()?, path) {
        Ok(dir) => dirs.push(dir)?,
        Err(fault) => return Err(Failure::of_directory(alloc, path, fault)?),
    }
    Ok(dirs)
}
