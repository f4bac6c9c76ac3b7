//! Steps on a directory, for the calls of `mx_fake` and `mx_real`. They are written as in `append:a:0102`,
//! and `\0` in the name of a file is a NUL.

ghost use Rattle.std.specs.Prelude.{IfOk, IsTrue};
ghost use Rattle.mx_outside.specs.Disks.{IsThere};

use crate::streams::show_read;
use mx_arguments::{Arguments, Hex};
use mx_outside::{Dir, DirFault};
use std::alloc::{AllocError, Global};

/// A directory that tells which files its calls may name.
pub trait StepDir: Dir {
    /// Whether a call that wants a file may name this one.
    fn may_name(&self, alloc: Global, name: &str) -> Result<bool, AllocError>
        ensures { IfOk result (λ may. IsTrue may → IsThere (Self.states self.now) name.now) };
}

/// What a step gives: that it was done or failed, what it asks for, or `none` where it names no file.
pub fn step<D: StepDir>(
    arguments: &mut Arguments<'_>,
    text: &str,
    dir: &mut D,
    answer: &mut String,
) -> Result<(), AllocError> {
    let alloc = arguments.alloc();
    let (name, rest) = text.split_once(':').unwrap_or((text, ""));
    match name {
        "create" => show(dir.create(alloc, file_name(alloc, rest)?.as_str()), answer),
        "sync_names" => show(dir.sync_names(alloc), answer),
        "restart" => {
            let choice = arguments.number_in(rest);
            show(dir.restart(alloc, choice), answer)
        }
        "list" => list(alloc, dir, answer),
        _ => file_step(arguments, text, dir, answer),
    }
}

/// A step on a file that has to be there.
fn file_step<D: StepDir>(
    arguments: &mut Arguments<'_>,
    text: &str,
    dir: &mut D,
    answer: &mut String,
) -> Result<(), AllocError> {
    let alloc = arguments.alloc();
    let (name, rest) = text.split_once(':').unwrap_or((text, ""));
    let (file, rest) = rest.split_once(':').unwrap_or((rest, ""));
    let file = file_name(alloc, file)?;
    let file = file.as_str();
    if !dir.may_name(alloc, file)? {
        return answer.push_str("none");
    }
    match name {
        "append" => {
            let bytes = arguments.bytes_in(rest);
            show(dir.append(alloc, file, bytes.as_slice()), answer)
        }
        "sync" => show(dir.sync(alloc, file), answer),
        "rename" => {
            let to = file_name(alloc, rest)?;
            show(dir.rename(alloc, file, to.as_str()), answer)
        }
        "remove" => show(dir.remove(alloc, file), answer),
        "size" => match dir.size(alloc, file) {
            Ok(size) => write!(answer, "{size}"),
            Err(fault) => show_fault(fault, answer),
        },
        "read" => {
            let (at, room) = rest.split_once(':').unwrap_or((rest, ""));
            let at: u64 = arguments.number_in(at);
            let room: u16 = arguments.number_in(room);
            let mut buffer = vec![in alloc; 0u8; usize::from(room)]?;
            let count = dir.read(alloc, file, at, &mut buffer);
            show_count(count, &buffer, answer)
        }
        _ => {
            arguments.refuse_text("step", text);
            Ok(())
        }
    }
}

fn file_name(alloc: Global, text: &str) -> Result<String, AllocError> {
    text.replace(alloc, "\\0", "\0")
}

fn show(done: Result<(), DirFault>, answer: &mut String) -> Result<(), AllocError> {
    match done {
        Ok(()) => answer.push_str("ok"),
        Err(fault) => show_fault(fault, answer),
    }
}

fn show_fault(fault: DirFault, answer: &mut String) -> Result<(), AllocError> {
    match fault {
        DirFault::Failed => answer.push_str("failed"),
        DirFault::NoMemory => Err(AllocError),
    }
}

fn show_count(
    count: Result<usize, DirFault>,
    buffer: &[u8],
    answer: &mut String,
) -> Result<(), AllocError> {
    match count {
        Ok(count) => show_read(Some(count), buffer, answer),
        Err(DirFault::Failed) => show_read(None, buffer, answer),
        Err(DirFault::NoMemory) => Err(AllocError),
    }
}

/// The files with commas between them, as in `a=0102,b=-`.
fn list<D: StepDir>(alloc: Global, dir: &mut D, answer: &mut String) -> Result<(), AllocError> {
    let names = match dir.list(alloc) {
        Ok(names) => names,
        Err(fault) => return show_fault(fault, answer),
    };
    if names.as_slice().is_empty() {
        return answer.push_str("none");
    }
    let mut between = "";
    for name in names.as_slice() {
        write!(answer, "{between}{name}=")?;
        show_file(alloc, dir, name.as_str(), answer)?;
        between = ",";
    }
    Ok(())
}

/// A file's first 64 bytes, and its size where that is another number.
fn show_file<D: StepDir>(
    alloc: Global,
    dir: &mut D,
    name: &str,
    answer: &mut String,
) -> Result<(), AllocError> {
    if !dir.may_name(alloc, name)? {
        return answer.push_str("none");
    }
    let mut buffer = [0u8; 64];
    let size = match dir.size(alloc, name) {
        Ok(size) => size,
        Err(fault) => return show_fault(fault, answer),
    };
    let count = match dir.read(alloc, name, 0, &mut buffer) {
        Ok(count) => count,
        Err(fault) => return show_fault(fault, answer),
    };
    write!(answer, "{}", Hex(buffer.get(..count).unwrap_or(&[])))?;
    if count as u64 != size {
        write!(answer, ":{size}")?;
    }
    Ok(())
}
