//! The calls of `mx_real`.

use crate::dir;
use crate::dir::StepDir;
use crate::streams::{reads, sink_step};
use mx_arguments::{Arguments, Fault, Hex, no_call};
use mx_real::{FolderDir, OpenFault, ReaderSource, WriterSink};
use std::alloc::{AllocError, Global};
use std::fs::{File, Files};
use std::os::unix::fs::symlink;
use std::{env, fs, io, process};

/// The answer of the call of this name.
pub fn answer(
    host: &HostRuntime,
    call: &str,
    arguments: &mut Arguments<'_>,
) -> Result<String, AllocError> {
    match call {
        "source" => source(arguments),
        "sink" => sink(arguments),
        "dir" => dir(host, arguments),
        _ => no_call(arguments),
    }
}

/// What each read of these bytes gives.
fn source(arguments: &mut Arguments<'_>) -> Result<String, AllocError> {
    let bytes = arguments.bytes();
    reads(arguments, &mut ReaderSource::new(bytes.as_slice()))
}

/// What each step gives on a sink, and the bytes that its writer has in the end.
fn sink(arguments: &mut Arguments<'_>) -> Result<String, AllocError> {
    let alloc = arguments.alloc();
    let mut written = Vec::new(alloc);
    let mut sink = WriterSink::new(&mut written);
    let mut answer = String::new(alloc);
    for text in arguments.others() {
        sink_step(arguments, text, &mut sink, &mut answer)?;
        answer.push(' ')?;
    }
    write!(answer, "{}", Hex(&written))?;
    Ok(answer)
}

/// A folder for one call, which isn't there at first, and the directory that it is while it is open.
#[derive(Drop)]
struct Folder<'a> {
    host: &'a HostRuntime,
    path: String,
    dir: Option<FolderDir<&'a HostRuntime>>,
}

impl<'a> Folder<'a> {
    fn new(host: &'a HostRuntime) -> io::Result<Folder<'a>> {
        let parent = env::temp_dir(host)?;
        let number = process::id(host.process());
        let path = format!(in host.alloc(); "{}/mx_probe_{number}", parent.as_str())?;
        Ok(Folder {
            host,
            path,
            dir: None,
        })
    }

    /// Closes the folder and deletes it, if it is there.
    fn delete(&mut self) {
        self.dir = None;
        let _ = fs::remove_dir_all(self.host, self.path.as_str());
    }

    /// The path of this name in the folder, or the folder's own where there is no name.
    fn path_of(&self, name: &str) -> Result<String, AllocError> {
        match name {
            "" => self.path.clone(),
            _ => format!(in self.host.alloc(); "{}/{name}", self.path),
        }
    }

    /// Opens the folder, or tries to open what has this name in it.
    fn open(&mut self, name: &str) -> Result<(), OpenFault> {
        let path = self.path_of(name)?;
        let dir = FolderDir::open(self.host.alloc(), self.host, path.as_str())?;
        if name.is_empty() {
            self.dir = Some(dir);
        }
        Ok(())
    }
}

/// What each step gives on a folder of the system that isn't there at first.
fn dir(host: &HostRuntime, arguments: &mut Arguments<'_>) -> Result<String, AllocError> {
    let alloc = arguments.alloc();
    let Ok(mut folder) = Folder::new(host) else {
        arguments.refuse(Fault::of(String::from_str(alloc, "no temporary directory")));
        return Ok(String::new(alloc));
    };
    folder.delete();
    let answer = steps(arguments, &mut folder);
    folder.delete();
    answer
}

fn steps(arguments: &mut Arguments<'_>, folder: &mut Folder<'_>) -> Result<String, AllocError> {
    let mut answer = String::new(arguments.alloc());
    for text in arguments.others() {
        if !answer.is_empty() {
            answer.push(' ')?;
        }
        step(arguments, text, folder, &mut answer)?;
    }
    Ok(answer)
}

fn step(
    arguments: &mut Arguments<'_>,
    text: &str,
    folder: &mut Folder<'_>,
    answer: &mut String,
) -> Result<(), AllocError> {
    let (name, rest) = text.split_once(':').unwrap_or((text, ""));
    match name {
        "open" => show_opened(folder.open(rest), answer),
        "close" => {
            folder.dir = None;
            answer.push_str("ok")
        }
        "folder" => {
            let path = folder.path_of(rest)?;
            show_made(fs::create_dir(folder.host, path.as_str()), answer)
        }
        "full" => {
            let path = folder.path_of(rest)?;
            show_made(symlink(folder.host, "/dev/full", path.as_str()), answer)
        }
        _ => match &mut folder.dir {
            Some(dir) => dir::step(arguments, text, dir, answer),
            None => answer.push_str("closed"),
        },
    }
}

fn show_opened(opened: Result<(), OpenFault>, answer: &mut String) -> Result<(), AllocError> {
    match opened {
        Ok(()) => answer.push_str("ok"),
        Err(OpenFault::NotFolder) => answer.push_str("not_folder"),
        Err(OpenFault::NotOpened(_)) => answer.push_str("not_opened"),
        Err(OpenFault::InUse) => answer.push_str("in_use"),
        Err(OpenFault::NoMemory) => Err(AllocError),
    }
}

fn show_made(made: io::Result<()>, answer: &mut String) -> Result<(), AllocError> {
    match made {
        Ok(()) => answer.push_str("ok"),
        Err(_) => answer.push_str("failed"),
    }
}

impl<R: Files<File = File> + Clone + Drop> StepDir for FolderDir<R> {
    // Where a file is missing, calls fail.
    fn may_name(&self, _alloc: Global, _name: &str) -> Result<bool, AllocError> {
        Ok(true)
    }
}
