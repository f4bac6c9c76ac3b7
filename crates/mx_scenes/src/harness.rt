//! Runs over streams and directories in memory, and the bytes that go in and out.

ghost use Rattle.std.specs.Prelude.{◌≡◌, length};
ghost use Rattle.mx_fake.specs.Dirs.{dir_states};

use mx_fake::{MemoryDir, MemorySink, MemorySource};
use mx_outside::{Dir, DirFault, Names};
use mx_top::run;
use std::alloc::{AllocError, Global};
use std::process::Abort;

const SEED: [u8; 32] = [
    0x00, 0x01, 0x02, 0x03, 0x04, 0x05, 0x06, 0x07, 0x08, 0x09, 0x0a, 0x0b, 0x0c, 0x0d, 0x0e, 0x0f,
    0x10, 0x11, 0x12, 0x13, 0x14, 0x15, 0x16, 0x17, 0x18, 0x19, 0x1a, 0x1b, 0x1c, 0x1d, 0x1e, 0x1f,
];

pub(crate) const GREETING: &[u8] = b"\
Tarantool 2.11.0 (Binary) 00010203-0405-4607-8809-0a0b0c0d0e0f \n\
AAECAwQFBgcICQoLDA0ODxAREhMUFRYXGBkaGxwdHh8=                   \n";

/// The packet of a REPLACE of [1, "a"] into space 512, with sync 1.
pub(crate) const REPLACE: &[u8] =
    b"\xce\x00\x00\x00\x0f\x82\x00\x03\x01\x01\x82\x10\xcd\x02\x00\x21\x92\x01\xa1a";

/// The packet of a SELECT of key [1] in space 512 by a limit of 10, with sync 2.
pub(crate) const SELECT: &[u8] =
    b"\xce\x00\x00\x00\x11\x82\x00\x01\x01\x02\x84\x10\xcd\x02\x00\x12\x0a\x14\x00\x20\x91\x01";

/// A unit of both on connection 1.
pub(crate) const EXAMPLE_INPUT: &[&[u8]] = &[ON_ONE, b"\x00\x00\x00\x2a", REPLACE, SELECT];

/// The unit of their replies.
pub(crate) const EXAMPLE_OUTPUT: &[&[u8]] = &[
    TO_ONE,
    b"\x00\x00\x00\xce",
    GREETING,
    b"\xce\x00\x00\x00\x22\x83\x00\xce\0\0\0\0\x01\xcf\0\0\0\0\0\0\0\x01\x05\xce\0\0\0\0",
    b"\x81\x30\xdd\x00\x00\x00\x01\x92\x01\xa1a",
    b"\xce\x00\x00\x00\x22\x83\x00\xce\0\0\0\0\x01\xcf\0\0\0\0\0\0\0\x02\x05\xce\0\0\0\0",
    b"\x81\x30\xdd\x00\x00\x00\x01\x92\x01\xa1a",
];

/// What a run came to: its status as it is printed, its output, and its directory.
#[derive(Drop)]
pub(crate) struct Ran {
    pub(crate) status: String,
    pub(crate) output: Vec<u8>,
    dirs: Vec<MemoryDir>,
}

/// Which calls on source, sink and directory are to fail.
#[derive(Clone, Copy)]
pub(crate) struct Failing {
    pub(crate) reads: &'static [u64],
    pub(crate) writes: &'static [u64],
}

/// No call fails.
pub(crate) const NONE: Failing = Failing {
    reads: &[],
    writes: &[],
};

/// The directory that a run left.
pub(crate) fn directory_of(ran: Ran) -> Result<MemoryDir, AllocError> {
    let mut dirs = ran.dirs;
    dirs.pop().ok_or(AllocError)
}

/// A run on these arguments and this input, with this directory.
pub(crate) fn run_in(
    alloc: Global,
    dir: MemoryDir,
    arguments: &[&str],
    input: &[u8],
    failing: Failing,
) -> Result<Ran, AllocError> {
    let names = names_of(alloc, arguments)?;
    let mut source = MemorySource::new(input.to_vec(alloc)?, failing.reads.to_vec(alloc)?);
    let mut sink = MemorySink::new(alloc, failing.writes.to_vec(alloc)?);
    let mut dirs = Vec::new(alloc);
    dirs.push(dir)?;
    let status = status_of(alloc, &names, &mut dirs, &mut source, &mut sink)?;
    let output = sink.bytes().to_vec(alloc)?;
    Ok(Ran {
        status,
        output,
        dirs,
    })
}

/// The status of a run, as it is printed.
fn status_of(
    alloc: Global,
    names: &Names,
    dirs: &mut Vec<MemoryDir>,
    source: &mut MemorySource,
    sink: &mut MemorySink,
) -> Result<String, AllocError>
    requires { length dirs.old.items ≡ 1 }
{
    let status = run(alloc, names, &SEED, dirs, source, sink);
    format!(in alloc; "{status}")
}

fn names_of(alloc: Global, arguments: &[&str]) -> Result<Names, AllocError> {
    let mut names = Names::new(alloc);
    for argument in arguments {
        names.push(String::from_str(alloc, argument)?)?;
    }
    Ok(names)
}

/// A run on a new directory.
pub(crate) fn run_on(
    alloc: Global,
    arguments: &[&str],
    input: &[u8],
    failing: Failing,
) -> Result<Ran, AllocError> {
    run_in(alloc, new_directory(alloc), arguments, input, failing)
}

/// An empty directory, of whose calls none fails.
pub(crate) fn new_directory(alloc: Global) -> MemoryDir {
    MemoryDir::new(alloc, Vec::new(alloc))
}

/// The bytes of a file, or none where it isn't there.
pub(crate) fn file(alloc: Global, dir: &mut MemoryDir, name: &str) -> Result<Vec<u8>, DirFault>
    ensures { dir_states dir.new ≡ dir_states dir.old }
{
    match dir.has(alloc, name) {
        Ok(true) => {
            let size = dir.size(alloc, name)?;
            let mut bytes = Vec::from_elem(alloc, 0, size as usize)?;
            dir.read(alloc, name, 0, &mut bytes)?;
            Ok(bytes)
        }
        _ => Ok(Vec::new(alloc)),
    }
}

/// Compares a file with these parts, one after the other.
pub(crate) fn check_file(
    rt: &impl Abort,
    alloc: Global,
    dir: &mut MemoryDir,
    name: &str,
    parts: &[&[u8]],
) -> Result<(), DirFault> {
    let bytes = file(alloc, dir, name)?;
    assert_eq!(rt; bytes, joined(alloc, parts)?, "in {name}");
    Ok(())
}

/// Puts bytes at the end of a file that is there.
pub(crate) fn append(
    alloc: Global,
    dir: &mut MemoryDir,
    name: &str,
    bytes: &[u8],
) -> Result<(), DirFault> {
    match dir.has(alloc, name) {
        Ok(true) => dir.append(alloc, name, bytes),
        _ => Err(DirFault::NoMemory),
    }
}

/// A file of a directory: its name, and its bytes in parts.
pub(crate) type File<'a> = (&'a str, &'a [&'a [u8]]);

/// A directory of these files.
pub(crate) fn directory_with(alloc: Global, files: &[File<'_>]) -> Result<MemoryDir, DirFault> {
    let mut dir = new_directory(alloc);
    for (name, parts) in files {
        dir.create(alloc, name)?;
        append(alloc, &mut dir, name, &joined(alloc, parts)?)?;
    }
    Ok(dir)
}

/// The parts, one after the other.
pub(crate) fn joined(alloc: Global, parts: &[&[u8]]) -> Result<Vec<u8>, AllocError> {
    let mut all = Vec::new(alloc);
    for part in parts {
        all.extend_from_slice(part)?;
    }
    Ok(all)
}

/// A unit of input or of output: what stands before its length, then its length and its bytes.
pub(crate) fn unit(alloc: Global, head: &[u8], parts: &[&[u8]]) -> Result<Vec<u8>, AllocError> {
    let bytes = joined(alloc, parts)?;
    let length = u32::try_from(bytes.len()).unwrap_or(0).to_be_bytes();
    joined(alloc, &[head, &length, &bytes])
}

/// A packet: its size in 32 bits, and then the parts.
pub(crate) fn packet(alloc: Global, parts: &[&[u8]]) -> Result<Vec<u8>, AllocError> {
    unit(alloc, b"\xce", parts)
}

/// A reply of this type to this sync.
pub(crate) fn reply(
    alloc: Global,
    kind: u16,
    sync: u8,
    body: &[u8],
) -> Result<Vec<u8>, AllocError> {
    let [high, low] = kind.to_be_bytes();
    let header = [
        0x83, 0x00, 0xce, 0, 0, high, low, 0x01, 0xcf, 0, 0, 0, 0, 0, 0, 0, sync, 0x05, 0xce, 0, 0,
        0, 0,
    ];
    packet(alloc, &[&header, body])
}

/// A reply of one tuple.
pub(crate) fn found(alloc: Global, sync: u8, tuple: &[u8]) -> Result<Vec<u8>, AllocError> {
    let body = joined(alloc, &[FOUND, tuple])?;
    reply(alloc, 0, sync, &body)
}

/// A run that is to end well, whose output is compared; and the directory that it left.
pub(crate) fn check_run(
    rt: &impl Abort,
    alloc: Global,
    dir: MemoryDir,
    input: &[u8],
    output: &[u8],
) -> Result<MemoryDir, AllocError> {
    let ran = run_in(alloc, dir, &TRACE, input, NONE)?;
    assert_eq!(rt; ran.status.as_str(), "Ok");
    assert_eq!(rt; ran.output.as_slice(), output);
    directory_of(ran)
}

/// Sends these packets to connection 1 in one unit, and compares the output: one unit of the greeting
/// and these replies. Without packets there is neither unit.
pub(crate) fn talk(
    rt: &impl Abort,
    alloc: Global,
    dir: MemoryDir,
    packets: &[u8],
    replies: &[u8],
) -> Result<MemoryDir, AllocError> {
    if packets.is_empty() {
        return check_run(rt, alloc, dir, &[], &[]);
    }
    let input = unit(alloc, ON_ONE, &[packets])?;
    let output = unit(alloc, TO_ONE, &[GREETING, replies])?;
    check_run(rt, alloc, dir, &input, &output)
}

/// A request and its reply.
pub(crate) struct Exchange {
    /// The header and the body of the request, in parts.
    pub(crate) asked: &'static [&'static [u8]],
    /// The sync of both.
    pub(crate) sync: u8,
    /// The type of the reply.
    pub(crate) kind: u16,
    /// The body of the reply, in parts.
    pub(crate) told: &'static [&'static [u8]],
}

/// Sends these requests to connection 1 in one unit, and compares the replies.
pub(crate) fn check_exchanges(
    rt: &impl Abort,
    alloc: Global,
    dir: MemoryDir,
    exchanges: &[Exchange],
) -> Result<MemoryDir, AllocError> {
    let mut packets = Vec::new(alloc);
    let mut replies = Vec::new(alloc);
    for exchange in exchanges {
        add_exchange(alloc, exchange, &mut packets, &mut replies)?;
    }
    talk(rt, alloc, dir, &packets, &replies)
}

/// Sends these requests in a run on a new directory, compares the replies, and asks for all tuples in
/// the next run: there is none.
pub(crate) fn check_refusals(
    rt: &impl Abort,
    alloc: Global,
    refused: &[Exchange],
) -> Result<(), AllocError> {
    let dir = check_exchanges(rt, alloc, new_directory(alloc), refused)?;
    check_exchanges(rt, alloc, dir, NO_TUPLES)?;
    Ok(())
}

/// A SELECT of all tuples that finds none.
const NO_TUPLES: &[Exchange] = &[Exchange {
    asked: &[b"\x82\x00\x01\x01\x02\x83\x10\xcd\x02\x00\x12\x09\x20\x90"],
    sync: 2,
    kind: 0,
    told: &[b"\x81\x30\xdd\x00\x00\x00\x00"],
}];

fn add_exchange(
    alloc: Global,
    exchange: &Exchange,
    packets: &mut Vec<u8>,
    replies: &mut Vec<u8>,
) -> Result<(), AllocError> {
    packets.extend_from_slice(&packet(alloc, exchange.asked)?)?;
    let body = joined(alloc, exchange.told)?;
    replies.extend_from_slice(&reply(alloc, exchange.kind, exchange.sync, &body)?)?;
    Ok(())
}

/// What stands before the length of a unit: bytes on connection 1, and its output.
pub(crate) const ON_ONE: &[u8] = b"\x00\x00\x00\x00\x01";

pub(crate) const TO_ONE: &[u8] = b"\x00\x00\x00\x01";

/// What stands before the tuple in a request's header and body: REPLACE into space 512, with sync 1.
pub(crate) const PUT: &[u8] = b"\x82\x00\x03\x01\x01\x82\x10\xcd\x02\x00\x21";

/// The tuple [1, "a"].
pub(crate) const ONE: &[u8] = b"\x92\x01\xa1a";

/// What stands before the tuple in the body of a reply of one tuple.
pub(crate) const FOUND: &[u8] = b"\x81\x30\xdd\x00\x00\x00\x01";

/// The arguments of a run.
pub(crate) const TRACE: [&str; 2] = ["trace", "d"];

pub(crate) const FIRST: &str = "00000000000000000000.xlog";

pub(crate) const SECOND: &str = "00000000000000000001.xlog";

/// The header of the first journal: the node's UUIDs are the seed's, and its replica id is 1.
pub(crate) const HEADER: &[u8; 118] =
    b"XLOG\n0.13\nInstance: 00010203-0405-4607-8809-0a0b0c0d0e0f\n\
    ReplicaSet: 10111213-1415-4617-9819-1a1b1c1d1e1f\nVClock: {}\n\n";

/// The header of the journal that begins after one commit.
pub(crate) const NEXT_HEADER: &[u8; 122] =
    b"XLOG\n0.13\nInstance: 00010203-0405-4607-8809-0a0b0c0d0e0f\n\
    ReplicaSet: 10111213-1415-4617-9819-1a1b1c1d1e1f\nVClock: {1: 1}\n\n";

/// The block of the REPLACE, as the first commit of replica 1.
pub(crate) const BLOCK: &[u8; 36] =
    b"\xd5\xba\x0b\xab\xce\0\0\0\x11\0\xce\xa3\xd2\x78\x98\xa3\0\0\0\
    \x83\x00\x03\x02\x01\x03\x01\x82\x10\xcd\x02\x00\x21\x92\x01\xa1a";

/// The marker of a file's end.
pub(crate) const END: &[u8; 4] = b"\xd5\x10\xad\xed";
