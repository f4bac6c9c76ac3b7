//! Reading the headers of journal and snapshot files.

ghost use Rattle.std.specs.Prelude.{◌≡◌, ◌+◌, ◌++◌, ◌<◌, ◌≤◌, length, MatchOption, MatchResult};
ghost use Rattle.mx_xlog.specs.Headers.{lines_text, replica_lines, IsHeader, IsFaultLine};
ghost use Rattle.mx_xlog.specs.Lines.{TellsId, TellsReplica, TellsClock};
ghost use Rattle.mx_xlog.specs.HeaderParts.{BeginsWith, BeginsNone, TellsFileType};

use crate::head::Head;
use crate::lines::{behind, clock_in, first_line, id_behind, replica_in};
use mx_vclock::Vclock;
use thiserror::Error;
use uuid::Uuid;

/// The first line, counted from 1, that no header has there.
#[derive(Clone, Copy, Debug, Drop, PartialEq, Eq, Error)]
#[error("line {line} is none of a file's header")]
pub struct HeadFault {
    /// The line, counted from 1.
    pub line: u8,
}

/// What the header says that the bytes begin with, and its size in bytes.
///
/// # Errors
/// The bytes begin with no header: the fault is the first line that no header has there.
pub fn read_header(bytes: &[u8]) -> Result<(Head, usize), HeadFault>
    ensures { MatchResult result (λ found. IsHeader bytes.now found.0 found.1) (λ fault. IsFaultLine bytes.now fault.line) }
{
    let Some((snapshot, rest)) = file_type_line(bytes) else {
        return Err(HeadFault { line: 1 });
    };
    let Some(rest) = behind(rest, b"0.13\n") else {
        return Err(HeadFault { line: 2 });
    };
    let Some((instance, rest)) = id_line(rest, b"Instance: ") else {
        return Err(HeadFault { line: 3 });
    };
    let Some((set, rest)) = id_line(rest, b"ReplicaSet: ") else {
        return Err(HeadFault { line: 4 });
    };
    let (replica, rest) = read_replica(rest);
    let line = clock_place(replica);
    let Some((clock, rest)) = clock_line(rest) else {
        return Err(HeadFault { line });
    };
    let Some(rest) = behind(rest, b"\n") else {
        return Err(HeadFault { line: line + 1 });
    };
    let head = Head {
        snapshot,
        instance,
        set,
        replica,
        clock,
    };
    Ok((head, bytes.len() - rest.len()))
}

fn read_replica(bytes: &[u8]) -> (u8, &[u8])
    ensures below { result.0 < 32 }
    ensures begins { bytes.now ≡ lines_text (replica_lines result.0) ++ result.1.now }
    ensures first { result.0 ≡ 1 → BeginsNone TellsReplica result.1.now }
{
    replica_line(bytes).unwrap_or((1, bytes))
}

/// Lines are counted from 1.
fn clock_place(replica: u8) -> u8
    ensures place { result ≡ 5 + length (replica_lines replica) }
    ensures most { result ≤ 6 }
{
    if replica == 1 { 5 } else { 6 }
}

fn file_type_line(bytes: &[u8]) -> Option<(bool, &[u8])>
    ensures { MatchOption result (BeginsNone TellsFileType bytes.now) (λ found. BeginsWith TellsFileType found.0 found.1.now bytes.now) }
{
    if let Some(rest) = behind(bytes, b"SNAP\n") {
        return Some((true, rest));
    }
    let rest = behind(bytes, b"XLOG\n")?;
    Some((false, rest))
}

fn id_line<'a>(bytes: &'a [u8], prefix: &[u8]) -> Option<(Uuid, &'a [u8])>
    ensures { MatchOption result
        (BeginsNone (TellsId prefix.now) bytes.now)
        (λ found. BeginsWith (TellsId prefix.now) found.0 found.1.now bytes.now) }
{
    let (line, rest) = first_line(bytes)?;
    Some((id_behind(line, prefix)?, rest))
}

fn replica_line(bytes: &[u8]) -> Option<(u8, &[u8])>
    ensures { MatchOption result (BeginsNone TellsReplica bytes.now) (λ found. BeginsWith TellsReplica found.0 found.1.now bytes.now) }
{
    let (line, rest) = first_line(bytes)?;
    Some((replica_in(line)?, rest))
}

fn clock_line(bytes: &[u8]) -> Option<(Vclock, &[u8])>
    ensures { MatchOption result (BeginsNone TellsClock bytes.now) (λ found. BeginsWith TellsClock found.0 found.1.now bytes.now) }
{
    let (line, rest) = first_line(bytes)?;
    Some((clock_in(line)?, rest))
}
