//! Writing the headers of journal and snapshot files.

ghost use Rattle.std.specs.Prelude.{◌≡◌, ◌++◌, ◌∷◌, [], length, take, MatchResult, codes, if◌then◌else◌};
ghost use Rattle.mx_xlog.specs.Headers.{header_of, lines_text, replica_lines};
ghost use Rattle.mx_vclock.specs.Text.{vclock_text};
ghost use Rattle.uuid.specs.Text.{hyphenated_text, lower};

use crate::head::Head;
use mx_msgpack::Bytes;
use mx_vclock::Vclock;
use std::alloc::{AllocError, Global};
use uuid::Uuid;

/// Appends the header of a file.
///
/// # Errors
/// Out of memory; nothing is appended.
pub fn write_header(alloc: Global, head: &Head, out: &mut Bytes) -> Result<(), AllocError>
    ensures { MatchResult result (λ _. out.new ≡ out.old ++ header_of head.now) (λ _. out.new ≡ out.old) }
{
    let before = out.len();
    let written = write_lines(alloc, head, out);
    if written.is_err() {
        out.truncate(before);
    }
    written
}

/// As `write_header`, but at an error a prefix of the header may have been appended, as by each
/// function below.
fn write_lines(alloc: Global, head: &Head, out: &mut Bytes) -> Result<(), AllocError>
    ensures { MatchResult result (λ _. out.new ≡ out.old ++ header_of head.now) (λ _. take (length out.old) out.new ≡ out.old) }
{
    write_file_type(head.snapshot, out)?;
    write_id(b"Instance: ", &head.instance, out)?;
    write_id(b"ReplicaSet: ", &head.set, out)?;
    write_replica(alloc, head.replica, out)?;
    write_clock(alloc, &head.clock, out)?;
    Ok(())
}

fn write_file_type(snapshot: bool, out: &mut Bytes) -> Result<(), AllocError>
    ensures { MatchResult result
        (λ _. out.new ≡ out.old ++ lines_text ((if snapshot then codes "SNAP" else codes "XLOG") ∷ codes "0.13" ∷ []))
        (λ _. take (length out.old) out.new ≡ out.old) }
{
    let kind: &[u8] = if snapshot { b"SNAP" } else { b"XLOG" };
    write_line(b"", kind, out)?;
    write_line(b"", b"0.13", out)?;
    Ok(())
}

fn write_id(prefix: &[u8], id: &Uuid, out: &mut Bytes) -> Result<(), AllocError>
    ensures { MatchResult result (λ _. out.new ≡ out.old ++ lines_text ((prefix.now ++ hyphenated_text lower id.now) ∷ [])) (λ _. take (length out.old) out.new ≡ out.old) }
{
    let mut buffer = Uuid::encode_buffer();
    let text = id.hyphenated().encode_lower(&mut buffer);
    write_line(prefix, text.as_bytes(), out)
}

fn write_replica(alloc: Global, id: u8, out: &mut Bytes) -> Result<(), AllocError>
    ensures { MatchResult result (λ _. out.new ≡ out.old ++ lines_text (replica_lines id)) (λ _. take (length out.old) out.new ≡ out.old) }
{
    if id == 1 {
        return Ok(());
    }
    let mut text = String::with_capacity(alloc, 3)?;
    write!(text, "{id}")?;
    write_line(b"Replica: ", text.as_bytes(), out)
}

fn write_clock(alloc: Global, clock: &Vclock, out: &mut Bytes) -> Result<(), AllocError>
    ensures { MatchResult result
        (λ _. out.new ≡ out.old ++ lines_text ((codes "VClock: " ++ vclock_text clock.now) ∷ [] ∷ []))
        (λ _. take (length out.old) out.new ≡ out.old) }
{
    let text = clock.text(alloc)?;
    write_line(b"VClock: ", text.as_slice(), out)?;
    write_line(b"", b"", out)?;
    Ok(())
}

fn write_line(prefix: &[u8], value: &[u8], out: &mut Bytes) -> Result<(), AllocError>
    ensures { MatchResult result (λ _. out.new ≡ out.old ++ lines_text ((prefix.now ++ value.now) ∷ [])) (λ _. take (length out.old) out.new ≡ out.old) }
{
    out.extend_from_slice(prefix)?;
    out.extend_from_slice(value)?;
    out.extend_from_slice(b"\n")?;
    Ok(())
}
