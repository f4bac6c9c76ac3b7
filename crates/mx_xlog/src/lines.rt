//! The lines of a header, and their values.

ghost use Rattle.std.specs.Prelude.{◌≡◌, ◌++◌, ◌<◌, ◌↔◌, ℕ, List, IsTrue, MatchOption, decimal};
ghost use Rattle.mx_xlog.specs.Lines.{BeginsLine, BeginsNoLine, TellsId, TellsReplica, TellsClock};

use mx_vclock::Vclock;
use uuid::Uuid;

pub(crate) fn first_line(bytes: &[u8]) -> Option<(&[u8], &[u8])>
    ensures { MatchOption result (BeginsNoLine bytes.now) (λ found. BeginsLine found.0.now found.1.now bytes.now) }
{
    for (at, byte) in bytes.iter().enumerate() {
        if *byte == b'\n' {
            let (line, _) = bytes.split_at(at);
            let (_, rest) = bytes.split_at(at + 1);
            return Some((line, rest));
        }
    }
    None
}

pub(crate) fn behind<'a>(line: &'a [u8], prefix: &[u8]) -> Option<&'a [u8]>
    ensures { MatchOption result ((value : List ℕ) → ¬ (line.now ≡ prefix.now ++ value)) (λ value. line.now ≡ prefix.now ++ value.now) }
{
    if !line.starts_with(prefix) {
        return None;
    }
    let (_, value) = line.split_at(prefix.len());
    Some(value)
}

/// The identifier after this prefix, in lower case and with hyphens.
pub(crate) fn id_behind(line: &[u8], prefix: &[u8]) -> Option<Uuid>
    ensures { MatchOption result ((id : List ℕ) → ¬ TellsId prefix.now id line.now) (λ id. TellsId prefix.now id line.now) }
{
    let text = behind(line, prefix)?;
    let Ok(id) = Uuid::try_parse_ascii(text) else {
        return None;
    };
    let mut buffer = Uuid::encode_buffer();
    if id.hyphenated().encode_lower(&mut buffer).as_bytes() != text {
        return None;
    }
    Some(id)
}

pub(crate) fn replica_in(line: &[u8]) -> Option<u8>
    ensures { MatchOption result ((id : ℕ) → ¬ TellsReplica id line.now) (λ id. TellsReplica id line.now) }
{
    let text = behind(line, b"Replica: ")?;
    for id in 0..32 {
        if id != 1 && spells(id, text) {
            return Some(id);
        }
    }
    None
}

fn spells(id: u8, text: &[u8]) -> bool
    requires { id < 100 }
    ensures { IsTrue result ↔ (text.now ≡ decimal id) }
{
    if id < 10 {
        text == [b'0' + id].as_slice()
    } else {
        text == [b'0' + id / 10, b'0' + id % 10].as_slice()
    }
}

/// The vclock of a line, without replica id 0.
pub(crate) fn clock_in(line: &[u8]) -> Option<Vclock>
    ensures { MatchOption result ((clock : List ℕ) → ¬ TellsClock clock line.now) (λ clock. TellsClock clock line.now) }
{
    let text = behind(line, b"VClock: ")?;
    let Ok(clock) = Vclock::read_text(text) else {
        return None;
    };
    if clock.get(0) != 0 {
        return None;
    }
    Some(clock)
}
