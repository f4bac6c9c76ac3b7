//! What is damaged in a directory.

ghost use Rattle.std.specs.Prelude.{◌≡◌, Some};
ghost use Rattle.std.specs.Fmt.{DisplaysOnOk};
ghost use Rattle.mx_directory.specs.DamageText.{clock_text, damage_text, kind_text, name_text};

use mx_msgpack::Bytes;
use mx_vclock::Vclock;
use std::fmt;
use std::fmt::{Display, Formatter, Write};

/// Why a directory is corrupt or inconsistent.
#[derive(Debug, Drop)]
pub struct Damage {
    /// The name of the damaged file.
    pub file: Bytes,
    /// The place of the damage in it: the first byte of a block, or 0.
    pub at: u64,
    /// What is wrong there.
    pub kind: DamageKind,
}

/// What is wrong with a file.
#[derive(Debug, Drop)]
pub enum DamageKind {
    /// It begins with no header, or with one that doesn't fit its name or the other files.
    Head,
    /// It begins at another vclock than the one that the files before it reach.
    Gap { reached: Vclock, begins: Vclock },
    /// A whole block's rows are no transactions that follow, or the state refuses one.
    Row,
}

impl Display for Damage {
    ghost output = { λ damage. Some (damage_text damage) };

    fn fmt<W: Write>(&self, f: &mut Formatter<W>) -> fmt::Result {
        let name = name_text(self.file.as_slice());
        write!(f, "{name} {} {}", self.at, self.kind)
    }
}

impl Display for DamageKind {
    ghost output = { λ kind. Some (kind_text kind) };

    fn fmt<W: Write>(&self, f: &mut Formatter<W>) -> fmt::Result {
        match self {
            DamageKind::Head => write!(f, "head"),
            DamageKind::Gap { reached, begins } => {
                write!(f, "gap ")?;
                write_clock(f, reached)?;
                write!(f, " ")?;
                write_clock(f, begins)
            }
            DamageKind::Row => write!(f, "row"),
        }
    }
}

fn name_text(name: &[u8]) -> &str
    ensures { result.now ≡ name_text name.now }
{
    std::str::from_utf8(name).unwrap_or("")
}

fn write_clock<W: Write>(f: &mut Formatter<W>, clock: &Vclock) -> fmt::Result
    ensures { DisplaysOnOk W.write_str_gives f.old result (Some (clock_text clock.now)) f.new }
{
    let mut between = "";
    write!(f, "{{")?;
    for id in 0..32 {
        let lsn = clock.get(id);
        if lsn != 0 {
            write!(f, "{between}{id}: {lsn}")?;
            between = ", ";
        }
    }
    write!(f, "}}")
}
