//! The texts of `--help` and `--version`.

ghost use Rattle.std.specs.Prelude.{◌≡◌, ◌↔◌, ◌∷◌, [], Some, codes};
ghost use Rattle.mx_program.specs.declared.help.Notice.TheVariants.{Help, Version};

use mx_outside::Names;

/// A text that is printed in place of a run.
#[derive(Clone, Copy, Debug, PartialEq, Eq)]
pub enum Notice {
    Help,
    Version,
}

/// The notice that the arguments ask for, where they are its option alone.
pub fn notice_in(arguments: &Names) -> Option<Notice>
    ensures help { (result ≡ Some Help) ↔ (arguments.now ≡ codes "--help" ∷ []) }
    ensures version { (result ≡ Some Version) ↔ (arguments.now ≡ codes "--version" ∷ []) }
{
    let [option] = arguments.as_slice() else {
        return None;
    };
    match option.as_str() {
        "--help" => Some(Notice::Help),
        "--version" => Some(Notice::Version),
        _ => None,
    }
}

impl Notice {
    /// The text, in whole lines.
    pub fn text(self) -> &'static str {
        match self {
            Notice::Help => HELP,
            Notice::Version => VERSION,
        }
    }
}

const VERSION: &str = "\
vurandy 0.1.0
protocol 2.11.0
";

const HELP: &str = "\
vurandy: a database server that keeps tuples of MessagePack and speaks IPROTO

Usage:
  vurandy trace DIR    answers the requests of standard input on standard output
  vurandy --help       prints this text
  vurandy --version    prints the version

DIR is the directory of the database. It is created if it is missing. Each commit is
durable before its reply is sent, and the next run recovers it. One process uses a
directory at a time.

Input is a list of units. Each number in them is big-endian:
  kind         1 byte: 0, bytes came on a connection; 1, it was closed
  connection   4 bytes, at most 1023
  length       4 bytes, at most 16777216; 0 for a close
  bytes        that many: IPROTO packets, cut anywhere

Output is a list of units too. A connection is sent the greeting, and then the replies to
its packets in their order:
  connection   4 bytes
  length       4 bytes; 0 where the server closed the connection
  bytes        that many

Exit status:
  0  Ok          the input was read to its end and answered
  1  BadInput N  the unit that begins at byte N of the input is malformed
  2  BadWords    unrecognised arguments, or VURANDY_SEED is malformed
  3  ReadFault   the input or the system's random source failed
  4  WriteFault  the output failed
  5  DiskFault   the directory failed, or can't be opened
  6  NoMemory    out of memory
  7  Damaged     the directory is corrupt or inconsistent: the file, the place in it and
                 what is wrong there follow
Each but Ok is named on standard error too.

The variable VURANDY_SEED, 64 hexadecimal digits, sets the 32 bytes that the salts and
a new directory's UUIDs are made of. Without it they are random. Set it to repeat a run
byte for byte.

Example, a REPLACE of [1, 'a'] into space 512:
  printf '\\0\\0\\0\\0\\1\\0\\0\\0\\24\\316\\0\\0\\0\\17\\202\\0\\3\\1\\1\\202\\20\\315\\2\\0!\\222\\1\\241a' \\
    | vurandy trace /tmp/database | xxd
";
