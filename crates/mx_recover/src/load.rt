//! A whole file of a directory, read in pieces.

ghost use Rattle.std.specs.Prelude.{◌≡◌, ◌+◌, ◌≤◌, IfOk, take, vec_len};
ghost use Rattle.mx_outside.specs.Causes.{HasCauseOf};
ghost use Rattle.mx_outside.specs.Disks.{IsThere, OfFile};
ghost use Rattle.mx_outside.specs.declared.dir.DirFault.TheVariants.{Failed};
ghost use Rattle.mx_recover.specs.Load.{ReadsOn};

use mx_outside::{Dir, DirFault};
use std::alloc::Global;

/// How many bytes are read at once.
const PIECE: u64 = 65536;

pub(crate) fn load<D: Dir>(alloc: Global, dir: &mut D, name: &str) -> Result<Vec<u8>, DirFault>
    requires { IsThere (D.states dir.old) name.now }
    ensures states { D.states dir.new ≡ D.states dir.old }
    ensures bytes { OfFile (D.states dir.old) name.now (λ file. IfOk result (λ bytes. bytes.items ≡ file.bytes)) }
    ensures cause { HasCauseOf Failed (D.faults dir.old) (D.faults dir.new) result }
{
    let size = dir.size(alloc, name)?;
    let mut bytes = Vec::new(alloc);
    let mut at = 0;
    while at < size {
        let piece = PIECE.min(size - at) as usize;
        let from = bytes.len();
        let Ok(()) = bytes.resize(from + piece, 0) else {
            return Err(DirFault::NoMemory);
        };
        let count = read_into(alloc, dir, name, &mut bytes, from)?;
        bytes.truncate(from + count);
        if count == 0 {
            return Ok(bytes);
        }
        at += count as u64;
    }
    Ok(bytes)
}

/// `from` is the place both in the file and in `bytes`.
fn read_into<D: Dir>(
    alloc: Global,
    dir: &mut D,
    name: &str,
    bytes: &mut Vec<u8>,
    from: usize,
) -> Result<usize, DirFault>
    requires there { IsThere (D.states dir.old) name.now }
    requires within { from ≤ vec_len bytes.old }
    ensures states { D.states dir.new ≡ D.states dir.old }
    ensures kept { take from bytes.new.items ≡ take from bytes.old.items }
    ensures size { vec_len bytes.new ≡ vec_len bytes.old }
    ensures bound { IfOk result (λ count. from + count ≤ vec_len bytes.new) }
    ensures read { OfFile (D.states dir.old) name.now (λ file. IfOk result (λ count. ReadsOn file from bytes.new.items count)) }
    ensures cause { HasCauseOf Failed (D.faults dir.old) (D.faults dir.new) result }
{
    let (_, into) = bytes.split_at_mut(from);
    let room = into.len();
    let count = dir.read(alloc, name, from as u64, into)?;
    // A directory whose files are unknown may return a count above the room.
    Ok(count.min(room))
}
