//! Output units: a connection, a length and that many bytes.

ghost use Rattle.std.specs.Prelude.{◌≡◌, ◌++◌, OnOk};
ghost use Rattle.mx_top.specs.TraceOutput.{unit_text, units_text};

use byteorder::{BigEndian, ByteOrder};
use mx_node::OutUnit;
use std::alloc::AllocError;

/// The bytes of a connection and a length.
const HEAD: usize = 8;

/// Writes output units in place of what the buffer has.
///
/// # Errors
/// Out of memory, or a unit has more bytes than its length can say.
pub(crate) fn write_units(units: &[OutUnit], out: &mut Vec<u8>) -> Result<(), AllocError>
    ensures { OnOk result (out.new.items ≡ units_text units.now) }
{
    out.clear();
    for unit in units {
        write_unit(unit, out)?;
    }
    Ok(())
}

/// Adds an output unit.
fn write_unit(unit: &OutUnit, out: &mut Vec<u8>) -> Result<(), AllocError>
    ensures { OnOk result (out.new.items ≡ out.old.items ++ unit_text unit.now) }
{
    let Ok(length) = u32::try_from(unit.bytes.len()) else {
        return Err(AllocError);
    };
    let mut head = [0; HEAD];
    BigEndian::write_u32(&mut head, unit.conn.0);
    BigEndian::write_u32(&mut head[4..], length);
    out.reserve(HEAD + unit.bytes.len())?;
    out.extend_from_slice(&head)?;
    out.extend_from_slice(unit.bytes.as_slice())?;
    Ok(())
}
