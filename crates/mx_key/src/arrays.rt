//! Keys as arrays, each part in its shortest spelling.

ghost use Rattle.std.specs.Prelude.{◌≡◌, ◌⊎◌, ◌++◌, ◌≤◌, [], Ok, Err, MatchResult, OnOk};
ghost use Rattle.std.specs.Option.{unwrap_or};
ghost use Rattle.mx_msgpack.specs.Grammar.{max_length};
ghost use Rattle.mx_msgpack.specs.Items.{IsArray, items_of};
ghost use Rattle.mx_msgpack.specs.Spelling.{array_head, bin_head};
ghost use Rattle.mx_key.specs.declared.fault.KeyFault.TheVariants.{NoMemory};
ghost use Rattle.mx_key.specs.declared.fault.NoKey.{NoKey};
ghost use Rattle.mx_key.specs.Arrays.{IsShort, key_array, part_spelling};
ghost use Rattle.mx_key.specs.Faults.{key_fault_of};
ghost use Rattle.mx_key.specs.Keys.{AreFit, IsFit, Key};
ghost use Rattle.mx_key.specs.Parts as parts;
ghost use Rattle.mx_key.specs.PartViews.{part_view};

use crate::fault::KeyFault;
use crate::key_def::KeyDef;
use crate::keys::{Place, bytes_from};
use crate::part_ref::{PartRef, part_at};
use byteorder::{BigEndian, ByteOrder};
use mx_msgpack::{Bytes, MAX_LENGTH, known_array, write_array_head, write_int, write_str_head};
use std::alloc::{AllocError, Global};

/// The key that a tuple has, which is an array, as an array of its parts.
///
/// # Errors
/// The first part whose field is missing or of another type.
pub fn key_array_of_tuple(alloc: Global, def: &KeyDef, tuple: &[u8]) -> Result<Bytes, KeyFault>
    requires array { IsArray tuple.now }
    ensures { MatchResult result
        (λ bytes. (key : Key) × (parts.key_of def.now (unwrap_or (items_of tuple.now) []) ≡ Ok key) × AreFit key × (bytes ≡ key_array key))
        (λ fault. ((why : NoKey) × (fault ≡ key_fault_of why) × (parts.key_of def.now (unwrap_or (items_of tuple.now) []) ≡ Err why)) ⊎ (fault ≡ NoMemory)) }
{
    let items = known_array(tuple);
    let mut key = Bytes::new(alloc);
    write_head(def.len(), &mut key)?;
    let mut place = Place {
        field: 0,
        bytes: items.bytes,
    };
    let mut rest = def.as_slice();
    while let Some((part, others)) = rest.split_first() {
        let Some(bytes) = bytes_from(items, place, part.field) else {
            return Err(KeyFault::Missing { field: part.field });
        };
        let Some((found, after)) = part_at(part.kind, bytes) else {
            return Err(KeyFault::Wrong {
                field: part.field,
                expected: part.kind,
            });
        };
        write_spelling(found, &mut key)?;
        place = Place {
            field: part.field + 1,
            bytes: after,
        };
        rest = others;
    }
    Ok(key)
}

/// An array of more values than a value may have is taken as one for which there is no memory.
fn write_head(count: usize, out: &mut Bytes) -> Result<(), AllocError>
    ensures { OnOk result (out.new ≡ out.old ++ array_head count) }
{
    if count > MAX_LENGTH as usize {
        return Err(AllocError);
    }
    write_array_head(count, out)
}

/// Adds the shortest spelling of a part.
///
/// # Errors
/// A prefix of the spelling may have been added.
fn write_spelling(part: PartRef<'_>, out: &mut Bytes) -> Result<(), AllocError>
    requires fit { IsFit (part_view part) }
    requires short { IsShort (part_view part) }
    ensures { OnOk result (out.new ≡ out.old ++ part_spelling (part_view part.entry)) }
{
    match part {
        PartRef::Boolean(truth) => out.extend_from_slice(&[if truth { 0xc3 } else { 0xc2 }])?,
        PartRef::Integer(number) => write_int(number, out)?,
        PartRef::Text(text) => {
            write_str_head(text.len(), out)?;
            out.extend_from_slice(text)?;
        }
        PartRef::Binary(content) => {
            write_bin_head(content.len(), out)?;
            out.extend_from_slice(content)?;
        }
    }
    Ok(())
}

#[tactic(auto, unfolding(mx_msgpack::specs::Spelling::bin_head))]
fn write_bin_head(size: usize, out: &mut Bytes) -> Result<(), AllocError>
    requires { size ≤ max_length }
    ensures { OnOk result (out.new ≡ out.old ++ bin_head size) }
{
    match size {
        0..0x100 => out.extend_from_slice(&[0xc4, size as u8])?,
        0x100..0x1_0000 => {
            let mut spelled = [0xc5, 0, 0];
            BigEndian::write_u16(&mut spelled[1..], size as u16);
            out.extend_from_slice(&spelled)?;
        }
        _ => {
            let mut spelled = [0xc6, 0, 0, 0, 0];
            BigEndian::write_u32(&mut spelled[1..], size as u32);
            out.extend_from_slice(&spelled)?;
        }
    }
    Ok(())
}
