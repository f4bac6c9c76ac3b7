//! Writing to the output.

ghost use Rattle.std.specs.Prelude.{◌≡◌, ◌++◌, ℕ, List, Some, OnOk};
ghost use mathlib.Core.List.{IsPrefix};
ghost use Rattle.mx_outside.specs.Causes.{HasCause};
ghost use Rattle.mx_outside.specs.Passed.{IsAllOf, PassesOn};

use mx_outside::{Failed, Sink};

/// Writes all the bytes and flushes.
pub(crate) fn deliver<K: Sink>(output: &mut K, bytes: &[u8]) -> Result<(), Failed>
    ensures told { (before : List ℕ) → K.contents output.old ≡ Some before → (written : List ℕ)
        × (K.contents output.new ≡ Some (before ++ written)) × IsPrefix written bytes.now × OnOk result (written ≡ bytes.now) }
    ensures passes { PassesOn (K.passed output.old) (K.passed output.new) }
    ensures passed { OnOk result (IsAllOf (K.passed output.new) (K.contents output.new)) }
    ensures cause { HasCause (K.faults output.old) (K.faults output.new) result }
{
    write_all(output, bytes)?;
    output.flush()?;
    Ok(())
}

/// Writes all the bytes.
fn write_all<K: Sink>(output: &mut K, bytes: &[u8]) -> Result<(), Failed>
    ensures told { (before : List ℕ) → K.contents output.old ≡ Some before → (written : List ℕ)
        × (K.contents output.new ≡ Some (before ++ written)) × IsPrefix written bytes.now × OnOk result (written ≡ bytes.now) }
    ensures passes { PassesOn (K.passed output.old) (K.passed output.new) }
    ensures cause { HasCause (K.faults output.old) (K.faults output.new) result }
{
    let mut rest = bytes;
    while !rest.is_empty() {
        let count = output.write(rest)?;
        (_, rest) = rest.split_at(count);
    }
    Ok(())
}
