//! Theorems that other crates may use.

ghost use Rattle.std.specs.Prelude.{◌≡◌, ℕ, List, Some, Ok};
ghost use Rattle.mx_msgpack.specs.Items.{IsArray, values_from};
ghost use Rattle.mx_msgpack.specs.Projections.{as_array, first_as};
ghost use Rattle.mx_operations.specs.Operations.{Operation, operations_from, operations_in};

/// A theorem, which does nothing when it is called: bytes that are one array, in which each value is an
/// operation, spell these operations. So over such bytes `read_ops` fails only out of memory.
pub fn operations_without_fault_are_read()
    ensures { (bytes : List ℕ) (array : ℕ × List ℕ) (all : List Operation) → IsArray bytes → first_as as_array bytes ≡ Some array
        → operations_from 0 (values_from array.0 array.1) ≡ Ok all → operations_in bytes ≡ Ok all }
{}
