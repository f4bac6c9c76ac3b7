//! Theorems that other crates may use.

ghost use Rattle.std.specs.Prelude.{◌≡◌, ◌↔◌, ◌⊎◌, ◌≤◌, ◌++◌, [], List, ℕ, length, take, Ok, Some};
ghost use Rattle.std.specs.List.{concat};
ghost use Rattle.mx_msgpack.specs.declared.bad.Bad.{Bad};
ghost use Rattle.mx_msgpack.specs.declared.bad.Bad.TheVariants.{Short};
ghost use Rattle.mx_msgpack.specs.Faults.{IsFault};
ghost use Rattle.mx_msgpack.specs.Grammar.{Array, Spells, Value, Values, max_nesting};
ghost use Rattle.mx_msgpack.specs.Items.{SpellEach, items_of};
ghost use Rattle.mx_msgpack.specs.Reading.{first_fault, measured};
ghost use Rattle.mx_msgpack.specs.Spelling.{AreBytes, IsSpellable, shortest};

/// A theorem, which does nothing when it is called: bytes spell one value at most, and no spelling
/// begins another.
pub fn no_spelling_begins_another()
    ensures { (one other : Value) (bytes more : List ℕ) → Spells max_nesting one bytes
        → Spells max_nesting other (bytes ++ more) → (more ≡ []) × (one ≡ other) }
{}

/// A theorem, which does nothing when it is called: a value or a fault stands first in all bytes, and
/// never both. What is measured is the value's length, and the first fault is the grammar's.
pub fn a_value_or_its_fault_stands_first()
    ensures size { (bytes : List ℕ) (size : ℕ)
        → (measured bytes ≡ Ok size) ↔ ((size ≤ length bytes) × (value : Value) × Spells max_nesting value (take size bytes)) }
    ensures fault { (bytes : List ℕ) (bad : Bad) → (first_fault bytes ≡ Some bad) ↔ IsFault max_nesting 0 bytes bad }
    ensures one { (bytes : List ℕ)
        → ((size : ℕ) × (size ≤ length bytes) × (value : Value) × Spells max_nesting value (take size bytes))
        ⊎ ((bad : Bad) × IsFault max_nesting 0 bytes bad) }
    ensures only { (value : Value) (front rest : List ℕ) (bad : Bad) → Spells max_nesting value front
        → ¬ IsFault max_nesting 0 (front ++ rest) bad }
{}

/// A theorem, which does nothing when it is called: what is written spells the value, and is read to its
/// end, whatever follows.
pub fn what_is_written_is_read_again()
    ensures { (value : Value) (rest : List ℕ) → IsSpellable value
        → Spells max_nesting value (shortest value)
        × (measured (shortest value ++ rest) ≡ Ok (length (shortest value))) }
{}

/// A theorem, which does nothing when it is called: no spelling of a value in bytes is shorter than the
/// one that is written.
pub fn what_is_written_is_shortest()
    ensures { (value : Value) (bytes : List ℕ) → AreBytes bytes → Spells max_nesting value bytes
        → length (shortest value) ≤ length bytes }
{}

/// A theorem, which does nothing when it is called: bytes that spell an array are its head and then its
/// items, and each item is the spelling of the value in its place.
pub fn array_items_are_spelled()
    ensures { (bytes : List ℕ) (values : Values) → Spells max_nesting (Array values) bytes
        → (head : List ℕ) × (items : List (List ℕ)) × (items_of bytes ≡ Some items)
        × (bytes ≡ head ++ concat items) × SpellEach 63 values items }
{}

/// A theorem, which does nothing when it is called: bytes that begin a spelling and don't end it end inside
/// a value.
pub fn a_proper_prefix_is_short()
    ensures { (value : Value) (bytes missing : List ℕ) → Spells max_nesting value (bytes ++ missing) → 1 ≤ length missing
        → IsFault max_nesting 0 bytes Short }
{}
