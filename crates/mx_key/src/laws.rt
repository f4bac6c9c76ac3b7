//! Theorems that other crates may use.

ghost use Rattle.std.specs.Prelude.{◌≡◌, ◌≤◌, ◌++◌, List, ℕ, Ok, length};
ghost use Rattle.std.specs.Ordering.{nat_cmp};
ghost use Rattle.std.specs.Cmp.Lexicographic.{slice_cmp};
ghost use Rattle.mx_msgpack.specs.Grammar.{Array, Spells, Values, max_length};
ghost use Rattle.mx_key.specs.declared.part.Part.{Part};
ghost use Rattle.mx_key.specs.Arrays.{key_array};
ghost use Rattle.mx_key.specs.Keys.{Key, AreFit, key_cmp, is_key_prefix, is_prefix};
ghost use Rattle.mx_key.specs.Parts.{key_of, key_of_array};
ghost use Rattle.mx_key.specs.Prefixes.{prefix_size};
ghost use Rattle.mx_key.specs.Ranges.{Range, AreFitEnds, lies_in};
ghost use Rattle.mx_key.specs.Comparable.{comparable_of, edges_of, holds};

/// A theorem, which does nothing when it is called: comparable bytes are ordered as the keys are, and begin
/// each other exactly where the keys do.
pub fn bytes_are_ordered_as_keys()
    ensures order { (one other : Key) → AreFit one → AreFit other
        → slice_cmp nat_cmp (comparable_of one) (comparable_of other) ≡ key_cmp one other }
    ensures prefix { (one other : Key) → AreFit one → AreFit other
        → is_prefix nat_cmp (comparable_of one) (comparable_of other) ≡ is_key_prefix one other }
{}

/// A theorem, which does nothing when it is called: the bytes of a range hold those of exactly the keys
/// that lie in the range.
pub fn a_range_holds_its_keys()
    ensures { (range : Range) (key : Key) → AreFitEnds range → AreFit key
        → holds (edges_of range) (comparable_of key) ≡ lies_in range key }
{}

/// A theorem, which does nothing when it is called: the array of a key that a tuple has is read again as
/// that key, and it is a value that may stand inside another one.
pub fn a_key_is_read_from_its_array()
    ensures again { (def : List Part) (fields : List (List ℕ)) (key : Key) → key_of def fields ≡ Ok key → AreFit key
        → length (key_array key) ≤ max_length → key_of_array def (key_array key) ≡ Ok key }
    ensures spelled { (key : Key) → AreFit key → length (key_array key) ≤ max_length
        → (values : Values) × Spells 63 (Array values) (key_array key) }
{}

/// A theorem, which does nothing when it is called: the bytes of a key's first parts end where they are
/// said to, whatever follows them.
pub fn a_prefix_is_the_first_parts()
    ensures { (key : Key) (rest : List ℕ) → prefix_size (length key) (comparable_of key ++ rest) ≡ length (comparable_of key) }
{}
