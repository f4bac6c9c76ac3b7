//! Theorems that other crates may use.

ghost use Rattle.std.specs.Prelude.{◌≡◌, List, Option, ℕ};
ghost use Rattle.mx_xlog.specs.Blocks.{SplitsInto};
ghost use Rattle.mx_xlog.specs.Files.{FileRead, ReadsAs, SameRead};
ghost use Rattle.mx_xlog.specs.Headers.{IsFaultLine};
ghost use Rattle.mx_xlog.specs.Reading.{blocks_of};

/// A theorem, which does nothing when it is called: bytes are the blocks that are read, one after the
/// other, and then a rest that begins with no block; they are so in one way only.
pub fn blocks_are_spelled()
    ensures split { (bytes : List ℕ) → (rest : List ℕ) × SplitsInto bytes (blocks_of bytes) rest }
    ensures once { (bytes rest : List ℕ) (blocks : List (List ℕ)) → SplitsInto bytes blocks rest
        → blocks ≡ blocks_of bytes }
{}

/// A theorem, which does nothing when it is called: all bytes read as a file, by their header or by the
/// first line that is none of a header, and in one way only; identifiers are compared by their texts.
pub fn all_bytes_read_as_a_file()
    ensures some { (bytes : List ℕ) → (file : Option FileRead) × ReadsAs bytes file }
    ensures once { (bytes : List ℕ) (one other : Option FileRead) → ReadsAs bytes one → ReadsAs bytes other
        → SameRead one other }
    ensures line { (bytes : List ℕ) (one other : ℕ) → IsFaultLine bytes one → IsFaultLine bytes other → one ≡ other }
{}
