//! The entries of an index.

ghost use Rattle.std.specs.Prelude.{◌≡◌, List, [], not, IfOk, IfSome, OnOk, OnErr};
ghost use Rattle.std.specs.BTreeMap.{is_at};
ghost use Rattle.std.specs.Cmp.Lexicographic.{slice_cmp};
ghost use Rattle.std.specs.Map.{remove_entry};
ghost use Rattle.std.specs.Option.{option_map};
ghost use Rattle.std.specs.Ordering.{nat_cmp};
ghost use Rattle.mx_entries.specs.Entries.{IndexEntry, LeadsOnce, LeadsTo, has_entry, with_entry};

use mx_msgpack::Bytes;
use std::alloc::AllocError;

/// The entries of an index: the comparable bytes of a primary key under those of an index key, which the
/// primary key follows.
pub trait Index {
    /// The entries in the order of their keys.
    ghost entries: { Self → List IndexEntry };

    /// Adds an entry, unless one stands under its key. Returns whether it did.
    ///
    /// # Errors
    /// Out of memory, or the key doesn't end with the primary key. Nothing changed then.
    fn insert(&mut self, key: Bytes, primary: &[u8]) -> Result<bool, AllocError>
        ensures is_new { IfOk result (λ is_new. is_new ≡ not (has_entry key (entries self.old))) }
        ensures ok { OnOk result (entries self.new ≡ with_entry key primary.now (entries self.old)) }
        ensures err { OnErr result (entries self.new ≡ entries self.old) };

    /// Takes the entry under a key out, where there is one.
    fn remove(&mut self, key: &Bytes)
        ensures { entries self.new ≡ remove_entry (is_at (slice_cmp nat_cmp key.now)) (entries self.old) };

    /// Takes all entries out.
    fn clear(&mut self)
        ensures { entries self.new ≡ [] };

    /// The entry of a key, in which only the primary key stands behind it: the key, and the primary key.
    fn find<'a>(&'a self, key: &Bytes) -> Option<(&'a [u8], &'a [u8])>
        ensures key { IfSome result (λ entry. entry.0.now ≡ key.now) }
        ensures primary { LeadsOnce key.now (entries self.now) → LeadsTo key.now (entries self.now) (option_map (λ entry. entry.1.now) result) };
}
