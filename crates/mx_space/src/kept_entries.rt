//! How the entries of an index are kept.

use crate::hash_index::HashIndex;
use crate::tree_index::TreeIndex;

/// The entries of an index, as its type asks for.
#[derive(Drop)]
pub(crate) enum KeptEntries {
    Tree(TreeIndex),
    Hash(HashIndex),
}
