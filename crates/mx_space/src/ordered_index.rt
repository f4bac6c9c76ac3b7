//! Entries of an index in the order of their keys.

ghost use Rattle.std.specs.Prelude.{◌≡◌};
ghost use Rattle.mx_space.specs.IndexViews.{ordered_index};

use crate::tree_index::TreeIndex;

/// The entries of an index in the order of their keys, or copies of them.
#[derive(Drop)]
pub(crate) enum OrderedIndex<'a> {
    Kept(&'a TreeIndex),
    Made(TreeIndex),
}

impl<'a> OrderedIndex<'a> {
    /// The entries in a tree.
    pub(crate) fn as_tree(&self) -> &TreeIndex
        ensures { result.now ≡ ordered_index self.now }
    {
        match self {
            OrderedIndex::Kept(index) => index,
            OrderedIndex::Made(index) => index,
        }
    }
}
