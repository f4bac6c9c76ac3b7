//! Tuples in the order of their primary keys.

ghost use Rattle.std.specs.Prelude.{◌≡◌};
ghost use Rattle.mx_space.specs.TupleViews.{ordered_entries};

use mx_msgpack::Bytes;
use std::collections::BTreeMap;

/// The tuples of a space in the order of their primary keys, or copies of them.
#[derive(Drop)]
pub(crate) enum OrderedTuples<'a> {
    Kept(&'a BTreeMap<Bytes, Bytes>),
    Made(BTreeMap<Bytes, Bytes>),
}

impl<'a> OrderedTuples<'a> {
    /// The tuples as a map.
    pub(crate) fn as_map(&self) -> &BTreeMap<Bytes, Bytes>
        ensures { result.now.entries ≡ ordered_entries self.now }
    {
        match self {
            OrderedTuples::Kept(tuples) => tuples,
            OrderedTuples::Made(tuples) => tuples,
        }
    }
}
