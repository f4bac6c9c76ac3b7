//! How the tuples of a space are kept.

use crate::hash_tuples::HashTuples;
use mx_msgpack::Bytes;
use std::collections::BTreeMap;

/// Tuples by the comparable bytes of their primary keys, as the primary index finds them.
#[derive(Drop)]
pub(crate) enum KeptTuples {
    Tree(BTreeMap<Bytes, Bytes>),
    Hash(HashTuples),
}
