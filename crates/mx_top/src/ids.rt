//! Who a node is whose directory has no files.

ghost use Rattle.std.specs.Prelude.{◌≡◌, length};
ghost use Rattle.mx_top.specs.Starts.{first_ids, made_random};

use mx_model::Ids;
use uuid::{Builder, Uuid};

/// The first node of its replica set, with identifiers from the seed.
pub(crate) fn first_ids(seed: &[u8; 32]) -> Ids
    ensures { result ≡ first_ids seed.now }
{
    let (instance, set) = seed.split_at(16);
    Ids {
        me: 1,
        instance: made_random(instance),
        set: made_random(set),
    }
}

/// A version 4 UUID of 16 bytes.
fn made_random(bytes: &[u8]) -> Uuid
    requires { length bytes.now ≡ 16 }
    ensures { result ≡ made_random bytes.now }
{
    let mut copy = [0; 16];
    copy.copy_from_slice(bytes);
    Builder::from_random_bytes(copy).into_uuid()
}
