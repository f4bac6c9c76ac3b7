//! Copies of the spaces of the plain slow program.

ghost use Rattle.std.specs.Prelude.{◌≡◌, IfOk};
ghost use Rattle.mx_slow_state.specs.SlowSteps.{SameSpaces, SameSpace};

use crate::slow_state::SlowSpace;
use mx_msgpack::Bytes;
use mx_schema::Keyed;
use std::alloc::{AllocError, Global};
use std::collections::BTreeMap;

pub(crate) fn copy_spaces(
    alloc: Global,
    spaces: &BTreeMap<u32, SlowSpace>,
) -> Result<BTreeMap<u32, SlowSpace>, AllocError>
    ensures { IfOk result (λ copy. SameSpaces copy spaces.now) }
{
    let mut copy = BTreeMap::new(alloc);
    for (id, space) in spaces {
        copy.insert(*id, copy_space(alloc, space)?)?;
    }
    Ok(copy)
}

fn copy_space(alloc: Global, space: &SlowSpace) -> Result<SlowSpace, AllocError>
    ensures { IfOk result (λ copy. SameSpace copy space.now) }
{
    Ok(SlowSpace {
        schema: space.schema.copy(alloc)?,
        tuples: copy_tuples(alloc, &space.tuples)?,
    })
}

fn copy_tuples(alloc: Global, tuples: &[Keyed]) -> Result<Vec<Keyed>, AllocError>
    ensures { IfOk result (λ copies. copies.items ≡ tuples.now) }
{
    let mut copies = Vec::with_capacity(alloc, tuples.len())?;
    for one in tuples {
        copies.push_reserved(copy_keyed(alloc, one)?);
    }
    Ok(copies)
}

fn copy_keyed(alloc: Global, keyed: &Keyed) -> Result<Keyed, AllocError>
    ensures { IfOk result (λ copy. copy ≡ keyed.now) }
{
    Ok(Keyed {
        key: Bytes::from_slice(alloc, keyed.key.as_slice())?,
        tuple: Bytes::from_slice(alloc, keyed.tuple.as_slice())?,
    })
}
