//! What a COMMIT is told where the lsns run out.

use mx_steps::{Asked, NO_KEY, StreamStep, Told, play_streams_at};
use std::test::Fail;

/// The tuple [1, "a"].
const ONE: &[u8] = b"\x92\x01\xa1a";

/// The tuple [2, "b"].
const TWO: &[u8] = b"\x92\x02\xa1b";

const USED_UP: Told<'static> = Told::Refused(208, b"Log sequence numbers are used up");

/// Where one lsn is left. A COMMIT that is refused ends its transaction, and takes no lsn.
const WITH_LAST_LSN: &[StreamStep<'static>] = &[
    (1, Asked::Begin, Told::Empty),
    (1, Asked::Replace(512, ONE), Told::Tuples(ONE)),
    (1, Asked::Replace(512, TWO), Told::Tuples(TWO)),
    (1, Asked::Commit, USED_UP),
    (0, Asked::Select(512, 0, NO_KEY), Told::Tuples(b"")),
    (1, Asked::Begin, Told::Empty),
    (1, Asked::Replace(512, ONE), Told::Tuples(ONE)),
    (1, Asked::Commit, Told::Empty),
    (0, Asked::Select(512, 0, NO_KEY), Told::Tuples(ONE)),
    (1, Asked::Begin, Told::Empty),
    (1, Asked::Replace(512, TWO), Told::Tuples(TWO)),
    (1, Asked::Commit, USED_UP),
    // Without a row it takes no lsn.
    (2, Asked::Begin, Told::Empty),
    (2, Asked::Select(512, 0, NO_KEY), Told::Tuples(ONE)),
    (2, Asked::Delete(512, 0, b"\x91\x02"), Told::Tuples(b"")),
    (2, Asked::Commit, Told::Empty),
    (0, Asked::Replace(512, TWO), USED_UP),
    (0, Asked::Select(512, 0, NO_KEY), Told::Tuples(ONE)),
];

/// Where so many lsns are left as the rows need.
const WITH_TWO_LSNS: &[StreamStep<'static>] = &[
    (1, Asked::Begin, Told::Empty),
    (1, Asked::Replace(512, ONE), Told::Tuples(ONE)),
    (1, Asked::Replace(512, TWO), Told::Tuples(TWO)),
    (1, Asked::Commit, Told::Empty),
    (0, Asked::Delete(512, 0, b"\x91\x01"), USED_UP),
    (0, Asked::Select(512, 0, b"\x91\x02"), Told::Tuples(TWO)),
];

#[test]
fn a_commit_takes_an_lsn_for_each_row(rt: HostRuntime) -> Result<(), Fail> {
    play_streams_at(rt.alloc(), "{1: 288230376151711743}", 1, WITH_LAST_LSN)?;
    play_streams_at(rt.alloc(), "{1: 288230376151711742}", 1, WITH_TWO_LSNS)?;
    Ok(())
}
