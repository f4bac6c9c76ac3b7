//! Requests that are no statements.

use crate::harness::{Exchange, check_refusals};
use std::test::Fail;

/// BEGIN outside of a stream.
const REFUSED_IN_RUNS: &[Exchange] = &[Exchange {
    asked: &[b"\x82\x00\x0e\x01\x01\x80"],
    sync: 1,
    kind: 0x8001,
    told: &[b"\x81\x31\xb9Illegal value of key 0x0a"],
}];

#[test]
fn refusals_leave_nothing(rt: HostRuntime) -> Result<(), Fail> {
    Ok(check_refusals(&rt, rt.alloc(), REFUSED_IN_RUNS)?)
}
