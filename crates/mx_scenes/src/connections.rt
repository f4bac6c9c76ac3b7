//! Connections that come and go, side by side.

use crate::harness::{
    GREETING, NONE, ON_ONE, TO_ONE, TRACE, check_run, joined, new_directory, packet, reply, run_on,
    unit,
};
use std::alloc::{AllocError, Global};
use std::test::Fail;

/// What stands in a packet of two mebibytes before the last value of its body: the header, the key and
/// the value's length. It is a PING.
const LONG_PING: &[u8] = b"\xce\x00\x20\x00\x00\x82\x00\x40\x01\x01\x81\x7e\xc6\x00\x1f\xff\xf4";

#[test]
fn a_packet_may_have_two_mebibytes(rt: HostRuntime) -> Result<(), Fail> {
    let alloc = rt.alloc();
    let bytes = Vec::from_elem(alloc, 0, 2_097_140)?;
    let input = unit(alloc, ON_ONE, &[LONG_PING, &bytes])?;
    let told = reply(alloc, 0, 1, b"\x80")?;
    let output = unit(alloc, TO_ONE, &[GREETING, &told])?;
    check_run(&rt, alloc, new_directory(alloc), &input, &output)?;
    Ok(())
}

/// A unit for each of so many connections, with a PING of connection and round as its sync.
fn pings(alloc: Global, connections: u32, round: u8) -> Result<Vec<u8>, AllocError> {
    let mut input = Vec::new(alloc);
    for connection in 0..connections {
        let [_, _, high, low] = connection.to_be_bytes();
        let asked = packet(alloc, &[&[0x82, 0x00, 0x40, 0x01, 0xcd, low, round]])?;
        input.extend_from_slice(&unit(alloc, &[0, 0, 0, high, low], &[&asked])?)?;
    }
    Ok(input)
}

#[test]
fn a_thousand_connections_take_turns(rt: HostRuntime) -> Result<(), Fail> {
    let alloc = rt.alloc();
    let input = joined(alloc, &[&pings(alloc, 1024, 1)?, &pings(alloc, 1024, 2)?])?;
    let ran = run_on(alloc, &TRACE, &input, NONE)?;
    assert_eq!(rt; ran.status.as_str(), "Ok");
    // A unit's head, and the greeting in the first round, and a reply of 29 bytes.
    assert_eq!(rt; ran.output.len(), 1024 * (8 + 128 + 29) + 1024 * (8 + 29));
    Ok(())
}
