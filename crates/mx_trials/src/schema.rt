//! Who may write the spaces that describe spaces and indexes.

use mx_steps::{Asked, NO_KEY, Step, Told, play_both};
use std::test::Fail;

const IN_PLACE: Told<'static> = Told::Refused(5, b"Unsupported: change of a schema row in place");

const SYSTEM: Told<'static> = Told::Refused(5, b"Unsupported: write to a system space");

/// REPLACEs into system spaces, whatever else is wrong with the tuple; and that nothing was changed.
const WRITES: &[Step<'static>] = &[
    (Asked::Replace(280, NO_KEY), IN_PLACE),
    (
        Asked::Replace(280, b"\x97\xcd\x02\x01\x01\xa1a\xa5memtx\x00\x80\x90"),
        IN_PLACE,
    ),
    (Asked::Replace(288, b"\x91\xff"), IN_PLACE),
    (Asked::Replace(281, NO_KEY), SYSTEM),
    (Asked::Replace(289, NO_KEY), SYSTEM),
    (Asked::Replace(320, b"\x92\x01\xa1a"), SYSTEM),
    (Asked::Replace(272, b"\x92\xa6leader\x02"), SYSTEM),
    // Another setting may be, and comes before the leader's.
    (
        Asked::Replace(272, b"\x92\xa6Leader\x02"),
        Told::Tuples(b"\x92\xa6Leader\x02"),
    ),
    (
        Asked::Replace(272, NO_KEY),
        Told::Refused(39, b"Field 0 is missing"),
    ),
    (
        Asked::Select(272, 0, NO_KEY),
        Told::Tuples(b"\x92\xa6Leader\x02\x92\xa6leader\x01"),
    ),
    (Asked::Select(320, 0, NO_KEY), Told::Tuples(b"")),
    (Asked::Select(512, 0, NO_KEY), Told::Tuples(b"")),
];

#[test]
fn only_settings_are_replaced_in_system_spaces(rt: HostRuntime) -> Result<(), Fail> {
    Ok(play_both(rt.alloc(), WRITES)?)
}
