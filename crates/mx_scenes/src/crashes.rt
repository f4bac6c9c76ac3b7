//! What a run finds in a directory where an earlier one was stopped.

use crate::harness::{
    BLOCK, END, FIRST, GREETING, HEADER, NEXT_HEADER, NONE, ON_ONE, Ran, SECOND, TO_ONE, TRACE,
    check_file, directory_of, directory_with, found, joined, packet, reply, run_in, unit,
};
use mx_fake::MemoryDir;
use mx_outside::{Dir, DirFault};
use std::alloc::{AllocError, Global};
use std::process::Abort;
use std::test::Fail;

/// The block of the REPLACE of [2, "b"], as the second commit of replica 1.
const SECOND_BLOCK: &[u8; 36] = b"\xd5\xba\x0b\xab\xce\0\0\0\x11\0\xce\xe6\xd2\x25\xad\xa3\0\0\0\
    \x83\x00\x03\x02\x01\x03\x02\x82\x10\xcd\x02\x00\x21\x92\x02\xa1b";

const THIRD: &str = "00000000000000000002.xlog";

/// The header of the journal that begins after two commits.
const THIRD_HEADER: &[u8; 122] = b"XLOG\n0.13\nInstance: 00010203-0405-4607-8809-0a0b0c0d0e0f\n\
    ReplicaSet: 10111213-1415-4617-9819-1a1b1c1d1e1f\nVClock: {1: 2}\n\n";

/// The tuple of a key: [1, "a"], [2, "b"] and so on.
fn tuple(key: u8) -> [u8; 4] {
    [0x92, key, 0xa1, 0x60 | key]
}

/// REPLACE of each key's tuple into space 512, in these units; the key is the sync too.
fn replaces(alloc: Global, units: &[&[u8]]) -> Result<Vec<u8>, AllocError> {
    let mut input = Vec::new(alloc);
    for keys in units {
        let mut packets = Vec::new(alloc);
        for key in *keys {
            let header = [0x82, 0x00, 0x03, 0x01, *key];
            let body = b"\x82\x10\xcd\x02\x00\x21";
            packets.extend_from_slice(&packet(alloc, &[&header, body, &tuple(*key)])?)?;
        }
        input.extend_from_slice(&unit(alloc, ON_ONE, &[&packets])?)?;
    }
    Ok(input)
}

/// SELECT of a key in space 512 by a limit of 1, in a unit for each key; the key is the sync too.
fn selects(alloc: Global, keys: &[u8]) -> Result<Vec<u8>, AllocError> {
    let mut input = Vec::new(alloc);
    for key in keys {
        let header = [0x82, 0x00, 0x01, 0x01, *key];
        let body = b"\x84\x10\xcd\x02\x00\x12\x01\x14\x00\x20\x91";
        let asked = packet(alloc, &[&header, body, &[*key]])?;
        input.extend_from_slice(&unit(alloc, ON_ONE, &[&asked])?)?;
    }
    Ok(input)
}

/// The reply to the request of a key: its tuple, or no tuple.
fn answer(alloc: Global, key: u8, is_there: bool) -> Result<Vec<u8>, AllocError> {
    if is_there {
        found(alloc, key, &tuple(key))
    } else {
        reply(alloc, 0, key, b"\x81\x30\xdd\x00\x00\x00\x00")
    }
}

/// The output of a run that is asked for the keys of these units, where those up to `prefix` are there.
fn answers(alloc: Global, units: &[&[u8]], prefix: u8) -> Result<Vec<u8>, AllocError> {
    let mut output = Vec::new(alloc);
    for keys in units {
        let mut packets = Vec::new(alloc);
        if output.is_empty() {
            packets.extend_from_slice(GREETING)?;
        }
        for key in *keys {
            packets.extend_from_slice(&answer(alloc, *key, *key <= prefix)?)?;
        }
        output.extend_from_slice(&unit(alloc, TO_ONE, &[&packets])?)?;
    }
    Ok(output)
}

/// Checks that a run on a journal of the first block and this end finds the keys up to `prefix`, which
/// is 1 or 2.
fn check_end(rt: &impl Abort, alloc: Global, end: &[u8], prefix: u8) -> Result<(), Fail> {
    let dir = directory_with(alloc, &[(FIRST, &[HEADER, BLOCK, end])])?;
    let ran = run_in(alloc, dir, &TRACE, &selects(alloc, &[1, 2])?, NONE)?;
    let output = answers(alloc, &[&[1], &[2]], prefix)?;
    assert_eq!(rt; ran.status.as_str(), "Ok", "after the block {end:?}");
    assert_eq!(rt; ran.output, output, "after the block {end:?}");
    check_journals(rt, alloc, directory_of(ran)?, end, prefix)
}

/// Checks that this run began its own journal after the keys, and left the other one as it was.
fn check_journals(
    rt: &impl Abort,
    alloc: Global,
    mut dir: MemoryDir,
    end: &[u8],
    prefix: u8,
) -> Result<(), Fail> {
    let (name, header): (&str, &[u8]) = if prefix == 2 {
        (THIRD, THIRD_HEADER)
    } else {
        (SECOND, NEXT_HEADER)
    };
    let names = dir.list(alloc)?;
    assert_eq!(rt; names.as_slice().len(), 2, "after the block {end:?}");
    check_file(rt, alloc, &mut dir, FIRST, &[HEADER, BLOCK, end])?;
    check_file(rt, alloc, &mut dir, name, &[header, END])?;
    Ok(())
}

#[test]
fn a_block_that_is_cut_anywhere_counts_for_nothing(rt: HostRuntime) -> Result<(), Fail> {
    for count in 0..36 {
        check_end(&rt, rt.alloc(), &SECOND_BLOCK[..count], 1)?;
    }
    check_end(&rt, rt.alloc(), SECOND_BLOCK, 2)
}

/// The prefix of a block without data, whose checksum is 0.
const NO_DATA: &[u8] = b"\xd5\xba\x0b\xab\xce\0\0\0\0\0\xce\0\0\0\0\xa3\0\0\0";

/// Ends of the first journal: bytes, so many of the second block, and bytes after these; and the
/// last key that is found.
const ENDS: &[(&[u8], usize, &[u8], u8)] = &[
    (b"", 0, &[0], 1),
    (b"", 0, &[0; 40], 1),
    (b"", 0, &[0xff], 1),
    (b"", 0, &[0xff; 40], 1),
    (b"", 0, b"\xd5", 1),
    (b"", 0, b"\xd5\x10", 1),
    (b"", 0, b"\xd5\x10\xad", 1),
    (b"", 0, END, 1),
    (b"", 19, &[0; 17], 1),
    (b"", 35, b"c", 1),
    (b"", 35, &[0xff; 40], 1),
    (END, 36, b"", 1),
    (b"\xd5\x10\xad", 36, b"", 1),
    (b"\0", 36, b"", 1),
    (NO_DATA, 36, b"", 1),
    (b"", 36, &[0; 40], 2),
    (b"", 36, &[0xff; 40], 2),
    (b"", 36, END, 2),
];

#[test]
fn other_ends_count_for_nothing(rt: HostRuntime) -> Result<(), Fail> {
    let alloc = rt.alloc();
    for (before, count, after, prefix) in ENDS {
        let block = SECOND_BLOCK.get(..*count).unwrap_or(b"");
        let end = joined(alloc, &[before, block, after])?;
        check_end(&rt, alloc, &end, *prefix)?;
    }
    Ok(())
}

/// The block of the REPLACEs of [1, "a"] and [2, "b"], as the first two commits of replica 1.
const BLOCK_OF_TWO: &[u8; 53] = b"\xd5\xba\x0b\xab\xce\0\0\0\x22\0\xce\xb8\x85\xc2\x03\xa3\0\0\0\
    \x83\x00\x03\x02\x01\x03\x01\x82\x10\xcd\x02\x00\x21\x92\x01\xa1a\
    \x83\x00\x03\x02\x01\x03\x02\x82\x10\xcd\x02\x00\x21\x92\x02\xa1b";

#[test]
fn the_commits_of_a_unit_are_one_block(rt: HostRuntime) -> Result<(), Fail> {
    let alloc = rt.alloc();
    let dir = MemoryDir::new(alloc, Vec::new(alloc));
    let ran = run_in(alloc, dir, &TRACE, &replaces(alloc, &[&[1, 2]])?, NONE)?;
    assert_eq!(rt; ran.status.as_str(), "Ok");
    let mut dir = directory_of(ran)?;
    Ok(check_file(&rt, alloc, &mut dir, FIRST, &[HEADER, BLOCK_OF_TWO, END])?)
}

/// Runs one after the other over one directory, of units one after the other: the keys that each of
/// them REPLACEs.
type Runs = &'static [&'static [&'static [u8]]];

/// More calls than any of these runs make on the directory.
const MAX_CALLS: u64 = 100;

/// One key more than any of these runs REPLACEs, in a unit each.
const KEYS: [&[u8]; 5] = [&[1], &[2], &[3], &[4], &[5]];

/// How a directory goes on after the stop: as it is, or restarted by this choice. Its low byte says
/// which names are as they were when the names were synced, a bit each, and the rest of it how many
/// bytes of each file stay beyond its synced ones. A header has 118 bytes, a block of one commit 36,
/// and one of two 53.
const CHOICES: &[Option<u32>] = &[
    None,
    Some(0x0000),
    Some(0x00ff),
    Some(0x0100),
    Some(0x13ff),
    Some(0x2300),
    Some(0x2400),
    Some(0x34ff),
    Some(0x3500),
    Some(0x3_e8ff),
    Some(0x3_e801),
    Some(0x3_e802),
];

/// What was seen of runs that were stopped at a call, and of those that came after them.
#[derive(Clone, Copy, Debug)]
struct Seen {
    /// Whether no run was stopped.
    has_ended: bool,
    /// The last key whose reply went out, if all that went out were the replies up to it.
    acknowledged: Option<u8>,
    /// The last key that the next run finds, if it finds all from 1 up to it.
    found: Option<u8>,
    /// The same of one more run, after a crash that keeps nothing that wasn't synced.
    found_again: Option<u8>,
}

impl Seen {
    /// Whether what was acknowledged is found, and besides at most the commits of the next unit, where
    /// all of their block may be there: all of them or none.
    fn is_right(&self, runs: Runs, choice: Option<u32>) -> bool {
        let (Some(least), Some(found)) = (self.acknowledged, self.found) else {
            return false;
        };
        let next = unit_after(runs, least);
        let size = block_size(next);
        let is_cut = choice.is_some_and(|choice| choice / 256 < size);
        let most = next.last().copied().unwrap_or(least);
        let is_found = found == least || (found == most && !is_cut);
        is_found && self.found_again == self.found
    }
}

/// The keys of the unit that comes after this last key; none where it is the last one of all.
fn unit_after(runs: Runs, last: u8) -> &'static [u8] {
    for units in runs {
        for keys in *units {
            if keys.first().is_some_and(|first| *first > last) {
                return keys;
            }
        }
    }
    &[]
}

/// The size of the block of one commit, or of two.
fn block_size(keys: &[u8]) -> u32 {
    if keys.len() == 2 { 53 } else { 36 }
}

/// The last key up to which an output is the answers to these units, or `before` where it has none;
/// nothing where it is something else.
fn last_answered(
    alloc: Global,
    output: &[u8],
    units: &[&[u8]],
    before: u8,
) -> Result<Option<u8>, AllocError> {
    for count in 0..=units.len() {
        let answered = &units[..count];
        if output == answers(alloc, answered, u8::MAX)?.as_slice() {
            let last = answered.last().and_then(|keys| keys.last());
            return Ok(Some(last.copied().unwrap_or(before)));
        }
    }
    Ok(None)
}

/// The last key that a run found, if it ended well and found all from 1 up to it.
fn last_told(alloc: Global, ran: &Ran) -> Result<Option<u8>, AllocError> {
    for prefix in 0..=5 {
        if ran.status.as_str() == "Ok" && ran.output == answers(alloc, &KEYS, prefix)? {
            return Ok(Some(prefix));
        }
    }
    Ok(None)
}

/// The last key that one more run finds in a directory, and the directory.
fn last_found(alloc: Global, dir: MemoryDir) -> Result<(Option<u8>, MemoryDir), AllocError> {
    let ran = run_in(alloc, dir, &TRACE, &selects(alloc, &[1, 2, 3, 4, 5])?, NONE)?;
    let last = last_told(alloc, &ran)?;
    Ok((last, directory_of(ran)?))
}

/// Runs up to one that was stopped.
#[derive(Drop)]
struct Stopped {
    /// Whether none was stopped.
    has_ended: bool,
    /// The last key whose reply went out, if all that went out were the replies up to it.
    acknowledged: Option<u8>,
    /// The directory as they left it.
    dir: MemoryDir,
}

impl Stopped {
    /// One run more, which REPLACEs the keys of these units.
    fn and_run(self, alloc: Global, units: &[&[u8]]) -> Result<Stopped, AllocError> {
        let ran = run_in(alloc, self.dir, &TRACE, &replaces(alloc, units)?, NONE)?;
        let acknowledged = match self.acknowledged {
            Some(before) => last_answered(alloc, &ran.output, units, before)?,
            None => None,
        };
        Ok(Stopped {
            has_ended: ran.status.as_str() == "Ok",
            acknowledged,
            dir: directory_of(ran)?,
        })
    }
}

/// Runs over a new directory, of whose calls this one fails, up to the run that it stops.
fn stopped_at(alloc: Global, runs: Runs, call: u64) -> Result<Stopped, AllocError> {
    let mut stopped = Stopped {
        has_ended: true,
        acknowledged: Some(0),
        dir: MemoryDir::new(alloc, vec![in alloc; call]?),
    };
    for units in runs {
        if stopped.has_ended {
            stopped = stopped.and_run(alloc, units)?;
        }
    }
    // The first call that no run made may be the one that fails, so it is one that changes nothing.
    let _names = stopped.dir.list(alloc);
    Ok(stopped)
}

/// Stops runs at this call, crashes by the choice, and looks at what further runs find.
fn look_after(alloc: Global, runs: Runs, call: u64, choice: Option<u32>) -> Result<Seen, DirFault> {
    let Stopped {
        has_ended,
        acknowledged,
        mut dir,
    } = stopped_at(alloc, runs, call)?;
    match choice {
        Some(choice) => dir.restart(alloc, choice)?,
        None => dir.reopen(),
    }
    let (found, mut dir) = last_found(alloc, dir)?;
    dir.restart(alloc, 0xff)?;
    let (found_again, _) = last_found(alloc, dir)?;
    Ok(Seen {
        has_ended,
        acknowledged,
        found,
        found_again,
    })
}

/// Looks at runs that are stopped at this call, by each choice: whether none was stopped, and whether
/// a commit was found whose reply didn't go out.
fn check_call(
    rt: &impl Abort,
    alloc: Global,
    runs: Runs,
    call: u64,
) -> Result<(bool, bool), DirFault> {
    let mut has_ended = false;
    let mut is_more_found = false;
    for choice in CHOICES {
        let seen = look_after(alloc, runs, call, *choice)?;
        assert!(rt;
            seen.is_right(runs, *choice),
            "{runs:?} stopped at call {call}, and {choice:?}: {seen:?}"
        );
        has_ended = seen.has_ended;
        is_more_found |= seen.found > seen.acknowledged;
    }
    Ok((has_ended, is_more_found))
}

/// Stops runs at each call that they make.
fn check_runs(rt: &impl Abort, alloc: Global, runs: Runs) -> Result<(), DirFault> {
    let mut has_ended = false;
    let mut is_more_found = false;
    for call in 1..MAX_CALLS {
        if !has_ended {
            let (ended, more) = check_call(rt, alloc, runs, call)?;
            has_ended = ended;
            is_more_found |= more;
        }
    }
    assert!(rt; has_ended, "{runs:?} made more than {MAX_CALLS} calls");
    assert!(rt; is_more_found, "{runs:?} left no block without its reply");
    Ok(())
}

#[test]
fn what_was_acknowledged_is_found_after_a_stop_of_one_run(rt: HostRuntime) -> Result<(), Fail> {
    Ok(check_runs(&rt, rt.alloc(), &[&[&[1], &[2], &[3]]])?)
}

#[test]
fn what_was_acknowledged_is_found_after_a_stop_of_two_runs(rt: HostRuntime) -> Result<(), Fail> {
    Ok(check_runs(&rt, rt.alloc(), &[&[&[1]], &[&[2], &[3], &[4]]])?)
}

#[test]
fn what_was_acknowledged_is_found_after_an_idle_run(rt: HostRuntime) -> Result<(), Fail> {
    Ok(check_runs(&rt, rt.alloc(), &[&[], &[&[1], &[2], &[3]]])?)
}

#[test]
fn all_of_a_unit_is_found_after_a_stop_or_none(rt: HostRuntime) -> Result<(), Fail> {
    Ok(check_runs(&rt, rt.alloc(), &[&[&[1, 2], &[3]], &[&[4]]])?)
}
