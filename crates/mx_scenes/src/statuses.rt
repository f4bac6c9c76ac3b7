//! How a run ends, and what it wrote until then.

use crate::harness::{
    EXAMPLE_INPUT, EXAMPLE_OUTPUT, Failing, NONE, ON_ONE, REPLACE, TRACE, joined, run_on,
};
use std::alloc::{AllocError, Global};
use std::process::Abort;
use std::test::Fail;

/// A run on a new directory.
struct Case {
    name: &'static str,
    /// The input, in parts.
    input: &'static [&'static [u8]],
    failing: Failing,
    status: &'static str,
    /// The output, in parts.
    output: &'static [&'static [u8]],
}

/// The example's input without its last byte.
const CUT_INPUT: &[&[u8]] = &[
    ON_ONE,
    b"\x00\x00\x00\x2a",
    REPLACE,
    b"\xce\x00\x00\x00\x11\x82\x00\x01\x01\x02\x84\x10\xcd\x02\x00\x12\x0a\x14\x00\x20\x91",
];

const SECOND_READ: Failing = Failing {
    reads: &[2],
    writes: &[],
};

const FIRST_WRITE: Failing = Failing {
    reads: &[],
    writes: &[1],
};

const FLUSH: Failing = Failing {
    reads: &[],
    writes: &[2],
};

const CASES: &[Case] = &[
    Case {
        name: "no input",
        input: &[],
        failing: NONE,
        status: "Ok",
        output: &[],
    },
    Case {
        name: "a unit of another type",
        input: &[b"\x05"],
        failing: NONE,
        status: "BadInput 0",
        output: &[],
    },
    Case {
        name: "a unit that is cut",
        input: CUT_INPUT,
        failing: NONE,
        status: "BadInput 0",
        output: &[],
    },
    Case {
        name: "the second read fails",
        input: EXAMPLE_INPUT,
        failing: SECOND_READ,
        status: "ReadFault",
        output: EXAMPLE_OUTPUT,
    },
    Case {
        name: "the first write fails",
        input: EXAMPLE_INPUT,
        failing: FIRST_WRITE,
        status: "WriteFault",
        output: &[],
    },
    Case {
        name: "the flush fails",
        input: EXAMPLE_INPUT,
        failing: FLUSH,
        status: "WriteFault",
        output: EXAMPLE_OUTPUT,
    },
];

fn check(rt: &impl Abort, alloc: Global, case: &Case) -> Result<(), AllocError> {
    let input = joined(alloc, case.input)?;
    let ran = run_on(alloc, &TRACE, &input, case.failing)?;
    let name = case.name;
    assert_eq!(rt; ran.status.as_str(), case.status, "{name}");
    assert_eq!(rt; ran.output, joined(alloc, case.output)?, "{name}");
    Ok(())
}

#[test]
fn statuses_say_how_runs_end(rt: HostRuntime) -> Result<(), Fail> {
    for case in CASES {
        check(&rt, rt.alloc(), case)?;
    }
    Ok(())
}

/// No directory, an option, an empty argument, one argument more, and another command.
const UNRECOGNISED: &[&[&str]] = &[
    &["trace"],
    &["trace", "-d"],
    &["trace", ""],
    &["trace", "d", "e"],
    &["nodes", "d"],
];

#[test]
fn unrecognised_arguments_stop_a_run(rt: HostRuntime) -> Result<(), Fail> {
    let alloc = rt.alloc();
    let input = joined(alloc, EXAMPLE_INPUT)?;
    for arguments in UNRECOGNISED {
        let ran = run_on(alloc, arguments, &input, NONE)?;
        assert_eq!(rt; ran.status.as_str(), "BadWords", "{arguments:?}");
        assert!(rt; ran.output.is_empty(), "{arguments:?}");
    }
    Ok(())
}
