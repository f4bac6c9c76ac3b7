//! The transactions that an engine hands out, and the steps that it counts.

use mx_row::row_types;
use mx_steps::{
    Asked, Engine, NAME, Pending, Step, StepFault, Told, ask_engine, check_reply, engine_at,
};
use std::alloc::Global;
use std::process::Abort;
use std::test::Fail;

/// The tuple [1, "a"].
const ONE: &[u8] = b"\x92\x01\xa1a";

/// The replica id and the lsn of a transaction of one row, and the row's type, space and tuple.
type Shown<'a> = (u8, u64, u8, u32, &'a [u8]);

/// What a REPLACE of that tuple commits first.
const COMMITTED: Shown<'static> = (1, 1, row_types::REPLACE, 512, ONE);

/// The first transaction that is handed out, if it has one row.
fn first_of(pending: &Pending) -> Option<Shown<'_>> {
    let tx = pending.txs.as_slice().first()?;
    match tx.rows.as_slice() {
        [row] => Some((
            tx.replica.0,
            tx.first.0,
            row.kind,
            row.space.0,
            row.tuple.as_slice(),
        )),
        _ => None,
    }
}

/// Takes what an engine hands out at this step, and compares.
fn check_pending(
    rt: &impl Abort,
    engine: &mut Engine,
    upto: u64,
    count: usize,
    first: Option<Shown<'_>>,
) {
    assert_eq!(rt; engine.count(), upto);
    assert!(rt; engine.count() < 100);
    let pending = engine.take_pending();
    assert_eq!(rt; pending.txs.as_slice().len(), count, "at {upto}");
    assert_eq!(rt; first_of(&pending), first, "at {upto}");
    assert_eq!(rt; pending.upto, upto);
    assert_eq!(rt; engine.durable(), 0);
}

/// Makes the other steps, from four on, and compares what the engine counts.
fn check_steps(rt: &impl Abort, engine: &mut Engine) {
    assert!(rt; engine.count() == 4);
    engine.confirm(2);
    assert!(rt; engine.count() == 5);
    engine.confirm(0);
    assert!(rt; engine.count() == 6);
    engine.look();
    assert!(rt; engine.count() == 7);
    engine.leave(NAME.conn);
    assert_eq!(rt; engine.count(), 8);
    assert_eq!(rt; engine.durable(), 2);
}

/// A commit and a read.
const STEPS: &[Step<'static>] = &[
    (Asked::Replace(512, ONE), Told::Tuples(ONE)),
    (Asked::Select(512, 0, b"\x91\x01"), Told::Tuples(ONE)),
];

fn make_steps(alloc: Global, engine: &mut Engine) -> Result<(), StepFault> {
    for (asked, told) in STEPS {
        let reply = ask_engine(alloc, engine, *asked)?;
        check_reply(alloc, &reply, *asked, *told)?;
    }
    Ok(())
}

#[test]
fn commits_are_handed_out_once(rt: HostRuntime) -> Result<(), Fail> {
    let alloc = rt.alloc();
    let mut engine = engine_at(alloc, "{2: 7}", 1)?;
    make_steps(alloc, &mut engine)?;
    check_pending(&rt, &mut engine, 2, 1, Some(COMMITTED));
    check_pending(&rt, &mut engine, 3, 0, None);
    check_steps(&rt, &mut engine);
    assert_eq!(rt; engine.ids().me, 1);
    let clock = engine.clock().text(alloc)?;
    assert_eq!(rt; clock.as_slice(), b"{1: 1, 2: 7}".as_slice());
    Ok(())
}
