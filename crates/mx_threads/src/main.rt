//! Threads that take turns at a counter.
//! `mx_threads` makes the calls of two seats one by one, then adds from four threads, and prints the answers.
//! `mx_threads alone TIMES` prints how many nanoseconds one thread takes for so many turns.
//! `mx_threads together TIMES` prints the same for four threads, each with so many turns.
#![tactic(auto)]

mod crowd;
mod steps;

use crate::crowd::{sum_of_four, sum_of_one};
use crate::steps::take_steps;
use mx_turn::counter::Share;
use std::alloc::AllocGlobal;
use std::env::Env;
use std::io::Print;
use std::process::ExitCode;
use std::sync::Wait;
use std::thread::Threads;
use std::time::{Clock, Instant};
use std::{env, io};

/// What is asked for.
#[derive(Clone, Copy, Drop)]
enum Work {
    Answers,
    Alone(u32),
    Together(u32),
}

fn main(rt: HostRuntime) -> ExitCode {
    let Some(work) = asked(&rt) else {
        return ExitCode::from(2);
    };
    match respond(&rt, work) {
        Ok(()) => ExitCode::SUCCESS,
        Err(_) => ExitCode::from(3),
    }
}

/// The work that the arguments ask for.
fn asked<R: Env + AllocGlobal>(rt: &R) -> Option<Work> {
    let arguments = env::args(rt).ok()?;
    let words: Vec<String> = arguments.skip(1).collect(rt.alloc()).ok()?;
    let Some(word) = words.first() else {
        return Some(Work::Answers);
    };
    let times = words.get(1)?.parse().ok()?;
    match word.as_str() {
        "alone" => Some(Work::Alone(times)),
        "together" => Some(Work::Together(times)),
        _ => None,
    }
}

fn respond<R: Threads + Wait + Sync + Print + AllocGlobal + Clock>(
    rt: &R,
    work: Work,
) -> io::Result<()> {
    let start = Instant::now(rt)?;
    match work {
        Work::Answers => {
            take_steps(rt)?;
            let share = Share {
                amount: 1,
                times: 250_000,
            };
            let sum = sum_of_four(rt, rt.alloc(), share)?;
            println!(rt; "four threads: {sum}")
        }
        Work::Alone(times) => {
            sum_of_one(rt, rt.alloc(), Share { amount: 1, times })?;
            println!(rt; "{}", start.elapsed(rt)?.as_nanos())
        }
        Work::Together(times) => {
            sum_of_four(rt, rt.alloc(), Share { amount: 1, times })?;
            println!(rt; "{}", start.elapsed(rt)?.as_nanos())
        }
    }
}
