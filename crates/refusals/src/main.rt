//! Recovers damaged regions, makes the calls of a mounted file system, and tells how each went.
//!
//! It is run with each of its allocations refused in turn (`tests/refuse-allocations.sh`, `tests/refuse-calls.sh`). What is
//! refused memory leaves what it was given as its module says, and is made once more. Status 1 is for memory that was
//! refused elsewhere. The first word says what is made: `recoveries` or `calls`, both where there is none. The second is how
//! many blocks of memory are taken, and given back, before anything else.
#![tactic(auto)]

mod calls;
mod claims;
mod findings;
mod making;
mod mounted;
mod recoveries;
mod region;
mod seats;
mod working;

use making::tell_calls;
use recoveries::tell_recoveries;
use std::alloc::{AllocError, Global};
use std::env;
use std::process::ExitCode;
use std::thread::Threads;

/// What is made.
#[derive(Clone, Copy)]
enum Part {
    Recoveries,
    Calls,
    Both,
}

fn part_of(word: Option<String>) -> Part {
    match word {
        Some(word) => match word.as_str() {
            "recoveries" => Part::Recoveries,
            "calls" => Part::Calls,
            _ => Part::Both,
        },
        None => Part::Both,
    }
}

fn number_of(word: Option<String>) -> u64 {
    match word {
        Some(word) => word.as_str().parse::<u64>().unwrap_or(0),
        None => 0,
    }
}

fn take_and_give_back(alloc: Global, blocks: u64) -> Result<(), AllocError> {
    for _ in 0..blocks {
        let _block: Vec<u8> = Vec::with_capacity(alloc, 1)?;
    }
    Ok(())
}

fn tell<R: AllocGlobal + Print + Threads + Sync>(rt: &R, part: Part, blocks: u64) -> Option<()> {
    take_and_give_back(rt.alloc(), blocks).ok()?;
    match part {
        Part::Recoveries => tell_recoveries(rt),
        Part::Calls => tell_calls(rt),
        Part::Both => {
            tell_recoveries(rt)?;
            tell_calls(rt)
        }
    }
}

fn main(rt: HostRuntime) -> ExitCode {
    let Ok(words) = env::args(&rt) else {
        return ExitCode::FAILURE;
    };
    let mut words = words.skip(1);
    let part = part_of(words.next());
    let blocks = number_of(words.next());
    match tell(&rt, part, blocks) {
        Some(()) => ExitCode::SUCCESS,
        None => {
            let _ = println!(rt; "refused elsewhere");
            ExitCode::FAILURE
        }
    }
}
