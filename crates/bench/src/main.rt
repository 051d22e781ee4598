//! Measures what the project stands for: recovery (`recovery`), the calls of a mounted file system (`calls`), and tables that
//! go on in chains (`chains`).
//!
//! The first word names one of them, and the others are its numbers, and for recovery the path of an image. Without any, each
//! runs on a little.
#![tactic(auto)]

mod calls;
mod chains;
mod entries;
mod kept;
mod measuring;
mod mounting;
mod recovery;
mod shapes;

use chains::measure_chains;
use measuring::measure_calls;
use recovery::measure_recovery;
use std::rt::{Clock, Files};
use std::thread::Threads;
use std::{env, io};

/// A number that is missing is none.
fn number_at(words: &[String], at: usize) -> Option<u64> {
    words.get(at)?.as_str().parse::<u64>().ok()
}

fn tell_usage<R: Eprint>(rt: &R) -> io::Result<()> {
    eprintln!(rt; "usage: bench [recovery RUNS [PATH] | calls BLOCKS FILES NAMES | chains BLOCKS]")
}

fn measure_calls_by<R: AllocGlobal + Print + Eprint + Clock>(
    rt: &R,
    words: &[String],
) -> io::Result<()> {
    let (blocks, files, names) = (
        number_at(words, 1),
        number_at(words, 2),
        number_at(words, 3),
    );
    match (blocks, files, names) {
        (Some(blocks), Some(files), Some(names)) => measure_calls(rt, blocks, files, names),
        _ => tell_usage(rt),
    }
}

fn measure_recovery_by<R: AllocGlobal + Print + Eprint + Clock + Files + Threads + Sync>(
    rt: &R,
    words: &[String],
) -> io::Result<()> {
    match number_at(words, 1) {
        Some(runs) => measure_recovery(rt, runs, words.get(2)),
        None => tell_usage(rt),
    }
}

fn measure_chains_by<R: AllocGlobal + Print + Eprint + Clock + Files>(
    rt: &R,
    words: &[String],
) -> io::Result<()> {
    match number_at(words, 1) {
        Some(blocks) => measure_chains(rt, blocks),
        None => tell_usage(rt),
    }
}

fn measure_all<R: AllocGlobal + Print + Eprint + Clock + Files + Threads + Sync>(
    rt: &R,
) -> io::Result<()> {
    measure_recovery(rt, 1, None)?;
    measure_calls(rt, 8192, 8, 42)?;
    measure_chains(rt, 64)
}

fn measure_by<R: AllocGlobal + Print + Eprint + Clock + Files + Threads + Sync>(
    rt: &R,
    words: &[String],
) -> io::Result<()> {
    let Some(part) = words.first() else {
        return measure_all(rt);
    };
    match part.as_str() {
        "recovery" => measure_recovery_by(rt, words),
        "calls" => measure_calls_by(rt, words),
        "chains" => measure_chains_by(rt, words),
        _ => tell_usage(rt),
    }
}

fn main(rt: HostRuntime) -> io::Result<()> {
    let words: Vec<String> = env::args(&rt)?.skip(1).collect(rt.alloc())?;
    measure_by(&rt, words.as_slice())
}
