//! Measures recovery: of an image, or of a region just formatted, on one thread and on 1, 2 and 4 workers. It prints the
//! best milliseconds of each on standard error, with nanoseconds an inode and an entry, and what was found on standard
//! output.

ghost use Rattle.std.specs.Prelude.{◌≡◌, length};
ghost use Rattle.nv_alloc.specs.Taking.{all_blocks};

use crate::entries::count_entries;
use nv_format::format;
use nv_recover::{RecoverError, Recovered, recover, recover_one};
use nv_region::{MemRegion, RegionRefusal};
use nv_scan::NoGate;
use std::alloc::Global;
use std::rt::{Clock, Files};
use std::thread::Threads;
use std::time::Instant;
use std::{fs, io};

const BLOCKS: u64 = 65_536;

const CPUS: u64 = 16;

const TABLE_BLOCKS: u64 = 64;

/// On how many threads a recovery runs.
#[derive(Clone, Copy)]
enum Threading {
    One,
    Workers(u64),
}

const WAYS: [Threading; 4] = [
    Threading::One,
    Threading::Workers(1),
    Threading::Workers(2),
    Threading::Workers(4),
];

/// What a recovery found.
#[derive(Clone, Copy)]
struct Counts {
    inodes: usize,
    free: u64,
    doubled: usize,
    faults: usize,
}

fn counts_of(recovered: &Recovered) -> Counts
    ensures inodes { result.inodes ≡ length recovered.now.rows.items }
    ensures free { result.free ≡ all_blocks recovered.now.free.pools }
    ensures doubled { result.doubled ≡ length recovered.now.doubled.items }
    ensures faults { result.faults ≡ length recovered.now.faults.items }
{
    Counts {
        inodes: recovered.rows.len(),
        free: recovered.free.free_blocks(),
        doubled: recovered.doubled.len(),
        faults: recovered.faults.len(),
    }
}

fn formatted(alloc: Global) -> Result<MemRegion, RegionRefusal> {
    let mut memory = MemRegion::new(alloc, BLOCKS)?;
    let _made = format(&mut memory, CPUS, TABLE_BLOCKS, 0);
    Ok(memory)
}

fn recovered_so<R: AllocGlobal + Threads + Sync>(
    rt: &R,
    memory: &mut MemRegion,
    way: Threading,
) -> Result<Recovered, RecoverError> {
    match way {
        Threading::One => recover_one(rt.alloc(), memory),
        Threading::Workers(workers) => recover(rt, rt.alloc(), memory, workers, &NoGate),
    }
}

/// The milliseconds since the start, and what was found.
fn told<R: Clock>(
    rt: &R,
    start: Instant,
    answer: &Result<Recovered, RecoverError>,
) -> io::Result<(f64, Option<Counts>)> {
    let milliseconds = start.elapsed(rt)?.as_secs_f64() * 1000.0;
    match answer {
        Ok(recovered) => Ok((milliseconds, Some(counts_of(recovered)))),
        Err(_) => Ok((milliseconds, None)),
    }
}

/// The milliseconds of a recovery, without those in which its answer is dropped, and what it found.
fn timed<R: AllocGlobal + Clock + Threads + Sync>(
    rt: &R,
    memory: &mut MemRegion,
    way: Threading,
) -> io::Result<(f64, Option<Counts>)> {
    let start = Instant::now(rt)?;
    let answer = recovered_so(rt, memory, way);
    told(rt, start, &answer)
}

/// The best milliseconds of so many recoveries, and what the last of them found.
fn best<R: AllocGlobal + Clock + Threads + Sync>(
    rt: &R,
    memory: &mut MemRegion,
    way: Threading,
    runs: u64,
) -> io::Result<(f64, Option<Counts>)> {
    let mut least = f64::INFINITY;
    let mut found = None;
    for _ in 0..runs {
        let (milliseconds, counts) = timed(rt, memory, way)?;
        least = least.min(milliseconds);
        found = counts;
    }
    Ok((least, found))
}

/// The nanoseconds of each, where so many took so many milliseconds.
fn of_each(milliseconds: f64, count: u64) -> f64 {
    milliseconds * 1e6 / f64::from(u32::try_from(count).unwrap_or(u32::MAX))
}

/// Prints the milliseconds of a recovery, and the nanoseconds for each of the inodes and entries that it read.
fn tell_time<R: Eprint>(
    rt: &R,
    way: Threading,
    least: f64,
    inodes: usize,
    entries: u64,
) -> io::Result<()> {
    match way {
        Threading::One => eprint!(rt; "one thread")?,
        Threading::Workers(workers) => eprint!(rt; "{workers} workers")?,
    }
    let inode = of_each(least, inodes as u64);
    let entry = of_each(least, entries);
    eprintln!(rt; " {least:.3} ms, {inode:.0} ns an inode, {entry:.0} ns an entry")
}

/// Prints what was found, and how long that took.
fn tell<R: AllocGlobal + Print + Eprint>(
    rt: &R,
    memory: &MemRegion,
    way: Threading,
    least: f64,
    counts: Counts,
) -> io::Result<()> {
    let entries = count_entries(rt.alloc(), memory).unwrap_or(0);
    tell_time(rt, way, least, counts.inodes, entries)?;
    println!(rt;
        "inodes {} free {} doubled {} faults {}",
        counts.inodes, counts.free, counts.doubled, counts.faults
    )
}

fn measure<R: AllocGlobal + Print + Eprint + Clock + Threads + Sync>(
    rt: &R,
    memory: &mut MemRegion,
    runs: u64,
) -> io::Result<()> {
    for way in &WAYS {
        let (least, found) = best(rt, memory, *way, runs)?;
        let Some(counts) = found else {
            return println!(rt; "refused");
        };
        tell(rt, memory, *way, least, counts)?;
    }
    Ok(())
}

fn measure_made<R: AllocGlobal + Print + Eprint + Clock + Threads + Sync>(
    rt: &R,
    made: Result<MemRegion, RegionRefusal>,
    runs: u64,
) -> io::Result<()> {
    match made {
        Ok(mut memory) => measure(rt, &mut memory, runs),
        Err(refusal) => eprintln!(rt; "{refusal:?}"),
    }
}

fn measure_image<R: AllocGlobal + Print + Eprint + Clock + Files + Threads + Sync>(
    rt: &R,
    path: &str,
    runs: u64,
) -> io::Result<()> {
    let bytes = fs::read(rt, path)?;
    measure_made(rt, MemRegion::from_bytes(rt.alloc(), &bytes), runs)
}

/// Recovers the image at the path so often, or a region just formatted where there is none.
pub(crate) fn measure_recovery<R: AllocGlobal + Print + Eprint + Clock + Files + Threads + Sync>(
    rt: &R,
    runs: u64,
    path: Option<&String>,
) -> io::Result<()> {
    match path {
        Some(path) => measure_image(rt, path.as_str(), runs),
        None => measure_made(rt, formatted(rt.alloc()), runs),
    }
}
