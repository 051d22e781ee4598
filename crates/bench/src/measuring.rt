//! How long the calls of a mounted file system take: on so many files in 16 directories of a region, and in another region on
//! so many names in two directories, which are moved and taken away.
//!
//! What each call took goes to standard error, and what is there at the end to standard output.

use crate::calls::{Call, make};
use crate::mounting::formatted;
use crate::shapes::{ON_FILES, ON_NAMES, Shape, part_start};
use nv_calls::Fs;
use nv_region::MemRegion;
use std::alloc::{AllocError, Global};
use std::io;
use std::rt::Clock;
use std::time::Instant;

/// What the calls of a shape are made with.
#[derive(Drop)]
struct Targets {
    paths: Vec<String>,
    /// A second path for each.
    others: Vec<String>,
    bytes: Vec<u8>,
}

fn path_of(
    alloc: Global,
    front: &str,
    directories: u64,
    number: u64,
) -> Result<String, AllocError> {
    if directories > 0 {
        format!(in alloc; "{front}{}/f{number}", number % directories)
    } else {
        format!(in alloc; "{front}{number}")
    }
}

/// Paths that begin alike and end in rising numbers, in so many directories in turn.
fn paths_of(
    alloc: Global,
    front: &str,
    directories: u64,
    first: u64,
    end: u64,
) -> Result<Vec<String>, AllocError> {
    let mut paths = Vec::new(alloc);
    for number in first..end {
        paths.push(path_of(alloc, front, directories, number)?)?;
    }
    Ok(paths)
}

fn targets_of(alloc: Global, shape: &Shape, all: u64) -> Result<Targets, AllocError> {
    let first = part_start(all, shape.first_part);
    let end = part_start(all, shape.end_part).min(shape.most);
    let paths = paths_of(alloc, shape.front, shape.directories, first, end)?;
    let others = paths_of(alloc, shape.other, 0, first, end)?;
    let bytes = vec![in alloc; 1; shape.bytes]?;
    Ok(Targets {
        paths,
        others,
        bytes,
    })
}

/// Makes a call at each of the paths, by so many CPUs in turn. Answers whether none was refused.
fn run(fs: &mut Fs<MemRegion>, call: Call, cpus: u64, targets: &Targets, offset: u64) -> bool {
    let mut cpu = 0u64;
    for (path, other) in targets.paths.iter().zip(&targets.others) {
        let (path, other) = (path.as_bytes(), other.as_bytes());
        if !make(fs, call, cpu, path, other, offset, &targets.bytes) {
            return false;
        }
        cpu = next_cpu(cpu, cpus);
    }
    true
}

fn next_cpu(cpu: u64, cpus: u64) -> u64 {
    let next = cpu.wrapping_add(1);
    if next < cpus { next } else { 0 }
}

/// The nanoseconds in the best of the times that a call is made at all paths; `None` where one is refused.
fn best_of<R: Clock>(
    rt: &R,
    fs: &mut Fs<MemRegion>,
    cpus: u64,
    shape: &Shape,
    targets: &Targets,
) -> Option<u128> {
    let mut best = u128::MAX;
    for time in 0..shape.times {
        let offset = time.wrapping_mul(shape.bytes as u64);
        let start = Instant::now(rt).ok()?;
        if !run(fs, shape.call, cpus, targets, offset) {
            return None;
        }
        best = best.min(start.elapsed(rt).ok()?.as_nanos());
    }
    Some(best)
}

/// Measures a shape, and prints the nanoseconds of a call in the best of the times that it is made at all paths.
///
/// `None` where a call is refused.
fn measure<R: AllocGlobal + Eprint + Clock>(
    rt: &R,
    fs: &mut Fs<MemRegion>,
    cpus: u64,
    shape: &Shape,
    all: u64,
) -> Option<()> {
    let targets = targets_of(rt.alloc(), shape, all).ok()?;
    let best = best_of(rt, fs, cpus, shape, &targets)?;
    let each = best / (targets.paths.len() as u128).max(1);
    eprintln!(rt; "  {}: {each} ns", shape.label).ok()
}

/// Measures the shapes in turn, and tells what is there then. `None` where a call is refused.
fn measure_in<R: AllocGlobal + Print + Eprint + Clock>(
    rt: &R,
    fs: &mut Fs<MemRegion>,
    shapes: &[Shape],
    cpus: u64,
    count: u64,
) -> Option<()> {
    for shape in shapes {
        measure(rt, fs, cpus, shape, count)?;
    }
    let (inodes, free) = (fs.rows().len(), fs.free().free_blocks());
    println!(rt; "{inodes} inodes, {free} blocks free").ok()
}

/// Measures the shapes in a new region.
fn measure_all<R: AllocGlobal + Print + Eprint + Clock>(
    rt: &R,
    shapes: &[Shape],
    blocks: u64,
    cpus: u64,
    count: u64,
) -> Option<()> {
    let mut fs = formatted(rt.alloc(), blocks, cpus)?;
    measure_in(rt, &mut fs, shapes, cpus, count)
}

/// Measures calls on so many files, and in another region calls on so many names.
pub(crate) fn measure_calls<R: AllocGlobal + Print + Eprint + Clock>(
    rt: &R,
    blocks: u64,
    files: u64,
    names: u64,
) -> io::Result<()> {
    if measure_all(rt, &ON_FILES, blocks, 4, files).is_none()
        || measure_all(rt, &ON_NAMES, blocks, 32, names).is_none()
    {
        return eprintln!(rt; "a call was refused, or no region was made");
    }
    Ok(())
}
