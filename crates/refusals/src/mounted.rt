//! A mounted region, and whether it is what a recovery finds in the region's bytes.

use nv_alloc::Allocators;
use nv_calls::{Fs, format};
use nv_recover::{Recovered, Rows, recover_one};
use nv_region::MemRegion;
use nv_scan::Row;
use nv_super::Run;
use std::alloc::{AllocError, Global};

/// A region of 64 blocks for two CPUs, formatted and mounted; `None` where memory is refused.
pub(crate) fn mounted(alloc: Global) -> Option<Fs<MemRegion>> {
    let mut memory = MemRegion::new(alloc, 64).ok()?;
    match format(&mut memory, 2, 1, 0) {
        Ok(()) => Fs::mount(alloc, memory).ok(),
        Err(_) => None,
    }
}

/// The bytes of the region.
pub(crate) fn bytes_of(fs: &Fs<MemRegion>) -> Result<Vec<u8>, AllocError> {
    fs.memory().to_bytes()
}

/// Whether the rows, the free lists and the faults are those that a recovery finds; `None` where memory is refused.
pub(crate) fn is_what_recovery_finds(alloc: Global, fs: &Fs<MemRegion>) -> Option<bool> {
    let bytes = bytes_of(fs).ok()?;
    is_what_these_give(alloc, fs, &bytes)
}

/// Whether it is what a recovery of these bytes finds.
fn is_what_these_give(alloc: Global, fs: &Fs<MemRegion>, bytes: &[u8]) -> Option<bool> {
    match MemRegion::from_bytes(alloc, bytes) {
        Ok(mut memory) => is_found_in(alloc, fs, &mut memory),
        Err(_) => None,
    }
}

fn is_found_in(alloc: Global, fs: &Fs<MemRegion>, memory: &mut MemRegion) -> Option<bool> {
    match recover_one(alloc, memory) {
        Ok(found) => has_same_parts(fs, &found).ok(),
        Err(_) => None,
    }
}

fn has_same_parts(fs: &Fs<MemRegion>, found: &Recovered) -> Result<bool, AllocError> {
    if fs.faults() != found.faults.as_slice() || !has_same_rows(fs.rows(), &found.rows)? {
        return Ok(false);
    }
    has_same_free(fs.free(), &found.free)
}

fn has_same_rows(mounted: &Rows, found: &Rows) -> Result<bool, AllocError> {
    for ((_, row), (_, other)) in mounted.iter().zip(found.iter()) {
        if !is_same_row(row, other)? {
            return Ok(false);
        }
    }
    Ok(mounted.len() == found.len())
}

fn is_same_row(row: &Row, other: &Row) -> Result<bool, AllocError> {
    if !has_same_inode(row, other) || !has_same_log(row, other) || !has_same_runs(row, other)? {
        return Ok(false);
    }
    has_same_names(row, other)
}

fn has_same_inode(row: &Row, other: &Row) -> bool {
    row.inode == other.inode && row.kind == other.kind && row.numbers == other.numbers
}

fn has_same_log(row: &Row, other: &Row) -> bool {
    row.head == other.head
        && row.tail == other.tail
        && row.pages.as_slice() == other.pages.as_slice()
}

fn has_same_runs(row: &Row, other: &Row) -> Result<bool, AllocError> {
    let runs = row.index.runs()?;
    Ok(runs.as_slice() == other.index.runs()?.as_slice())
}

fn has_same_names(row: &Row, other: &Row) -> Result<bool, AllocError> {
    let names = row.names.list()?;
    Ok(names.as_slice() == other.names.list()?.as_slice())
}

fn has_same_free(mounted: &Allocators, found: &Allocators) -> Result<bool, AllocError> {
    let lists = mounted.lists()?;
    Ok(has_same_lists(&lists, &found.lists()?))
}

fn has_same_lists(mounted: &[Vec<Run>], found: &[Vec<Run>]) -> bool {
    for (runs, others) in mounted.iter().zip(found) {
        if runs.as_slice() != others.as_slice() {
            return false;
        }
    }
    mounted.len() == found.len()
}
