//! Regions to measure in.

use nv_calls::{Fs, format};
use nv_region::MemRegion;
use std::alloc::Global;

const TABLE_BLOCKS: u64 = 64;

/// A region of so many blocks, formatted for so many CPUs with 2,048 inodes each, mounted.
pub(crate) fn formatted(alloc: Global, blocks: u64, cpus: u64) -> Option<Fs<MemRegion>> {
    let mut memory = MemRegion::new(alloc, blocks).ok()?;
    match format(&mut memory, cpus, TABLE_BLOCKS, 0) {
        Ok(()) => Fs::mount(alloc, memory).ok(),
        Err(_) => None,
    }
}
