//! Making a region of zeros that are formatted.

ghost use Rattle.std.specs.Prelude.{IfOk};
ghost use Rattle.nv_session.specs.Made.{MayMake};
ghost use Rattle.nv_session.specs.Sessions.{is_armed};

use crate::stop::Stop;
use nv_calls::{FormatRefusal, format};
use nv_region::{MemRegion, RegionRefusal};
use nv_super::{LEAST_BLOCKS, MOST_BLOCKS};
use std::alloc::{AllocError, Global};

/// What came of making a region.
#[derive(Drop)]
pub enum Made {
    /// The region, formatted.
    Region(MemRegion),
    /// The first refusal that applies, which is no stop.
    Refused(FormatRefusal),
    /// What a stop left.
    Stopped(MemRegion),
}

/// Makes a region of `blocks` blocks of zeros, and formats it at this time with so many CPUs and table blocks for each.
/// No region is made for a number of blocks that is refused. It is stopped only where a stop is set.
///
/// Errors: `AllocError` where a growth was refused.
pub fn new_region(
    alloc: Global,
    cpus: u64,
    blocks: u64,
    table_blocks: u64,
    time: u64,
    stop: Stop,
) -> Result<Made, AllocError>
    ensures { IfOk result (λ made. MayMake (is_armed stop) cpus blocks table_blocks time made) }
{
    if blocks < LEAST_BLOCKS || blocks > MOST_BLOCKS {
        return Ok(Made::Refused(FormatRefusal::Length));
    }
    let mut memory = match MemRegion::new(alloc, blocks) {
        Ok(memory) => memory,
        Err(RegionRefusal::Length) => return Ok(Made::Refused(FormatRefusal::Length)),
        Err(RegionRefusal::Memory) => return Err(AllocError),
    };
    memory.set_fuse(stop.fuse);
    match format(&mut memory, cpus, table_blocks, time) {
        Ok(()) => Ok(Made::Region(memory)),
        Err(FormatRefusal::Stopped) => Ok(Made::Stopped(memory.after_stop(stop.keep))),
        Err(refusal) => Ok(Made::Refused(refusal)),
    }
}
