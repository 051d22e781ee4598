//! A new region, formatted.

ghost use Rattle.std.specs.Prelude.{◌≡◌, IfOk};
ghost use Rattle.nv_script.specs.Formatting.{IsFormattedImage, format_limits};

use nv_region::MemRegion;
use nv_session::{FormatRefusal, Made, Stop, new_region};
use std::alloc::{AllocError, Global};

/// The numbers that are taken, for a user whose region was refused so.
pub fn format_limits(refusal: FormatRefusal) -> &'static str
    ensures { result.now ≡ format_limits refusal }
{
    match refusal {
        FormatRefusal::Length => "a region has 8 to 262144 blocks",
        FormatRefusal::Cpus => "a region has 1 to 64 CPUs",
        FormatRefusal::Tables => {
            "a CPU has 1 to 64 table blocks, and a region more blocks than 1 + CPUs + CPUs * table blocks"
        }
        FormatRefusal::Stopped => "it was stopped",
    }
}

/// A formatted region, or why none was made.
#[derive(Drop)]
pub enum Formatted {
    Region(MemRegion),
    Refused(FormatRefusal),
}

/// A region of `blocks` blocks of zeros, formatted at time 0 with so many CPUs and table blocks for each; or why none
/// is made, the first reason that applies. It is what the command `format` makes where a script begins with it.
///
/// Errors: `AllocError` where a growth was refused.
pub fn format_image(
    alloc: Global,
    cpus: u64,
    blocks: u64,
    table_blocks: u64,
) -> Result<Formatted, AllocError>
    ensures { IfOk result (IsFormattedImage cpus blocks table_blocks) }
{
    match new_region(alloc, cpus, blocks, table_blocks, 0, Stop::none())? {
        Made::Region(memory) => Ok(Formatted::Region(memory)),
        Made::Refused(refusal) => Ok(Formatted::Refused(refusal)),
        // No stop is set.
        Made::Stopped(_) => Err(AllocError),
    }
}
