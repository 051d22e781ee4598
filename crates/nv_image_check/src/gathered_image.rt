//! Recovering a region by its metadata alone, on this thread.

ghost use Rattle.std.specs.Prelude.{IfOk};
ghost use Rattle.nv_metadata.specs.Gathered.{IsOpen};
ghost use Rattle.nv_image_check.specs.GatheredImage.{IsAccepted, IsFoundBy, IsFoundIn};

use crate::recovering::recover_alone;
use crate::recovery::Answer;
use nv_metadata::{Gathered, MetadataRegion};
use nv_report::Recovered;
use nv_text::Refusal;
use std::alloc::{AllocError, Global};

/// The metadata of a region with what was found in it, or why it is refused.
#[derive(Drop)]
pub enum GatheredImage {
    Recovered(MetadataRegion, Recovered),
    Refused(Refusal),
}

/// Recovers the region of which this was gathered. Its journals are rolled back in memory, which takes the same stores still.
///
/// Errors: `AllocError` where a growth was refused.
pub fn recover_gathered(alloc: Global, gathered: Gathered) -> Result<GatheredImage, AllocError>
    requires { IsOpen gathered }
    ensures { IfOk result (IsFoundIn gathered) }
{
    match gathered {
        Gathered::Metadata(_, memory) => recover_metadata(alloc, memory),
        Gathered::Refused(fault) => Ok(GatheredImage::Refused(Refusal::Super(fault))),
    }
}

// The same of a memory whose superblock is accepted, which takes stores where slots can stand.
fn recover_metadata(alloc: Global, mut memory: MetadataRegion) -> Result<GatheredImage, AllocError>
    requires { IsAccepted memory }
    ensures { IfOk result (IsFoundBy memory.memory.region) }
{
    let answer = recover_alone(alloc, &mut memory)?;
    match answer {
        Answer::Recovered(recovered) => Ok(GatheredImage::Recovered(memory, recovered)),
        Answer::Refused(refusal) => Ok(GatheredImage::Refused(refusal)),
    }
}
