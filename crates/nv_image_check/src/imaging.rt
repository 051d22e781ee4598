//! Recovering the region of some bytes over the bytes, on this thread.

ghost use Rattle.std.specs.Prelude.{IfOk};
ghost use Rattle.nv_region.specs.Region.{region_of};
ghost use Rattle.nv_image_check.specs.Recovering.{IsRecovered};

use crate::checking::open_system;
use crate::recovering::recover_alone;
use crate::recovery::Answer;
use nv_region::{ImageRegion, RegionRefusal};
use nv_report::Recovered;
use nv_super::SuperFault;
use nv_text::Refusal;
use std::alloc::{AllocError, Global};

/// A region over bytes with what was found in it, or why it is refused.
#[derive(Drop)]
pub enum Image<'a> {
    Recovered(ImageRegion<'a>, Recovered),
    Refused(Refusal),
}

/// Recovers the region of these bytes. Its journals are rolled back in memory. Errors: `AllocError` where a growth was refused.
pub fn recover_image(alloc: Global, bytes: &[u8]) -> Result<Image<'_>, AllocError>
    ensures { IfOk result (IsRecovered (region_of bytes.now)) }
{
    match ImageRegion::from_bytes(alloc, bytes) {
        Ok(mut image) => {
            open_system(&mut image)?;
            let answer = recover_alone(alloc, &mut image)?;
            match answer {
                Answer::Recovered(recovered) => Ok(Image::Recovered(image, recovered)),
                Answer::Refused(refusal) => Ok(Image::Refused(refusal)),
            }
        }
        Err(RegionRefusal::Length) => Ok(Image::Refused(Refusal::Super(SuperFault::Length))),
        Err(RegionRefusal::Memory) => Err(AllocError),
    }
}
