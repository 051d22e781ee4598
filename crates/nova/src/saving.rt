//! Making images.

use crate::REFUSED_STATUS;
use nv_args::LayoutVersion;
use nv_image_files::{Failure, Lock, Target, hold, save_region, see_ready};
use nv_recover::RecoverError;
use nv_script::{Areas, CallRefusal, Formatted, MemRegion, format_image, format_limits};
use nv_session::{Fs, keep_all};
use std::alloc::AllocError;
use std::rt::Files;

/// Writes the image of a region of so many blocks, formatted with these areas and this layout, to a file, or says `refused NAME`
/// on standard error. Answers the exit status, 0 or 2.
pub(crate) fn mkfs<'a, H: Files + AllocGlobal + Print + Eprint>(
    rt: &H,
    target: Target<'a>,
    blocks: u64,
    areas: Areas,
    layout: LayoutVersion,
) -> Result<u8, Failure<'a>>
where
    H::File: Lock,
{
    let held = hold(rt, target)?;
    see_ready(rt, &held, None, None)?;
    match format_image(rt.alloc(), areas.cpus, blocks, areas.tables)? {
        Formatted::Region(region) => {
            let Some(region) = laid_out(rt, region, layout)? else {
                return Ok(REFUSED_STATUS);
            };
            save_region(rt, &held, &region)?;
            Ok(0)
        }
        Formatted::Refused(refusal) => {
            let _ = eprintln!(rt; "refused {}\n{}", refusal.name(), format_limits(refusal));
            Ok(REFUSED_STATUS)
        }
    }
}

// A formatted region in this layout, or none where it can't be had, which standard error says why.
fn laid_out<H: AllocGlobal + Eprint>(
    rt: &H,
    region: MemRegion,
    layout: LayoutVersion,
) -> Result<Option<MemRegion>, AllocError> {
    match layout {
        LayoutVersion::One => Ok(Some(region)),
        LayoutVersion::Two => upgraded(rt, region),
    }
}

// The same of version 2.
fn upgraded<H: AllocGlobal + Eprint>(
    rt: &H,
    region: MemRegion,
) -> Result<Option<MemRegion>, AllocError> {
    let mut mount = match Fs::mount(rt.alloc(), keep_all(region)) {
        Ok(mount) => mount,
        Err((_, RecoverError::Memory)) => return Err(AllocError),
        Err((_, error)) => return Ok(refuse(rt, error.name())),
    };
    match mount.upgrade() {
        Ok(()) => Ok(Some(mount.into_memory())),
        Err(CallRefusal::Memory) => Err(AllocError),
        Err(refusal) => Ok(refuse(rt, refusal.name())),
    }
}

// Says why there is no region.
fn refuse<H: Eprint>(rt: &H, name: &str) -> Option<MemRegion> {
    let _ = eprintln!(rt; "refused {name}");
    None
}
