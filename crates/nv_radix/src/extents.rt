//! The extents of rising runs of pages, found in one walk.

ghost use Rattle.std.specs.Prelude.{◌+◌, ◌^◌, ◌<◌, ◌≤◌, OnOk};
ghost use Rattle.nv_radix.specs.Pages.{Pages};
ghost use Rattle.nv_radix.specs.Extents.{AreExtents, HasRunBehind};

use crate::extent::Extent;
use std::alloc::AllocError;

/// Adds a run of mapped pages, which stands behind all pages of the extents.
// Most runs are added for one page, and a call for each would cost as much as its work.
#[inline(always)]
pub fn add_run(extents: &mut Vec<Extent>, run: Extent) -> Result<(), AllocError>
    requires some { 0 < run.count }
    requires fits { run.page + run.count ≤ 2 ^ 33 }
    ensures { OnOk result ((m n : Pages) → HasRunBehind m n run → AreExtents m extents.old.items → AreExtents n extents.new.items) }
{
    let len = extents.len();
    if len > 0 {
        let last = extents[len - 1];
        if last.is_followed_by(run.page, run.block) {
            extents[len - 1].count += run.count;
            return Ok(());
        }
    }
    extents.push(run)?;
    Ok(())
}
