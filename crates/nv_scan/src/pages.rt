//! What the entries of a log make of a file's pages.

ghost use Rattle.std.specs.Prelude.{◌≡◌, ◌*◌, ℕ, unwrap_or, nat_le, false, OnOk};
ghost use Rattle.nv_super.specs.Layout.{HasAreas};
ghost use Rattle.nv_entry.specs.Light.{bare};
ghost use Rattle.nv_entry.specs.Content.{is_out_of_range, is_write_out_of_range};
ghost use Rattle.nv_radix.specs.Runs.{block_by};
ghost use Rattle.nv_scan.specs.State.{says_block, block_in};
ghost use Rattle.nv_scan.specs.Light.{bare_placed};

use nv_entry::{Entry, LightEntry, WriteEntry};
use nv_logpage::LightPlaced;
use nv_radix::ExtentMap;
use nv_super::{BLOCK_SIZE, Kind, Super};
use std::alloc::AllocError;

/// Takes what an entry that is good by itself says of pages: it may cut pages, and maps those that it writes.
pub(crate) fn apply_pages(
    extents: &mut ExtentMap,
    sup: &Super,
    kind: Kind,
    placed: &LightPlaced,
) -> Result<(), AllocError>
    requires areas { HasAreas sup.now }
    requires good { is_out_of_range sup.now kind (bare placed.now.entry) ≡ false }
    ensures { OnOk result ((p : ℕ) → block_by extents.new p ≡ unwrap_or (says_block p (bare_placed placed.now)) (block_by extents.old p)) }
{
    match &placed.entry {
        LightEntry::Write(e) => write_pages(extents, sup, e),
        LightEntry::Attr(e) => extents.cut(first_page_past(e.size)),
        LightEntry::NextPage | LightEntry::Name(_) | LightEntry::Links(_) => Ok(()),
    }
}

/// Cuts the pages from the entry's size on, and maps its own, each of which begins below the size.
// A call for each write entry would cost as much as its work.
#[inline(always)]
pub(crate) fn write_pages(
    extents: &mut ExtentMap,
    sup: &Super,
    e: &WriteEntry,
) -> Result<(), AllocError>
    requires areas { HasAreas sup.now }
    requires good { is_write_out_of_range sup.now e.now ≡ false }
    ensures { OnOk result ((p : ℕ) → block_by extents.new p ≡ unwrap_or (block_in p (Entry.Write e.now)) (block_by extents.old p)) }
{
    extents.write_run(first_page_past(e.size), e.offset, e.block, e.count as u64)
}

/// The first page that begins at the size, in bytes, or later.
pub fn first_page_past(size: u64) -> u64
    ensures { (p : ℕ) → nat_le result p ≡ nat_le size (p * 4096) }
{
    size / BLOCK_SIZE + (size % BLOCK_SIZE).min(1)
}
