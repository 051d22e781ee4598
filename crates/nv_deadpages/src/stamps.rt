//! Which page of a file's log was the last to say something of a page of the file: its stamp tells. What a page of the log says
//! of pages with other stamps is said again behind it.

ghost use Rattle.std.specs.Prelude.{◌≡◌, ◌+◌, ◌/◌, ◌^◌, ◌<◌, ◌≤◌, ℕ, None, IfOk, OnOk};
ghost use Rattle.nv_radix.specs.declared.TheConstants.{MAX_FILE_PAGES};
ghost use Rattle.nv_region.specs.Region.{HasBlocks};
ghost use Rattle.nv_super.specs.Layout.{HasAreas};
ghost use Rattle.nv_logpage.specs.Light.{placed_in};
ghost use Rattle.nv_logpage.specs.Progress.{at_head};
ghost use Rattle.nv_logpage.specs.Reads.{placed};
ghost use Rattle.nv_radix.specs.Runs.{block_by};
ghost use Rattle.nv_deadpages.specs.Stamps.{AreStampsOf, Stamped, Stamps};

use nv_entry::{AttrEntry, Entry, LightEntry, WriteEntry, check_bare, check_write};
use nv_logpage::{LightFinding, LightPlaced, LogEnd, LogReader};
use nv_radix::{ExtentMap, MAX_FILE_PAGES};
use nv_region::Pmem;
use nv_scan::{Row, first_page_past};
use nv_super::{BLOCK_SIZE, Kind, Super};
use std::alloc::AllocError;

/// Reads the log of a row by a reader at its head, and stamps the pages of which its entries say something. A page that
/// has no block by any entry may stay without a stamp.
pub(crate) fn stamp_pages<P: Pmem>(
    memory: &P,
    sup: &Super,
    reader: &mut LogReader,
    row: &Row,
    stamps: &mut ExtentMap,
) -> Result<Option<LogEnd>, AllocError>
    requires areas { HasAreas sup.now }
    requires blocks { HasBlocks (P.region memory.now) sup.now.blocks }
    requires start { reader.old ≡ at_head sup.now row.now.head row.now.tail }
    requires none { (p : ℕ) → block_by stamps.old p ≡ None }
    ensures { IfOk result (AreStampsOf (P.region memory.now) sup.now row.now stamps.new reader.new.pages) }
{
    // No page from here on was mapped by an entry so far.
    let mut end = 0;
    'reading: loop {
        let page = reader.place() / BLOCK_SIZE;
        match reader.next_light(memory)? {
            LightFinding::Entry(placed) => {
                stamp_entry(memory, sup, row.kind, &placed, page, stamps, &mut end)?;
            }
            LightFinding::Page(_) => {}
            LightFinding::End(fault) => return Ok(fault),
        }
    }
}

/// Stamps the pages of which an entry in a page of the log says something.
fn stamp_entry<P: Pmem>(
    _memory: &P,
    sup: &Super,
    kind: Kind,
    placed: &LightPlaced,
    page: u64,
    stamps: &mut ExtentMap,
    end: &mut u64,
) -> Result<(), AllocError>
    requires areas { HasAreas sup.now }
    requires page { placed.now.at / 4096 ≡ page }
    requires inside { page < sup.now.blocks }
    requires end { end.old ≤ MAX_FILE_PAGES }
    ensures end { end.new ≤ MAX_FILE_PAGES }
    ensures stamps { OnOk result (Stamps sup.now kind (placed_in (P.region _memory.now) placed.now) stamps.old stamps.new) }
{
    match &placed.entry {
        LightEntry::Write(e) => stamp_write(sup, kind, placed.at, e, page, stamps, end),
        LightEntry::Attr(e) => stamp_cut(sup, kind, placed.at, e, page, stamps, end),
        LightEntry::NextPage | LightEntry::Name(_) | LightEntry::Links(_) => Ok(()),
    }
}

/// Stamps the pages of a write entry, and those that it cuts.
fn stamp_write(
    sup: &Super,
    kind: Kind,
    _at: u64,
    e: &WriteEntry,
    page: u64,
    stamps: &mut ExtentMap,
    end: &mut u64,
) -> Result<(), AllocError>
    requires areas { HasAreas sup.now }
    requires page { _at / 4096 ≡ page }
    requires inside { page < sup.now.blocks }
    requires end { end.old ≤ MAX_FILE_PAGES }
    ensures end { end.new ≤ MAX_FILE_PAGES }
    ensures stamps { OnOk result (Stamps sup.now kind (placed _at (Entry.Write e.now)) stamps.old stamps.new) }
{
    match check_write(sup, kind, e) {
        Some(_) => Ok(()),
        None => stamp(
            stamps,
            page,
            first_page_past(e.size),
            e.offset,
            e.count as u64,
            end,
        ),
    }
}

/// Stamps the pages that an attributes entry cuts.
fn stamp_cut(
    sup: &Super,
    kind: Kind,
    _at: u64,
    e: &AttrEntry,
    page: u64,
    stamps: &mut ExtentMap,
    end: &mut u64,
) -> Result<(), AllocError>
    requires areas { HasAreas sup.now }
    requires page { _at / 4096 ≡ page }
    requires inside { page < sup.now.blocks }
    requires end { end.old ≤ MAX_FILE_PAGES }
    ensures end { end.new ≤ MAX_FILE_PAGES }
    ensures stamps { OnOk result (Stamps sup.now kind (placed _at (Entry.Attr e.now)) stamps.old stamps.new) }
{
    match check_bare(sup, kind, &LightEntry::Attr(*e)) {
        Some(_) => Ok(()),
        None => stamp(stamps, page, first_page_past(e.size), 0, 0, end),
    }
}

/// Stamps a run of pages, and those that are cut from `past` on as far as any was mapped before.
fn stamp(
    stamps: &mut ExtentMap,
    page: u64,
    past: u64,
    offset: u64,
    count: u64,
    end: &mut u64,
) -> Result<(), AllocError>
    requires page { page < 2 ^ 32 }
    requires run { offset + count ≤ MAX_FILE_PAGES }
    requires end { end.old ≤ MAX_FILE_PAGES }
    ensures end { end.new ≤ MAX_FILE_PAGES }
    ensures stamps { OnOk result (Stamped page past offset count stamps.old stamps.new) }
{
    let first = page * MAX_FILE_PAGES;
    let cut = end.saturating_sub(past);
    *end = (*end).max(offset + count);
    stamps.cut(past)?;
    if cut > 0 {
        stamps.set_run(past, first + past, cut)?;
    }
    stamps.set_run(offset, first + offset, count)
}
