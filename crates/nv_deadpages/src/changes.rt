//! The pages of a file's log without whose entries a page of the file would map elsewhere.
//!
//! The log is read twice: once to learn which of its pages was the last to say something of each page of the file, and once
//! more to compare, before the entries of a page are taken, what the pages that have its stamp map to with what they map to in
//! the end.

ghost use Rattle.std.specs.Prelude.{◌≡◌, ◌⊎◌, ◌≤◌, ◌/◌, ℕ, length, [], true, IfOk, OnOk, IsTrue, Some};
ghost use Rattle.std.specs.List.{Contains};
ghost use Rattle.nv_radix.specs.declared.TheConstants.{MAX_FILE_PAGES};
ghost use Rattle.nv_region.specs.Region.{HasBlocks};
ghost use Rattle.nv_super.specs.Layout.{HasAreas};
ghost use Rattle.nv_inode.specs.Slot.{is_right_log};
ghost use Rattle.nv_logpage.specs.Progress.{at_head};
ghost use Rattle.nv_radix.specs.Pages.{block_at};
ghost use Rattle.nv_radix.specs.Runs.{block_by};
ghost use Rattle.nv_deadpages.specs.Changes.{AreChanges, HasChange};
ghost use Rattle.nv_scan.specs.Fold.{Holds};
ghost use Rattle.nv_deadpages.specs.Needed.{AreNeeded};
ghost use Rattle.nv_deadpages.specs.Stamps.{HasStamps};

use crate::marks::add_block;
use crate::stamps::stamp_pages;
use nv_blockset::BlockList;
use nv_logpage::{LightFinding, LogEnd, LogReader};
use nv_radix::{Extent, ExtentMap, FileIndex, MAX_FILE_PAGES};
use nv_region::Pmem;
use nv_scan::{Fold, NameRoom, Row};
use nv_super::{BLOCK_SIZE, Super};
use std::alloc::{AllocError, Global};

/// The stamps of a file's pages.
#[derive(Drop)]
struct Stamps {
    /// The stamp of each page that has one.
    index: FileIndex,
    /// Runs of pages with stamps, rising by these. No contract rests on them: they say where to look.
    runs: Vec<Extent>,
}

/// Adds the pages of a file's log without whose entries a page of the file would map elsewhere.
///
/// Errors: `AllocError` where a growth was refused.
pub(crate) fn add_changes<P: Pmem>(
    alloc: Global,
    memory: &P,
    sup: &Super,
    row: &Row,
    created: u64,
    needed: &mut BlockList,
) -> Result<(), AllocError>
    requires areas { HasAreas sup.now }
    requires blocks { HasBlocks (P.region memory.now) sup.now.blocks }
    requires right { is_right_log sup.now row.now.head row.now.tail ≡ true }
    requires empty { needed.old ≡ record { bound = sup.now.blocks; blocks = [] } }
    ensures bound { needed.new.bound ≡ sup.now.blocks }
    ensures needed { OnOk result (AreNeeded (P.region memory.now) sup.now created row.now needed.new.blocks) }
{
    let stamps = stamps_of(alloc, memory, sup, row)?;
    let mut reader = LogReader::new(alloc, sup, row.head, row.tail)?;
    let mut fold = Fold::new(alloc, created);
    let _fault = find_changes(
        memory,
        sup,
        &mut reader,
        row,
        created,
        &stamps,
        &mut fold,
        needed,
    )?;
    Ok(())
}

/// The stamps of a file's pages by the log of its row.
fn stamps_of<P: Pmem>(
    alloc: Global,
    memory: &P,
    sup: &Super,
    row: &Row,
) -> Result<Stamps, AllocError>
    requires areas { HasAreas sup.now }
    requires blocks { HasBlocks (P.region memory.now) sup.now.blocks }
    requires right { is_right_log sup.now row.now.head row.now.tail ≡ true }
    ensures { IfOk result (λ stamps. HasStamps (P.region memory.now) sup.now row.now stamps.index) }
{
    let mut reader = LogReader::new(alloc, sup, row.head, row.tail)?;
    let mut map = ExtentMap::new(alloc);
    let _fault = stamp_pages(memory, sup, &mut reader, row, &mut map)?;
    let mut index = FileIndex::new(alloc);
    let mut runs = Vec::new(alloc);
    map.fill_index(&mut index, &mut runs)?;
    runs.sort_unstable_by_key(|run| run.block);
    Ok(Stamps { index, runs })
}

/// Reads the log of a row by a reader at its head, and adds the pages that change a page of the file.
fn find_changes<P: Pmem>(
    memory: &P,
    sup: &Super,
    reader: &mut LogReader,
    row: &Row,
    _created: u64,
    stamps: &Stamps,
    fold: &mut Fold,
    found: &mut BlockList,
) -> Result<Option<LogEnd>, AllocError>
    requires areas { HasAreas sup.now }
    requires blocks { HasBlocks (P.region memory.now) sup.now.blocks }
    requires start { reader.old ≡ at_head sup.now row.now.head row.now.tail }
    requires none { Holds sup.now row.now.kind row.now.inode _created [] fold.old }
    requires empty { found.old ≡ record { bound = sup.now.blocks; blocks = [] } }
    ensures bound { found.new.bound ≡ sup.now.blocks }
    ensures changes { IfOk result (AreChanges (P.region memory.now) sup.now row.now stamps.now.index row.now.index found.new.blocks reader.new.pages) }
{
    let mut name = NameRoom::new();
    add_change(
        sup,
        &fold.extents,
        stamps,
        &row.index,
        row.head / BLOCK_SIZE,
        found,
    )?;
    'reading: loop {
        match reader.next_light(memory)? {
            LightFinding::Entry(placed) => {
                fold.take(memory, sup, row.kind, row.inode, &placed, &mut name)?;
            }
            LightFinding::Page(start) => {
                add_change(
                    sup,
                    &fold.extents,
                    stamps,
                    &row.index,
                    start / BLOCK_SIZE,
                    found,
                )?;
            }
            LightFinding::End(fault) => return Ok(fault),
        }
    }
}

/// Adds a page of the log, if its entries change a page of the file. The map is that of the entries before it.
fn add_change(
    sup: &Super,
    now: &ExtentMap,
    stamps: &Stamps,
    index: &FileIndex,
    page: u64,
    found: &mut BlockList,
) -> Result<(), AllocError>
    requires { found.old.bound ≡ sup.now.blocks }
    ensures bound { found.new.bound ≡ sup.now.blocks }
    ensures only { OnOk result ((b : ℕ) → Contains found.new.blocks b → ((b ≡ page) × HasChange now.now stamps.now.index index.now page) ⊎ Contains found.old.blocks b) }
{
    if has_change(now, stamps, index, page) {
        return add_block(found, sup, page);
    }
    Ok(())
}

/// Whether a page of the file with the stamp of a page of the log maps elsewhere now than by the index.
fn has_change(now: &ExtentMap, stamps: &Stamps, index: &FileIndex, page: u64) -> bool
    ensures { IsTrue result → HasChange now.now stamps.now.index index.now page }
{
    let runs = stamps.runs.as_slice();
    for k in first_with(runs, page)..runs.len() {
        let run = runs[k];
        if run.block / MAX_FILE_PAGES != page {
            return false;
        }
        if has_change_in(now, &stamps.index, index, page, &run) {
            return true;
        }
    }
    false
}

/// The place of the first run with the stamp of a page of the log or a greater one, among runs that rise by their stamps.
fn first_with(runs: &[Extent], page: u64) -> usize
    ensures { result ≤ length runs.now }
{
    let mut low = 0;
    let mut high = runs.len();
    while low < high {
        let mid = low + (high - low) / 2;
        if runs[mid].block / MAX_FILE_PAGES < page {
            low = mid + 1;
        } else {
            high = mid;
        }
    }
    low
}

/// The same among the pages of one run.
fn has_change_in(
    now: &ExtentMap,
    stamps: &FileIndex,
    index: &FileIndex,
    page: u64,
    run: &Extent,
) -> bool
    ensures { IsTrue result → HasChange now.now stamps.now index.now page }
{
    for at in run.page..run.page.saturating_add(run.count) {
        if is_stamped(stamps, page, at) && maps_elsewhere(now, index, at) {
            return true;
        }
    }
    false
}

/// Whether a page of the file has the stamp of a page of the log.
fn is_stamped(stamps: &FileIndex, page: u64, at: u64) -> bool
    ensures { IsTrue result → (v : ℕ) × (block_at stamps.now at ≡ Some v) × (v / MAX_FILE_PAGES ≡ page) }
{
    match stamps.get(at) {
        Some(stamp) => stamp / MAX_FILE_PAGES == page,
        None => false,
    }
}

/// Whether a page of the file maps elsewhere now than by the index.
fn maps_elsewhere(now: &ExtentMap, index: &FileIndex, at: u64) -> bool
    ensures { IsTrue result → block_by now.now at ≡ block_at index.now at → ⊥ }
{
    now.get(at) != index.get(at)
}
