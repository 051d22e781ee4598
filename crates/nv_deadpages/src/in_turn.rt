//! Pages of a log that go one after another: told by one reading without all of them, and not by one for each.

ghost use Rattle.std.specs.Prelude.{◌≡◌, ◌⊎◌, ◌+◌, ◌<◌, [], ℕ, List, drop, length, take, eqb, true, IfOk, IfSome, IsTrue};
ghost use Rattle.std.specs.List.{list_any};
ghost use Rattle.nv_region.specs.Region.{HasBlocks};
ghost use Rattle.nv_super.specs.Layout.{HasAreas};
ghost use Rattle.nv_inode.specs.Slot.{is_right_log};
ghost use Rattle.nv_logpage.specs.declared.found.Placed.{Placed as PlacedValue};
ghost use Rattle.nv_logpage.specs.Progress.{at_head};
ghost use Rattle.nv_deadpages.specs.Dead.{IsSaidBy};
ghost use Rattle.nv_scan.specs.Fold.{Holds};
ghost use Rattle.nv_deadpages.specs.InTurn.{AreDeadPages, IsCleanLog, IsReadWithoutPages, SaysTheSame};

use crate::dead::{first_dead_page, says_row};
use nv_blockset::BlockList;
use nv_logpage::{LightFinding, LogEnd, LogReader};
use nv_region::Pmem;
use nv_scan::{Fold, NameRoom, Row};
use nv_super::{BLOCK_SIZE, Kind, Super};
use std::alloc::{AllocError, Global};

/// Pages of a log that go one after another.
#[derive(Clone, Copy, Debug)]
pub struct DeadPages {
    /// The place that each of them has when it goes.
    pub first: usize,
    /// How many they are.
    pub count: usize,
}

/// Pages that the log of a row can do without, one after another: each is the first that it can do without, once those before
/// it are gone. Where nothing is wrong with an entry there are some, if there is one. The log has to be right, and to end at its
/// tail.
///
/// Of a directory's log they are one page. Of a file's log they are all that follow the first such page without a needed one
/// between, but for the last page of the log, or at least half of them. Beyond what it takes to find the first one, the log is
/// read once if all of them go, and else once more for each time that their number can be doubled.
///
/// Errors: `AllocError` where a growth was refused.
pub fn dead_pages<P: Pmem>(
    alloc: Global,
    memory: &P,
    sup: &Super,
    row: &Row,
    created: u64,
) -> Result<Option<DeadPages>, AllocError>
    requires areas { HasAreas sup.now }
    requires blocks { HasBlocks (P.region memory.now) sup.now.blocks }
    requires right { is_right_log sup.now row.now.head row.now.tail ≡ true }
    ensures before_last { IfOk result (λ found. IfSome found (λ pages. pages.first + pages.count < length row.now.pages.items)) }
    ensures dead { IfOk result (λ found. (es : List PlacedValue) → IsSaidBy (P.region memory.now) sup.now created es row.now → IsCleanLog sup.now row.now.kind row.now.inode es
        → AreDeadPages sup.now row.now.kind row.now.inode created es row.now.pages.items found) }
{
    let first = match first_dead_page(alloc, memory, sup, row, created)? {
        Some(first) => first,
        None => return Ok(None),
    };
    let count = match row.kind {
        Kind::File => count_in_turn(alloc, memory, sup, row, created, first)?,
        Kind::Directory => 1,
    };
    Ok(Some(DeadPages { first, count }))
}

/// How many pages from a place on the log says the same without: at least one is answered, which isn't tried.
fn count_in_turn<P: Pmem>(
    alloc: Global,
    memory: &P,
    sup: &Super,
    row: &Row,
    created: u64,
    first: usize,
) -> Result<usize, AllocError>
    requires areas { HasAreas sup.now }
    requires blocks { HasBlocks (P.region memory.now) sup.now.blocks }
    requires right { is_right_log sup.now row.now.head row.now.tail ≡ true }
    requires more { first + 1 < length row.now.pages.items }
    ensures some { IfOk result (λ count. 0 < count) }
    ensures inside { IfOk result (λ count. first + count < length row.now.pages.items) }
    ensures same { IfOk result (λ count. (count ≡ 1) ⊎ SaysTheSame (P.region memory.now) sup.now created row.now (take count (drop first row.now.pages.items))) }
{
    let most = row.pages.len() - 1 - first;
    if says_the_same(alloc, memory, sup, row, created, first, most)? {
        return Ok(most);
    }
    let mut count = 1;
    while count < most - count {
        if !says_the_same(alloc, memory, sup, row, created, first, 2 * count)? {
            return Ok(count);
        }
        count *= 2;
    }
    Ok(count)
}

/// Whether the log says the same without so many pages from a place on.
fn says_the_same<P: Pmem>(
    alloc: Global,
    memory: &P,
    sup: &Super,
    row: &Row,
    created: u64,
    first: usize,
    count: usize,
) -> Result<bool, AllocError>
    requires areas { HasAreas sup.now }
    requires blocks { HasBlocks (P.region memory.now) sup.now.blocks }
    requires right { is_right_log sup.now row.now.head row.now.tail ≡ true }
    requires inside { first + count < length row.now.pages.items }
    ensures { IfOk result (λ same. IsTrue same → SaysTheSame (P.region memory.now) sup.now created row.now (take count (drop first row.now.pages.items))) }
{
    let pages = &row.pages.as_slice()[first..first + count];
    let out = match list_of(alloc, sup, pages)? {
        Some(out) => out,
        None => return Ok(false),
    };
    let mut reader = LogReader::new(alloc, sup, row.head, row.tail)?;
    let mut fold = Fold::new(alloc, created);
    let _fault = fold_without_pages(memory, sup, &mut reader, row, created, &out, &mut fold)?;
    says_row(alloc, &fold, row)
}

/// These blocks as a list, if each stands there once and lies in the region.
fn list_of(alloc: Global, sup: &Super, blocks: &[u64]) -> Result<Option<BlockList>, AllocError>
    ensures bound { IfOk result (λ list. IfSome list (λ out. out.bound ≡ sup.now.blocks)) }
    ensures same { IfOk result (λ list. IfSome list (λ out. out.blocks ≡ blocks.now)) }
    ensures below { IfOk result (λ list. IfSome list (λ out. (b : ℕ) → list_any (eqb b) out.blocks ≡ true → b < sup.now.blocks)) }
{
    let mut list = BlockList::new(alloc, sup.blocks)?;
    for k in 0..blocks.len() {
        let block = blocks[k];
        if block >= sup.blocks || list.contains(block) {
            return Ok(None);
        }
        list.push(block)?;
    }
    Ok(Some(list))
}

/// Reads the log of a row by a reader at its head, and takes the entries that stand in none of these pages.
fn fold_without_pages<P: Pmem>(
    memory: &P,
    sup: &Super,
    reader: &mut LogReader,
    row: &Row,
    _created: u64,
    out: &BlockList,
    fold: &mut Fold,
) -> Result<Option<LogEnd>, AllocError>
    requires areas { HasAreas sup.now }
    requires blocks { HasBlocks (P.region memory.now) sup.now.blocks }
    requires start { reader.old ≡ at_head sup.now row.now.head row.now.tail }
    requires none { Holds sup.now row.now.kind row.now.inode _created [] fold.old }
    requires bound { out.now.bound ≡ sup.now.blocks }
    requires below { (b : ℕ) → list_any (eqb b) out.now.blocks ≡ true → b < sup.now.blocks }
    ensures { IfOk result (IsReadWithoutPages (P.region memory.now) sup.now row.now _created out.now.blocks fold.new reader.new.pages) }
{
    let mut name = NameRoom::new();
    'reading: loop {
        match reader.next_light(memory)? {
            LightFinding::Entry(placed) => {
                if !is_out(out, sup, placed.at / BLOCK_SIZE) {
                    fold.take(memory, sup, row.kind, row.inode, &placed, &mut name)?;
                }
            }
            LightFinding::Page(_) => {}
            LightFinding::End(fault) => return Ok(fault),
        }
    }
}

/// Whether a page is in a list of pages of the region.
fn is_out(out: &BlockList, sup: &Super, page: u64) -> bool
    requires bound { out.now.bound ≡ sup.now.blocks }
    requires below { (b : ℕ) → list_any (eqb b) out.now.blocks ≡ true → b < sup.now.blocks }
    ensures { result ≡ list_any (eqb page) out.now.blocks }
{
    page < sup.blocks && out.contains(page)
}
