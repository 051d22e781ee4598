//! The pages that a log can do without: the state of its inode is the same without their entries.

ghost use Rattle.std.specs.Prelude.{◌≡◌, ◌+◌, ◌<◌, ◌≤◌, [], ℕ, List, length, IfOk, IfSome, IsTrue, Some, true, false};
ghost use Rattle.nv_region.specs.Region.{HasBlocks};
ghost use Rattle.nv_super.specs.Layout.{HasAreas};
ghost use Rattle.nv_inode.specs.Slot.{is_right_log};
ghost use Rattle.nv_logpage.specs.declared.found.Placed.{Placed as PlacedValue};
ghost use Rattle.nv_logpage.specs.Progress.{at_head};
ghost use Rattle.nv_names.specs.Names.{name_at};
ghost use Rattle.nv_radix.specs.Pages.{block_at};
ghost use Rattle.nv_radix.specs.Runs.{block_by};
ghost use Rattle.nv_deadpages.specs.Dead.{CanGo, IsDead, IsFirstDead, IsSaidBy};
ghost use Rattle.nv_deadpages.specs.ReadingWithout.{IsReadWithout, SaysRow};
ghost use Rattle.nv_scan.specs.Fold.{Holds};

use crate::marks::has_block;
use crate::needed::needed_pages;
use nv_logpage::{LightFinding, LogEnd, LogReader};
use nv_names::NameIndex;
use nv_radix::{Extent, ExtentMap, FileIndex};
use nv_region::Pmem;
use nv_scan::{Fold, NameRoom, Numbers, Row};
use nv_super::{BLOCK_SIZE, Kind, Super};
use std::alloc::{AllocError, Global};

/// The first page, by its place, that the log of a row can do without: one before the last, without whose entries the state of
/// the inode is the same and nothing is wrong with an entry. The log has to be right, and to end at its tail.
///
/// A file's log is read once without its first page, which is the likeliest to go. Then it is read twice, and a directory's once,
/// to learn which of its pages are needed for a page of the file or for a name. A directory's isn't read where each page but the
/// last has the add of a name that is there. The log is read once more for each other page that is tried: where nothing is wrong
/// with an entry, the one that can go and, before it, at most one for each number of the inode.
///
/// Errors: `AllocError` where a growth was refused.
pub fn first_dead_page<P: Pmem>(
    alloc: Global,
    memory: &P,
    sup: &Super,
    row: &Row,
    created: u64,
) -> Result<Option<usize>, AllocError>
    requires areas { HasAreas sup.now }
    requires blocks { HasBlocks (P.region memory.now) sup.now.blocks }
    requires right { is_right_log sup.now row.now.head row.now.tail ≡ true }
    ensures before_last { IfOk result (λ found. IfSome found (λ k. k + 1 < length row.now.pages.items)) }
    ensures first { IfOk result (λ found. (es : List PlacedValue) → IsSaidBy (P.region memory.now) sup.now created es row.now
        → IsFirstDead sup.now row.now.kind row.now.inode created es row.now.pages.items found) }
{
    if row.kind == Kind::Directory || row.pages.len() < 2 {
        return first_dead_from(alloc, memory, sup, row, created, 0);
    }
    if can_go(alloc, memory, sup, row, created, row.pages[0])? {
        return Ok(Some(0));
    }
    first_dead_from(alloc, memory, sup, row, created, 1)
}

/// The same, where the log needs the pages before a place.
fn first_dead_from<P: Pmem>(
    alloc: Global,
    memory: &P,
    sup: &Super,
    row: &Row,
    created: u64,
    from: usize,
) -> Result<Option<usize>, AllocError>
    requires areas { HasAreas sup.now }
    requires blocks { HasBlocks (P.region memory.now) sup.now.blocks }
    requires right { is_right_log sup.now row.now.head row.now.tail ≡ true }
    requires from { from ≤ 1 }
    requires tried { (es : List PlacedValue) → IsSaidBy (P.region memory.now) sup.now created es row.now → (j : ℕ) → j < from
        → IsDead sup.now row.now.kind row.now.inode created es row.now.pages.items j → ⊥ }
    ensures before_last { IfOk result (λ found. IfSome found (λ k. k + 1 < length row.now.pages.items)) }
    ensures first { IfOk result (λ found. (es : List PlacedValue) → IsSaidBy (P.region memory.now) sup.now created es row.now
        → IsFirstDead sup.now row.now.kind row.now.inode created es row.now.pages.items found) }
{
    let pages = row.pages.as_slice();
    if pages.len() < from + 2 {
        return Ok(None);
    }
    let needed = needed_pages(alloc, memory, sup, row, created)?;
    for behind in from + 1..pages.len() {
        let page = pages[behind - 1];
        if !has_block(&needed, sup, page) && can_go(alloc, memory, sup, row, created, page)? {
            return Ok(Some(behind - 1));
        }
    }
    Ok(None)
}

/// Whether the log of a row can do without the entries in a page.
fn can_go<P: Pmem>(
    alloc: Global,
    memory: &P,
    sup: &Super,
    row: &Row,
    created: u64,
    page: u64,
) -> Result<bool, AllocError>
    requires areas { HasAreas sup.now }
    requires blocks { HasBlocks (P.region memory.now) sup.now.blocks }
    requires right { is_right_log sup.now row.now.head row.now.tail ≡ true }
    ensures yes { IfOk result (λ can. IsTrue can → (es : List PlacedValue) → IsSaidBy (P.region memory.now) sup.now created es row.now → CanGo sup.now row.now.kind row.now.inode created es page) }
    ensures no { IfOk result (λ can. can ≡ false → (es : List PlacedValue) → IsSaidBy (P.region memory.now) sup.now created es row.now → CanGo sup.now row.now.kind row.now.inode created es page → ⊥) }
{
    let mut reader = LogReader::new(alloc, sup, row.head, row.tail)?;
    let mut fold = Fold::new(alloc, created);
    let _fault = fold_without(memory, sup, &mut reader, row, created, page, &mut fold)?;
    says_row(alloc, &fold, row)
}

/// Whether what is kept says the same as a row, and nothing is wrong with an entry.
pub(crate) fn says_row(alloc: Global, fold: &Fold, row: &Row) -> Result<bool, AllocError>
    ensures yes { IfOk result (λ says. IsTrue says → SaysRow fold.now row.now) }
    ensures no { IfOk result (λ says. says ≡ false → SaysRow fold.now row.now → ⊥) }
{
    if !fold.faults.is_empty() {
        return Ok(false);
    }
    if !same_numbers(&fold.numbers, &row.numbers) {
        return Ok(false);
    }
    if !same_names(&fold.names, &row.names)? {
        return Ok(false);
    }
    same_blocks(alloc, &fold.extents, &row.index)
}

/// Reads the log of a row by a reader at its head, and takes the entries that don't stand in a page.
fn fold_without<P: Pmem>(
    memory: &P,
    sup: &Super,
    reader: &mut LogReader,
    row: &Row,
    _created: u64,
    page: u64,
    fold: &mut Fold,
) -> Result<Option<LogEnd>, AllocError>
    requires areas { HasAreas sup.now }
    requires blocks { HasBlocks (P.region memory.now) sup.now.blocks }
    requires start { reader.old ≡ at_head sup.now row.now.head row.now.tail }
    requires none { Holds sup.now row.now.kind row.now.inode _created [] fold.old }
    ensures { IfOk result (IsReadWithout (P.region memory.now) sup.now row.now _created page fold.new reader.new.pages) }
{
    let mut name = NameRoom::new();
    'reading: loop {
        match reader.next_light(memory)? {
            LightFinding::Entry(placed) => {
                if placed.at / BLOCK_SIZE != page {
                    fold.take(memory, sup, row.kind, row.inode, &placed, &mut name)?;
                }
            }
            LightFinding::Page(_) => {}
            LightFinding::End(fault) => return Ok(fault),
        }
    }
}

/// Whether the numbers are the same.
fn same_numbers(one: &Numbers, other: &Numbers) -> bool
    ensures yes { IsTrue result → one.now ≡ other.now }
    ensures no { result ≡ false → one.now ≡ other.now → ⊥ }
{
    one == other
}

/// Whether two indexes have the same names, with the same inodes and places.
fn same_names(one: &NameIndex, other: &NameIndex) -> Result<bool, AllocError>
    ensures yes { IfOk result (λ same. IsTrue same → (q : List ℕ) → name_at one.now q ≡ name_at other.now q) }
    ensures no { IfOk result (λ same. same ≡ false → ((q : List ℕ) → name_at one.now q ≡ name_at other.now q) → ⊥) }
{
    if !has_all(one, other)? {
        return Ok(false);
    }
    has_all(other, one)
}

/// Whether the second index has each name of the first, with the same inode and place.
fn has_all(of: &NameIndex, index: &NameIndex) -> Result<bool, AllocError>
    ensures yes { IfOk result (λ all. IsTrue all → (q : List ℕ) (x : ℕ × ℕ) → name_at of.now q ≡ Some x → name_at index.now q ≡ Some x) }
    ensures no { IfOk result (λ all. all ≡ false → ((q : List ℕ) → name_at of.now q ≡ name_at index.now q) → ⊥) }
{
    let listed = of.walk()?;
    for k in 0..listed.len() {
        let named = listed[k];
        if !is_at(index, named.name, named.inode, named.place) {
            return Ok(false);
        }
    }
    Ok(true)
}

/// Whether an index has a name, with this inode and place.
fn is_at(index: &NameIndex, name: &[u8], inode: u64, place: u64) -> bool
    ensures yes { IsTrue result → name_at index.now name.now ≡ Some (inode, place) }
    ensures no { result ≡ false → name_at index.now name.now ≡ Some (inode, place) → ⊥ }
{
    match index.get(name) {
        Some(target) => target.inode == inode && target.place == place,
        None => false,
    }
}

/// Whether an index has just the pages that are mapped, with the same blocks.
fn same_blocks(alloc: Global, extents: &ExtentMap, index: &FileIndex) -> Result<bool, AllocError>
    ensures yes { IfOk result (λ same. IsTrue same → (p : ℕ) → block_by extents.now p ≡ block_at index.now p) }
    ensures no { IfOk result (λ same. same ≡ false → ((p : ℕ) → block_by extents.now p ≡ block_at index.now p) → ⊥) }
{
    let mut made = FileIndex::new(alloc);
    let mut found = Vec::new(alloc);
    extents.fill_index(&mut made, &mut found)?;
    let runs = index.runs()?;
    Ok(same_extents(&found, &runs))
}

/// Whether two lists have the same extents.
fn same_extents(one: &[Extent], other: &[Extent]) -> bool
    ensures yes { IsTrue result → one.now ≡ other.now }
    ensures no { result ≡ false → one.now ≡ other.now → ⊥ }
{
    if one.len() != other.len() {
        return false;
    }
    for k in 0..one.len() {
        if !is_extent(&one[k], &other[k]) {
            return false;
        }
    }
    true
}

/// Whether two extents are the same.
fn is_extent(one: &Extent, other: &Extent) -> bool
    ensures yes { IsTrue result → one.now ≡ other.now }
    ensures no { result ≡ false → one.now ≡ other.now → ⊥ }
{
    one.page == other.page && one.count == other.count && one.block == other.block
}
