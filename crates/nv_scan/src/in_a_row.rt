//! Write entries that stand one behind another and are quicker to take together: what changes with each of them is kept in
//! registers, and no call is made for it.

ghost use Rattle.std.specs.Prelude.{◌≡◌, ◌≤◌, ◌+◌, ◌*◌, ℕ, List, false, nat_le, unwrap_or, IfOk, IfSome, IfNone, IsTrue};
ghost use Rattle.nv_region.specs.Region.{HasBlocks};
ghost use Rattle.nv_super.specs.Layout.{HasAreas, most_pages};
ghost use Rattle.nv_entry.specs.Content.{is_write_out_of_range};
ghost use Rattle.nv_logpage.specs.Reads.{found_write};
ghost use Rattle.nv_logpage.specs.Places.{IsPlaceUpTo};
ghost use Rattle.nv_logpage.specs.Progress.{after, gone_to, remaining, Continues, Falls, Leads};
ghost use Rattle.nv_logpage.specs.declared.found.Placed.{Placed as PlacedValue};
ghost use Rattle.nv_radix.specs.Runs.{block_by};
ghost use Rattle.nv_scan.specs.State.{block_in};
ghost use Rattle.nv_scan.specs.Reading.{IsReadSoFar};

use crate::fold::Fold;
use crate::pages::first_page_past;
use nv_entry::{Entry, WRITE_LENGTH, WriteEntry, check_write};
use nv_logpage::LogReader;
use nv_radix::ExtentMap;
use nv_region::Pmem;
use nv_super::{Kind, MOST_FILE_BYTES, Super};
use std::alloc::AllocError;

/// The first word of a write entry of one page. To compare all of it takes one test.
const ONE_PAGE: u64 = 0x1_0028_0001;

/// Takes the write entries of a file's log, from an address on, that are quicker to take together, if there are any. Answers where
/// the first one stands that isn't of these.
///
/// Errors: `AllocError` where a growth was refused.
// Most files have one write entry, behind which there is no room for another.
#[inline(always)]
pub(crate) fn take_more<P: Pmem>(
    memory: &P,
    sup: &Super,
    reader: &LogReader,
    fold: &mut Fold,
    from: u64,
    end: u64,
) -> Result<u64, AllocError>
    requires areas { HasAreas sup.now }
    requires blocks { HasBlocks (P.region memory.now) sup.now.blocks }
    requires sup { reader.now.sup ≡ sup.now }
    requires place { IsPlaceUpTo sup.now reader.now.tail from end }
    ensures place { IfOk result (λ at. IsPlaceUpTo sup.now reader.now.tail at end) }
    ensures read { (head i created : ℕ) → IsReadSoFar (P.region memory.now) head Kind.File i created (gone_to reader.now from) fold.old
        → IfOk result (λ at. IsReadSoFar (P.region memory.now) head Kind.File i created (gone_to reader.now at) fold.new) }
    ensures less { IfOk result (λ at. remaining (gone_to reader.now at) ≤ remaining (gone_to reader.now from)) }
{
    if end < from + WRITE_LENGTH {
        return Ok(from);
    }
    let at = take_pages(memory, sup, reader, fold, from, end);
    take_row(memory, sup, reader, fold, at, end)
}

/// Takes the write entries of a file's log, from an address on, of which each maps one of the first pages and cuts nothing, as
/// those of a small file that is written over and over. Answers where the first one stands that isn't of these.
fn take_pages<P: Pmem>(
    memory: &P,
    sup: &Super,
    reader: &LogReader,
    fold: &mut Fold,
    from: u64,
    end: u64,
) -> u64
    requires areas { HasAreas sup.now }
    requires blocks { HasBlocks (P.region memory.now) sup.now.blocks }
    requires sup { reader.now.sup ≡ sup.now }
    requires place { IsPlaceUpTo sup.now reader.now.tail from end }
    ensures place { IsPlaceUpTo sup.now reader.now.tail result end }
    ensures read { (head i created : ℕ) → IsReadSoFar (P.region memory.now) head Kind.File i created (gone_to reader.now from) fold.old
        → IsReadSoFar (P.region memory.now) head Kind.File i created (gone_to reader.now result) fold.new }
    ensures less { remaining (gone_to reader.now result) ≤ remaining (gone_to reader.now from) }
{
    let mut numbers = fold.numbers;
    let mut at = from;
    while let Some(e) = take_page(memory, sup, reader, &mut fold.extents, at, end) {
        numbers.apply_write(&e);
        at += WRITE_LENGTH;
    }
    fold.numbers = numbers;
    at
}

/// Maps the page of the write entry at an address, where it is one of the first pages, the entry is good, and it cuts nothing.
/// Else nothing changes.
#[inline(always)]
fn take_page<P: Pmem>(
    memory: &P,
    sup: &Super,
    reader: &LogReader,
    extents: &mut ExtentMap,
    at: u64,
    end: u64,
) -> Option<WriteEntry>
    requires areas { HasAreas sup.now }
    requires blocks { HasBlocks (P.region memory.now) sup.now.blocks }
    requires sup { reader.now.sup ≡ sup.now }
    requires place { IsPlaceUpTo sup.now reader.now.tail at end }
    ensures same { IfNone result (extents.new ≡ extents.old) }
    ensures good { IfSome result (λ e. is_write_out_of_range sup.now e ≡ false) }
    ensures wrote { IfSome result (λ e. (p : ℕ) → block_by extents.new p ≡ unwrap_or (block_in p (Entry.Write e)) (block_by extents.old p)) }
    ensures fits { IfSome result (λ _. at + 40 ≤ end) }
    ensures onward { IfSome result (λ _. IsPlaceUpTo sup.now reader.now.tail (at + 40) end) }
    ensures leads { (head : ℕ) (entries : List PlacedValue) → Leads (P.region memory.now) head (gone_to reader.now at) entries
        → IfSome result (λ e. Continues (P.region memory.now) head (after (gone_to reader.now at) (found_write at e)) entries (found_write at e)) }
    ensures less { IfSome result (λ e. Falls (gone_to reader.now at) (after (gone_to reader.now at) (found_write at e)) (found_write at e)) }
{
    if memory.load(at) != ONE_PAGE {
        return None;
    }
    let e = reader.write_at(memory, at, end)?;
    // Where the size is known to be no greater, the page is found in fewer steps.
    if e.count != 1 || e.size > MOST_FILE_BYTES {
        return None;
    }
    let past = first_page_past(e.size);
    if !is_good_page(sup, past, &e) {
        return None;
    }
    if !extents.write_page(past, e.offset, e.block) {
        return None;
    }
    Some(e)
}

/// Whether the write entry of one page is good, where its size is none too great, and the pages from `past` on are those that
/// begin there or later.
// All that is asked of such an entry, in the fewest tests.
#[inline(always)]
fn is_good_page(sup: &Super, past: u64, e: &WriteEntry) -> bool
    requires areas { HasAreas sup.now }
    requires one { e.now.count ≡ 1 }
    requires size { e.now.size ≤ 1073741824 }
    requires past { (p : ℕ) → nat_le past p ≡ nat_le e.now.size (p * 4096) }
    ensures { IsTrue result → is_write_out_of_range sup.now e.now ≡ false }
{
    e.offset < past && e.block >= sup.system_blocks() && e.block < sup.blocks
}

/// Takes the write entries of a file's log, from an address on, of which each goes on with the pages and the blocks of the one
/// before it and none cuts anything: together they map one run. Answers where the first one stands that isn't of these.
///
/// Errors: `AllocError` where a growth was refused.
fn take_row<P: Pmem>(
    memory: &P,
    sup: &Super,
    reader: &LogReader,
    fold: &mut Fold,
    from: u64,
    end: u64,
) -> Result<u64, AllocError>
    requires areas { HasAreas sup.now }
    requires blocks { HasBlocks (P.region memory.now) sup.now.blocks }
    requires sup { reader.now.sup ≡ sup.now }
    requires place { IsPlaceUpTo sup.now reader.now.tail from end }
    ensures place { IfOk result (λ at. IsPlaceUpTo sup.now reader.now.tail at end) }
    ensures read { (head i created : ℕ) → IsReadSoFar (P.region memory.now) head Kind.File i created (gone_to reader.now from) fold.old
        → IfOk result (λ at. IsReadSoFar (P.region memory.now) head Kind.File i created (gone_to reader.now at) fold.new) }
    ensures less { IfOk result (λ at. remaining (gone_to reader.now at) ≤ remaining (gone_to reader.now from)) }
{
    let Some(first) = reader.write_at(memory, from, end) else {
        return Ok(from);
    };
    // Nothing is mapped where the first one cuts, and the others cut no more.
    if !fold.extents.ends_by(first_page_past(first.size)) {
        return Ok(from);
    }
    let mut numbers = fold.numbers;
    let mut count = 0;
    let mut at = from;
    while let Some(e) = next_in_row(memory, sup, reader, &first, count, at, end) {
        numbers.apply_write(&e);
        count += e.count as u64;
        at += WRITE_LENGTH;
    }
    fold.numbers = numbers;
    fold.extents.set_run(first.offset, first.block, count)?;
    Ok(at)
}

/// The write entry at an address, where it is good and goes on with a row of so many pages from the first entry's on.
#[inline(always)]
fn next_in_row<P: Pmem>(
    memory: &P,
    sup: &Super,
    reader: &LogReader,
    first: &WriteEntry,
    count: u64,
    at: u64,
    end: u64,
) -> Option<WriteEntry>
    requires areas { HasAreas sup.now }
    requires blocks { HasBlocks (P.region memory.now) sup.now.blocks }
    requires sup { reader.now.sup ≡ sup.now }
    requires place { IsPlaceUpTo sup.now reader.now.tail at end }
    ensures good { IfSome result (λ e. is_write_out_of_range sup.now e ≡ false) }
    ensures page { IfSome result (λ e. first.now.offset + count ≡ e.offset) }
    ensures block { IfSome result (λ e. first.now.block + count ≡ e.block) }
    ensures size { IfSome result (λ e. first.now.size ≤ e.size) }
    ensures few { IfSome result (λ e. e.offset + e.count ≤ most_pages) }
    ensures inside { IfSome result (λ e. e.block + e.count ≤ sup.now.blocks) }
    ensures fits { IfSome result (λ _. at + 40 ≤ end) }
    ensures onward { IfSome result (λ _. IsPlaceUpTo sup.now reader.now.tail (at + 40) end) }
    ensures leads { (head : ℕ) (entries : List PlacedValue) → Leads (P.region memory.now) head (gone_to reader.now at) entries
        → IfSome result (λ e. Continues (P.region memory.now) head (after (gone_to reader.now at) (found_write at e)) entries (found_write at e)) }
    ensures less { IfSome result (λ e. Falls (gone_to reader.now at) (after (gone_to reader.now at) (found_write at e)) (found_write at e)) }
{
    let e = reader.write_at(memory, at, end)?;
    if !goes_on(first, count, &e) || check_write(sup, Kind::File, &e).is_some() {
        return None;
    }
    Some(e)
}

/// Whether an entry goes on with a row of so many pages from the first entry's on, and cuts no more than that one.
#[inline(always)]
fn goes_on(first: &WriteEntry, count: u64, e: &WriteEntry) -> bool
    ensures page { IsTrue result → first.now.offset + count ≡ e.now.offset }
    ensures block { IsTrue result → first.now.block + count ≡ e.now.block }
    ensures size { IsTrue result → first.now.size ≤ e.now.size }
{
    e.offset >= first.offset
        && e.offset - first.offset == count
        && e.block >= first.block
        && e.block - first.block == count
        && first.size <= e.size
}
