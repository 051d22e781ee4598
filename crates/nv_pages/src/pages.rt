//! The pages of a file, read from the blocks that a reader gives.

ghost use Rattle.std.specs.Prelude.{◌≡◌, ◌<◌, ◌≤◌, ◌+◌, ◌*◌, ◌/◌, ◌%◌, ◌^◌, ◌++◌, ℕ, List, Some, false, is_err, IfOk, IfErr, OnOk, true, drop, length, map};
ghost use Rattle.std.specs.List.{range_with_len};
ghost use Rattle.nv_region.specs.Region.{region_of};
ghost use Rattle.nv_radix.specs.Pages.{block_at};
ghost use Rattle.nv_bytes.specs.Bytes.{file_byte, LieInside};
ghost use Rattle.nv_pages.specs.Blocks.{AreRegionBlocks};

use nv_metadata::{Blocks, GatherError};
use nv_radix::FileIndex;
use nv_super::BLOCK_SIZE;
use std::alloc::Global;
use std::io;

const PAGE: usize = 4096;

/// The bytes of a file from a page on, so many. Pages without a block are zeros. The pages that hold them are read whole, and
/// those whose blocks lie side by side at once.
///
/// Errors: `Read` where a block can't be read, and `Memory` where a growth was refused.
pub fn bytes_of_pages<B: Blocks>(
    alloc: Global,
    source: &B,
    index: &FileIndex,
    at: u64,
    count: u64,
) -> Result<Vec<u8>, GatherError>
    requires page { at % 4096 ≡ 0 }
    requires small { at + count ≤ 2 ^ 40 }
    requires blocks { AreRegionBlocks index.now }
    ensures read { (image : List ℕ) → B.bytes source.now ≡ Some image → IfOk result (λ bytes. bytes.items ≡ map (file_byte (region_of image) index.now) (range_with_len at count)) }
    ensures known { (image : List ℕ) → B.bytes source.now ≡ Some image → LieInside (region_of image) index.now → IfErr result (λ e. e ≡ GatherError.Memory) }
{
    let pages = count.div_ceil(BLOCK_SIZE);
    let mut bytes = vec![in alloc; 0; (BLOCK_SIZE * pages) as usize]?;
    fill_pages(source, index, at / BLOCK_SIZE, &mut bytes)?;
    bytes.truncate(count as usize);
    Ok(bytes)
}

// Fills a buffer with whole pages of a file, from one on.
fn fill_pages<B: Blocks>(
    source: &B,
    index: &FileIndex,
    first: u64,
    buffer: &mut [u8],
) -> io::Result<()>
    requires whole { length buffer.old % 4096 ≡ 0 }
    requires small { 4096 * first + length buffer.old ≤ 2 ^ 41 }
    requires blocks { AreRegionBlocks index.now }
    ensures filled { (image : List ℕ) → B.bytes source.now ≡ Some image → OnOk result (buffer.new ≡ map (file_byte (region_of image) index.now) (range_with_len (4096 * first) (length buffer.old))) }
    ensures known { (image : List ℕ) → B.bytes source.now ≡ Some image → LieInside (region_of image) index.now → is_err result ≡ false }
{
    let mut done = 0;
    while done < buffer.len() {
        let page = first + (done / PAGE) as u64;
        let count = fill_run(source, index, page, &mut buffer[done..])?;
        done += count;
    }
    Ok(())
}

// Fills the front of a buffer with the pages of a file whose blocks lie side by side, or with one without a block. Answers how
// many bytes these are.
fn fill_run<B: Blocks>(
    source: &B,
    index: &FileIndex,
    page: u64,
    buffer: &mut [u8],
) -> io::Result<usize>
    requires whole { length buffer.old % 4096 ≡ 0 }
    requires some { 0 < length buffer.old }
    requires small { 4096 * page + length buffer.old ≤ 2 ^ 41 }
    requires blocks { AreRegionBlocks index.now }
    ensures count { IfOk result (λ count. (0 < count) × (count ≤ length buffer.old) × (count % 4096 ≡ 0)) }
    ensures filled { (image : List ℕ) → B.bytes source.now ≡ Some image
        → IfOk result (λ count. buffer.new ≡ map (file_byte (region_of image) index.now) (range_with_len (4096 * page) count) ++ drop count buffer.old) }
    ensures known { (image : List ℕ) → B.bytes source.now ≡ Some image → LieInside (region_of image) index.now → is_err result ≡ false }
{
    match index.get(page) {
        Some(block) => read_run(source, index, page, block, buffer),
        None => {
            buffer[..PAGE].fill(0);
            Ok(PAGE)
        }
    }
}

// The same of a page that has this block.
fn read_run<B: Blocks>(
    source: &B,
    index: &FileIndex,
    page: u64,
    block: u64,
    buffer: &mut [u8],
) -> io::Result<usize>
    requires first { block_at index.now page ≡ Some block }
    requires whole { length buffer.old % 4096 ≡ 0 }
    requires some { 0 < length buffer.old }
    requires small { 4096 * page + length buffer.old ≤ 2 ^ 41 }
    requires blocks { AreRegionBlocks index.now }
    ensures count { IfOk result (λ count. (0 < count) × (count ≤ length buffer.old) × (count % 4096 ≡ 0)) }
    ensures filled { (image : List ℕ) → B.bytes source.now ≡ Some image
        → IfOk result (λ count. buffer.new ≡ map (file_byte (region_of image) index.now) (range_with_len (4096 * page) count) ++ drop count buffer.old) }
    ensures known { (image : List ℕ) → B.bytes source.now ≡ Some image → LieInside (region_of image) index.now → is_err result ≡ false }
{
    let count = PAGE * run_length(index, page, block, buffer.len() / PAGE);
    source.read(BLOCK_SIZE * block, &mut buffer[..count])?;
    Ok(count)
}

// How many pages from one on, which has this block, have blocks that lie side by side: at most so many.
fn run_length(index: &FileIndex, page: u64, block: u64, most: usize) -> usize
    requires first { block_at index.now page ≡ Some block }
    requires some { 0 < most }
    requires small { page + most ≤ 2 ^ 41 }
    requires blocks { AreRegionBlocks index.now }
    ensures some { 0 < result }
    ensures few { result ≤ most }
    ensures run { (k : ℕ) → k < result → block_at index.now (page + k) ≡ Some (block + k) }
{
    let mut count = 1;
    while count < most && is_next(index, page, block, count) {
        count += 1;
    }
    count
}

// Whether the page that is so many behind one has the block that is as many behind another.
fn is_next(index: &FileIndex, page: u64, block: u64, count: usize) -> bool
    requires page { page + count ≤ 2 ^ 41 }
    requires block { block + count ≤ 2 ^ 42 }
    ensures { result ≡ true → block_at index.now (page + count) ≡ Some (block + count) }
{
    match index.get(page + count as u64) {
        Some(next) => next == block + count as u64,
        None => false,
    }
}
