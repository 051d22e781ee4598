//! Storing a file's pages anew, into fresh blocks.
//!
//! Nothing is fenced: what is stored counts only once an entry names the blocks.

ghost use Rattle.std.specs.Prelude.{◌≡◌, ◌≢◌, ◌+◌, ◌*◌, ◌%◌, ◌<◌, ◌≤◌, ◌^◌, ℕ, length, get_or, IfSome, OnOk, is_err, false, Some};
ghost use Rattle.nv_region.specs.Region.{size};
ghost use Rattle.nv_region.specs.Stored.{StoresOnly};
ghost use Rattle.nv_region.specs.Fuses.{KeepsFuse};
ghost use Rattle.nv_super.specs.Runs.{InRun};
ghost use Rattle.nv_radix.specs.Pages.{block_at};
ghost use Rattle.nv_alloc.specs.Taking.{HasBlock, blocks_in};
ghost use Rattle.nv_mounted.specs.Bytes.{byte_in};
ghost use Rattle.nv_bytes.specs.Bytes.{byte_after, byte_of_word, file_byte, LieInside};
ghost use Rattle.nv_bytes.specs.Storing.{AreFresh, HoldPages, HoldsPage, InBlocks};
ghost use Rattle.nv_bytes.specs.Data.{data_bytes};

use crate::change::{LINE_SIZE, NewBytes};
use crate::reading::word_at;
use nv_radix::FileIndex;
use nv_region::{Pmem, Stopped};
use nv_super::{BLOCK_SIZE, Run};

const LINES_IN_PAGE: u64 = 64;

const WORDS_IN_PAGE: usize = 512;

/// Stores the pages of a file from one on, as they are with the new bytes, into the blocks of runs, in their order.
///
/// `Stopped` where the fuse has burnt. Some of the words may be stored then.
pub fn store_pages<P: Pmem>(
    memory: &mut P,
    index: &FileIndex,
    first: u64,
    runs: &[Run],
    change: &NewBytes,
) -> Result<(), Stopped>
    requires mapped { LieInside (P.region memory.old) index.now }
    requires fresh { AreFresh (P.region memory.old) index.now runs.now }
    requires pages { first + blocks_in runs.now ≤ 2 ^ 32 }
    requires small { change.now.offset + length (data_bytes change.now.content) ≤ 2 ^ 62 }
    ensures stored { OnOk result (HoldPages (P.region memory.new) (byte_after change.now.offset (data_bytes change.now.content) change.now.size (file_byte (P.region memory.old) index.now)) first
        runs.now) }
    ensures wrote { StoresOnly (InBlocks (HasBlock runs.now)) (P.region memory.old) (P.region memory.new) (P.may_hold memory.old) (P.may_hold memory.new) }
    ensures stopped { (P.fuse memory.old).has_burnt ≡ false → is_err result ≡ (P.fuse memory.new).has_burnt }
    ensures keeps_fuse { KeepsFuse (λ limit. size (P.region memory.old) ≤ limit) (P.fuse memory.old) (P.fuse memory.new) }
{
    let mut page = first;
    for run in runs {
        store_run(memory, index, page, *run, change)?;
        page += run.count;
    }
    Ok(())
}

/// Stores the pages of a file from one on into the blocks of a run.
fn store_run<P: Pmem>(
    memory: &mut P,
    index: &FileIndex,
    page: u64,
    run: Run,
    change: &NewBytes,
) -> Result<(), Stopped>
    requires mapped { LieInside (P.region memory.old) index.now }
    requires inside { (b : ℕ) → InRun run b → b * 4096 + 4096 ≤ size (P.region memory.old) }
    requires apart { (p b : ℕ) → block_at index.now p ≡ Some b → InRun run b → ⊥ }
    requires pages { page + run.count ≤ 2 ^ 32 }
    requires small { change.now.offset + length (data_bytes change.now.content) ≤ 2 ^ 62 }
    ensures stored { OnOk result ((k : ℕ) → k < run.count
        → HoldsPage (P.region memory.new) (byte_after change.now.offset (data_bytes change.now.content) change.now.size (file_byte (P.region memory.old) index.now)) (run.start + k) (page + k)) }
    ensures wrote { StoresOnly (InBlocks (InRun run)) (P.region memory.old) (P.region memory.new) (P.may_hold memory.old) (P.may_hold memory.new) }
    ensures stopped { (P.fuse memory.old).has_burnt ≡ false → is_err result ≡ (P.fuse memory.new).has_burnt }
    ensures keeps_fuse { KeepsFuse (λ limit. size (P.region memory.old) ≤ limit) (P.fuse memory.old) (P.fuse memory.new) }
{
    let _length = memory.len();
    for k in 0..run.count {
        store_page(memory, index.get(page + k), run.start + k, page + k, change)?;
    }
    Ok(())
}

/// Stores a page of a file into a block: what stands in the page's block, with the new bytes.
///
/// With no new bytes it is a copy, zeros past the size. `Stopped` exactly where the fuse has burnt; some of the words may
/// be stored then.
pub fn store_page<P: Pmem>(
    memory: &mut P,
    from: Option<u64>,
    to: u64,
    page: u64,
    change: &NewBytes,
) -> Result<(), Stopped>
    requires from { IfSome from (λ b. b * 4096 + 4096 ≤ size (P.region memory.old)) }
    requires apart { IfSome from (λ b. b ≢ to) }
    requires to { to * 4096 + 4096 ≤ size (P.region memory.old) }
    requires page { page < 2 ^ 32 }
    requires small { change.now.offset + length (data_bytes change.now.content) ≤ 2 ^ 62 }
    ensures stored { OnOk result (HoldsPage (P.region memory.new) (byte_after change.now.offset (data_bytes change.now.content) change.now.size (byte_in (P.region memory.old) from)) to page) }
    ensures wrote { StoresOnly (InBlocks (λ b. b ≡ to)) (P.region memory.old) (P.region memory.new) (P.may_hold memory.old) (P.may_hold memory.new) }
    ensures stopped { is_err result ≡ (P.fuse memory.new).has_burnt }
    ensures keeps_fuse { KeepsFuse (λ limit. to * 4096 + 4096 ≤ limit) (P.fuse memory.old) (P.fuse memory.new) }
{
    let stored = store_any_page(memory, from, to, page, change);
    // A stop can't come where no fuse is set, and a long row of pages would be kept for it.
    memory.forget_if_steady();
    stored
}

/// Stores a page, and goes on keeping what stood in the block.
fn store_any_page<P: Pmem>(
    memory: &mut P,
    from: Option<u64>,
    to: u64,
    page: u64,
    change: &NewBytes,
) -> Result<(), Stopped>
    requires from { IfSome from (λ b. b * 4096 + 4096 ≤ size (P.region memory.old)) }
    requires apart { IfSome from (λ b. b ≢ to) }
    requires to { to * 4096 + 4096 ≤ size (P.region memory.old) }
    requires page { page < 2 ^ 32 }
    requires small { change.now.offset + length (data_bytes change.now.content) ≤ 2 ^ 62 }
    ensures stored { OnOk result (HoldsPage (P.region memory.new) (byte_after change.now.offset (data_bytes change.now.content) change.now.size (byte_in (P.region memory.old) from)) to page) }
    ensures wrote { StoresOnly (InBlocks (λ b. b ≡ to)) (P.region memory.old) (P.region memory.new) (P.may_hold memory.old) (P.may_hold memory.new) }
    ensures stopped { is_err result ≡ (P.fuse memory.new).has_burnt }
    ensures keeps_fuse { KeepsFuse (λ limit. to * 4096 + 4096 ≤ limit) (P.fuse memory.old) (P.fuse memory.new) }
{
    if change.covers(page * BLOCK_SIZE, BLOCK_SIZE) {
        store_new_page(memory, to, page, change)
    } else {
        store_mixed_page(memory, from, to, page, change)
    }
}

/// Stores a page that is all of new bytes into a block.
fn store_new_page<P: Pmem>(
    memory: &mut P,
    to: u64,
    page: u64,
    change: &NewBytes,
) -> Result<(), Stopped>
    requires to { to * 4096 + 4096 ≤ size (P.region memory.old) }
    requires page { page < 2 ^ 32 }
    requires from { change.now.offset ≤ page * 4096 }
    requires covered { page * 4096 + 4096 ≤ change.now.offset + length (data_bytes change.now.content) }
    ensures stored { (old : ℕ → ℕ) → OnOk result (HoldsPage (P.region memory.new) (byte_after change.now.offset (data_bytes change.now.content) change.now.size old) to page) }
    ensures wrote { StoresOnly (InBlocks (λ b. b ≡ to)) (P.region memory.old) (P.region memory.new) (P.may_hold memory.old) (P.may_hold memory.new) }
    ensures stopped { is_err result ≡ (P.fuse memory.new).has_burnt }
    ensures keeps_fuse { KeepsFuse (λ limit. to * 4096 + 4096 ≤ limit) (P.fuse memory.old) (P.fuse memory.new) }
{
    let _length = memory.len();
    let mut words = [0; WORDS_IN_PAGE];
    change.read(page * BLOCK_SIZE, &mut words);
    memory.store_words(to * BLOCK_SIZE, &words)
}

/// Stores any page into a block, line by line.
fn store_mixed_page<P: Pmem>(
    memory: &mut P,
    from: Option<u64>,
    to: u64,
    page: u64,
    change: &NewBytes,
) -> Result<(), Stopped>
    requires from { IfSome from (λ b. b * 4096 + 4096 ≤ size (P.region memory.old)) }
    requires apart { IfSome from (λ b. b ≢ to) }
    requires to { to * 4096 + 4096 ≤ size (P.region memory.old) }
    requires page { page < 2 ^ 32 }
    requires small { change.now.offset + length (data_bytes change.now.content) ≤ 2 ^ 62 }
    ensures stored { OnOk result (HoldsPage (P.region memory.new) (byte_after change.now.offset (data_bytes change.now.content) change.now.size (byte_in (P.region memory.old) from)) to page) }
    ensures wrote { StoresOnly (InBlocks (λ b. b ≡ to)) (P.region memory.old) (P.region memory.new) (P.may_hold memory.old) (P.may_hold memory.new) }
    ensures stopped { is_err result ≡ (P.fuse memory.new).has_burnt }
    ensures keeps_fuse { KeepsFuse (λ limit. to * 4096 + 4096 ≤ limit) (P.fuse memory.old) (P.fuse memory.new) }
{
    let _length = memory.len();
    for k in 0..LINES_IN_PAGE {
        let line = next_line(memory, from, page * BLOCK_SIZE + LINE_SIZE * k, change);
        memory.store_words(to * BLOCK_SIZE + LINE_SIZE * k, &line)?;
    }
    Ok(())
}

/// The words of the line that a file has from byte `x` on with the new bytes.
fn next_line<P: Pmem>(memory: &P, block: Option<u64>, x: u64, change: &NewBytes) -> [u64; 8]
    requires inside { IfSome block (λ b. b * 4096 + 4096 ≤ size (P.region memory.now)) }
    requires whole { x % 8 ≡ 0 }
    requires place { x + 64 ≤ 2 ^ 62 }
    requires small { change.now.offset + length (data_bytes change.now.content) ≤ 2 ^ 62 }
    ensures { (j k : ℕ) → j < 8 → k < 8
        → byte_of_word (get_or result j 0) k ≡ byte_after change.now.offset (data_bytes change.now.content) change.now.size (byte_in (P.region memory.now) block) (x + 8 * j + k) }
{
    if change.covers(x, LINE_SIZE) {
        change.line(x)
    } else {
        mixed_line(memory, block, x, change)
    }
}

/// The same, word by word.
fn mixed_line<P: Pmem>(memory: &P, block: Option<u64>, x: u64, change: &NewBytes) -> [u64; 8]
    requires inside { IfSome block (λ b. b * 4096 + 4096 ≤ size (P.region memory.now)) }
    requires whole { x % 8 ≡ 0 }
    requires place { x + 64 ≤ 2 ^ 62 }
    requires small { change.now.offset + length (data_bytes change.now.content) ≤ 2 ^ 62 }
    ensures { (j k : ℕ) → j < 8 → k < 8
        → byte_of_word (get_or result j 0) k ≡ byte_after change.now.offset (data_bytes change.now.content) change.now.size (byte_in (P.region memory.now) block) (x + 8 * j + k) }
{
    let mut line = [0; 8];
    for j in 0..8 {
        line[j] = next_word(memory, block, x + 8 * j as u64, change);
    }
    line
}

/// The word that a file has from byte `x` on with the new bytes.
fn next_word<P: Pmem>(memory: &P, block: Option<u64>, x: u64, change: &NewBytes) -> u64
    requires inside { IfSome block (λ b. b * 4096 + 4096 ≤ size (P.region memory.now)) }
    requires whole { x % 8 ≡ 0 }
    requires place { x + 8 ≤ 2 ^ 62 }
    requires small { change.now.offset + length (data_bytes change.now.content) ≤ 2 ^ 62 }
    ensures { (k : ℕ) → k < 8 → byte_of_word result k ≡ byte_after change.now.offset (data_bytes change.now.content) change.now.size (byte_in (P.region memory.now) block) (x + k) }
{
    if change.covers(x, 8) {
        return change.whole(x);
    }
    let old = word_at(memory, block, x);
    if change.leaves(x) {
        old
    } else {
        change.patched(x, old)
    }
}
