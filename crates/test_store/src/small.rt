//! A small region, in which the journal is block 1, the table block 2, and the data blocks are 3 to 15. The slot of
//! inode `i` begins at `8192 + 128 * i`.

ghost use Rattle.std.specs.Prelude.{◌≡◌, ◌+◌, ◌%◌, ◌≤◌, length, true};
ghost use Rattle.nv_region.specs.Region.{HasBlocks, size};

use crate::checks::check_at;
use nv_region::{MemRegion, Pmem};
use nv_super::Super;
use std::alloc::Global;
use std::process::Abort;

/// One CPU, 16 blocks, one table block.
pub const SMALL: Super = Super {
    version: 1,
    cpus: 1,
    blocks: 16,
    table_blocks: 1,
    state: 0,
};

/// A word at its address.
pub type Word = (u64, u64);

/// So many blocks of zeros.
pub fn new_region(rt: &impl Abort, alloc: Global, blocks: u64) -> MemRegion
    ensures { HasBlocks result.region blocks }
{
    match MemRegion::new(alloc, blocks) {
        Ok(memory) => memory,
        Err(_) => rt.panic("no region of so many blocks"),
    }
}

/// A region of these bytes.
pub fn region_of(rt: &impl Abort, alloc: Global, bytes: &[u8]) -> MemRegion
    ensures { size result.region ≡ length bytes.now }
{
    match MemRegion::from_bytes(alloc, bytes) {
        Ok(memory) => memory,
        Err(_) => rt.panic("no region of these bytes"),
    }
}

/// Sixteen blocks of zeros but for these words.
pub fn small_region(rt: &impl Abort, alloc: Global, words: &[Word]) -> MemRegion
    ensures { HasBlocks result.region 16 }
{
    let mut memory = new_region(rt, alloc, 16);
    for (at, word) in words {
        if *at % 8 == 0 && *at < 65536 {
            let _unstopped = memory.store(*at, *word);
        }
    }
    memory
}

/// Whether a word lies at a byte address.
pub fn is_place<P: Pmem>(memory: &P, at: u64) -> bool
    ensures { result ≡ true → (at % 8 ≡ 0) × (at + 8 ≤ size (P.region memory.now)) }
{
    let length = memory.len();
    at % 8 == 0 && length >= 8 && at <= length - 8
}

/// The word at a byte address, where there is one.
pub fn word_at<P: Pmem>(memory: &P, at: u64) -> Option<u64> {
    if is_place(memory, at) {
        Some(memory.load(at))
    } else {
        None
    }
}

/// The region holds these words.
pub fn assert_words<P: Pmem>(rt: &impl Abort, memory: &P, words: &[Word]) {
    for (at, word) in words {
        check_at(rt, word_at(memory, *at) == Some(*word), "a word", *at);
    }
}
