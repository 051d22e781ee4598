//! Blocks that are given back to the free lists: runs, blocks one by one, those of a file's pages, and all of a row. It takes no
//! memory.

ghost use Rattle.std.specs.Prelude.{◌≡◌, ◌<◌, ◌≤◌, ◌+◌, ◌-◌, length, IfSome};
ghost use Rattle.std.specs.Int.{div_ceil};
ghost use Rattle.nv_alloc.specs.FreeLists.{CanJoin, JoinAll};
ghost use Rattle.nv_alloc.specs.Taking.{block_run};
ghost use Rattle.nv_steps.specs.Given.{GivesBlock, GivesPages, MapsOwn};
ghost use Rattle.nv_steps.specs.LessNames.{AreOwn, GivesBlocks, GivesRow, OwnsBlocks};
ghost use Rattle.nv_steps.specs.Writes.{CanGive};

use nv_alloc::Allocators;
use nv_radix::FileIndex;
use nv_scan::Row;
use nv_super::{BLOCK_SIZE, Run};

/// Gives blocks back, run by run.
pub(crate) fn give_all(free: &mut Allocators, runs: &[Run])
    requires can { CanGive free.old runs.now }
    requires room { length runs.now ≤ free.old.room }
    ensures given { JoinAll free.old runs.now free.new }
    ensures lists { free.new.sup ≡ free.old.sup }
    ensures room { free.old.room ≤ free.new.room + length runs.now }
{
    for run in runs {
        free.give(*run);
    }
}

/// Gives back the blocks of a row's log and of its pages, for which there is room.
pub fn give_row(free: &mut Allocators, row: &Row)
    requires own { OwnsBlocks free.old row.now }
    requires room { length row.now.pages.items + div_ceil row.now.numbers.size 4096 ≤ free.old.room }
    ensures given { GivesRow free.old row.now free.new }
    ensures lists { free.new.sup ≡ free.old.sup }
{
    give_blocks(free, &row.pages);
    give_pages(free, &row.index, 0, row.numbers.size.div_ceil(BLOCK_SIZE));
}

/// Gives back the blocks that an index has for the pages from one up to another, for which there is room.
pub(crate) fn give_pages(free: &mut Allocators, index: &FileIndex, first: u64, end: u64)
    requires own { MapsOwn free.old index.now }
    requires room { end - first ≤ free.old.room }
    ensures given { GivesPages free.old index.now first end free.new }
    ensures lists { free.new.sup ≡ free.old.sup }
{
    for page in first..end {
        give_block(free, index.get(page));
    }
}

/// Gives back blocks, each by itself, for which there is room.
fn give_blocks(free: &mut Allocators, blocks: &[u64])
    requires own { AreOwn free.old blocks.now }
    requires room { length blocks.now ≤ free.old.room }
    ensures given { GivesBlocks free.old blocks.now free.new }
    ensures lists { free.new.sup ≡ free.old.sup }
    ensures room { free.old.room ≤ free.new.room + length blocks.now }
{
    for block in blocks {
        give_block(free, Some(*block));
    }
}

/// Gives back a block, if there is one.
pub(crate) fn give_block(free: &mut Allocators, block: Option<u64>)
    requires can { IfSome block (λ b. CanJoin free.old (block_run b)) }
    requires room { 0 < free.old.room }
    ensures given { GivesBlock free.old block free.new }
    ensures lists { free.new.sup ≡ free.old.sup }
    ensures room { free.old.room ≤ free.new.room + 1 }
{
    if let Some(start) = block {
        free.give(Run { start, count: 1 });
    }
}
