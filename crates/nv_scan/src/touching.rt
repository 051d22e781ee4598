//! Touching the logs of the inodes that are scanned next, so that their first words come from the memory at once, and not
//! one after another as each is read. What is loaded here says nothing: it is handed on so that the loads are made.

ghost use Rattle.nv_region.specs.Region.{HasBlocks};
ghost use Rattle.nv_super.specs.Layout.{IsLayout};
ghost use Rattle.nv_inode.specs.SlotBlocks.{IsSmallBlock};

use crate::tickets::SLOTS;
use nv_inode::SlotBlock;
use nv_region::Pmem;
use nv_super::{SLOT_SIZE, Super};

// The memory hands over so many bytes at once.
const LINE_SIZE: u64 = 64;

// The offset in a slot of the word that says where its log begins.
const HEAD: u64 = 16;

/// The logs of the inodes whose slots stand in a block of slots. First it is seen where all of them begin, so that the
/// loads of their words, which wait for nothing then, are under way together. The slot of number 0 is never read.
pub(crate) fn touch_block<P: Pmem>(memory: &P, sup: &Super, block: &SlotBlock) -> u64
    requires layout { IsLayout sup.now }
    requires blocks { HasBlocks (P.region memory.now) sup.now.blocks }
    requires block { IsSmallBlock sup.now block.now }
{
    let mut heads = [0; SLOTS as usize];
    let some = if block.first == 0 { 1 } else { 0 };
    let mut any = 0;
    for slot in some..block.slots {
        let head = memory.load(block.start + SLOT_SIZE * slot + HEAD);
        heads[slot as usize] = head;
        any |= head;
    }
    if any == 0 {
        return 0;
    }
    let mut words = 0;
    for head in heads {
        words ^= first_lines(memory, sup, head);
    }
    words
}

/// A word of each of the first two lines of a log, if a page begins there. Few logs of small files go on behind these.
fn first_lines<P: Pmem>(memory: &P, sup: &Super, head: u64) -> u64
    requires layout { IsLayout sup.now }
    requires blocks { HasBlocks (P.region memory.now) sup.now.blocks }
{
    if sup.is_page_start(head) {
        memory.load(head) ^ memory.load(head + LINE_SIZE)
    } else {
        0
    }
}
