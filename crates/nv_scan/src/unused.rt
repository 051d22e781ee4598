//! Blocks of chains none of whose slots is in use. The chains of many tables may lead through one block, and it is a block of
//! slots of each then: so it is kept in mind, and looked at once.

ghost use Rattle.std.specs.Prelude.{◌≡◌, ◌≤◌, ◌<◌, ◌+◌, ◌*◌, ◌/◌, ◌%◌, ◌^◌, IfOk, IsTrue, length, replicate, take};
ghost use Rattle.std.specs.List.{Contains};
ghost use Rattle.nv_blockset.specs.BlockSet.{is_set, words_for};
ghost use Rattle.nv_region.specs.Region.{HasBlocks, size};
ghost use Rattle.nv_inode.specs.Chains.{IsLaid};
ghost use Rattle.nv_inode.specs.SlotBlocks.{slot_blocks};
ghost use Rattle.nv_scan.specs.Tickets.{ticket_count, numbers_of, numbers_to};
ghost use Rattle.nv_scan.specs.Unused.{HasNoWord, IsUnused, KnowsUnused};
ghost use Rattle.nv_scan.specs.Work.{AreNext, claims_among};
ghost use Rattle.nv_scan.specs.declared.inodes.Inodes.{Inodes as InodesValue};

use crate::chain_block::chain_block_at;
use crate::claims::Claims;
use crate::inodes::Inodes;
use crate::scan::Scanner;
use crate::working::scan_block;
use nv_blockset::{contains, insert, words_for};
use nv_inode::{SlotBlock, Tables};
use nv_region::Pmem;
use nv_super::{BLOCK_SIZE, EXTRA_SLOTS, SLOT_SIZE};
use std::alloc::{AllocError, Global};
use std::marker::Model;

/// Blocks of chains of which it was seen that none of their slots is in use. Contracts see the set as its words.
#[derive(Drop)]
pub struct UnusedBlocks {
    words: Vec<u64>,
}

impl Model for UnusedBlocks {
    ghost use Rattle.std.specs.Prelude.{ℕ, List};

    ghost Value = { List ℕ };

    ghost view = { λ u. u.words.items };
}

impl UnusedBlocks {
    /// None of a region of so many blocks yet. It takes a bit for each.
    ///
    /// Errors: `AllocError` where its memory was refused.
    pub fn new(alloc: Global, blocks: u64) -> Result<UnusedBlocks, AllocError>
        ensures { IfOk result (λ unused. unused ≡ replicate (words_for blocks) 0) }
    {
        Ok(UnusedBlocks {
            words: vec![in alloc; 0u64; words_for(blocks)]?,
        })
    }

    /// Whether a block of slots is one of a chain, and none of its slots is in use. The slots of each such block are looked at
    /// once.
    fn sees<P: Pmem>(&mut self, memory: &P, block: &SlotBlock) -> bool
        requires known { KnowsUnused (P.region memory.now) self.old }
        requires whole { block.now.start % 128 ≡ 0 }
        requires inside { block.now.start + 128 * block.now.slots ≤ size (P.region memory.now) }
        requires small { block.now.start + 128 * block.now.slots < 2 ^ 64 }
        requires room { block.now.slots ≡ 31 → block.now.start / 4096 < 64 * length self.old }
        ensures known { KnowsUnused (P.region memory.now) self.new }
        ensures as_long { length self.new ≡ length self.old }
        ensures unused { IsTrue result → IsUnused (P.region memory.now) block.now }
        ensures kept { IsTrue result → IsTrue (is_set self.new (block.now.start / 4096)) }
    {
        // A table block has a slot more, and begins with a slot.
        if block.slots != EXTRA_SLOTS || block.start % BLOCK_SIZE != SLOT_SIZE {
            return false;
        }
        let number = block.start / BLOCK_SIZE;
        if contains(&self.words, number) {
            return true;
        }
        if !has_no_word(memory, block) {
            return false;
        }
        insert(&mut self.words, number);
        true
    }
}

/// Whether the valid word of each slot of a block is 0.
fn has_no_word<P: Pmem>(memory: &P, block: &SlotBlock) -> bool
    requires whole { block.now.start % 128 ≡ 0 }
    requires inside { block.now.start + 128 * block.now.slots ≤ size (P.region memory.now) }
    requires small { block.now.start + 128 * block.now.slots < 2 ^ 64 }
    ensures { IsTrue result → HasNoWord (P.region memory.now) block.now }
{
    for slot in 0..block.slots {
        if memory.load(block.start + SLOT_SIZE * slot) != 0 {
            return false;
        }
    }
    true
}

/// `scan_slots`, where a block of a chain none of whose slots is in use is read once, however many tables lead through it.
///
/// Errors: `AllocError` where a growth was refused.
pub fn scan_slots_once<P: Pmem>(
    memory: &P,
    tables: &Tables,
    scanner: &mut Scanner,
    inodes: &mut Inodes,
    each: &mut Vec<Claims>,
    unused: &mut UnusedBlocks,
    ticket: u64,
) -> Result<usize, AllocError>
    requires tables { tables.now.layout.sup ≡ scanner.old }
    requires blocks { HasBlocks (P.region memory.now) tables.now.layout.sup.blocks }
    requires ticket { ticket < ticket_count tables.now.layout }
    requires room { length each.old.items ≡ 32 }
    requires known { KnowsUnused (P.region memory.now) unused.old }
    requires set { tables.now.layout.sup.blocks ≤ 64 * length unused.old }
    ensures scanner { scanner.new ≡ scanner.old }
    ensures room { length each.new.items ≡ 32 }
    ensures count { IfOk result (λ count. count ≤ 32) }
    ensures next { IfOk result (λ count. AreNext (P.region memory.now) tables.now.layout (numbers_of tables.now.layout ticket) inodes.old inodes.new (claims_among (take count each.new.items))) }
    ensures known { KnowsUnused (P.region memory.now) unused.new }
    ensures set { length unused.new ≡ length unused.old }
{
    tables.are_laid();
    let block = tables.slot_block(ticket);
    if unused.sees(memory, &block) {
        return Ok(tell_unused(memory, tables, each, &block));
    }
    scanner.touch(memory, &block);
    scan_block(memory, tables, scanner, inodes, each, &block)
}

/// Tells of a block of a chain none of whose slots is in use: it is claimed itself, and that is all. It isn't read.
fn tell_unused<P: Pmem>(
    _memory: &P,
    tables: &Tables,
    each: &mut Vec<Claims>,
    block: &SlotBlock,
) -> usize
    requires laid { IsLaid tables.now.layout }
    requires block { Contains (slot_blocks tables.now.layout) block.now }
    requires unused { IsUnused (P.region _memory.now) block.now }
    requires room { length each.old.items ≡ 32 }
    ensures room { length each.new.items ≡ 32 }
    ensures count { result ≡ 1 }
    ensures next { (kept : InodesValue) → AreNext (P.region _memory.now) tables.now.layout (numbers_to tables.now.layout block.now block.now.slots) kept kept
        (claims_among (take result each.new.items)) }
{
    each[0].begin(chain_block_at(tables.sup(), block.first, block.start));
    1
}
