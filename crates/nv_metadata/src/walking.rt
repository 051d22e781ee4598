//! The pages of logs, fetched one after another as the links lead to them.

ghost use Rattle.std.specs.Prelude.{◌≡◌, ◌≢◌, ◌≤◌, ◌<◌, ◌/◌, ◌%◌, ◌*◌, ℕ, List, Some, IfErr, OnOk, IfSome, IfNone, IsTrue, true, false, eqb, length};
ghost use Rattle.std.specs.List.{Contains, list_any};
ghost use Rattle.nv_region.specs.Region.{region_of};
ghost use Rattle.nv_super.specs.Layout.{HasAreas, is_page_start};
ghost use Rattle.nv_inode.specs.Slot.{is_right_log};
ghost use Rattle.nv_metadata.specs.Linked.{link_in, wanted};
ghost use Rattle.nv_metadata.specs.Memory.{CanHold, SameFront, Shows};
ghost use Rattle.nv_metadata.specs.Holding.{CanFetch, CanFollow, HoldsMore};
ghost use Rattle.nv_metadata.specs.Walk.{IsFetched, AreFetched};
ghost use Rattle.nv_metadata.specs.declared.logs.LogEnds.{LogEnds as LogEndsValue};

use crate::blocks::Blocks;
use crate::errors::GatherError;
use crate::logs::LogEnds;
use crate::memory::MetadataRegion;
use nv_blockset::BlockList;
use nv_inode::LINK;
use nv_region::Pmem;
use nv_super::{BLOCK_SIZE, Super};
use std::alloc::Global;

const PAGE: usize = 4096;

// The bytes of the longest entry: three words, and those of a name of 255 bytes.
const LONGEST_ENTRY: usize = 280;

/// Fetches the pages of these logs up to their tails. The head and the tail of each are right.
///
/// Errors: `Read` where a block can't be read, and `Memory` where a growth was refused.
pub(crate) fn fetch_logs<B: Blocks>(
    alloc: Global,
    memory: &mut MetadataRegion,
    source: &B,
    sup: &Super,
    logs: &[LogEnds],
) -> Result<(), GatherError>
    requires areas { HasAreas sup.now }
    requires can { CanHold sup.now memory.old }
    requires right { (log : LogEndsValue) → Contains logs.now log → IsTrue (is_right_log sup.now log.head log.tail) }
    ensures can { CanHold sup.now memory.new }
    ensures front { SameFront memory.old memory.new }
    ensures fetched { (image : List ℕ) → B.bytes source.now ≡ Some image → Shows (region_of image) memory.old → OnOk result (AreFetched sup.now (region_of image) logs.now memory.old memory.new) }
    ensures known { (image : List ℕ) → B.bytes source.now ≡ Some image → length image ≡ 4096 * sup.now.blocks → IfErr result (λ e. e ≡ GatherError.Memory) }
{
    let mut walked = BlockList::new(alloc, sup.blocks)?;
    let mut room = [0; PAGE];
    for log in logs {
        fetch_log(memory, source, sup, *log, &mut walked, &mut room)?;
    }
    Ok(())
}

// Fetches the pages of a log from its head's on, until that of its tail, or until a link isn't right or leads to a page of it.
// Of the tail's page no more is fetched than is read of it. Pages are read into the room, which is cleared once for all logs.
fn fetch_log<B: Blocks>(
    memory: &mut MetadataRegion,
    source: &B,
    sup: &Super,
    log: LogEnds,
    walked: &mut BlockList,
    room: &mut [u8],
) -> Result<(), GatherError>
    requires log { CanFollow sup.now memory.old log.head log.tail }
    requires all_blocks { walked.old.bound ≡ sup.now.blocks }
    requires room { length room.old ≡ 4096 }
    ensures can { CanHold sup.now memory.new }
    ensures front { SameFront memory.old memory.new }
    ensures all_blocks { walked.new.bound ≡ sup.now.blocks }
    ensures room { length room.new ≡ 4096 }
    ensures fetched { (image : List ℕ) → B.bytes source.now ≡ Some image → Shows (region_of image) memory.old
        → OnOk result (IsFetched sup.now (region_of image) log.head log.tail memory.old memory.new) }
    ensures known { (image : List ℕ) → B.bytes source.now ≡ Some image → length image ≡ 4096 * sup.now.blocks → IfErr result (λ e. e ≡ GatherError.Memory) }
{
    let mut block = log.head / BLOCK_SIZE;
    walked.restart(block);
    'pages: loop {
        fetch(
            memory,
            source,
            sup,
            block,
            &mut room[..wanted(log.tail, block)],
        )?;
        match next_page(memory, sup, log.tail, walked, block) {
            Some(next) => {
                walked.push(next)?;
                block = next;
            }
            None => return Ok(()),
        }
    }
}

// Where the page in a block leads: to a data block that wasn't walked to, and nowhere from the page of the tail.
fn next_page(
    memory: &MetadataRegion,
    sup: &Super,
    tail: u64,
    walked: &BlockList,
    block: u64,
) -> Option<u64>
    requires areas { HasAreas sup.now }
    requires can { CanHold sup.now memory.now }
    requires inside { block < sup.now.blocks }
    requires all_blocks { walked.now.bound ≡ sup.now.blocks }
    ensures apart { IfSome result (λ _. block ≢ tail / 4096) }
    ensures start { IfSome result (λ _. is_page_start sup.now (link_in memory.now.memory.region block) ≡ true) }
    ensures next { IfSome result (λ next. next ≡ link_in memory.now.memory.region block / 4096) }
    ensures fresh { IfSome result (λ next. list_any (eqb next) walked.now.blocks ≡ false) }
    ensures none { IfNone result (block ≢ tail / 4096 → is_page_start sup.now (link_in memory.now.memory.region block) ≡ true
        → Contains walked.now.blocks (link_in memory.now.memory.region block / 4096)) }
{
    if block == tail / BLOCK_SIZE {
        return None;
    }
    let next = memory.load(BLOCK_SIZE * block + LINK);
    if !sup.is_page_start(next) {
        return None;
    }
    if walked.contains(next / BLOCK_SIZE) {
        return None;
    }
    Some(next / BLOCK_SIZE)
}

// How many bytes of a block are wanted of a log with this tail: none behind where an entry ends at most that begins before it.
fn wanted(tail: u64, block: u64) -> usize
    ensures wanted { result ≡ wanted tail block }
    ensures some { result ≤ 4096 }
{
    if block != tail / BLOCK_SIZE {
        return PAGE;
    }
    PAGE.min((tail % BLOCK_SIZE) as usize + LONGEST_ENTRY)
}

// Reads as many bytes of a data block as there is room for, if no more are held.
fn fetch<B: Blocks>(
    memory: &mut MetadataRegion,
    source: &B,
    sup: &Super,
    block: u64,
    room: &mut [u8],
) -> Result<(), GatherError>
    requires can { CanFetch sup.now memory.old block (length room.old) }
    ensures can { CanHold sup.now memory.new }
    ensures front { SameFront memory.old memory.new }
    ensures more { OnOk result (HoldsMore memory.old block (length room.old) memory.new) }
    ensures room { length room.new ≡ length room.old }
    ensures shows { (image : List ℕ) → B.bytes source.now ≡ Some image → Shows (region_of image) memory.old → OnOk result (Shows (region_of image) memory.new) }
    ensures known { (image : List ℕ) → B.bytes source.now ≡ Some image → length image ≡ 4096 * sup.now.blocks → IfErr result (λ e. e ≡ GatherError.Memory) }
{
    if memory.held(block) >= room.len() {
        return Ok(());
    }
    source.read(BLOCK_SIZE * block, room)?;
    memory.hold(block, room)?;
    Ok(())
}
