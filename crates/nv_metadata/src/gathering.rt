//! The metadata of an image, gathered by a reader of its bytes.
//!
//! First the superblock is read, and then all blocks in front of the data blocks in one read, or in four at once. Rolled back, they
//! say where logs begin and end. From each head on the links lead to the pages, which are read once by each thread, that of the tail up to it.
//!
//! In version 2 slots may stand in each block, so all blocks are read so, and no log is looked for.

ghost use Rattle.std.specs.Prelude.{◌≡◌, ◌≤◌, ◌+◌, ◌*◌, ◌^◌, ℕ, List, Some, IfOk, IfErr, OnOk, IsTrue, false, length, take};
ghost use Rattle.std.specs.List.{Contains};
ghost use Rattle.nv_region.specs.Region.{HasBlocks, region_of};
ghost use Rattle.nv_super.specs.Layout.{IsLayout, most_blocks, system_blocks};
ghost use Rattle.nv_super.specs.Super.{IsSuper};
ghost use Rattle.nv_inode.specs.Slot.{is_right_log};
ghost use Rattle.nv_journal.specs.Undo.{undone};
ghost use Rattle.nv_journal.specs.Undone.{AllQuiet};
ghost use Rattle.nv_metadata.specs.Blocks.{AreBytesAt};
ghost use Rattle.nv_metadata.specs.Fronts.{IsFrontOf, IsSoundFront, IsWhole};
ghost use Rattle.nv_metadata.specs.Gathered.{AreGathered, IsGathered, IsOpen, SaysSuper};
ghost use Rattle.nv_metadata.specs.Memory.{IsReady};
ghost use Rattle.nv_metadata.specs.Walk.{AreLogs};
ghost use Rattle.nv_metadata.specs.declared.logs.LogEnds.{LogEnds as LogEndsValue};

use crate::blocks::Blocks;
use crate::errors::GatherError;
use crate::front::FrontRegion;
use crate::halved::read_quarters;
use crate::logs::{LogEnds, right_logs, right_logs_on};
use crate::memory::MetadataRegion;
use crate::parts::{fetch_alone, fetch_apart};
use nv_journal::undo;
use nv_region::Pmem;
use nv_super::{BLOCK_SIZE, LEAST_BLOCKS, MOST_BLOCKS, Super, SuperFault, WITH_CHAINS, read_super};
use std::alloc::{AllocError, Global};
use std::thread::Threads;

// More threads than these wait for one another, and each holds tables with a place for every block.
const MOST_THREADS: u64 = 8;

// Fewer logs than these are read sooner than another thread's tables are made.
const FEW_LOGS: usize = 1024;

// The system's large pages have so many bytes.
const LARGE_PAGE: u64 = 2_097_152;

// Where the enqueue number of a journal stands, in bytes from its start. The dequeue number is its first word.
const ENQUEUE: u64 = 8;

/// What was read of an image.
#[derive(Drop)]
pub enum Gathered {
    /// The superblock's numbers, and the region of the metadata as the image has them: nothing is rolled back in it.
    Metadata(Super, MetadataRegion),
    /// The first fault of the superblock, for which no more than the first block was read.
    Refused(SuperFault),
}

// The bytes of an image in which slots can stand.
#[derive(Drop)]
enum Front {
    // The superblock's numbers in version 1, and all bytes in front of the data blocks.
    Accepted(Super, Vec<u8>),
    // The superblock's numbers in version 2, and all bytes.
    Whole(Super, Vec<u8>),
    // The first fault of the superblock.
    Refused(SuperFault),
}

/// Reads the metadata of an image: the superblock, the journals, the tables and the pages of logs up to their tails. The region
/// that they make has zeros elsewhere, and takes stores in front of the data blocks. In version 2 slots may stand in each block:
/// then all blocks are read, and all take stores.
///
/// Where the bytes are known, that region has the same outcome as all of them, or the superblock is refused for the same fault.
///
/// Errors: `Read` where the length isn't told or bytes can't be read, which is never taken for an answer, nor ends a reading of
/// bytes that are known; `Memory` where a growth was refused.
pub fn gather<B: Blocks>(alloc: Global, source: &B) -> Result<Gathered, GatherError>
    ensures gathered { (image : List ℕ) → B.bytes source.now ≡ Some image → IfOk result (AreGathered (region_of image)) }
    ensures known { (image : List ℕ) → B.bytes source.now ≡ Some image → IfErr result (λ e. e ≡ GatherError.Memory) }
    ensures open { IfOk result IsOpen }
{
    match read_front(alloc, source)? {
        Front::Accepted(sup, front) => {
            let logs = logs_rolled_back(alloc, &sup, &front)?;
            let memory = fetch_alone(alloc, source, &sup, front, &logs)?;
            Ok(Gathered::Metadata(sup, memory))
        }
        Front::Whole(sup, bytes) => {
            let memory = hold_whole(alloc, &sup, bytes)?;
            Ok(Gathered::Metadata(sup, memory))
        }
        Front::Refused(fault) => Ok(Gathered::Refused(fault)),
    }
}

/// `gather`, where so many threads read the pages of logs: eight at most, and one where the logs are few. What is gathered is
/// the same.
///
/// Errors: those of `gather`.
pub fn gather_on<B: Blocks + Sync, H: Threads + Sync>(
    rt: &H,
    alloc: Global,
    source: &B,
    threads: u64,
) -> Result<Gathered, GatherError>
    ensures gathered { (image : List ℕ) → B.bytes source.now ≡ Some image → IfOk result (AreGathered (region_of image)) }
    ensures known { (image : List ℕ) → B.bytes source.now ≡ Some image → IfErr result (λ e. e ≡ GatherError.Memory) }
    ensures open { IfOk result IsOpen }
{
    if threads < 2 {
        return gather(alloc, source);
    }
    match read_front_on(rt, alloc, source)? {
        Front::Accepted(sup, front) => {
            let logs = logs_rolled_back_on(rt, alloc, &sup, &front, threads.min(MOST_THREADS))?;
            let threads = worth(threads, logs.len());
            let memory = fetch_apart(rt, alloc, source, &sup, front, &logs, threads)?;
            Ok(Gathered::Metadata(sup, memory))
        }
        Front::Whole(sup, bytes) => {
            let memory = hold_whole(alloc, &sup, bytes)?;
            Ok(Gathered::Metadata(sup, memory))
        }
        Front::Refused(fault) => Ok(Gathered::Refused(fault)),
    }
}

// How many of so many threads are worth their tables.
fn worth(threads: u64, logs: usize) -> u64 {
    if logs < FEW_LOGS {
        return 1;
    }
    threads.min(MOST_THREADS)
}

// The bytes of an image in which slots can stand, or the first fault of its superblock, for which no more than the first block
// is read.
fn read_front<B: Blocks>(alloc: Global, source: &B) -> Result<Front, GatherError>
    ensures read { (image : List ℕ) → B.bytes source.now ≡ Some image → IfOk result (IsFrontOf image) }
    ensures known { (image : List ℕ) → B.bytes source.now ≡ Some image → IfErr result (λ e. e ≡ GatherError.Memory) }
    ensures sound { IfOk result IsSoundFront }
{
    let length = source.len()?;
    let blocks = length / BLOCK_SIZE;
    if length % BLOCK_SIZE != 0 || blocks < LEAST_BLOCKS || blocks > MOST_BLOCKS {
        return Ok(Front::Refused(SuperFault::Length));
    }
    let first = read_bytes(alloc, source, 0, BLOCK_SIZE)?;
    let alone = FrontRegion::new(blocks, &first);
    match read_super(&alone) {
        Ok(sup) => read_accepted(alloc, source, sup, first),
        Err(fault) => Ok(Front::Refused(fault)),
    }
}

// The bytes in which slots can stand of an image with this superblock, of which the first block was read.
fn read_accepted<B: Blocks>(
    alloc: Global,
    source: &B,
    sup: Super,
    first: Vec<u8>,
) -> Result<Front, GatherError>
    requires layout { IsLayout sup }
    requires first { length first.items ≡ 4096 }
    requires says { SaysSuper first.items sup }
    ensures read { (image : List ℕ) → B.bytes source.now ≡ Some image → length image ≡ 4096 * sup.blocks → AreBytesAt image 0 first.items → IfOk result (IsFrontOf image) }
    ensures known { (image : List ℕ) → B.bytes source.now ≡ Some image → length image ≡ 4096 * sup.blocks → IfErr result (λ e. e ≡ GatherError.Memory) }
    ensures sound { IfOk result IsSoundFront }
{
    if sup.version == WITH_CHAINS {
        let bytes = read_rest(alloc, source, sup.blocks, first)?;
        return Ok(Front::Whole(sup, bytes));
    }
    let front = read_rest(alloc, source, sup.system_blocks(), first)?;
    Ok(Front::Accepted(sup, front))
}

// The bytes of so many blocks at the start, the first of which was read.
fn read_rest<B: Blocks>(
    alloc: Global,
    source: &B,
    blocks: u64,
    first: Vec<u8>,
) -> Result<Vec<u8>, GatherError>
    requires some { 1 ≤ blocks }
    requires few { blocks ≤ most_blocks }
    requires first { length first.items ≡ 4096 }
    ensures begins { IfOk result (λ front. take 4096 front.items ≡ first.items) }
    ensures count { IfOk result (λ front. length front.items ≡ 4096 * blocks) }
    ensures read { (image : List ℕ) → B.bytes source.now ≡ Some image → AreBytesAt image 0 first.items → IfOk result (λ front. AreBytesAt image 0 front.items) }
    ensures known { (image : List ℕ) → B.bytes source.now ≡ Some image → 4096 * blocks ≤ length image → IfErr result (λ e. e ≡ GatherError.Memory) }
{
    let mut front = with_room(alloc, &first, large_room(blocks * BLOCK_SIZE))?;
    front.resize((blocks * BLOCK_SIZE) as usize, 0)?;
    read_behind(source, &mut front)?;
    Ok(front)
}

// The bytes of the image behind the first block, where it was read before.
fn read_behind<B: Blocks>(source: &B, front: &mut [u8]) -> Result<(), GatherError>
    requires begins { 4096 ≤ length front.old }
    ensures begins { take 4096 front.new ≡ take 4096 front.old }
    ensures as_long { length front.new ≡ length front.old }
    ensures read { (image : List ℕ) → B.bytes source.now ≡ Some image → AreBytesAt image 0 (take 4096 front.old) → OnOk result (AreBytesAt image 0 front.new) }
    ensures known { (image : List ℕ) → B.bytes source.now ≡ Some image → length front.old ≤ length image → IfErr result (λ e. e ≡ GatherError.Memory) }
{
    source.read(BLOCK_SIZE, &mut front[BLOCK_SIZE as usize..])?;
    Ok(())
}

// `read_front` by four threads.
fn read_front_on<B: Blocks + Sync, H: Threads + Sync>(
    rt: &H,
    alloc: Global,
    source: &B,
) -> Result<Front, GatherError>
    ensures read { (image : List ℕ) → B.bytes source.now ≡ Some image → IfOk result (IsFrontOf image) }
    ensures known { (image : List ℕ) → B.bytes source.now ≡ Some image → IfErr result (λ e. e ≡ GatherError.Memory) }
    ensures sound { IfOk result IsSoundFront }
{
    let size = source.len()?;
    let blocks = size / BLOCK_SIZE;
    if size % BLOCK_SIZE != 0 || blocks < LEAST_BLOCKS || blocks > MOST_BLOCKS {
        return Ok(Front::Refused(SuperFault::Length));
    }
    let first = read_bytes(alloc, source, 0, BLOCK_SIZE)?;
    let alone = FrontRegion::new(blocks, &first);
    match read_super(&alone) {
        Ok(sup) => read_accepted_on(rt, alloc, source, sup, first),
        Err(fault) => Ok(Front::Refused(fault)),
    }
}

// `read_accepted` by four threads.
fn read_accepted_on<B: Blocks + Sync, H: Threads + Sync>(
    rt: &H,
    alloc: Global,
    source: &B,
    sup: Super,
    first: Vec<u8>,
) -> Result<Front, GatherError>
    requires layout { IsLayout sup }
    requires first { length first.items ≡ 4096 }
    requires says { SaysSuper first.items sup }
    ensures read { (image : List ℕ) → B.bytes source.now ≡ Some image → length image ≡ 4096 * sup.blocks → AreBytesAt image 0 first.items → IfOk result (IsFrontOf image) }
    ensures known { (image : List ℕ) → B.bytes source.now ≡ Some image → length image ≡ 4096 * sup.blocks → IfErr result (λ e. e ≡ GatherError.Memory) }
    ensures sound { IfOk result IsSoundFront }
{
    if sup.version == WITH_CHAINS {
        let bytes = read_rest_on(rt, alloc, source, sup.blocks, first)?;
        return Ok(Front::Whole(sup, bytes));
    }
    let system = read_rest_on(rt, alloc, source, sup.system_blocks(), first)?;
    Ok(Front::Accepted(sup, system))
}

// `read_rest` by four threads.
fn read_rest_on<B: Blocks + Sync, H: Threads + Sync>(
    rt: &H,
    alloc: Global,
    source: &B,
    blocks: u64,
    first: Vec<u8>,
) -> Result<Vec<u8>, GatherError>
    requires some { 1 ≤ blocks }
    requires few { blocks ≤ most_blocks }
    requires first { length first.items ≡ 4096 }
    ensures begins { IfOk result (λ front. take 4096 front.items ≡ first.items) }
    ensures count { IfOk result (λ front. length front.items ≡ 4096 * blocks) }
    ensures read { (image : List ℕ) → B.bytes source.now ≡ Some image → AreBytesAt image 0 first.items → IfOk result (λ front. AreBytesAt image 0 front.items) }
    ensures known { (image : List ℕ) → B.bytes source.now ≡ Some image → 4096 * blocks ≤ length image → IfErr result (λ e. e ≡ GatherError.Memory) }
{
    let mut front = with_room(alloc, &first, large_room(blocks * BLOCK_SIZE))?;
    front.resize((blocks * BLOCK_SIZE) as usize, 0)?;
    read_behind_on(rt, source, &mut front)?;
    Ok(front)
}

// `read_behind` by four threads.
fn read_behind_on<B: Blocks + Sync, H: Threads + Sync>(
    rt: &H,
    source: &B,
    front: &mut [u8],
) -> Result<(), GatherError>
    requires begins { 4096 ≤ length front.old }
    ensures begins { take 4096 front.new ≡ take 4096 front.old }
    ensures as_long { length front.new ≡ length front.old }
    ensures read { (image : List ℕ) → B.bytes source.now ≡ Some image → AreBytesAt image 0 (take 4096 front.old) → OnOk result (AreBytesAt image 0 front.new) }
    ensures known { (image : List ℕ) → B.bytes source.now ≡ Some image → length front.old ≤ length image → IfErr result (λ e. e ≡ GatherError.Memory) }
{
    read_quarters(rt, source, BLOCK_SIZE, &mut front[BLOCK_SIZE as usize..])?;
    Ok(())
}

// So much room that an allocator takes whole large pages for so many bytes, where these fill two of them: the system makes them
// ready sooner than many small ones.
fn large_room(bytes: u64) -> usize
    requires { bytes ≤ 2 ^ 33 }
{
    if bytes < 2 * LARGE_PAGE {
        return bytes as usize;
    }
    let pages = (bytes + BLOCK_SIZE + LARGE_PAGE - 1) / LARGE_PAGE;
    (pages * LARGE_PAGE - BLOCK_SIZE) as usize
}

// A copy of bytes, with room for so many at least.
fn with_room(alloc: Global, bytes: &[u8], room: usize) -> Result<Vec<u8>, AllocError>
    ensures { IfOk result (λ copy. copy.items ≡ bytes.now) }
{
    let mut copy = Vec::with_capacity(alloc, room)?;
    copy.extend_from_slice(bytes)?;
    Ok(copy)
}

// So many bytes of the image from one on.
fn read_bytes<B: Blocks>(
    alloc: Global,
    source: &B,
    at: u64,
    count: u64,
) -> Result<Vec<u8>, GatherError>
    requires { count ≤ 2 ^ 32 }
    ensures count { IfOk result (λ bytes. length bytes.items ≡ count) }
    ensures read { (image : List ℕ) → B.bytes source.now ≡ Some image → IfOk result (λ bytes. AreBytesAt image at bytes.items) }
    ensures known { (image : List ℕ) → B.bytes source.now ≡ Some image → at + count ≤ length image → IfErr result (λ e. e ≡ GatherError.Memory) }
{
    let mut bytes = vec![in alloc; 0; count as usize]?;
    source.read(at, &mut bytes)?;
    Ok(bytes)
}

// The memory of an image in version 2, with all of its bytes as the front.
fn hold_whole(alloc: Global, sup: &Super, bytes: Vec<u8>) -> Result<MetadataRegion, AllocError>
    requires layout { IsLayout sup.now }
    requires whole { IsWhole sup.now bytes.items }
    ensures gathered { (image : List ℕ) → length image ≡ 4096 * sup.now.blocks → AreBytesAt image 0 bytes.items
        → IfOk result (λ m. IsSuper (region_of image) sup.now × IsGathered sup.now (region_of image) m.memory.region) }
    ensures ready { IfOk result (IsReady sup.now) }
{
    let memory = MetadataRegion::of_front(alloc, sup.blocks, bytes, 0)?;
    Ok(memory)
}

// Where logs begin and end, once the journals in the blocks of the front are rolled back. Only where there may be something to
// roll back, the front is copied.
fn logs_rolled_back(alloc: Global, sup: &Super, front: &[u8]) -> Result<Vec<LogEnds>, GatherError>
    requires layout { IsLayout sup.now }
    requires version { sup.now.version ≡ 1 }
    requires front { length front.now ≡ 4096 * system_blocks sup.now }
    ensures logs { (image : List ℕ) → AreBytesAt image 0 front.now → length image ≡ 4096 * sup.now.blocks → IfOk result (λ logs. AreLogs (undone sup.now (region_of image)) sup.now logs.items) }
    ensures unread { IfErr result (λ e. e ≡ GatherError.Memory) }
    ensures right { IfOk result (λ logs. (log : LogEndsValue) → Contains logs.items log → IsTrue (is_right_log sup.now log.head log.tail)) }
{
    let memory = FrontRegion::new(sup.blocks, front);
    if may_be_pending(&memory, sup) {
        return logs_of_undone(alloc, sup, front);
    }
    Ok(right_logs(alloc, &memory, sup)?)
}

// The same, found by so many threads where there is nothing to roll back.
fn logs_rolled_back_on<H: Threads + Sync>(
    rt: &H,
    alloc: Global,
    sup: &Super,
    front: &[u8],
    threads: u64,
) -> Result<Vec<LogEnds>, GatherError>
    requires layout { IsLayout sup.now }
    requires version { sup.now.version ≡ 1 }
    requires front { length front.now ≡ 4096 * system_blocks sup.now }
    ensures logs { (image : List ℕ) → AreBytesAt image 0 front.now → length image ≡ 4096 * sup.now.blocks → IfOk result (λ logs. AreLogs (undone sup.now (region_of image)) sup.now logs.items) }
    ensures unread { IfErr result (λ e. e ≡ GatherError.Memory) }
    ensures right { IfOk result (λ logs. (log : LogEndsValue) → Contains logs.items log → IsTrue (is_right_log sup.now log.head log.tail)) }
{
    let memory = FrontRegion::new(sup.blocks, front);
    if may_be_pending(&memory, sup) {
        return logs_of_undone(alloc, sup, front);
    }
    Ok(right_logs_on(rt, alloc, &memory, sup, threads)?)
}

// Whether a journal may have something to roll back: its two numbers differ.
fn may_be_pending<P: Pmem>(memory: &P, sup: &Super) -> bool
    requires layout { IsLayout sup.now }
    requires blocks { HasBlocks (P.region memory.now) sup.now.blocks }
    ensures { result ≡ false → AllQuiet sup.now.cpus (P.region memory.now) }
{
    for cpu in 0..sup.cpus {
        let journal = BLOCK_SIZE * (1 + cpu);
        if memory.load(journal) != memory.load(journal + ENQUEUE) {
            return true;
        }
    }
    false
}

// Where logs begin and end, read from a copy of the front whose journals are rolled back.
fn logs_of_undone(alloc: Global, sup: &Super, front: &[u8]) -> Result<Vec<LogEnds>, GatherError>
    requires layout { IsLayout sup.now }
    requires version { sup.now.version ≡ 1 }
    requires front { length front.now ≡ 4096 * system_blocks sup.now }
    ensures logs { (image : List ℕ) → AreBytesAt image 0 front.now → length image ≡ 4096 * sup.now.blocks → IfOk result (λ logs. AreLogs (undone sup.now (region_of image)) sup.now logs.items) }
    ensures unread { IfErr result (λ e. e ≡ GatherError.Memory) }
    ensures right { IfOk result (λ logs. (log : LogEndsValue) → Contains logs.items log → IsTrue (is_right_log sup.now log.head log.tail)) }
{
    let mut memory = MetadataRegion::new(alloc, sup.blocks, front, 0)?;
    undo(alloc, &mut memory, sup)?;
    Ok(right_logs(alloc, &memory, sup)?)
}
