//! Measures tables that go on in chains: how long their links take to be read and their slots to be scanned, and how much
//! memory that takes. The slots of table blocks are scanned for comparison. It prints the best nanoseconds a block, and
//! kilobytes, on standard error, and what was found on standard output.

ghost use Rattle.std.specs.Prelude.{◌≡◌, ◌≤◌, ◌<◌, ◌+◌, ◌*◌, ◌%◌, IfSome};
ghost use Rattle.nv_region.specs.Region.{HasBlocks};
ghost use Rattle.nv_super.specs.Layout.{IsLayout};

use crate::kept::keep_last;
use nv_inode::{Tables, read_tables};
use nv_region::{MemRegion, Pmem, Stopped};
use nv_scan::{Inodes, Scanner, room_for_ticket, scan_slots, ticket_count};
use nv_super::Super;
use std::alloc::{AllocError, Global};
use std::rt::{Clock, Files};
use std::time::Instant;
use std::{fs, io};

const BLOCKS: u64 = 65_536;

/// The most blocks of chains that are measured.
const MOST: u64 = 65_000;

/// How far the next block of a chain stands where no cache shall foresee it. It has no factor in common with powers of 2, 5
/// and 13.
const SCATTERED: u64 = 40_503;

const RUNS: u64 = 5;

/// A region of version 1 with as many table blocks as there can be.
const TABLES: Super = Super {
    version: 1,
    cpus: 64,
    blocks: BLOCKS,
    table_blocks: 64,
    state: 0,
};

/// How the table of each CPU goes on.
#[derive(Clone, Copy, PartialEq, Eq)]
enum Chains {
    /// In blocks of its own, which lie scattered.
    Apart,
    /// In blocks side by side, and the last link leads back to the first block.
    Rings,
    /// In the same blocks side by side as that of each other.
    Shared,
}

/// How far the next block of a chain stands.
fn stride_of(chains: Chains) -> u64
    ensures { result ≤ 40503 }
{
    match chains {
        Chains::Apart => SCATTERED,
        Chains::Rings | Chains::Shared => 1,
    }
}

/// A superblock of version 2.
fn numbers(cpus: u64) -> Super
    requires { (1 ≤ cpus) × (cpus ≤ 64) }
    ensures layout { IsLayout result }
    ensures cpus { result.cpus ≡ cpus }
    ensures blocks { result.blocks ≡ 65536 }
{
    Super {
        version: 2,
        cpus,
        blocks: BLOCKS,
        table_blocks: 1,
        state: 0,
    }
}

/// The byte address of a block, by its place among so many.
fn address_of(first: u64, place: u64, count: u64, stride: u64) -> u64
    requires first { first ≤ 129 }
    requires stride { stride ≤ 40503 }
    requires place { place ≤ 65536 }
    requires count { (1 ≤ count) × (count ≤ 65000) }
    ensures whole { result % 4096 ≡ 0 }
    ensures inside { result + 4096 ≤ 4096 * 65536 }
{
    4096 * (first + place * stride % count)
}

fn store(memory: &mut MemRegion, at: u64, word: u64) -> Result<(), Stopped>
    requires aligned { at % 8 ≡ 0 }
    requires inside { at + 8 ≤ 4096 * 65536 }
    requires blocks { HasBlocks memory.old.region 65536 }
    ensures { HasBlocks memory.new.region 65536 }
{
    memory.store(at, word)
}

fn zeros(alloc: Global, blocks: u64) -> Option<MemRegion>
    ensures { IfSome result (λ memory. HasBlocks memory.region blocks) }
{
    MemRegion::new(alloc, blocks).ok()
}

/// Stores a word of each block, so that the system has given its memory.
fn touch_all(memory: &mut MemRegion) -> Result<(), Stopped>
    requires { HasBlocks memory.old.region 65536 }
    ensures { HasBlocks memory.new.region 65536 }
{
    for block in 0..BLOCKS {
        store(memory, 4096 * block, 0)?;
    }
    Ok(())
}

/// Stores the links of a CPU's chain, whose blocks have the places from the first to the end among so many.
fn store_chain(
    memory: &mut MemRegion,
    sup: &Super,
    cpu: u64,
    from: u64,
    end: u64,
    count: u64,
    chains: Chains,
) -> Result<(), Stopped>
    requires cpus { (cpu < sup.now.cpus) × (sup.now.cpus ≤ 64) }
    requires places { (from ≤ end) × (end ≤ count) }
    requires count { (1 ≤ count) × (count ≤ 65000) }
    requires blocks { HasBlocks memory.old.region 65536 }
    ensures { HasBlocks memory.new.region 65536 }
{
    let first = 1 + 2 * sup.cpus;
    let stride = stride_of(chains);
    let mut at = 4096 * (1 + cpu) + 16;
    for place in from..end {
        let next = address_of(first, place, count, stride);
        store(memory, at, next)?;
        at = next;
    }
    let last = if chains == Chains::Rings {
        address_of(first, from, count, stride)
    } else {
        0
    };
    store(memory, at, last)
}

/// Stores the links of all chains, which have so many blocks together.
fn store_chains(
    memory: &mut MemRegion,
    sup: &Super,
    chains: Chains,
    count: u64,
) -> Result<(), Stopped>
    requires cpus { (1 ≤ sup.now.cpus) × (sup.now.cpus ≤ 64) }
    requires count { (1 ≤ count) × (count ≤ 65000) }
    requires blocks { HasBlocks memory.old.region 65536 }
    ensures { HasBlocks memory.new.region 65536 }
{
    let each = count / sup.cpus;
    let mut from = 0;
    for cpu in 0..sup.cpus {
        if chains == Chains::Shared {
            store_chain(memory, sup, cpu, 0, count, count, chains)?;
        } else {
            let end = (from + each).min(count);
            store_chain(memory, sup, cpu, from, end, count, chains)?;
            from = end;
        }
    }
    Ok(())
}

fn region_of_chains(alloc: Global, sup: &Super, chains: Chains, count: u64) -> Option<MemRegion>
    requires cpus { (1 ≤ sup.now.cpus) × (sup.now.cpus ≤ 64) }
    requires count { (1 ≤ count) × (count ≤ 65000) }
    ensures { IfSome result (λ memory. HasBlocks memory.region 65536) }
{
    let mut memory = zeros(alloc, BLOCKS)?;
    touch_all(&mut memory).ok()?;
    store_chains(&mut memory, sup, chains, count).ok()?;
    Some(memory)
}

/// Puts the inode with the highest number that has a slot in use. It has no log.
fn use_last(alloc: Global, memory: &mut MemRegion, sup: &Super) -> Option<()>
    requires layout { IsLayout sup.now }
    requires few { sup.now.blocks ≡ 65536 }
    requires blocks { HasBlocks memory.old.region 65536 }
    ensures { HasBlocks memory.new.region 65536 }
{
    let tables = read_tables(alloc, memory, sup).ok()?;
    let at = tables.slot_address(tables.number_end().saturating_sub(1))?;
    store(memory, at, 1).ok()?;
    store(memory, at + 8, 1).ok()
}

/// What is found by the slots of a region.
#[derive(Clone, Copy)]
struct Found {
    /// Blocks of slots.
    blocks: u64,
    /// Of chains.
    chain_faults: usize,
    /// Of inodes by themselves.
    own_faults: usize,
    /// Rows that are kept, and faults between them.
    kept: usize,
}

/// Scans all slots, and keeps the last row that is found.
fn scan_all(alloc: Global, memory: &MemRegion, tables: &Tables) -> Result<Found, AllocError>
    requires { HasBlocks memory.now.region tables.now.layout.sup.blocks }
{
    tables.are_laid();
    let mut scanner = Scanner::new(alloc, tables.sup());
    let mut inodes = Inodes::new(alloc);
    let mut each = room_for_ticket(alloc)?;
    for ticket in 0..ticket_count(tables) {
        scan_slots(memory, tables, &mut scanner, &mut inodes, &mut each, ticket)?;
    }
    Ok(Found {
        blocks: ticket_count(tables),
        chain_faults: tables.faults().len(),
        own_faults: inodes.faults.len(),
        kept: keep_last(alloc, tables, inodes)?,
    })
}

/// The nanoseconds since a moment.
fn since<R: Clock>(rt: &R, start: Instant) -> Option<u128> {
    Some(start.elapsed(rt).ok()?.as_nanos())
}

/// The nanoseconds in which the tables are read and their slots scanned, and what is found.
fn timed<R: AllocGlobal + Clock>(
    rt: &R,
    memory: &MemRegion,
    sup: &Super,
) -> Option<(u128, u128, Found)>
    requires layout { IsLayout sup.now }
    requires blocks { HasBlocks memory.now.region sup.now.blocks }
{
    let start = Instant::now(rt).ok()?;
    let tables = read_tables(rt.alloc(), memory, sup).ok()?;
    let read = since(rt, start)?;
    let start = Instant::now(rt).ok()?;
    let found = scan_all(rt.alloc(), memory, &tables).ok()?;
    Some((read, since(rt, start)?, found))
}

/// The best of several times.
fn best<R: AllocGlobal + Clock>(
    rt: &R,
    memory: &MemRegion,
    sup: &Super,
) -> Option<(u128, u128, Found)>
    requires layout { IsLayout sup.now }
    requires blocks { HasBlocks memory.now.region sup.now.blocks }
{
    let (mut read, mut scanned, found) = timed(rt, memory, sup)?;
    for _ in 1..RUNS {
        let (read_again, scanned_again, _) = timed(rt, memory, sup)?;
        read = read.min(read_again);
        scanned = scanned.min(scanned_again);
    }
    Some((read, scanned, found))
}

/// The most memory that this process has had, in kilobytes; 0 where the system doesn't say.
fn peak<R: AllocGlobal + Files>(rt: &R) -> u64 {
    match fs::read_to_string(rt, "/proc/self/status") {
        Ok(status) => peak_in(&status),
        Err(_) => 0,
    }
}

fn peak_in(status: &str) -> u64 {
    for line in status.lines() {
        if let Some(("VmHWM", rest)) = line.split_once(':') {
            return number_in(rest);
        }
    }
    0
}

fn number_in(text: &str) -> u64 {
    match text.split_whitespace().next() {
        Some(word) => word.parse::<u64>().unwrap_or(0),
        None => 0,
    }
}

/// Measures a region, where the peak was so many kilobytes. `None` where memory is refused, or the system has no clock.
fn measure<R: AllocGlobal + Print + Eprint + Clock + Files>(
    rt: &R,
    label: &str,
    memory: &MemRegion,
    sup: &Super,
    before: u64,
) -> Option<()>
    requires layout { IsLayout sup.now }
    requires blocks { HasBlocks memory.now.region sup.now.blocks }
{
    let (read, scanned, found) = best(rt, memory, sup)?;
    let more = peak(rt).saturating_sub(before);
    let blocks = u128::from(found.blocks).max(1);
    eprintln!(rt;
        "{label}, a block: read in {} ns, scanned in {} ns; {more} kB",
        read / blocks,
        scanned / blocks
    )
    .ok()?;
    println!(rt;
        "{label}: {} blocks of slots, {} faults of chains, {} of inodes, {} kept",
        found.blocks, found.chain_faults, found.own_faults, found.kept
    )
    .ok()
}

/// Measures chains of so many blocks together.
fn measure_chains_of<R: AllocGlobal + Print + Eprint + Clock + Files>(
    rt: &R,
    label: &str,
    cpus: u64,
    chains: Chains,
    count: u64,
) -> Option<()>
    requires cpus { (1 ≤ cpus) × (cpus ≤ 64) }
    requires count { (1 ≤ count) × (count ≤ 65000) }
{
    let sup = numbers(cpus);
    let mut memory = region_of_chains(rt.alloc(), &sup, chains, count)?;
    let before = peak(rt);
    use_last(rt.alloc(), &mut memory, &sup)?;
    measure(rt, label, &memory, &sup, before)
}

fn measure_tables<R: AllocGlobal + Print + Eprint + Clock + Files>(rt: &R) -> Option<()> {
    let mut memory = zeros(rt.alloc(), BLOCKS)?;
    touch_all(&mut memory).ok()?;
    let before = peak(rt);
    measure(rt, "table blocks", &memory, &TABLES, before)
}

fn measure_each<R: AllocGlobal + Print + Eprint + Clock + Files>(rt: &R, count: u64) -> Option<()>
    requires { (1 ≤ count) × (count ≤ 65000) }
{
    // The first, since what an earlier one took hides what a later one takes.
    measure_chains_of(rt, "64 chains", 64, Chains::Apart, count)?;
    measure_tables(rt)?;
    measure_chains_of(rt, "a chain", 1, Chains::Apart, count)?;
    measure_chains_of(rt, "a ring", 1, Chains::Rings, count)?;
    measure_chains_of(rt, "a shared chain", 2, Chains::Shared, count)
}

/// Measures table blocks, and chains of so many blocks together.
pub(crate) fn measure_chains<R: AllocGlobal + Print + Eprint + Clock + Files>(
    rt: &R,
    count: u64,
) -> io::Result<()> {
    let count = count.max(1).min(MOST);
    if measure_each(rt, count).is_none() {
        return eprintln!(rt; "memory or the clock was refused");
    }
    Ok(())
}
