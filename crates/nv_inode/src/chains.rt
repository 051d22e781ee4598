//! The tables of a region with their chains: for each CPU the blocks that its table has behind the fixed ones.
//!
//! Word 16 of the block of a CPU's journal is a link: 0, or the byte address of the first further block of the CPU's
//! table. The first word of such a block is the next link, the rest of its first 128 bytes says nothing, and then 31
//! slots follow. In version 1 there are no such blocks, and no link is read.

ghost use Rattle.std.specs.Prelude.{◌≡◌, ◌↔◌, ◌==◌, ◌<◌, ◌≤◌, ◌+◌, ◌^◌, ◌*◌, ◌/◌, ◌%◌, ◌||◌, ◌++◌, [], eqb, ℕ, IsTrue, IfOk, IfSome, OnOk, true, false, Some, length, get_or, slice_get};
ghost use Rattle.std.specs.List.{cons_option, list_any};
ghost use Rattle.nv_blockset.specs.BlockSet.{is_set};
ghost use Rattle.nv_region.specs.Region.{HasBlocks, Region};
ghost use Rattle.nv_super.specs.Layout.{IsLayout, chain_of, extra_slot, slot_of, most_blocks};
ghost use Rattle.nv_inode.specs.FoundChains.{AreChainsTo};
ghost use Rattle.nv_inode.specs.Chains.{IsLaid, chain_faults, chain_in, end_fault, in_chains, layout_of, link_fault};
ghost use Rattle.nv_inode.specs.SlotBlocks.{extra_block, extra_blocks, fixed_block, slot_blocks};
ghost use Rattle.nv_inode.specs.Numbers.{longest, number_end, table_size};
ghost use Rattle.nv_inode.specs.Upgraded.{upgraded_layout};
ghost use Rattle.nv_inode.specs.Permitted.{in_extra, in_fixed, is_key_offset, is_permitted_by, IsSlotWord, NamesSlotBy};

mod growth;

use crate::blocks::SlotBlock;
use crate::slot::{HEAD, TAIL, VALID};
use crate::tables::first_slot;
use nv_blockset::{BlockList, contains, insert, words_for};
use nv_super::{BLOCK_SIZE, EXTRA_SLOTS, Fault, Pmem, SLOT_SIZE, Super, WITH_CHAINS};
use std::alloc::{AllocError, Global};
use std::marker::Model;

/// Where the link to the first block of a chain stands, in bytes from the start of its CPU's journal.
pub(crate) const FIRST_LINK: u64 = 16;

/// The tables of a region: its superblock's numbers, and for each CPU the blocks of its table's chain. Contracts see
/// them as a layout, and what is wrong with the ends of the chains.
#[derive(Drop)]
pub struct Tables {
    sup: Super,
    chains: Vec<Vec<u64>>,
    // The blocks of all chains, as bits.
    marks: Vec<u64>,
    faults: Vec<Fault>,
}

impl Model for Tables {
    ghost use Rattle.nv_inode.specs.Tables.{TableChains};

    ghost Value = { TableChains };

    ghost use Rattle.nv_inode.specs.Tables.{laid, rooms_of, AreTables};

    ghost view = { λ t. record {
      layout = laid t.sup t.chains.items;
      faults = t.faults.items;
      rooms = rooms_of t.sup t.chains.items t.marks.items;
    } };

    ghost invariant = { λ t. AreTables (laid t.sup t.chains.items) t.marks.items };
}

impl Tables {
    /// The superblock's numbers.
    pub fn sup(&self) -> &Super
        ensures { result.now ≡ self.now.layout.sup }
    {
        &self.sup
    }

    /// The number of CPUs.
    pub fn cpus(&self) -> u64
        ensures { result ≡ self.now.layout.sup.cpus }
    {
        self.sup.cpus
    }

    /// What is wrong with the ends of the chains, by CPU.
    pub fn faults(&self) -> &[Fault]
        ensures { result.now ≡ self.now.faults }
    {
        self.faults.as_slice()
    }

    /// What all tables keep. It does nothing.
    pub fn are_laid(&self)
        ensures { IsLaid self.now.layout }
    {
        // Its type's promise is known where a field is used.
        let _ = &self.sup;
    }

    /// The byte address of the slot of an inode, if its number has one: a multiple of 128. The slot lies whole within
    /// the region. It takes constant time and no memory.
    pub fn slot_address(&self, inode: u64) -> Option<u64>
        ensures value { result ≡ slot_of self.now.layout inode }
        ensures whole { IfSome result (λ at. at % 128 ≡ 0) }
        ensures inside { IfSome result (λ at. at + 128 ≤ 4096 * self.now.layout.sup.blocks) }
        ensures small { IfSome result (λ at. at + 128 ≤ 2 ^ 31) }
    {
        self.are_laid();
        self.find_slot(inode)
    }

    /// The byte address of the slot of an inode, if its number has one.
    fn find_slot(&self, inode: u64) -> Option<u64>
        ensures { result ≡ slot_of self.now.layout inode }
    {
        if inode == 0 {
            return None;
        }
        let fixed = BLOCK_SIZE / SLOT_SIZE * self.sup.table_blocks;
        let slot = inode / self.sup.cpus;
        if slot < fixed {
            return Some(self.sup.slot_address(inode));
        }
        extra_slot(
            self.chain_block(inode % self.sup.cpus, (slot - fixed) / EXTRA_SLOTS),
            (slot - fixed) % EXTRA_SLOTS,
        )
    }

    /// The blocks of a CPU's chain, in the order of its links.
    pub fn chain(&self, cpu: u64) -> &[u64]
        requires { cpu < self.now.layout.sup.cpus }
        ensures { result.now ≡ chain_of self.now.layout cpu }
    {
        &self.chains[cpu as usize]
    }

    /// Makes these the tables of version 2, in which all chains are empty. The region is upgraded by `upgrade_tables`.
    pub fn upgrade(&mut self)
        requires version { self.old.layout.sup.version ≡ 1 }
        ensures layout { self.new.layout ≡ upgraded_layout self.old.layout }
        ensures faults { self.new.faults ≡ self.old.faults }
    {
        self.sup.version = WITH_CHAINS;
    }

    /// The block at a place of a CPU's chain, if it has so many.
    fn chain_block(&self, cpu: u64, place: u64) -> Option<u64>
        ensures { result ≡ slice_get (chain_of self.now.layout cpu) place }
    {
        let chain = self.chains.get(cpu as usize)?;
        chain.get(place as usize).copied()
    }

    /// How many blocks of slots there are: one for each ticket.
    pub fn slot_block_count(&self) -> u64
        ensures { result ≡ length (slot_blocks self.now.layout) }
    {
        let mut count = self.sup.cpus * self.sup.table_blocks;
        for chain in &self.chains {
            count += chain.len() as u64;
        }
        count
    }

    /// The block of slots that a ticket stands for: a table block, or behind these a block of a chain.
    pub fn slot_block(&self, ticket: u64) -> SlotBlock
        requires { ticket < length (slot_blocks self.now.layout) }
        ensures { slice_get (slot_blocks self.now.layout) ticket ≡ Some result }
    {
        let fixed = self.sup.cpus * self.sup.table_blocks;
        if ticket < fixed {
            fixed_block(&self.sup, ticket)
        } else {
            self.block_of_chains(ticket - fixed)
        }
    }

    /// The block of slots at this place among those of all chains, CPU after CPU.
    fn block_of_chains(&self, place: u64) -> SlotBlock
        requires { place < length (extra_blocks self.now.layout.sup 0 self.now.layout.chains) }
        ensures { slice_get (extra_blocks self.now.layout.sup 0 self.now.layout.chains) place ≡ Some result }
    {
        let mut cpu = 0;
        let mut left = place;
        'searching: loop {
            let chain = &self.chains[cpu];
            let count = chain.len() as u64;
            if left < count {
                return block_in_chain(&self.sup, cpu as u64, left, chain[left as usize]);
            }
            left -= count;
            cpu += 1;
        }
    }

    /// How many slots a CPU's table has, with those of its chain: its numbers are as many.
    pub fn table_size(&self, cpu: u64) -> u64
        requires { cpu < self.now.layout.sup.cpus }
        ensures value { result ≡ table_size self.now.layout cpu }
        ensures small { result < 2 ^ 32 }
    {
        let chain = &self.chains[cpu as usize];
        BLOCK_SIZE / SLOT_SIZE * self.sup.table_blocks + EXTRA_SLOTS * chain.len() as u64
    }

    /// The end of the numbers: each that has a slot is below it. It looks at the length of each chain.
    pub fn number_end(&self) -> u64
        ensures value { result ≡ number_end self.now.layout }
        ensures small { result < 2 ^ 32 }
    {
        let slots = BLOCK_SIZE / SLOT_SIZE * self.sup.table_blocks
            + EXTRA_SLOTS * self.longest_chain();
        self.sup.cpus * slots
    }

    /// How many blocks the longest chain has.
    fn longest_chain(&self) -> u64
        ensures value { result ≡ longest self.now.layout.chains }
        ensures small { result ≤ most_blocks }
    {
        let mut longest = 0;
        for chain in &self.chains {
            longest = longest.max(chain.len() as u64);
        }
        longest
    }

    /// Whether a block is one of a chain.
    pub fn has_block(&self, block: u64) -> bool
        ensures { result ≡ in_chains self.now.layout.chains block }
    {
        block / 64 < self.marks.len() as u64 && contains(&self.marks, block)
    }

    /// Whether a journal may name the word at a byte address: the valid, head or tail word of a slot but that of
    /// number 0.
    pub fn permits(&self, at: u64) -> bool
        ensures value { result ≡ is_permitted_by self.now.layout at }
        ensures names { IsTrue result ↔ NamesSlotBy self.now.layout at }
        ensures lies { IsTrue result → IsSlotWord self.now.layout.sup at }
    {
        self.are_laid();
        let is_key = is_key_offset(at);
        is_key && self.has_slot_around(at)
    }

    /// Whether an address lies in a slot but that of number 0.
    fn has_slot_around(&self, at: u64) -> bool
        ensures { result ≡ (in_fixed self.now.layout.sup at || in_extra self.now.layout at) }
    {
        let is_fixed = is_in_fixed(&self.sup, at);
        is_fixed || self.is_in_extra(at)
    }

    /// Whether an address lies in a block of a chain, behind the 128 bytes of its link.
    fn is_in_extra(&self, at: u64) -> bool
        ensures { result ≡ in_extra self.now.layout at }
    {
        let marked = self.has_block(at / BLOCK_SIZE);
        marked && SLOT_SIZE <= at % BLOCK_SIZE
    }
}

/// A table block, by its place behind the journals.
fn fixed_block(sup: &Super, ticket: u64) -> SlotBlock
    requires layout { IsLayout sup.now }
    requires ticket { ticket < sup.now.cpus * sup.now.table_blocks }
    ensures { result ≡ fixed_block sup.now ticket }
{
    SlotBlock {
        start: BLOCK_SIZE * (1 + sup.cpus + ticket),
        slots: BLOCK_SIZE / SLOT_SIZE,
        first: BLOCK_SIZE / SLOT_SIZE * (ticket % sup.table_blocks) * sup.cpus
            + ticket / sup.table_blocks,
    }
}

/// A block of a CPU's chain, at its place there.
fn block_in_chain(sup: &Super, cpu: u64, place: u64, block: u64) -> SlotBlock
    requires layout { IsLayout sup.now }
    requires cpu { cpu < 64 }
    requires place { place < most_blocks }
    requires block { block < most_blocks }
    ensures { result ≡ extra_block sup.now cpu place block }
{
    SlotBlock {
        start: block * BLOCK_SIZE + SLOT_SIZE,
        slots: EXTRA_SLOTS,
        first: (BLOCK_SIZE / SLOT_SIZE * sup.table_blocks + EXTRA_SLOTS * place) * sup.cpus + cpu,
    }
}

/// Whether an address is that of a valid, head or tail word by its offset in a slot.
fn is_key_offset(at: u64) -> bool
    ensures { result ≡ is_key_offset at }
{
    let offset = at % SLOT_SIZE;
    offset == VALID || offset == HEAD || offset == TAIL
}

/// The address of a slot of a block of a chain, if there is the block.
fn extra_slot(block: Option<u64>, slot: u64) -> Option<u64>
    requires block { IfSome block (λ block. block < most_blocks) }
    requires slot { slot < 31 }
    ensures { result ≡ extra_slot slot block }
{
    let block = block?;
    Some(block * BLOCK_SIZE + SLOT_SIZE + SLOT_SIZE * slot)
}

/// Whether an address lies in the fixed tables, behind the slot of number 0.
fn is_in_fixed(sup: &Super, at: u64) -> bool
    requires { IsLayout sup.now }
    ensures { result ≡ in_fixed sup.now at }
{
    first_slot(sup) + SLOT_SIZE <= at && at < sup.system_blocks() * BLOCK_SIZE
}

/// Reads the tables of a region. In version 1 this reads nothing. Else each link of the chains is read once, and
/// memory is taken for the blocks that they lead to and for two sets of the region's blocks.
///
/// Errors: `AllocError` where a growth was refused.
pub fn read_tables<P: Pmem>(alloc: Global, memory: &P, sup: &Super) -> Result<Tables, AllocError>
    requires layout { IsLayout sup.now }
    requires blocks { HasBlocks (P.region memory.now) sup.now.blocks }
    ensures layout { IfOk result (λ t. t.layout ≡ layout_of sup.now (P.region memory.now)) }
    ensures faults { IfOk result (λ t. t.faults ≡ chain_faults sup.now (P.region memory.now)) }
{
    if sup.version == WITH_CHAINS {
        read_chains(alloc, memory, sup)
    } else {
        fixed_tables(alloc, memory, sup)
    }
}

/// The tables of a region in version 1, which have no chains.
fn fixed_tables<P: Pmem>(alloc: Global, _memory: &P, sup: &Super) -> Result<Tables, AllocError>
    requires layout { IsLayout sup.now }
    requires version { (sup.now.version == 2) ≡ false }
    ensures layout { IfOk result (λ t. t.layout ≡ layout_of sup.now (P.region _memory.now)) }
    ensures faults { IfOk result (λ t. t.faults ≡ chain_faults sup.now (P.region _memory.now)) }
{
    let mut chains = Vec::with_capacity(alloc, sup.cpus as usize)?;
    for _ in 0..sup.cpus {
        chains.push(Vec::new(alloc))?;
    }
    Ok(Tables {
        sup: *sup,
        chains,
        marks: Vec::new(alloc),
        faults: Vec::new(alloc),
    })
}

/// The tables of a region in version 2.
fn read_chains<P: Pmem>(alloc: Global, memory: &P, sup: &Super) -> Result<Tables, AllocError>
    requires layout { IsLayout sup.now }
    requires version { (sup.now.version == 2) ≡ true }
    requires blocks { HasBlocks (P.region memory.now) sup.now.blocks }
    ensures layout { IfOk result (λ t. t.layout ≡ layout_of sup.now (P.region memory.now)) }
    ensures faults { IfOk result (λ t. t.faults ≡ chain_faults sup.now (P.region memory.now)) }
{
    let mut read = BlockList::new(alloc, sup.blocks)?;
    let mut found = FoundChains::new(alloc, sup)?;
    for cpu in 0..sup.cpus {
        found.add(alloc, memory, sup, cpu, &mut read)?;
    }
    Ok(Tables {
        sup: *sup,
        chains: found.chains,
        marks: found.marks,
        faults: found.faults,
    })
}

/// The chains of the first CPUs, as they are read.
#[derive(Drop)]
struct FoundChains {
    chains: Vec<Vec<u64>>,
    // The blocks of all of them, as bits.
    marks: Vec<u64>,
    faults: Vec<Fault>,
}

impl FoundChains {
    /// Those of no CPU.
    fn new(alloc: Global, sup: &Super) -> Result<FoundChains, AllocError>
        requires { IsLayout sup.now }
        ensures { (R : Region) → IfOk result (AreChainsTo sup.now R 0) }
    {
        Ok(FoundChains {
            chains: Vec::with_capacity(alloc, sup.cpus as usize)?,
            marks: vec![in alloc; 0; words_for(sup.blocks)]?,
            faults: Vec::new(alloc),
        })
    }

    /// Reads the chain of the next CPU, over what is in a list.
    fn add<P: Pmem>(
        &mut self,
        alloc: Global,
        memory: &P,
        sup: &Super,
        cpu: u64,
        read: &mut BlockList,
    ) -> Result<(), AllocError>
        requires layout { IsLayout sup.now }
        requires version { (sup.now.version == 2) ≡ true }
        requires blocks { HasBlocks (P.region memory.now) sup.now.blocks }
        requires cpu { cpu < sup.now.cpus }
        requires list { read.old.bound ≡ sup.now.blocks }
        requires before { AreChainsTo sup.now (P.region memory.now) cpu self.old }
        ensures list { OnOk result (read.new.bound ≡ sup.now.blocks) }
        ensures more { OnOk result (AreChainsTo sup.now (P.region memory.now) (cpu + 1) self.new) }
    {
        read.clear();
        let fault = read_chain(memory, sup, cpu, read)?;
        mark_blocks(&mut self.marks, read.as_slice());
        self.chains.push(Vec::from_slice(alloc, read.as_slice())?)?;
        push_fault(&mut self.faults, fault)
    }
}

/// Reads the chain of a CPU's table into an empty list, and answers what is wrong with its last link. Each block is
/// read once.
fn read_chain<P: Pmem>(
    memory: &P,
    sup: &Super,
    cpu: u64,
    read: &mut BlockList,
) -> Result<Option<Fault>, AllocError>
    requires layout { IsLayout sup.now }
    requires version { (sup.now.version == 2) ≡ true }
    requires blocks { HasBlocks (P.region memory.now) sup.now.blocks }
    requires cpu { cpu < sup.now.cpus }
    requires empty { read.old ≡ record { bound = sup.now.blocks; blocks = [] } }
    ensures chain { OnOk result (read.new ≡ record { bound = sup.now.blocks; blocks = chain_in sup.now (P.region memory.now) cpu }) }
    ensures fault { IfOk result (λ fault. fault ≡ end_fault sup.now (P.region memory.now) cpu) }
{
    let mut at = BLOCK_SIZE * (1 + cpu) + FIRST_LINK;
    'reading: loop {
        let link = memory.load(at);
        if !sup.is_page_start(link) || read.contains(link / BLOCK_SIZE) {
            return Ok(link_fault(sup, cpu, at, link));
        }
        read.push(link / BLOCK_SIZE)?;
        at = link;
    }
}

/// The fault of a link at an address that leads to no further block of a chain.
fn link_fault(sup: &Super, cpu: u64, at: u64, link: u64) -> Option<Fault>
    requires { IsLayout sup.now }
    ensures { result ≡ link_fault sup.now cpu at link }
{
    if link == 0 {
        None
    } else if sup.is_page_start(link) {
        Some(Fault::H2 { cpu, at })
    } else {
        Some(Fault::H1 { cpu, at })
    }
}

/// Puts blocks into a set that has room for them.
fn mark_blocks(marks: &mut [u64], blocks: &[u64])
    requires { (k : ℕ) → k < length blocks.now → get_or blocks.now k 0 < 64 * length marks.old }
    ensures count { length marks.new ≡ length marks.old }
    ensures marked { (b : ℕ) → is_set marks.new b ≡ (is_set marks.old b || list_any (eqb b) blocks.now) }
{
    for block in blocks {
        insert(marks, *block);
    }
}

/// Puts a fault behind the others, if there is one.
fn push_fault(faults: &mut Vec<Fault>, fault: Option<Fault>) -> Result<(), AllocError>
    ensures { OnOk result (faults.new.items ≡ faults.old.items ++ cons_option fault []) }
{
    if let Some(fault) = fault {
        faults.push(fault)?;
    }
    Ok(())
}
