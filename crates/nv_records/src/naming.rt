//! Which word of which inode's slot stands at an address.

ghost use Rattle.std.specs.Prelude.{◌≡◌, ◌⊎◌, ◌≤◌, ◌<◌, ◌%◌, ℕ, IfSome, IsNone, Some};
ghost use Rattle.nv_region.specs.Region.{HasBlocks};
ghost use Rattle.nv_super.specs.Layout.{slot_of};
ghost use Rattle.nv_records.specs.Records.{HoldsSlot, StandsIn, TellsWord, offset_of};

use nv_inode::{SlotBlock, Tables};
use nv_region::Pmem;
use nv_super::{BLOCK_SIZE, SLOT_SIZE};

/// A word of a slot that a journal may name.
#[derive(Clone, Copy, Debug, PartialEq, Eq)]
pub enum SlotPart {
    /// Whether the inode is in use.
    Valid,
    /// Where its log begins.
    Head,
    /// Where its log ends.
    Tail,
}

/// A word of the slot of an inode, and its value now.
#[derive(Clone, Copy, Debug, PartialEq, Eq)]
pub struct NamedWord {
    pub part: SlotPart,
    pub inode: u64,
    /// What stands there.
    pub now: u64,
}

/// The word that a journal may name at an address, if one stands there.
pub(crate) fn word_at<P: Pmem>(memory: &P, tables: &Tables, at: u64) -> Option<NamedWord>
    requires { HasBlocks (P.region memory.now) tables.now.layout.sup.blocks }
    ensures { TellsWord tables.now.layout (P.region memory.now) at result }
{
    // Where slots stand is said of tables that are laid.
    tables.are_laid();
    if !tables.permits(at) {
        return None;
    }
    let part = part_at(at);
    let inode = inode_around(tables, at - at % SLOT_SIZE);
    let now = memory.load(at);
    Some(NamedWord { part, inode, now })
}

// The part of a slot that stands at an address.
fn part_at(at: u64) -> SlotPart
    requires { (at % 128 ≡ 0) ⊎ ((at % 128 ≡ 16) ⊎ (at % 128 ≡ 24)) }
    ensures { at % 128 ≡ offset_of result }
{
    match at % SLOT_SIZE {
        0 => SlotPart::Valid,
        16 => SlotPart::Head,
        _ => SlotPart::Tail,
    }
}

// The number of the inode whose slot stands at an address.
fn inode_around(tables: &Tables, slot: u64) -> u64
    requires { (i : ℕ) × (slot_of tables.now.layout i ≡ Some slot) }
    ensures { slot_of tables.now.layout result ≡ Some slot }
{
    tables.are_laid();
    // Where no block of slots is linked to a table, this is its place.
    let likely = (slot / BLOCK_SIZE).saturating_sub(1 + tables.cpus());
    match inode_in(tables, likely, slot) {
        Some(inode) => inode,
        None => search(tables, slot),
    }
}

fn search(tables: &Tables, slot: u64) -> u64
    requires { (i : ℕ) × (slot_of tables.now.layout i ≡ Some slot) }
    ensures { slot_of tables.now.layout result ≡ Some slot }
{
    tables.are_laid();
    for ticket in 0..tables.slot_block_count() {
        if let Some(inode) = inode_in(tables, ticket, slot) {
            return inode;
        }
    }
    // It is in one of them.
    unreachable!()
}

// The number of the inode whose slot stands at an address, if that is in the block of slots of this ticket.
fn inode_in(tables: &Tables, ticket: u64, slot: u64) -> Option<u64>
    ensures some { IfSome result (λ inode. slot_of tables.now.layout inode ≡ Some slot) }
    ensures none { IsNone result → ¬ HoldsSlot tables.now.layout ticket slot }
{
    tables.are_laid();
    if ticket >= tables.slot_block_count() {
        return None;
    }
    inode_of(&tables.slot_block(ticket), tables.cpus(), slot)
}

// The number of the inode whose slot stands at an address, if that is in a block of slots. Number 0 has none.
fn inode_of(block: &SlotBlock, cpus: u64, slot: u64) -> Option<u64>
    requires few { block.now.slots ≤ 32 }
    requires first { block.now.first < 1000000000 }
    requires cpus { cpus ≤ 64 }
    ensures some { IfSome result (λ inode. StandsIn block.now cpus slot inode) }
    ensures none { IsNone result → (inode : ℕ) → ¬ StandsIn block.now cpus slot inode }
{
    if slot < block.start || (slot - block.start) % SLOT_SIZE != 0 {
        return None;
    }
    let place = (slot - block.start) / SLOT_SIZE;
    if place >= block.slots {
        return None;
    }
    let inode = block.first + place * cpus;
    (inode != 0).then_some(inode)
}
