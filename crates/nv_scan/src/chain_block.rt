//! Blocks of chains. Each is told with the inode whose slot stands first in it, whatever that slot holds.

ghost use Rattle.std.specs.Prelude.{◌≡◌, ◌≢◌, None, Some};
ghost use Rattle.nv_super.specs.Layout.{Layout, IsLayout, slot_of};
ghost use Rattle.nv_super.specs.declared.owners.Owner.TheVariants.{Table};
ghost use Rattle.nv_inode.specs.Chains.{IsLaid};
ghost use Rattle.nv_scan.specs.ChainBlocks.{TellsTable};

use crate::tickets::SLOTS;
use nv_super::{BLOCK_SIZE, EXTRA_SLOTS, Owner, Run, SLOT_SIZE, Super};

/// A block of the chain of a CPU's table, by its place there.
#[derive(Clone, Copy)]
pub struct ChainBlock {
    pub cpu: u64,
    pub place: u64,
    pub block: u64,
}

impl ChainBlock {
    /// What holds it.
    pub fn owner(self) -> Owner
        ensures { result ≡ Table self.cpu self.place }
    {
        Owner::Table {
            cpu: self.cpu,
            place: self.place,
        }
    }

    /// It by itself.
    pub fn run(self) -> Run
        ensures block { result.start ≡ self.block }
        ensures one { result.count ≡ 1 }
    {
        Run {
            start: self.block,
            count: 1,
        }
    }
}

/// The block of a chain that is told with the inode of this number, whose slot stands at this address. There is one only
/// where that slot is the first of such a block. Number 0 tells none.
// The address decides at once for nearly all slots, and takes no division.
#[inline(always)]
pub(crate) fn chain_block_at(sup: &Super, inode: u64, at: u64) -> Option<ChainBlock>
    requires layout { IsLayout sup.now }
    ensures none { inode ≡ 0 → result ≡ None }
    ensures tells { (l : Layout) → IsLaid l → l.sup ≡ sup.now → (inode ≢ 0 → slot_of l inode ≡ Some at) → TellsTable l inode result }
{
    if at % BLOCK_SIZE != SLOT_SIZE || at / BLOCK_SIZE < sup.system_blocks() {
        return None;
    }
    let slot = inode / sup.cpus;
    let fixed = SLOTS * sup.table_blocks;
    if slot < fixed {
        return None;
    }
    Some(ChainBlock {
        cpu: inode % sup.cpus,
        place: (slot - fixed) / EXTRA_SLOTS,
        block: at / BLOCK_SIZE,
    })
}
