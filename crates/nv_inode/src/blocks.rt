//! Blocks of slots: the table blocks, and behind them the blocks of the chains, CPU after CPU. The slots of a block
//! stand side by side, and the numbers of their inodes rise by the number of CPUs.

/// A block of slots: the byte address of its first slot, how many it has, and the number of the first slot's inode.
#[derive(Clone, Copy, PartialEq, Eq)]
pub struct SlotBlock {
    pub start: u64,
    pub slots: u64,
    pub first: u64,
}
