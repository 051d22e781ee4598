//! An inode in use, before its log is read.

use crate::chain_block::ChainBlock;
use nv_inode::Slot;
use nv_super::Kind;

/// The number of an inode in use, the block of a chain that is told with it, and what its slot says.
#[derive(Clone, Copy)]
pub(crate) struct InUse {
    pub inode: u64,
    pub table: Option<ChainBlock>,
    pub kind: Kind,
    pub slot: Slot,
}
