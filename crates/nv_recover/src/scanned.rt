//! What a scan of all inodes gives, whichever way it goes.

use nv_scan::ListedInodes;
use nv_super::{Fault, Owner};

/// The blocks that are claimed, and all claims of those that are claimed twice or more, in order. Block b is bit `b % 64`
/// of word `b / 64`.
#[derive(Drop)]
pub(crate) struct Owned {
    pub blocks: Vec<u64>,
    pub doubled: Vec<(u64, Owner)>,
}

/// All inodes by themselves, the blocks that they own, and what is wrong between them.
#[derive(Drop)]
pub(crate) struct Scanned {
    pub inodes: ListedInodes,
    pub owned: Owned,
    pub cross: Vec<Fault>,
}
