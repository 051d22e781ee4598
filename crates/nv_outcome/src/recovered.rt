//! What a recovery answers, and a mounted file system is opened with.

use nv_alloc::Allocators;
use nv_inode::Tables;
use nv_rows::Rows;
use nv_super::{Fault, Owner, Super};

/// What a region holds, read from its bytes once its journals were rolled back, but for the faults of the journals,
/// which are read before.
#[derive(Drop)]
pub struct Recovered {
    pub sup: Super,
    /// Where the slots of the inodes stand: for each CPU the blocks of its table's chain.
    pub tables: Tables,
    /// The inodes in use, each found by its number.
    pub rows: Rows,
    /// The free blocks of each CPU's pool.
    pub free: Allocators,
    /// The blocks with two owners or more, each with all its owners, rising by block and owner.
    pub doubled: Vec<(u64, Owner)>,
    /// All that is wrong, in the order of the classes, each once.
    pub faults: Vec<Fault>,
}
