//! What the blocks of a cell are used for, counted.

ghost use Rattle.std.specs.Prelude.{◌≡◌, ◌<◌, ◌≤◌, ◌^◌, IfOk, length};
ghost use Rattle.nv_map.specs.Shares.{count_of, share_of, shares_of, told_by};

use crate::uses::BlockUse;
use std::alloc::{AllocError, Global};

/// How many of a cell's blocks have each use.
#[derive(Clone, Copy, PartialEq, Eq)]
pub struct Share {
    /// The number of its first block.
    pub first: u64,
    /// The number of its last block.
    pub last: u64,
    /// How many blocks it has.
    pub blocks: u64,
    pub free: u64,
    pub system: u64,
    pub tables: u64,
    pub files: u64,
    pub logs: u64,
    pub doubled: u64,
}

impl Share {
    /// How many blocks have this use.
    pub fn count(&self, kind: BlockUse) -> u64
        ensures { result ≡ told_by self.now kind }
    {
        match kind {
            BlockUse::Free => self.free,
            BlockUse::System => self.system,
            BlockUse::Table => self.tables,
            BlockUse::Data => self.files,
            BlockUse::Log => self.logs,
            BlockUse::Doubled => self.doubled,
        }
    }
}

/// What the blocks with these uses are used for, in cells of so many blocks each.
/// Errors: where a growth was refused.
pub(crate) fn shares_of(
    alloc: Global,
    uses: &[BlockUse],
    each: u64,
) -> Result<Vec<Share>, AllocError>
    requires some { 0 < each }
    requires small { each ≤ 2 ^ 32 }
    requires few { length uses.now ≤ 2 ^ 32 }
    ensures { IfOk result (λ shares. shares.items ≡ shares_of each uses.now) }
{
    let mut shares = Vec::new(alloc);
    let mut first = 0;
    for chunk in uses.chunks(each as usize) {
        shares.push(share_of(first, chunk))?;
        first += each;
    }
    Ok(shares)
}

// What the blocks of one cell are used for, of which the first has this number.
fn share_of(first: u64, uses: &[BlockUse]) -> Share
    requires some { 0 < length uses.now }
    requires small { first ≤ 2 ^ 62 }
    ensures { result ≡ share_of first uses.now }
{
    Share {
        first,
        last: first + (uses.len() as u64 - 1),
        blocks: uses.len() as u64,
        free: count_of(uses, BlockUse::Free),
        system: count_of(uses, BlockUse::System),
        tables: count_of(uses, BlockUse::Table),
        files: count_of(uses, BlockUse::Data),
        logs: count_of(uses, BlockUse::Log),
        doubled: count_of(uses, BlockUse::Doubled),
    }
}

fn count_of(uses: &[BlockUse], kind: BlockUse) -> u64
    ensures { result ≡ count_of kind uses.now }
{
    let mut count = 0;
    for told in uses {
        if told.rank() == kind.rank() {
            count += 1;
        }
    }
    count
}
