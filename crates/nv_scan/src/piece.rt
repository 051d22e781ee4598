//! What a scan finds of one inode.

ghost use Rattle.std.specs.Prelude.{◌≡◌, ◌++◌, OnOk};

use crate::claims::Claims;
use crate::numbers::Numbers;
use nv_names::NameIndex;
use nv_radix::FileIndex;
use nv_super::{Fault, Kind};
use smallvec::SmallVec;
use std::alloc::AllocError;

/// The blocks of a log's pages. Most logs have one page, and two take no memory of their own.
pub type LogPages = SmallVec<u64, 2>;

/// Puts blocks of a log behind others.
// Most logs have one page, and a copy of a list costs more than to store its block.
#[inline(always)]
pub(crate) fn extend_pages(pages: &mut LogPages, blocks: &[u64]) -> Result<(), AllocError>
    ensures { OnOk result (pages.new.items ≡ pages.old.items ++ blocks.now) }
{
    if blocks.len() == 1 && pages.len() < pages.capacity() {
        pages.push_reserved(blocks[0]);
        return Ok(());
    }
    pages.extend_from_slice(blocks)
}

/// Puts blocks of a log in place of others, and their memory.
// Most logs have one page, whose block is stored over the other one.
#[inline(always)]
pub(crate) fn set_pages(pages: &mut LogPages, blocks: &[u64]) -> Result<(), AllocError>
    ensures { OnOk result (pages.new.items ≡ blocks.now) }
{
    if pages.len() == 1 && blocks.len() == 1 {
        pages[0] = blocks[0];
        return Ok(());
    }
    pages.clear();
    extend_pages(pages, blocks)
}

/// The row of an inode in use.
#[derive(Drop)]
pub struct Row {
    // What the checks between inodes read of a row stands first, side by side.
    pub inode: u64,
    pub numbers: Numbers,
    /// The names of a directory.
    pub names: NameIndex,
    pub kind: Kind,
    /// The byte address where the log begins.
    pub head: u64,
    /// The byte address where it ends.
    pub tail: u64,
    /// The blocks of the log's pages, in the order of reading.
    pub pages: LogPages,
    /// The blocks of a file's pages.
    pub index: FileIndex,
}

/// All that is found of one inode by itself: its row, if it is in use, the blocks that it claims, and its faults, each once
/// and in no order. If its slot is the first of a chain's block, that block is among the claims.
#[derive(Drop)]
pub struct Piece {
    pub inode: u64,
    pub row: Option<Row>,
    pub claims: Claims,
    pub faults: Vec<Fault>,
}
