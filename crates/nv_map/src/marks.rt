//! The cells of a map while it is made: of each the last use that one of its blocks is known to have.

ghost use Rattle.std.specs.Prelude.{◌<◌, suc, length, OnOk, IfOk};
ghost use Rattle.nv_map.specs.Map.{IsUsedBy};
ghost use Rattle.nv_map.specs.Marks.{AreFree, HasRoom, Raises, AreRaised, AreUsed, SaysOne, SaysChain, SaysBlock, SaysPage, SaysExtent, SaysClaim};

use crate::uses::BlockUse;
use nv_inode::Tables;
use nv_outcome::Rows;
use nv_radix::Extent;
use nv_scan::Row;
use nv_super::Owner;
use std::alloc::{AllocError, Global};

/// The cells of the blocks of a region.
#[derive(Drop)]
pub(crate) struct Marks {
    /// How many blocks there are.
    pub(crate) blocks: u64,
    /// How many of them a cell has.
    pub(crate) each: u64,
    pub(crate) uses: Vec<BlockUse>,
}

impl Marks {
    /// At most `most` cells (one, if that is 0) of as few blocks as can be, all of them free.
    pub(crate) fn new(alloc: Global, blocks: u64, most: u64) -> Result<Marks, AllocError>
        requires { 0 < blocks }
        ensures free { IfOk result (AreFree blocks most) }
        ensures room { IfOk result HasRoom }
    {
        let each = blocks.div_ceil(most.max(1));
        Ok(Marks {
            blocks,
            each,
            uses: vec![in alloc; BlockUse::Free; blocks.div_ceil(each) as usize]?,
        })
    }

    /// Tells of `count` blocks from block `start` on, as far as there are such blocks.
    pub(crate) fn mark(&mut self, start: u64, count: u64, kind: BlockUse)
        requires { HasRoom self.old }
        ensures { Raises (AreUsed start count kind) self.old self.new }
    {
        let end = start.saturating_add(count).min(self.blocks);
        if start < end {
            for place in start / self.each..end.div_ceil(self.each) {
                self.raise(place as usize, kind);
            }
        }
    }

    // Tells of one cell, unless something later is told of it.
    fn raise(&mut self, place: usize, kind: BlockUse)
        requires { place < length self.old.uses.items }
        ensures { AreRaised place (suc place) kind self.old self.new }
    {
        if self.uses[place].rank() < kind.rank() {
            self.uses[place] = kind;
        }
    }

    /// Tells of the blocks of all chains of tables.
    pub(crate) fn mark_tables(&mut self, tables: &Tables)
        requires { HasRoom self.old }
        ensures { Raises (SaysOne SaysChain tables.now.layout.chains) self.old self.new }
    {
        tables.are_laid();
        for cpu in 0..tables.cpus() {
            self.mark_chain(tables.chain(cpu));
        }
    }

    fn mark_chain(&mut self, chain: &[u64])
        requires { HasRoom self.old }
        ensures { Raises (SaysOne SaysBlock chain.now) self.old self.new }
    {
        for block in chain {
            self.mark(*block, 1, BlockUse::Table);
        }
    }

    /// Tells of all inodes in use what they use.
    pub(crate) fn mark_rows(&mut self, rows: &Rows) -> Result<(), AllocError>
        requires { HasRoom self.old }
        ensures { OnOk result (Raises (SaysOne IsUsedBy rows.now.items) self.old self.new) }
    {
        for (_, row) in rows.iter() {
            self.mark_row(row)?;
        }
        Ok(())
    }

    fn mark_row(&mut self, row: &Row) -> Result<(), AllocError>
        requires { HasRoom self.old }
        ensures { OnOk result (Raises (IsUsedBy row.now) self.old self.new) }
    {
        self.mark_log(&row.pages);
        let extents = row.index.runs()?;
        self.mark_extents(&extents);
        Ok(())
    }

    fn mark_log(&mut self, pages: &[u64])
        requires { HasRoom self.old }
        ensures { Raises (SaysOne SaysPage pages.now) self.old self.new }
    {
        for block in pages {
            self.mark(*block, 1, BlockUse::Log);
        }
    }

    fn mark_extents(&mut self, extents: &[Extent])
        requires { HasRoom self.old }
        ensures { Raises (SaysOne SaysExtent extents.now) self.old self.new }
    {
        for extent in extents {
            self.mark(extent.block, extent.count, BlockUse::Data);
        }
    }

    /// Tells of the blocks with two owners or more.
    pub(crate) fn mark_doubled(&mut self, doubled: &[(u64, Owner)])
        requires { HasRoom self.old }
        ensures { Raises (SaysOne SaysClaim doubled.now) self.old self.new }
    {
        for (block, _) in doubled {
            self.mark(*block, 1, BlockUse::Doubled);
        }
    }
}
