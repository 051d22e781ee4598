//! A map from pages to blocks that is kept as runs alone, so that a change costs what it changes and no page of it.

ghost use Rattle.std.specs.Prelude.{◌≡◌, ℕ, ◌+◌, ◌-◌, ◌^◌, ◌<◌, ◌≤◌, if◌then◌else◌, nat_le, Some, None, OnOk, IfOk};
ghost use Rattle.nv_radix.specs.Pages.{block_at, in_run, AreFilePages};
ghost use Rattle.nv_radix.specs.Extents.{AreExtents};
ghost use Rattle.nv_radix.specs.Runs.{block_by, IsRun};

use crate::extent::Extent;
use crate::extents::add_run;
use crate::index::FileIndex;
use crate::runs::{Blocks, Runs, block_of, clear, goes_on, set, settle};
use std::alloc::{AllocError, Global};
use std::collections::BTreeMap;
use std::marker::Model;

/// A map of which each call costs the logarithm of the number of runs, and that for each run that it takes out, however
/// long the runs are.
///
/// The run that was mapped last stands beside the others while it is behind them: most logs make it longer again and
/// again, and most files have no other.
#[derive(Drop)]
pub(crate) struct RunMap {
    runs: Runs,
    /// The first page of the last run, and its blocks, of which there are none where it stands among the others.
    page: u64,
    last: Blocks,
    /// No page from here on is mapped.
    end: u64,
}

impl Model for RunMap {
    ghost use Rattle.std.specs.Prelude.{ℕ, ◌∷◌, List};
    ghost use Rattle.nv_radix.specs.declared.runs.Blocks.{Blocks as BlocksValue};
    ghost use Rattle.nv_radix.specs.Runs.{IsOpen};

    ghost Value = { List (ℕ × BlocksValue) };

    ghost view = { λ a. (a.page, a.last) ∷ a.runs.entries };

    ghost invariant = { λ a. IsOpen a.runs.entries a.page a.last a.end };
}

impl RunMap {
    /// A map of no page. It takes no memory.
    pub fn new(alloc: Global) -> RunMap
        ensures { (p : ℕ) → block_by result p ≡ None }
    {
        RunMap {
            runs: BTreeMap::new(alloc),
            page: 0,
            last: Blocks { start: 0, count: 0 },
            end: 0,
        }
    }

    /// Unmaps the pages from `first_page` on, which may be any number.
    // Each write entry of a log makes this call and the next, and most do little but compare.
    #[inline(always)]
    pub fn cut(&mut self, first_page: u64) -> Result<(), AllocError>
        ensures { OnOk result ((p : ℕ) → block_by self.new p ≡ (if nat_le first_page p then None else block_by self.old p)) }
    {
        if first_page >= self.end {
            return Ok(());
        }
        if self.last.count > 0 && self.page < first_page {
            self.last.count = self.last.count.min(first_page - self.page);
        } else {
            self.last.count = 0;
            clear(&mut self.runs, first_page, self.end)?;
        }
        self.end = first_page;
        Ok(())
    }

    /// Maps the `count` pages from `page` on to as many blocks from `block` on.
    #[inline(always)]
    pub fn set_run(&mut self, page: u64, block: u64, count: u64) -> Result<(), AllocError>
        requires pages { AreFilePages page count }
        requires blocks { 0 < count → block + count ≤ 2 ^ 64 }
        ensures { OnOk result ((p : ℕ) → block_by self.new p ≡ (if in_run page count p then Some (block + (p - page)) else block_by self.old p)) }
    {
        if count == 0 {
            return Ok(());
        }
        let start = block;
        if self.last.count > 0 && goes_on(self.page, self.last, page, start) {
            self.last.count += count;
            self.end = self.end.max(page + count);
            return Ok(());
        }
        settle(&mut self.runs, self.page, &mut self.last)?;
        if self.end <= page {
            self.page = page;
            self.last = Blocks { start, count };
        } else {
            set(&mut self.runs, page, Blocks { start, count })?;
        }
        self.end = self.end.max(page + count);
        Ok(())
    }

    /// The block of a page, which may be any number, if it is mapped.
    pub fn get(&self, page: u64) -> Option<u64>
        ensures { result ≡ block_by self.now page }
    {
        if page >= self.end {
            return None;
        }
        if page >= self.page && page - self.page < self.last.count {
            return Some(self.last.start + (page - self.page));
        }
        block_of(&self.runs, page)
    }

    /// No page from here on is mapped.
    pub fn end(&self) -> u64
        ensures { (p : ℕ) → result ≤ p → block_by self.now p ≡ None }
    {
        self.end
    }

    /// Maps the same pages in an index that maps none. Its longest extents take the place of what the list had.
    pub fn fill_index(
        &self,
        index: &mut FileIndex,
        extents: &mut Vec<Extent>,
    ) -> Result<(), AllocError>
        requires none { (p : ℕ) → block_at index.old p ≡ None }
        ensures index { OnOk result ((p : ℕ) → block_at index.new p ≡ block_by self.now p) }
        ensures extents { OnOk result (AreExtents index.new extents.new.items) }
    {
        extents.clear();
        for (page, blocks) in &self.runs {
            put_run(index, extents, *page, *blocks)?;
        }
        if self.last.count > 0 {
            put_run(index, extents, self.page, self.last)?;
        }
        Ok(())
    }
}

/// Maps a run that stands behind all pages of an index, and adds it to the index's extents.
fn put_run(
    index: &mut FileIndex,
    extents: &mut Vec<Extent>,
    page: u64,
    blocks: Blocks,
) -> Result<(), AllocError>
    requires run { IsRun page blocks }
    requires behind { (p : ℕ) → page ≤ p → block_at index.old p ≡ None }
    ensures index { OnOk result ((p : ℕ) → block_at index.new p ≡ (if in_run page blocks.count p then Some (blocks.start + (p - page)) else block_at index.old p)) }
    ensures extents { OnOk result (AreExtents index.old extents.old.items → AreExtents index.new extents.new.items) }
{
    let Blocks { start, count } = blocks;
    index.put_run(page, start, count)?;
    add_run(
        extents,
        Extent {
            page,
            count,
            block: start,
        },
    )
}
