//! A map from the pages of a file to blocks that is still being made.

ghost use Rattle.std.specs.Prelude.{◌≡◌, ℕ, ◌+◌, ◌-◌, ◌^◌, ◌<◌, ◌≤◌, if◌then◌else◌, nat_le, nat_lt, Some, None, false, IsTrue, OnOk, IfOk};
ghost use Rattle.std.specs.Option.{option_or};
ghost use Rattle.nv_radix.specs.Pages.{block_at, in_run, is_ready, AreFilePages};
ghost use Rattle.nv_radix.specs.Extents.{AreExtents};
ghost use Rattle.nv_radix.specs.Runs.{block_by};

use crate::extent::Extent;
use crate::index::FileIndex;
use crate::leaf::{LEAF_PAGES, Leaf};
use crate::node::Node;
use crate::run_map::RunMap;
use std::alloc::{AllocError, Global};
use std::marker::Model;

/// A map from the pages of a file to blocks that is still being made: each change costs the logarithm of the number of
/// runs, and that for each run that it takes out, however long the runs are.
///
/// Once one of the first 64 pages is mapped in front of the end of what is mapped, these stand in a leaf. For small
/// files are written over and over, and a page of a leaf is found without a search.
#[derive(Drop)]
pub struct ExtentMap {
    /// The first pages that were mapped since the leaf was made ready. What it maps goes before the runs.
    front: Leaf,
    runs: RunMap,
}

impl Model for ExtentMap {
    ghost use Rattle.std.specs.Prelude.{ℕ, ◌++◌, List};
    ghost use Rattle.nv_radix.specs.declared.runs.Blocks.{Blocks as BlocksValue};
    ghost use Rattle.nv_radix.specs.Runs.{front_runs};

    ghost Value = { List (ℕ × BlocksValue) };

    ghost view = { λ a. front_runs a.front 64 ++ a.runs };
}

impl ExtentMap {
    /// A map of no page. It takes no memory.
    pub fn new(alloc: Global) -> ExtentMap
        ensures { (p : ℕ) → block_by result p ≡ None }
    {
        ExtentMap {
            front: Leaf::new(alloc),
            runs: RunMap::new(alloc),
        }
    }

    /// Unmaps the pages from `first_page` on, which may be any number.
    ///
    /// Errors: `AllocError` where a growth was refused; of the map nothing is said then.
    // Each write entry of a log makes this call and the next, whose own cost is small.
    #[inline(always)]
    pub fn cut(&mut self, first_page: u64) -> Result<(), AllocError>
        ensures { OnOk result ((p : ℕ) → block_by self.new p ≡ (if nat_le first_page p then None else block_by self.old p)) }
    {
        if first_page >= LEAF_PAGES {
            return self.runs.cut(first_page);
        }
        self.front.cut(first_page);
        self.runs.cut(first_page)
    }

    /// Maps the `count` pages from `page` on, all below `MAX_FILE_PAGES`, to as many blocks from `block` on.
    ///
    /// Errors: `AllocError` where a growth was refused; of the map nothing is said then.
    #[inline(always)]
    pub fn set_run(&mut self, page: u64, block: u64, count: u64) -> Result<(), AllocError>
        requires pages { AreFilePages page count }
        requires blocks { 0 < count → block + count ≤ 2 ^ 64 }
        ensures { OnOk result ((p : ℕ) → block_by self.new p ≡ (if in_run page count p then Some (block + (p - page)) else block_by self.old p)) }
    {
        if goes_first(&self.front, self.runs.end(), page) {
            return self.set_first(page, block, count);
        }
        self.runs.set_run(page, block, count)
    }

    /// Unmaps the pages from `end` on, and then maps the `count` pages from `page` on, all below `MAX_FILE_PAGES`, to as
    /// many blocks from `block` on: what a write entry says of a file's pages.
    ///
    /// Errors: `AllocError` where a growth was refused; of the map nothing is said then.
    // Most write entries are of one page, which stands in the leaf, and cut nothing: for these this call is a few tests and
    // two stores, less than a call would cost.
    #[inline(always)]
    pub fn write_run(
        &mut self,
        end: u64,
        page: u64,
        block: u64,
        count: u64,
    ) -> Result<(), AllocError>
        requires pages { AreFilePages page count }
        requires blocks { 0 < count → block + count ≤ 2 ^ 64 }
        ensures { OnOk result ((p : ℕ) → block_by self.new p ≡ (if in_run page count p then Some (block + (p - page)) else (if nat_le end p then None else block_by self.old p))) }
    {
        if count == 1 && self.front.is_ready(page) && self.ends_by(end) {
            self.front.set_page(page, block);
            return Ok(());
        }
        self.cut(end)?;
        self.set_run(page, block, count)
    }

    /// `write_run` of one page, where that page stands in the leaf and nothing is cut, which takes no memory. Elsewhere it answers
    /// false, and changes nothing.
    #[inline(always)]
    pub fn write_page(&mut self, end: u64, page: u64, block: u64) -> bool
        ensures wrote { IsTrue result → (p : ℕ) → block_by self.new p ≡ (if in_run page 1 p then Some (block + (p - page)) else (if nat_le end p then None else block_by self.old p)) }
        ensures same { result ≡ false → self.new ≡ self.old }
    {
        if self.front.is_ready(page) && self.ends_by(end) {
            self.front.set_page(page, block);
            return true;
        }
        false
    }

    /// The block of a page, which may be any number, if it is mapped. It costs the logarithm of the number of runs.
    pub fn get(&self, page: u64) -> Option<u64>
        ensures { result ≡ block_by self.now page }
    {
        if page >= LEAF_PAGES {
            return self.runs.get(page);
        }
        match self.front.get(page) {
            Some(block) => Some(block),
            None => self.runs.get(page),
        }
    }

    /// Whether no page from `end` on is mapped, told without a search: `false` says nothing.
    #[inline(always)]
    pub fn ends_by(&self, end: u64) -> bool
        ensures { IsTrue result → (p : ℕ) → end ≤ p → block_by self.now p ≡ None }
    {
        end >= self.runs.end() && self.front.ends_by(end)
    }

    /// Maps a run that begins among the first pages: these in the leaf, and the whole run among the others where it goes on
    /// behind them.
    #[inline(always)]
    fn set_first(&mut self, page: u64, block: u64, count: u64) -> Result<(), AllocError>
        requires first { page < 64 }
        requires pages { AreFilePages page count }
        requires blocks { 0 < count → block + count ≤ 2 ^ 64 }
        ensures { OnOk result ((p : ℕ) → block_by self.new p ≡ (if in_run page count p then Some (block + (p - page)) else block_by self.old p)) }
    {
        self.front.make_ready(page)?;
        let part = count.min(LEAF_PAGES - page);
        self.front.set_part(page, block, part);
        if page + count > LEAF_PAGES {
            return self.runs.set_run(page, block, count);
        }
        Ok(())
    }

    /// Maps the same pages in an index that maps none. Its longest extents, rising, take the place of what the list had,
    /// whose room is used again.
    ///
    /// Errors: `AllocError` where a growth was refused; of the index and the list nothing is said then.
    pub fn fill_index(
        &self,
        index: &mut FileIndex,
        extents: &mut Vec<Extent>,
    ) -> Result<(), AllocError>
        requires none { (p : ℕ) → block_at index.old p ≡ None }
        ensures index { OnOk result ((p : ℕ) → block_at index.new p ≡ block_by self.now p) }
        ensures extents { OnOk result (AreExtents index.new extents.new.items) }
    {
        self.runs.fill_index(index, extents)?;
        if !self.front.is_ready(0) {
            return Ok(());
        }
        put_leaf(index, &self.front)?;
        index.runs_into(extents)
    }
}

/// Whether a run from a page on goes into the leaf, where no page from `end` on is mapped: once the leaf is ready it has
/// all first pages that are mapped since.
fn goes_first(front: &Leaf, end: u64, page: u64) -> bool
    ensures first { IsTrue result → page < 64 }
    ensures none { result ≡ false → page < 64 → (p : ℕ) → p < 64 → is_ready front.now p ≡ false }
{
    page < LEAF_PAGES && (front.is_ready(page) || page < end)
}

/// Maps the first pages of an index as a leaf does, where that maps them.
fn put_leaf(index: &mut FileIndex, leaf: &Leaf) -> Result<(), AllocError>
    ensures { OnOk result ((p : ℕ) → block_at index.new p ≡ (if nat_lt p 64 then option_or (block_at leaf.now p) (block_at index.old p) else block_at index.old p)) }
{
    let end = leaf.end();
    // One growth for all pages, and none a page.
    index.reserve(0, end)?;
    for page in 0..end {
        if let Some(block) = leaf.get(page) {
            index.set_page(page, block);
        }
    }
    Ok(())
}
