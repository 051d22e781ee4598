//! The first pages of a file index, of which as many are ready as the file needed: most files have few.

ghost use Rattle.std.specs.Prelude.{◌≡◌, ℕ, ◌+◌, ◌-◌, ◌^◌, ◌<◌, ◌≤◌, ◌++◌, List, length, [], ◌||◌, if◌then◌else◌, nat_le, nat_lt, Some, None, true, OnOk, OnErr};
ghost use Rattle.nv_radix.specs.Pages.{block_at, is_ready, in_run, AreReady};
ghost use Rattle.nv_radix.specs.Extents.{AreExtents};
ghost use Rattle.nv_radix.specs.Rising.{Rises};

use crate::extent::Extent;
use crate::places::{add_places, block_of, set_places};
use smallvec::SmallVec;
use std::alloc::{AllocError, Global};
use std::marker::Model;

/// So many blocks lie in the value itself, which is no larger for it.
const INLINE: usize = 2;

/// The first 64 pages. Those from 0 up to some page are ready; one or two of them take no memory.
#[derive(Drop)]
pub(crate) struct Front {
    /// Bit i is set where page i has a block, and no other bit is.
    mapped: u64,
    /// The block of each ready page, of no meaning where it has none.
    blocks: SmallVec<u64, INLINE>,
}

impl Model for Front {
    ghost use Rattle.std.specs.Prelude.{◌≡◌, ◌<◌, ◌≤◌, List, ℕ, Option, length};
    ghost use Rattle.std.specs.Int.{bit_at};
    ghost use Rattle.nv_radix.specs.Nodes.{leaf_pages};

    ghost Value = { List (ℕ × Option ℕ) };

    ghost view = { λ a. leaf_pages a.mapped a.blocks.items 0 };

    ghost invariant = { λ a. (length a.blocks.items ≤ 64) × ((p : ℕ) → length a.blocks.items ≤ p → p < 64 → bit_at a.mapped p ≡ 0) };
}

impl Front {
    /// No page is ready. It takes no memory.
    pub(crate) fn new(alloc: Global) -> Front
        ensures { result ≡ [] }
    {
        Front {
            mapped: 0,
            blocks: SmallVec::new(alloc),
        }
    }

    /// Whether a page is ready, and with it all pages before it.
    pub(crate) fn is_ready(&self, page: u64) -> bool
        ensures ready { result ≡ is_ready self.now page }
        ensures before { result ≡ true → (p : ℕ) → p ≤ page → is_ready self.now p ≡ true }
    {
        (page as usize) < self.blocks.len()
    }

    /// The block of a page, if it is mapped.
    pub(crate) fn get(&self, page: u64) -> Option<u64>
        ensures { result ≡ block_at self.now page }
    {
        block_of(self.mapped, &self.blocks, page)
    }

    /// Makes the first `count` pages ready. An error leaves the pages.
    #[inline(always)]
    pub(crate) fn make_ready(&mut self, count: u64) -> Result<(), AllocError>
        requires { count ≤ 64 }
        ensures blocks { (p : ℕ) → block_at self.new p ≡ block_at self.old p }
        ensures ready { OnOk result ((p : ℕ) → is_ready self.new p ≡ (nat_lt p count || is_ready self.old p)) }
        ensures err { OnErr result ((p : ℕ) → is_ready self.new p ≡ is_ready self.old p) }
        ensures rises { Rises 0 64 self.new }
    {
        if self.blocks.len() < count as usize {
            lengthen(&mut self.blocks, count as usize)?;
        }
        Ok(())
    }

    /// Maps the `count` pages from `page` on, all of them ready, to as many blocks from `block` on.
    #[inline(always)]
    pub(crate) fn set_part(&mut self, page: u64, block: u64, count: u64)
        requires some { 0 < count }
        requires ready { AreReady self.old page count }
        requires blocks { block + count ≤ 2 ^ 64 }
        ensures blocks { (p : ℕ) → block_at self.new p ≡ (if in_run page count p then Some (block + (p - page)) else block_at self.old p) }
        ensures ready { (p : ℕ) → is_ready self.new p ≡ is_ready self.old p }
        ensures rises { Rises 0 64 self.new }
    {
        set_places(&mut self.mapped, &mut self.blocks, page, block, count);
    }

    /// Unmaps the pages from `first_page` on. Those before it stay ready. It takes no memory, and gives back what it had once
    /// no more pages are ready than lie in the value itself.
    pub(crate) fn cut(&mut self, first_page: u64)
        requires { first_page < 64 }
        ensures blocks { (p : ℕ) → block_at self.new p ≡ (if nat_le first_page p then None else block_at self.old p) }
        ensures ready { (p : ℕ) → p < first_page → is_ready self.new p ≡ is_ready self.old p }
        ensures no_more { (p : ℕ) → is_ready self.new p ≡ true → is_ready self.old p ≡ true }
        ensures rises { Rises 0 64 self.new }
    {
        self.mapped &= (1 << first_page) - 1;
        self.blocks.truncate(first_page as usize);
        give_back(&mut self.blocks);
    }

    /// The extents of the mapped pages, added to none.
    pub(crate) fn add_pages(&self, extents: &mut Vec<Extent>) -> Result<(), AllocError>
        ensures { OnOk result (AreExtents [] extents.old.items → AreExtents self.now extents.new.items) }
    {
        add_places(self.mapped, &self.blocks, extents, 0)
    }
}

// Adds blocks of no meaning until there are `count`. Most files have one page, for which a list need not be looked at.
#[inline(always)]
fn lengthen(blocks: &mut SmallVec<u64, INLINE>, count: usize) -> Result<(), AllocError>
    requires { length blocks.old.items < count }
    ensures more { OnOk result ((more : List ℕ) × (blocks.new.items ≡ blocks.old.items ++ more)) }
    ensures len { OnOk result (length blocks.new.items ≡ count) }
    ensures refused { OnErr result (blocks.new.items ≡ blocks.old.items) }
{
    if count == 1 && blocks.capacity() > 0 {
        blocks.push_reserved(0);
        return Ok(());
    }
    blocks.resize(count, 0)
}

// Gives the memory of the blocks back if they fit in the value itself. A smaller memory in place of theirs would be taken anew.
fn give_back(blocks: &mut SmallVec<u64, INLINE>)
    ensures { blocks.new.items ≡ blocks.old.items }
{
    if blocks.len() <= INLINE {
        blocks.shrink_to_fit();
    }
}
