//! A leaf of a file index: 64 pages that are ready together, each with its block or none.

ghost use Rattle.std.specs.Prelude.{◌≡◌, ℕ, ◌+◌, ◌-◌, ◌^◌, ◌<◌, ◌≤◌, if◌then◌else◌, length, slice_index, Some, None, true, IsTrue};
ghost use Rattle.std.specs.Int.{bit_at};
ghost use Rattle.nv_radix.specs.Pages.{block_at, is_ready, in_run};

use crate::extent::Extent;
use crate::node::{Child, Node, Single};
use crate::places::{add_places, block_of, set_places};
use std::alloc::{AllocError, Global};
use std::marker::Model;

/// The number of pages of a leaf.
pub const LEAF_PAGES: u64 = 64;

/// 64 pages, numbered from 0 on. A leaf that isn't ready takes no memory.
#[derive(Drop)]
pub struct Leaf {
    /// Bit i is set where page i has a block.
    mapped: u64,
    /// The block of each page, of no meaning where it has none. Empty where the leaf isn't ready.
    blocks: Vec<u64>,
}

impl Model for Leaf {
    ghost use Rattle.std.specs.Prelude.{◌≡◌, ◌<◌, List, ℕ, Option, length};
    ghost use Rattle.nv_radix.specs.Nodes.{leaf_pages};

    ghost Value = { List (ℕ × Option ℕ) };

    ghost view = { λ a. leaf_pages a.mapped a.blocks.items 0 };

    ghost invariant = { λ a. 0 < length a.blocks.items → length a.blocks.items ≡ 64 };
}

impl Leaf {
    /// Maps a page, which is ready, to a block.
    #[inline(always)]
    pub(crate) fn set_page(&mut self, page: u64, block: u64)
        requires { is_ready self.old page ≡ true }
        ensures bound { page < 64 }
        ensures blocks { (p : ℕ) → block_at self.new p ≡ (if in_run page 1 p then Some (block + (p - page)) else block_at self.old p) }
        ensures ready { (p : ℕ) → is_ready self.new p ≡ is_ready self.old p }
    {
        self.blocks[page as usize] = block;
        self.mapped |= 1 << page;
    }

    /// The page behind the last one that is mapped, or 0 where none is.
    pub(crate) fn end(&self) -> u64
        ensures most { result ≤ 64 }
        ensures end { (p : ℕ) → result ≤ p → block_at self.now p ≡ None }
    {
        64 - self.mapped.leading_zeros() as u64
    }

    /// Whether no page from `end` on is mapped.
    #[inline(always)]
    pub(crate) fn ends_by(&self, end: u64) -> bool
        ensures { IsTrue result → (p : ℕ) → end ≤ p → block_at self.now p ≡ None }
    {
        end >= LEAF_PAGES || self.mapped >> end == 0
    }
}

impl Node for Leaf {
    ghost span = { 64 };

    ghost pages = { λ m. m };

    fn new(alloc: Global) -> Leaf {
        Leaf {
            mapped: 0,
            blocks: Vec::new(alloc),
        }
    }

    fn is_ready(&self, page: u64) -> bool {
        (page as usize) < self.blocks.len()
    }

    fn get(&self, page: u64) -> Option<u64> {
        block_of(self.mapped, &self.blocks, page)
    }

    fn make_ready(&mut self, _page: u64) -> Result<(), AllocError> {
        if self.blocks.is_empty() {
            self.blocks.resize(64, 0)?;
            self.mapped = 0;
        }
        Ok(())
    }

    fn set_part(&mut self, page: u64, block: u64, count: u64) {
        set_places(&mut self.mapped, &mut self.blocks, page, block, count);
    }

    /// All pages stay ready. Most cuts find no page to unmap, and store nothing.
    fn cut(&mut self, first_page: u64) {
        if first_page < 64 && self.mapped >> first_page > 0 {
            self.mapped &= (1 << first_page) - 1;
        }
    }

    fn add_pages(&self, extents: &mut Vec<Extent>, base: u64) -> Result<(), AllocError> {
        add_places(self.mapped, &self.blocks, extents, base)
    }

    ghost use Rattle.std.proofs.Common.{arith, refl};

    ghost some = { omega arith };

    ghost whole = { refl };
}

impl Child for Leaf {
    ghost use Rattle.std.proofs.Common.{refl};

    const PAGES: u64 = 64;

    ghost PAGES = { 64 };

    ghost spans = { refl };
}

impl Single for Leaf {
    ghost use Rattle.std.proofs.Common.{refl};

    ghost one = { refl };
}
