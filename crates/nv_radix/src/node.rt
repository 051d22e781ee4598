//! What the leaves of a file index, and the rows of nodes above them, have in common.

ghost use Rattle.std.specs.Prelude.{◌≡◌, ℕ, ◌+◌, ◌-◌, ◌/◌, ◌%◌, ◌^◌, ◌<◌, ◌≤◌, ◌++◌, [], ◌||◌, ◌==◌, if◌then◌else◌, nat_le, Some, None, true, OnOk, OnErr};
ghost use Rattle.nv_radix.specs.Nodes.{raised, IsNode};
ghost use Rattle.nv_radix.specs.Pages.{Pages, block_at, is_ready as is_ready_at, in_run};
ghost use Rattle.nv_radix.specs.Extents.{AreExtents};
ghost use Rattle.nv_radix.specs.Rising.{Rises};

use crate::extent::Extent;
use std::alloc::{AllocError, Global};

/// Some whole leaves of pages, numbered from 0 on: those of a leaf are ready together.
pub trait Node: Drop {
    /// The number of pages.
    ghost span: { ℕ };

    /// The ready pages, each with its block or none.
    ghost pages: { Self → Pages };

    /// A node with no page ready. It takes no memory.
    fn new(alloc: Global) -> Self
        ensures { pages result ≡ [] };

    /// Whether a page is ready, and with it all pages of its leaf.
    fn is_ready(&self, page: u64) -> bool
        ensures { (p : ℕ) → p / 64 ≡ page / 64 → result ≡ is_ready_at (pages self.now) p };

    /// The block of a page.
    fn get(&self, page: u64) -> Option<u64>
        ensures { result ≡ block_at (pages self.now) page };

    /// Makes the leaf of a page ready. An error leaves the pages.
    fn make_ready(&mut self, page: u64) -> Result<(), AllocError>
        requires { page < span }
        ensures blocks { (p : ℕ) → block_at (pages self.new) p ≡ block_at (pages self.old) p }
        ensures ready { OnOk result ((p : ℕ) → is_ready_at (pages self.new) p ≡ (p / 64 == page / 64 || is_ready_at (pages self.old) p)) }
        ensures err { OnErr result ((p : ℕ) → is_ready_at (pages self.new) p ≡ is_ready_at (pages self.old) p) }
        ensures node { IsNode span (pages self.new) };

    /// Maps the `count` pages from `page` on, all of one leaf, to as many blocks from `block` on.
    fn set_part(&mut self, page: u64, block: u64, count: u64)
        requires part { page % 64 + count ≤ 64 }
        requires ready { is_ready_at (pages self.old) page ≡ true }
        requires blocks { block + count ≤ 2 ^ 64 }
        ensures blocks { (p : ℕ) → block_at (pages self.new) p ≡ (if in_run page count p then Some (block + (p - page)) else block_at (pages self.old) p) }
        ensures ready { (p : ℕ) → is_ready_at (pages self.new) p ≡ is_ready_at (pages self.old) p }
        ensures node { IsNode span (pages self.new) };

    /// Unmaps the pages from `first_page` on, which may be any number. Those before it stay ready.
    fn cut(&mut self, first_page: u64)
        ensures blocks { (p : ℕ) → block_at (pages self.new) p ≡ (if nat_le first_page p then None else block_at (pages self.old) p) }
        ensures ready { (p : ℕ) → p < first_page → is_ready_at (pages self.new) p ≡ is_ready_at (pages self.old) p }
        ensures no_more { (p : ℕ) → is_ready_at (pages self.new) p ≡ true → is_ready_at (pages self.old) p ≡ true }
        ensures node { IsNode span (pages self.new) };

    /// Adds the mapped pages, each raised by `base`, to extents of lower pages.
    fn add_pages(&self, extents: &mut Vec<Extent>, base: u64) -> Result<(), AllocError>
        requires { base + span ≤ 2 ^ 32 }
        ensures { OnOk result ((m : Pages) → Rises 0 base m → AreExtents m extents.old.items → AreExtents (m ++ raised base (pages self.now)) extents.new.items) };

    /// A node has pages.
    ghost some: { 0 < span };

    /// They fill whole leaves.
    ghost whole: { span % 64 ≡ 0 };
}

/// A node that may stand in a row with others, which a page is looked up in by division.
pub trait Child: Node {
    /// The number of pages of each.
    const PAGES: u64;

    ghost PAGES: { ℕ };

    ghost spans: { PAGES ≡ Self.span };
}

/// A node that is one leaf. Rows of it may stand in a row.
pub trait Single: Child {
    ghost one: { Self.span ≡ 64 };
}
