//! A file index as a tree of three levels, of which each node has up to 64 others or 64 pages.

ghost use Rattle.std.specs.Prelude.{◌≡◌, ℕ, ◌+◌, ◌-◌, ◌/◌, ◌%◌, ◌^◌, ◌<◌, ◌≤◌, ◌||◌, ◌==◌, List, if◌then◌else◌, nat_le, nat_lt, Some, None, true, false, OnOk, OnErr, IfOk};
ghost use Rattle.nv_radix.specs.Pages.{block_at, is_ready, in_run, AreReady, AreFilePages};
ghost use Rattle.nv_radix.specs.Extents.{AreExtents};

use crate::MAX_FILE_PAGES;
use crate::extent::Extent;
use crate::front::Front;
use crate::node::Node;
use crate::row::Root;
use std::alloc::{AllocError, Global};
use std::marker::Model;

/// A map from pages to blocks, with a set of pages that are ready. The first 64 pages, which are
/// all that most files have, stand beside the tree of the others.
#[derive(Drop)]
pub struct FileIndex {
    front: Front,
    rest: Root,
    alloc: Global,
}

impl Model for FileIndex {
    ghost use Rattle.std.specs.Prelude.{◌≡◌, ◌≤◌, ◌++◌, List, ℕ, Option, false};
    ghost use Rattle.nv_radix.specs.declared.TheConstants.{MAX_FILE_PAGES};
    ghost use Rattle.nv_radix.specs.Pages.{is_ready};
    ghost use Rattle.nv_radix.specs.Nodes.{raised, IsNode};
    ghost use Rattle.nv_radix.specs.Rising.{Rises};

    ghost Value = { List (ℕ × Option ℕ) };

    ghost view = { λ a. a.front ++ raised 64 a.rest };

    ghost invariant = { λ a. Rises 0 64 a.front × IsNode MAX_FILE_PAGES a.rest × ((p : ℕ) → MAX_FILE_PAGES ≤ p → is_ready (a.front ++ raised 64 a.rest) p ≡ false) };
}

impl FileIndex {
    /// An index with no page ready. It takes no memory.
    pub fn new(alloc: Global) -> FileIndex
        ensures empty { (p : ℕ) → block_at result p ≡ None }
    {
        FileIndex {
            front: Front::new(alloc),
            rest: Root::new(alloc),
            alloc,
        }
    }

    /// The block of a page, which may be any number, if it is mapped.
    pub fn get(&self, page: u64) -> Option<u64>
        ensures { result ≡ block_at self.now page }
    {
        if page < 64 {
            self.front.get(page)
        } else {
            self.rest.get(page - 64)
        }
    }

    /// Whether a page is ready: with one of the first 64 all pages before it are, and behind these the 64 pages of a leaf
    /// are ready together.
    pub fn ready(&self, page: u64) -> bool
        ensures ready { result ≡ is_ready self.now page }
        ensures before { page < 64 → result ≡ true → (p : ℕ) → p ≤ page → is_ready self.now p ≡ true }
        ensures leaf { 64 ≤ page → (p : ℕ) → p / 64 ≡ page / 64 → is_ready self.now p ≡ result }
        ensures beyond { MAX_FILE_PAGES ≤ page → result ≡ false }
    {
        if page < 64 {
            self.front.is_ready(page)
        } else {
            self.rest.is_ready(page - 64)
        }
    }

    /// Unmaps the pages from `first_page` on, which may be any number, and frees each node of which
    /// no page is before it. It takes no memory.
    pub fn cut(&mut self, first_page: u64)
        ensures blocks { (p : ℕ) → block_at self.new p ≡ (if nat_le first_page p then None else block_at self.old p) }
        ensures ready { (p : ℕ) → p < first_page → is_ready self.new p ≡ is_ready self.old p }
        ensures no_more { (p : ℕ) → is_ready self.new p ≡ true → is_ready self.old p ≡ true }
    {
        if first_page >= 64 {
            self.rest.cut(first_page - 64);
            return;
        }
        self.rest.cut(0);
        self.front.cut(first_page);
    }

    /// Makes the `count` pages from `page` on, all below `MAX_FILE_PAGES`, ready. Of the first 64 pages those before them
    /// become ready too, and behind these all pages of their leaves. It costs a step a leaf.
    ///
    /// Errors: `AllocError` where a growth was refused; the map stays, and what is ready stays so.
    pub fn reserve(&mut self, page: u64, count: u64) -> Result<(), AllocError>
        requires { AreFilePages page count }
        ensures blocks { (p : ℕ) → block_at self.new p ≡ block_at self.old p }
        ensures keeps { (p : ℕ) → is_ready self.old p ≡ true → is_ready self.new p ≡ true }
        ensures ready { OnOk result (AreReady self.new page count) }
    {
        if count == 0 {
            return Ok(());
        }
        let end = page + count;
        if page < 64 {
            self.make_first_ready(end.min(64))?;
        }
        for leaf in (page / 64).max(1)..(end - 1) / 64 + 1 {
            self.make_leaf_ready(leaf * 64)?;
        }
        Ok(())
    }

    /// Makes the first `count` pages ready. An error leaves the pages.
    #[inline(always)]
    fn make_first_ready(&mut self, count: u64) -> Result<(), AllocError>
        requires { count ≤ 64 }
        ensures blocks { (p : ℕ) → block_at self.new p ≡ block_at self.old p }
        ensures ready { OnOk result ((p : ℕ) → is_ready self.new p ≡ (nat_lt p count || is_ready self.old p)) }
        ensures err { OnErr result ((p : ℕ) → is_ready self.new p ≡ is_ready self.old p) }
    {
        self.front.make_ready(count)
    }

    /// Makes the leaf of a page behind the first 64 ready. An error leaves the pages.
    fn make_leaf_ready(&mut self, page: u64) -> Result<(), AllocError>
        requires behind { 64 ≤ page }
        requires page { page < MAX_FILE_PAGES }
        ensures blocks { (p : ℕ) → block_at self.new p ≡ block_at self.old p }
        ensures ready { OnOk result ((p : ℕ) → is_ready self.new p ≡ (p / 64 == page / 64 || is_ready self.old p)) }
        ensures err { OnErr result ((p : ℕ) → is_ready self.new p ≡ is_ready self.old p) }
    {
        self.rest.make_ready(page - 64)
    }

    /// Maps the `count` pages from `page` on, all of them ready, to as many blocks from `block` on. It takes no memory
    /// and costs a step a leaf and one a page.
    pub fn set_run(&mut self, page: u64, block: u64, count: u64)
        requires ready { AreReady self.old page count }
        requires blocks { 0 < count → block + count ≤ 2 ^ 64 }
        ensures blocks { (p : ℕ) → block_at self.new p ≡ (if in_run page count p then Some (block + (p - page)) else block_at self.old p) }
        ensures ready { (p : ℕ) → is_ready self.new p ≡ is_ready self.old p }
    {
        let mut done = 0;
        while done < count {
            let part = (64 - (page + done) % 64).min(count - done);
            self.set_part(page + done, block + done, part);
            done += part;
        }
    }

    /// `reserve` of a run of pages, and then `set_run` of them.
    #[inline(always)]
    pub(crate) fn put_run(&mut self, page: u64, block: u64, count: u64) -> Result<(), AllocError>
        requires pages { AreFilePages page count }
        requires blocks { 0 < count → block + count ≤ 2 ^ 64 }
        ensures { OnOk result ((p : ℕ) → block_at self.new p ≡ (if in_run page count p then Some (block + (p - page)) else block_at self.old p)) }
    {
        if page == 0 && count == 1 {
            return self.put_first(block);
        }
        self.reserve(page, count)?;
        self.set_run(page, block, count);
        Ok(())
    }

    /// The same of the first page, which is the only one of most files.
    #[inline(always)]
    fn put_first(&mut self, block: u64) -> Result<(), AllocError>
        ensures { OnOk result ((p : ℕ) → block_at self.new p ≡ (if in_run 0 1 p then Some (block + (p - 0)) else block_at self.old p)) }
    {
        self.make_first_ready(1)?;
        self.set_part(0, block, 1);
        Ok(())
    }

    /// Maps a page, which is ready, to a block.
    #[inline(always)]
    pub(crate) fn set_page(&mut self, page: u64, block: u64)
        requires { AreReady self.old page 1 }
        ensures blocks { (p : ℕ) → block_at self.new p ≡ (if in_run page 1 p then Some (block + (p - page)) else block_at self.old p) }
        ensures ready { (p : ℕ) → is_ready self.new p ≡ is_ready self.old p }
    {
        self.set_part(page, block, 1);
    }

    /// Maps the `count` pages from `page` on, all of one leaf, to as many blocks from `block` on.
    #[inline(always)]
    fn set_part(&mut self, page: u64, block: u64, count: u64)
        requires some { 0 < count }
        requires part { page % 64 + count ≤ 64 }
        requires ready { AreReady self.old page count }
        requires blocks { block + count ≤ 2 ^ 64 }
        ensures bound { page < MAX_FILE_PAGES }
        ensures blocks { (p : ℕ) → block_at self.new p ≡ (if in_run page count p then Some (block + (p - page)) else block_at self.old p) }
        ensures ready { (p : ℕ) → is_ready self.new p ≡ is_ready self.old p }
    {
        if page < 64 {
            self.front.set_part(page, block, count);
        } else {
            self.rest.set_part(page - 64, block, count);
        }
    }

    /// The longest extents of the map, rising. It costs a walk over the tree.
    ///
    /// Errors: `AllocError` where a growth was refused.
    pub fn runs(&self) -> Result<Vec<Extent>, AllocError>
        ensures extents { IfOk result (λ v. AreExtents self.now v.items) }
        ensures only { IfOk result (λ v. (others : List Extent) → AreExtents self.now others → others ≡ v.items) }
    {
        let mut extents = Vec::new(self.alloc);
        self.runs_into(&mut extents)?;
        Ok(extents)
    }

    /// The same, in place of what the list had, whose room is used again.
    ///
    /// Errors: `AllocError` where a growth was refused; of the list nothing is said then.
    pub fn runs_into(&self, extents: &mut Vec<Extent>) -> Result<(), AllocError>
        ensures { OnOk result (AreExtents self.now extents.new.items) }
    {
        extents.clear();
        self.front.add_pages(extents)?;
        self.rest.add_pages(extents, 64)
    }
}
