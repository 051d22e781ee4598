//! A row of up to 64 nodes: a branch of a file index has leaves, and its root has branches.

ghost use Rattle.std.specs.Prelude.{◌≡◌, ℕ, ◌+◌, ◌*◌, ◌<◌, ◌≤◌, [], map, max, length, slice_index_or, OnOk};
ghost use Rattle.std.specs.List.{All};
ghost use Rattle.nv_radix.specs.Nodes.{IsNode};

use crate::extent::Extent;
use crate::leaf::Leaf;
use crate::node::{Child, Node, Single};
use std::alloc::{AllocError, Global};
use std::marker::Model;

/// The pages of some nodes, numbered from 0 on. No page behind the last node is ready.
#[derive(Drop)]
pub struct Row<N: Child> {
    nodes: Vec<N>,
}

/// 4,096 pages.
pub type Branch = Row<Leaf>;

/// 262,144 pages.
pub type Root = Row<Branch>;

impl<N: Child> Model for Row<N> {
    ghost use Rattle.std.specs.Prelude.{◌≤◌, List, ℕ, Option, length, map};
    ghost use Rattle.std.specs.List.{All};
    ghost use Rattle.nv_radix.specs.Nodes.{in_row, IsNode};

    ghost Value = { List (ℕ × Option ℕ) };

    ghost view = { λ a. in_row N.span (map N.pages a.nodes.items) };

    ghost invariant = { λ a. All (IsNode N.span) (map N.pages a.nodes.items) × (length a.nodes.items ≤ 64) };
}

impl<N: Child> Node for Row<N> {
    ghost use Rattle.std.specs.Prelude.{◌*◌};

    ghost span = { 64 * N.span };

    ghost pages = { λ m. m };

    fn new(alloc: Global) -> Row<N> {
        Row {
            nodes: Vec::new(alloc),
        }
    }

    fn is_ready(&self, page: u64) -> bool {
        let (place, within) = split::<N>(page);
        match self.nodes.get(place) {
            Some(node) => node.is_ready(within),
            None => false,
        }
    }

    fn get(&self, page: u64) -> Option<u64> {
        let (place, within) = split::<N>(page);
        match self.nodes.get(place) {
            Some(node) => node.get(within),
            None => None,
        }
    }

    fn make_ready(&mut self, page: u64) -> Result<(), AllocError> {
        let (place, within) = split::<N>(page);
        grow(&mut self.nodes, place + 1)?;
        self.nodes[place].make_ready(within)
    }

    fn set_part(&mut self, page: u64, block: u64, count: u64) {
        let (place, within) = split::<N>(page);
        self.nodes[place].set_part(within, block, count);
    }

    /// Frees each node of which no page is before `first_page`.
    fn cut(&mut self, first_page: u64) {
        let (place, within) = split::<N>(first_page);
        if within == 0 || place >= self.nodes.len() {
            self.nodes.truncate(place);
            return;
        }
        self.nodes.truncate(place + 1);
        self.nodes[place].cut(within);
    }

    fn add_pages(&self, extents: &mut Vec<Extent>, base: u64) -> Result<(), AllocError> {
        for (place, node) in self.nodes.iter().enumerate() {
            node.add_pages(extents, base + place as u64 * N::PAGES)?;
        }
        Ok(())
    }

    ghost use Rattle.std.proofs.Common.{arith};

    ghost some = { omega (arith, N.some) };

    ghost whole = { omega (arith, N.whole) };
}

impl<N: Single> Child for Row<N> {
    ghost use Rattle.std.proofs.Common.{arith};

    const PAGES: u64 = 4096;

    ghost PAGES = { 4096 };

    ghost spans = { omega (arith, N.one) };
}

/// The place of the node that has a page, and which of its pages it is.
#[inline]
fn split<N: Child>(page: u64) -> (usize, u64)
    ensures whole { page ≡ result.0 * N.span + result.1 }
    ensures low { result.1 < N.span }
{
    ((page / N::PAGES) as usize, page % N::PAGES)
}

/// Adds nodes with no page ready until there are `count`.
fn grow<N: Child>(nodes: &mut Vec<N>, count: usize) -> Result<(), AllocError>
    ensures same { (i : ℕ) → slice_index_or (map N.pages nodes.new.items) i [] ≡ slice_index_or (map N.pages nodes.old.items) i [] }
    ensures nodes { All (IsNode N.span) (map N.pages nodes.old.items) → All (IsNode N.span) (map N.pages nodes.new.items) }
    ensures few { length nodes.new.items ≤ max count (length nodes.old.items) }
    ensures enough { OnOk result (count ≤ length nodes.new.items) }
{
    let alloc = *nodes.allocator();
    for _ in nodes.len()..count {
        nodes.push(N::new(alloc))?;
    }
    Ok(())
}
