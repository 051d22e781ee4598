//! The iterator over the runs of a pool's free blocks.

ghost use Rattle.std.specs.Iterator.{YieldsFirst, item_count};

use crate::cutting::{next_free, next_used};
use crate::marks::Marks;
use nv_super::Run;
use std::marker::Model;

/// The runs of a pool's free blocks, rising, seen as the list of those that are left. It takes no memory.
#[derive(Drop)]
pub struct FreeRuns<'a> {
    pub(crate) marks: &'a Marks,
    // The pool begins with this block.
    pub(crate) first: u64,
    // The runs that are left have the free blocks from here on, up to the end of the pool.
    pub(crate) here: u64,
    pub(crate) to: u64,
}

impl<'a> Model for FreeRuns<'a> {
    ghost use Rattle.std.specs.Prelude.{List, ◌-◌};
    ghost use Rattle.nv_super.specs.declared.owners.Run.{Run};
    ghost use Rattle.nv_alloc.specs.FreeRuns.{is_free, runs_where, AreLeft};

    ghost Value = { List Run };

    ghost view = { λ it. runs_where (is_free it.marks.now it.first) it.here (it.to - it.here) };

    ghost invariant = { λ it. AreLeft it.marks.now it.first it.here it.to };
}

impl<'a> Iterator for FreeRuns<'a> {
    type Item = Run;

    ghost next_gives = { YieldsFirst (λ left. left) };

    ghost remaining = { item_count (λ left. left) };

    fn next(&mut self) -> Option<Run> {
        let start = next_free(self.marks, self.first, self.here, self.to);
        let end = next_used(self.marks, self.first, start, self.to);
        self.here = end;
        if start == end {
            return None;
        }
        Some(Run {
            start,
            count: end - start,
        })
    }
}
