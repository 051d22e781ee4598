//! The table of a name index that has, or had, a name: buckets of names, and beside them a list of the few that
//! were added since room was last made. Only `reserve`, `put` and `unsorted` take memory.

ghost use Rattle.std.specs.Prelude.{◌≡◌, ◌+◌, ◌<◌, ◌≤◌, ◌++◌, List, ℕ, length, map, IfOk, IsOk, OnOk, OnErr, Some, None};
ghost use Rattle.std.specs.Option.{option_map};
ghost use Rattle.nv_names.specs.Names.{IsName, name_at, EachOnce, inode_and_place, line_of};
ghost use Rattle.nv_names.specs.Table.{PutsAt};

use crate::buckets::Buckets;
use crate::fresh::{Fresh, forget, push_fresh, settle, target_of};
use crate::iter::Iter;
use crate::name::Name;
use crate::{Named, Target};
use std::alloc::{AllocError, Global};
use std::marker::Model;

/// A map from names to the inodes that they stand for and the places of their entries.
///
/// The buckets take memory for each name, so a name that must take none goes into `fresh`, where there is room for it. It
/// moves into its bucket when room is next made.
#[derive(Drop)]
pub(crate) struct Table {
    buckets: Buckets,
    fresh: Vec<Fresh>,
    alloc: Global,
}

impl Model for Table {
    ghost use Rattle.std.specs.Prelude.{map, ◌++◌, ◌-◌};
    ghost use Rattle.std.specs.Vec.{vec_len, vec_capacity};
    ghost use Rattle.nv_names.specs.Names.{Names};
    ghost use Rattle.nv_names.specs.Table.{fresh_line, AreBeside};

    ghost Value = { Names };

    ghost view = { λ a. record {
      names = a.buckets ++ map fresh_line a.fresh.items;
      room = vec_capacity a.fresh - vec_len a.fresh;
    } };

    ghost invariant = { λ a. AreBeside a.buckets (map fresh_line a.fresh.items) };
}

impl Table {
    /// A table with no name. It takes no memory.
    pub(crate) fn new(alloc: Global) -> Table
        ensures empty { (q : List ℕ) → name_at result q ≡ None }
    {
        Table {
            buckets: Buckets::new(alloc),
            fresh: Vec::new(alloc),
            alloc,
        }
    }

    /// What a name stands for, if it is there.
    pub(crate) fn get(&self, name: &[u8]) -> Option<Target>
        ensures { option_map inode_and_place result ≡ name_at self.now name.now }
    {
        match self.buckets.find(name) {
            Some(target) => Some(target),
            None => target_of(self.fresh.as_slice(), name),
        }
    }

    /// Makes room for `more` calls of `add`, or leaves the names as they are.
    pub(crate) fn reserve(&mut self, more: usize) -> Result<(), AllocError>
        ensures names { (q : List ℕ) → name_at self.new q ≡ name_at self.old q }
        ensures ready { OnOk result (more ≤ self.new.room) }
        ensures room { self.old.room ≤ self.new.room }
    {
        settle(self.alloc, &mut self.buckets, &mut self.fresh)?;
        self.fresh.reserve(more)
    }

    /// Gives a name its inode and the place of its entry. It takes no memory.
    // Its locals would be cleared in each `put`.
    #[inline(never)]
    pub(crate) fn add(&mut self, name: &[u8], inode: u64, place: u64)
        requires name { IsName name.now }
        requires room { 0 < self.old.room }
        ensures names { PutsAt self.old.names self.new.names name.now (Some (inode, place)) }
        ensures room { self.old.room ≤ self.new.room + 1 }
    {
        let target = Target { inode, place };
        self.buckets.take_out(name);
        forget(&mut self.fresh, name);
        self.fresh.push_reserved((Name::new(name), target));
    }

    /// As `add`, and where there is no room the name goes into its bucket. Answers what the name stood for before.
    pub(crate) fn put(
        &mut self,
        name: &[u8],
        inode: u64,
        place: u64,
    ) -> Result<Option<Target>, AllocError>
        requires name { IsName name.now }
        ensures ok { OnOk result (PutsAt self.old.names self.new.names name.now (Some (inode, place))) }
        ensures had { IfOk result (λ had. option_map inode_and_place had ≡ name_at self.old name.now) }
        ensures err { OnErr result ((q : List ℕ) → name_at self.new q ≡ name_at self.old q) }
        ensures succeeds { 0 < self.old.room → IsOk result }
        ensures room { self.old.room ≤ self.new.room + 1 }
    {
        if self.fresh.len() < self.fresh.capacity() {
            let had = self.get(name);
            self.add(name, inode, place);
            return Ok(had);
        }
        settle(self.alloc, &mut self.buckets, &mut self.fresh)?;
        self.buckets.put(self.alloc, name, Target { inode, place })
    }

    /// Takes a name out, if it is there. It takes no memory.
    pub(crate) fn remove(&mut self, name: &[u8])
        ensures names { PutsAt self.old.names self.new.names name.now None }
        ensures room { self.old.room ≤ self.new.room }
    {
        self.buckets.take_out(name);
        forget(&mut self.fresh, name);
    }

    /// How many names there are.
    pub(crate) fn len(&self) -> usize
        ensures exact { result ≡ length self.now.names }
        ensures each_once { EachOnce self.now }
    {
        self.buckets.len() + self.fresh.len()
    }

    /// Each name once, in no order that a caller can rest on.
    pub(crate) fn iter(&self) -> Iter<'_>
        ensures names { result ≡ self.now.names }
        ensures each_once { EachOnce self.now }
    {
        // The table's promise on its names is known where their number is.
        let _count = self.len();
        self.buckets.iter(self.fresh.as_slice())
    }

    /// Each name once: those of the buckets, and then those beside them.
    pub(crate) fn unsorted(&self) -> Result<Vec<Named<'_>>, AllocError>
        ensures names { IfOk result (λ listed. map line_of listed.items ≡ self.now.names) }
        ensures each_once { EachOnce self.now }
    {
        let mut listed = Vec::with_capacity(self.alloc, self.len())?;
        self.buckets.push_lines(&mut listed)?;
        push_fresh(&mut listed, self.fresh.as_slice())?;
        Ok(listed)
    }
}
