//! The name index of a directory: a finite map that recovery rebuilds from the directory's log, and that the
//! file calls look names up in. Only `reserve`, `insert`, `put`, `list` and `walk` take memory.

ghost use Rattle.std.specs.Prelude.{◌≡◌, ◌+◌, ◌<◌, ◌≤◌, ◌↔◌, IsTrue, if◌then◌else◌, List, ℕ, length, map, IfOk, IsOk, OnOk, OnErr, Some, None, nat_eq};
ghost use Rattle.std.specs.Option.{option_map};
ghost use Rattle.std.specs.Cmp.Lexicographic.{pointwise};
ghost use Rattle.nv_names.specs.Names.{IsName, name_at, EachOnce, HasNames, ListsNames, inode_and_place, line_of};

use crate::iter::Iter;
use crate::table::Table;
use crate::{Named, Target};
use std::alloc::{AllocError, Global};
use std::marker::Model;

/// A map from names to the inodes that they stand for and the places of their entries.
///
/// It is a table, which is made for the first name, so that an index that never had one stays small. The table keeps the
/// names in buckets, so no choice of names makes a call look at every name.
#[derive(Drop)]
pub struct NameIndex {
    table: Option<Box<Table>>,
    alloc: Global,
}

impl Model for NameIndex {
    ghost use Rattle.nv_names.specs.Names.{Names};
    ghost use Rattle.nv_names.specs.Table.{names_held};

    ghost Value = { Names };

    ghost view = { λ a. names_held a.table };
}

impl NameIndex {
    /// An index with no name. It takes no memory.
    pub fn new(alloc: Global) -> NameIndex
        ensures empty { (q : List ℕ) → name_at result q ≡ None }
    {
        NameIndex { table: None, alloc }
    }

    /// What a name stands for, if the directory has it.
    ///
    /// Its cost doesn't grow with the number of names, but with the names added since the last `reserve`. Where names were
    /// picked to slow it down, it looks at some thousands of them.
    pub fn get(&self, name: &[u8]) -> Option<Target>
        ensures { option_map inode_and_place result ≡ name_at self.now name.now }
    {
        match &self.table {
            Some(table) => table.get(name),
            None => None,
        }
    }

    /// Makes room for `more` calls of `add`, or leaves the names as they are.
    ///
    /// It first gives the names that were added since the last call their places in the table. Until then each call on
    /// the index goes through them, and each takes some 300 bytes: ask for the names at hand, and not for all that may
    /// follow.
    pub fn reserve(&mut self, more: usize) -> Result<(), AllocError>
        ensures names { (q : List ℕ) → name_at self.new q ≡ name_at self.old q }
        ensures ready { OnOk result (more ≤ self.new.room) }
        ensures room { self.old.room ≤ self.new.room }
    {
        match &mut self.table {
            Some(table) => table.reserve(more),
            None => {
                let mut table = Table::new(self.alloc);
                table.reserve(more)?;
                self.table = Some(Box::new(self.alloc, table)?);
                Ok(())
            }
        }
    }

    /// Gives a name of 1 to 255 bytes its inode and the place of its entry, in place of those that it had.
    ///
    /// It takes no memory, and at most one call's worth of the room. Its cost is that of `get`.
    pub fn add(&mut self, name: &[u8], inode: u64, place: u64)
        requires name { IsName name.now }
        requires room { 0 < self.old.room }
        ensures names { (q : List ℕ) → name_at self.new q
            ≡ (if pointwise nat_eq q name.now then Some (inode, place) else name_at self.old q) }
        ensures room { self.old.room ≤ self.new.room + 1 }
    {
        match &mut self.table {
            Some(table) => table.add(name, inode, place),
            None => unreachable!(),
        }
    }

    /// As `add`, where no room need have been made. An error leaves the names. Where room was made it succeeds.
    pub fn insert(&mut self, name: &[u8], inode: u64, place: u64) -> Result<(), AllocError>
        requires name { IsName name.now }
        ensures ok { OnOk result ((q : List ℕ) → name_at self.new q
            ≡ (if pointwise nat_eq q name.now then Some (inode, place) else name_at self.old q)) }
        ensures err { OnErr result ((q : List ℕ) → name_at self.new q ≡ name_at self.old q) }
        ensures succeeds { 0 < self.old.room → IsOk result }
        ensures room { self.old.room ≤ self.new.room + 1 }
    {
        let _had = self.put(name, inode, place)?;
        Ok(())
    }

    /// As `insert`, and answers what the name stood for before, for the cost of one call.
    pub fn put(&mut self, name: &[u8], inode: u64, place: u64) -> Result<Option<Target>, AllocError>
        requires name { IsName name.now }
        ensures ok { OnOk result ((q : List ℕ) → name_at self.new q
            ≡ (if pointwise nat_eq q name.now then Some (inode, place) else name_at self.old q)) }
        ensures had { IfOk result (λ had. option_map inode_and_place had ≡ name_at self.old name.now) }
        ensures err { OnErr result ((q : List ℕ) → name_at self.new q ≡ name_at self.old q) }
        ensures succeeds { 0 < self.old.room → IsOk result }
        ensures room { self.old.room ≤ self.new.room + 1 }
    {
        match &mut self.table {
            Some(table) => table.put(name, inode, place),
            None => {
                let mut table = Table::new(self.alloc);
                let had = table.put(name, inode, place)?;
                self.table = Some(Box::new(self.alloc, table)?);
                Ok(had)
            }
        }
    }

    /// Takes a name out, if the directory has it.
    ///
    /// It takes no memory, and its cost is that of `get`.
    pub fn remove(&mut self, name: &[u8])
        ensures names { (q : List ℕ) → name_at self.new q
            ≡ (if pointwise nat_eq q name.now then None else name_at self.old q) }
        ensures room { self.old.room ≤ self.new.room }
    {
        if let Some(table) = &mut self.table {
            table.remove(name);
        }
    }

    /// How many names there are.
    pub fn len(&self) -> usize
        ensures exact { result ≡ length self.now.names }
        ensures each_once { EachOnce self.now }
    {
        match &self.table {
            Some(table) => table.len(),
            None => 0,
        }
    }

    /// Whether there is no name.
    pub fn is_empty(&self) -> bool
        ensures { IsTrue result ↔ ((q : List ℕ) → name_at self.now q ≡ None) }
    {
        self.len() == 0
    }

    /// Each name once, in no order that a caller can rest on. It takes no memory.
    pub fn iter(&self) -> Iter<'_>
        ensures { HasNames self.now result }
    {
        let _count = self.len();
        match &self.table {
            Some(table) => table.iter(),
            None => Iter::none(),
        }
    }

    /// Each name once, rising by bytes.
    ///
    /// It takes memory for one `Named` a name, and time for a sort of them. The names stay in the index.
    pub fn list(&self) -> Result<Vec<Named<'_>>, AllocError>
        ensures { IfOk result (λ listed. ListsNames self.now (map line_of listed.items)) }
    {
        let mut listed = self.unsorted()?;
        listed.sort_unstable_by_key(|line| line.name);
        Ok(listed)
    }

    /// Each name once, in no order that a caller can rest on. It costs less than `list`.
    ///
    /// It takes memory for one `Named` a name. The names stay in the index.
    pub fn walk(&self) -> Result<Vec<Named<'_>>, AllocError>
        ensures { IfOk result (λ listed. HasNames self.now (map line_of listed.items)) }
    {
        self.unsorted()
    }

    /// Each name once, in the order of the table.
    fn unsorted(&self) -> Result<Vec<Named<'_>>, AllocError>
        ensures names { IfOk result (λ listed. map line_of listed.items ≡ self.now.names) }
        ensures each_once { EachOnce self.now }
    {
        match &self.table {
            Some(table) => table.unsorted(),
            None => Ok(Vec::new(self.alloc)),
        }
    }
}

impl<'a> IntoIterator for &'a NameIndex {
    ghost use Rattle.nv_names.specs.Names.{HasNames};

    type Item = Named<'a>;

    type IntoIter = Iter<'a>;

    ghost into_iter_gives = { λ index left. HasNames index.now left };

    /// The names as `iter` gives them.
    fn into_iter(self) -> Iter<'a> {
        self.iter()
    }
}
