//! Rows by the numbers of their inodes, over `Numbered`. Only `from_rows`, `reserve` and `reserve_numbers` take memory.

ghost use Rattle.std.specs.Prelude.{◌≡◌, ◌+◌, ◌*◌, ◌<◌, ◌≤◌, ◌^◌, ℕ, None, Some, map, IfOk, IfSome, length, IsOk, OnOk, OnSome, option_copied, set, slice_index, slice_set};
ghost use Rattle.std.specs.List.{All, remove};
ghost use Rattle.nv_super.specs.Order.{Rises, SortedOf};
ghost use Rattle.nv_inode.specs.Numbers.{sizes_of};
ghost use Rattle.nv_rows.specs.InUse.{HasUsed};
ghost use Rattle.nv_scan.specs.declared.piece.Row.{Row as RowValue};
ghost use Rattle.nv_rows.specs.RowList.{HasSpace};
ghost use Rattle.nv_rows.specs.Rows.{row_key, inodes_of, row_of, place_in, IsInUse, IsLent, IsPlaceOf, HasInserted};
ghost use Rattle.nv_rows.specs.Unused.{HaveSlots, IsTableNumber, lowest_of};

use crate::used::{BLOCK_NUMBERS, UsedNumbers};
use nv_inode::Tables;
use nv_names::NameIndex;
use nv_numbered::{Iter, Numbered};
use nv_radix::FileIndex;
use nv_scan::{LogPages, Numbers, Row, RowList};
use nv_super::{Kind, Super, WITH_CHAINS};
use std::alloc::{AllocError, Global};
use std::marker::Model;
use std::mem;

/// The rows of the inodes in use, seen as their list, which rises by number.
#[derive(Drop)]
pub struct Rows {
    rows: Numbered<Row>,
    used: UsedNumbers,
    sup: Super,
}

impl Model for Rows {
    ghost use Rattle.nv_rows.specs.RowList.{RowList};

    ghost Value = { RowList };

    ghost use Rattle.nv_rows.specs.Slots.{rows_in};
    ghost use Rattle.nv_rows.specs.InUse.{AreRows, space_in};

    ghost view = { λ t. record {
      items = rows_in t.rows.slots;
      room = t.rows.room;
      sup = t.sup;
      sizes = t.used.sizes;
      space = space_in t.rows.slots t.used.sets t.sup.cpus;
    } };

    ghost invariant = { λ t. AreRows t.sup t.rows.slots t.used };
}

// A row of this number that says nothing. It takes no memory.
fn blank_row(alloc: Global, inode: u64) -> Row
    ensures { result.inode ≡ inode }
{
    Row {
        inode,
        kind: Kind::File,
        numbers: Numbers::new(0),
        head: 0,
        tail: 0,
        pages: LogPages::new(alloc),
        index: FileIndex::new(alloc),
        names: NameIndex::new(alloc),
    }
}

// The number of each row.
fn numbers_of(alloc: Global, rows: &RowList) -> Result<Vec<u32>, AllocError>
    requires { All (λ (row : RowValue). row.inode < 2 ^ 32) rows.now.items }
    ensures { IfOk result (λ numbers. numbers.items ≡ inodes_of rows.now.items) }
{
    let count = rows.len();
    let mut numbers = Vec::with_capacity(alloc, count)?;
    for place in 0..count {
        numbers.push(rows.head(place).inode as u32)?;
    }
    Ok(numbers)
}

// The numbers in use are these.
fn used_by(alloc: Global, tables: &Tables, numbers: &[u32]) -> Result<UsedNumbers, AllocError>
    requires { HaveSlots tables.now.layout numbers.now }
    ensures sizes { IfOk result (λ used. used.sizes ≡ sizes_of tables.now.layout) }
    ensures numbers { IfOk result (λ used. HasUsed numbers.now used.sets) }
{
    tables.are_laid();
    let mut used = UsedNumbers::new(alloc, tables)?;
    for number in numbers {
        used.insert(u64::from(*number));
    }
    Ok(used)
}

impl Rows {
    /// Rows that came in any order, for the inodes of a file system. It moves none of them, and reads their heads alone.
    pub fn from_rows(alloc: Global, rows: RowList, tables: &Tables) -> Result<Rows, AllocError>
        requires { HaveSlots tables.now.layout (inodes_of rows.items) }
        ensures rows { IfOk result (λ r. SortedOf row_key rows.items r.items) }
        ensures sup { IfOk result (λ r. r.sup ≡ tables.now.layout.sup) }
        ensures sizes { IfOk result (λ r. r.sizes ≡ sizes_of tables.now.layout) }
    {
        tables.are_laid();
        let end = tables.number_end();
        let numbers = numbers_of(alloc, &rows)?;
        let used = used_by(alloc, tables, &numbers)?;
        Ok(Rows {
            rows: Numbered::from_values(alloc, rows.into_rows(), numbers, end)?,
            used,
            sup: *tables.sup(),
        })
    }

    /// The row of an inode, if it is in use.
    pub fn get(&self, inode: u64) -> Option<&Row>
        ensures { option_copied result ≡ row_of self.now.items inode }
    {
        self.rows.get(inode)
    }

    /// The row of an inode in use.
    pub fn row(&self, inode: u64) -> &Row
        requires { IsInUse self.now.items inode }
        ensures { row_of self.now.items inode ≡ Some result.now }
    {
        match self.get(inode) {
            Some(row) => row,
            None => unreachable!(),
        }
    }

    /// How many inodes are in use.
    pub fn len(&self) -> usize
        ensures count { result ≡ length self.now.items }
        ensures rising { Rises row_key self.now.items }
    {
        self.rows.len()
    }

    /// The rows with their numbers, rising. It looks at all those of 4,096 numbers of which one is in use.
    pub fn iter(&self) -> Iter<'_, Row>
        ensures rows { map (λ entry. entry.1) result ≡ self.now.items }
        ensures numbers { map (λ entry. entry.0) result ≡ inodes_of self.now.items }
        ensures rising { Rises row_key self.now.items }
    {
        self.rows.iter()
    }

    /// Makes room for `more` rows, or leaves the rows as they are.
    pub fn reserve(&mut self, more: usize) -> Result<(), AllocError>
        ensures rows { self.new.items ≡ self.old.items }
        ensures sup { self.new.sup ≡ self.old.sup }
        ensures sizes { self.new.sizes ≡ self.old.sizes }
        ensures ready { OnOk result (more ≤ self.new.room) }
        ensures succeeds { more ≤ self.old.room → IsOk result }
        ensures room { self.old.room ≤ self.new.room }
    {
        self.rows.reserve(more)
    }

    /// Makes room for the numbers of a block more in the table of a CPU. The rows stay, whatever it answers.
    ///
    /// Errors: `AllocError` where a growth was refused.
    pub fn reserve_numbers(&mut self, cpu: u64) -> Result<(), AllocError>
        requires cpu { cpu < self.old.sup.cpus }
        requires small { (slice_index self.old.sizes cpu + 31) * self.old.sup.cpus < 2 ^ 32 }
        ensures rows { self.new.items ≡ self.old.items }
        ensures sup { self.new.sup ≡ self.old.sup }
        ensures sizes { self.new.sizes ≡ self.old.sizes }
        ensures ready { OnOk result (HasSpace self.new cpu) }
        ensures room { self.old.room ≤ self.new.room }
    {
        self.used.reserve(cpu)?;
        let end = (self.used.size(cpu) + BLOCK_NUMBERS) * self.sup.cpus;
        self.rows.lengthen(end)?;
        Ok(())
    }

    /// Lets the table of a CPU have the numbers of a block more, where there is room for them. No row has them. It takes no
    /// memory.
    pub fn grow(&mut self, cpu: u64)
        requires cpu { cpu < self.old.sup.cpus }
        requires space { HasSpace self.old cpu }
        requires small { slice_index self.old.sizes cpu + 31 < 2 ^ 32 }
        ensures { self.new ≡ record self.old { sizes = slice_set self.old.sizes cpu (slice_index self.old.sizes cpu + 31) } }
    {
        self.used.grow(cpu);
    }

    /// Puts in the row of an inode that has none, where there is room for it.
    pub fn insert(&mut self, row: Row)
        requires within { IsTableNumber self.old.sup.cpus self.old.sizes row.inode }
        requires vacant { row_of self.old.items row.inode ≡ None }
        requires room { 0 < self.old.room }
        ensures rows { HasInserted self.old.items self.new.items row }
        ensures sup { self.new.sup ≡ self.old.sup }
        ensures sizes { self.new.sizes ≡ self.old.sizes }
        ensures room { self.old.room ≡ self.new.room + 1 }
    {
        self.used.insert(row.inode);
        self.rows.insert(row.inode, row);
    }

    /// Takes the row of an inode out, if it is in use. There is room to put it in again.
    pub fn remove(&mut self, inode: u64) -> Option<Row>
        ensures row { result ≡ row_of self.old.items inode }
        ensures number { IfSome result (λ row. (row.inode ≡ inode) × IsTableNumber self.new.sup.cpus self.new.sizes inode) }
        ensures gone { row_of self.new.items inode ≡ None }
        ensures rows { (place : ℕ) → IsPlaceOf self.old.items inode place → self.new.items ≡ remove self.old.items place }
        ensures unchanged { row_of self.old.items inode ≡ None → self.new.items ≡ self.old.items }
        ensures sup { self.new.sup ≡ self.old.sup }
        ensures sizes { self.new.sizes ≡ self.old.sizes }
        ensures room { self.old.room ≤ self.new.room }
        ensures freed { OnSome result (self.new.room ≡ self.old.room + 1) }
    {
        let row = self.rows.remove(inode);
        if row.is_some() {
            self.used.remove(inode);
        }
        row
    }

    /// Takes the row of an inode in use out. There is room to put it in again.
    pub fn take(&mut self, inode: u64) -> Row
        requires { IsInUse self.old.items inode }
        ensures row { row_of self.old.items inode ≡ Some result }
        ensures number { result.inode ≡ inode }
        ensures within { IsTableNumber self.new.sup.cpus self.new.sizes inode }
        ensures gone { row_of self.new.items inode ≡ None }
        ensures rows { self.new.items ≡ remove self.old.items (place_in self.old.items inode) }
        ensures rising { Rises row_key self.old.items }
        ensures sup { self.new.sup ≡ self.old.sup }
        ensures sizes { self.new.sizes ≡ self.old.sizes }
        ensures room { self.new.room ≡ self.old.room + 1 }
    {
        // Rows say of themselves that they rise.
        let _rows = self.len();
        match self.remove(inode) {
            Some(row) => row,
            None => unreachable!(),
        }
    }

    /// Takes the row of an inode in use out for a while. One that says nothing stands in its place until it is given back.
    // A call would copy the whole row once more, and so would one of the next two.
    #[inline(always)]
    pub fn lend(&mut self, alloc: Global, inode: u64) -> Row
        requires { IsInUse self.old.items inode }
        ensures row { row_of self.old.items inode ≡ Some result }
        ensures number { result.inode ≡ inode }
        ensures lent { IsLent self.old.items self.new.items inode }
        ensures rising { Rises row_key self.old.items }
        ensures sup { self.new.sup ≡ self.old.sup }
        ensures sizes { self.new.sizes ≡ self.old.sizes }
        ensures space { self.new.space ≡ self.old.space }
        ensures room { self.new.room ≡ self.old.room }
    {
        let mut row = blank_row(alloc, inode);
        self.exchange(&mut row);
        row
    }

    /// Puts a row in the place of the one that its inode has.
    #[inline(always)]
    pub fn give_back(&mut self, mut row: Row)
        requires { IsInUse self.old.items row.inode }
        ensures rows { self.new.items ≡ set self.old.items (place_in self.old.items row.inode) row }
        ensures sup { self.new.sup ≡ self.old.sup }
        ensures sizes { self.new.sizes ≡ self.old.sizes }
        ensures space { self.new.space ≡ self.old.space }
        ensures room { self.new.room ≡ self.old.room }
    {
        self.exchange(&mut row);
    }

    /// Exchanges the row of an inode in use for another of the same number.
    #[inline(always)]
    fn exchange(&mut self, row: &mut Row)
        requires { IsInUse self.old.items row.old.inode }
        ensures row { row_of self.old.items row.old.inode ≡ Some row.new }
        ensures rows { self.new.items ≡ set self.old.items (place_in self.old.items row.old.inode) row.old }
        ensures rising { Rises row_key self.old.items }
        ensures sup { self.new.sup ≡ self.old.sup }
        ensures sizes { self.new.sizes ≡ self.old.sizes }
        ensures space { self.new.space ≡ self.old.space }
        ensures room { self.new.room ≡ self.old.room }
    {
        // Rows say of themselves that they rise.
        let _rows = self.len();
        match self.rows.get_mut(row.inode) {
            Some(held) => mem::swap(held, row),
            None => unreachable!(),
        }
    }

    /// Makes these the rows of a file system whose version becomes 2. Its numbers are the same.
    pub fn upgrade(&mut self)
        ensures { self.new ≡ record self.old { sup = record self.old.sup { version = 2 } } }
    {
        self.sup.version = WITH_CHAINS;
    }

    /// How many numbers the table of a CPU has.
    pub fn table_size(&self, cpu: u64) -> u64
        requires { cpu < self.now.sup.cpus }
        ensures { result ≡ slice_index self.now.sizes cpu }
    {
        self.used.size(cpu)
    }

    /// The lowest number of a CPU's table that no inode in use has, 0 left out. It looks at one word for 64 numbers.
    pub fn lowest_unused(&self, cpu: u64) -> Option<u64>
        requires { cpu < self.now.sup.cpus }
        ensures { result ≡ lowest_of self.now.sup.cpus (slice_index self.now.sizes cpu) self.now.items cpu }
    {
        // Number 0 is no inode's.
        let from = if cpu == 0 { 1 } else { 0 };
        let size = self.used.size(cpu);
        let place = self.used.first_unused(cpu, from);
        if place == size {
            return None;
        }
        Some(place * self.sup.cpus + cpu)
    }
}

impl<'a> IntoIterator for &'a Rows {
    ghost use Rattle.std.specs.Prelude.{◌≡◌, map};
    ghost use Rattle.nv_rows.specs.Rows.{inodes_of};

    type Item = (u64, &'a Row);

    type IntoIter = Iter<'a, Row>;

    ghost into_iter_gives = { λ rows left. (map (λ entry. entry.1) left ≡ rows.now.items) × (map (λ entry. entry.0) left ≡ inodes_of rows.now.items) };

    /// The rows with their numbers, rising, as `iter` gives them.
    fn into_iter(self) -> Iter<'a, Row> {
        self.iter()
    }
}
