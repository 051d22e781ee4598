//! Rows with what is read of each again side by side.

ghost use Rattle.std.specs.Prelude.{◌≡◌, ◌+◌, ◌<◌, ◌≤◌, [], length, slice_get, take, IfOk, OnErr, OnOk, Some};
ghost use Rattle.nv_numbered.specs.Chunked.{by_chunks};
ghost use Rattle.nv_scan.specs.Heads.{head_of, heads_of};

use crate::piece::Row;
use nv_numbered::Chunks;
use nv_super::Kind;
use std::alloc::{AllocError, Global};
use std::marker::Model;

/// What is read of a row again once all rows are there. It takes 16 bytes, and a row eleven times as many.
#[derive(Clone, Copy)]
pub struct RowHead {
    pub inode: u64,
    pub links: u32,
    pub kind: Kind,
    /// Whether it has names.
    pub has_names: bool,
}

/// Rows in order, with their heads side by side, so that what is read of all rows is read without the rows.
#[derive(Drop)]
pub struct RowList {
    rows: Chunks<Row>,
    heads: Chunks<RowHead>,
}

impl Model for RowList {
    ghost use Rattle.std.specs.Prelude.{◌≡◌};
    ghost use Rattle.nv_numbered.specs.Chunked.{Chunked};
    ghost use Rattle.nv_scan.specs.declared.piece.Row.{Row as RowValue};

    ghost Value = { Chunked RowValue };

    ghost use Rattle.nv_scan.specs.Heads.{heads_of};

    ghost view = { λ t. t.rows };

    ghost invariant = { λ t. t.heads.items ≡ heads_of t.rows.items };
}

impl RowList {
    /// No rows. It takes no memory.
    pub fn new(alloc: Global) -> RowList
        ensures { result.items ≡ [] }
    {
        RowList {
            rows: Chunks::new(alloc),
            heads: Chunks::new(alloc),
        }
    }

    /// These rows. It reads each of them, and moves none.
    ///
    /// Errors: `AllocError` where a growth was refused.
    pub fn of(alloc: Global, rows: Chunks<Row>) -> Result<RowList, AllocError>
        ensures { IfOk result (λ list. list.items ≡ rows.items) }
    {
        let mut heads = Chunks::new(alloc);
        push_heads(&mut heads, &rows)?;
        Ok(RowList::with_heads(rows, heads))
    }

    /// These rows, whose heads are made already.
    pub(crate) fn with_heads(rows: Chunks<Row>, heads: Chunks<RowHead>) -> RowList
        requires { heads.items ≡ heads_of rows.items }
        ensures { result.items ≡ rows.items }
    {
        RowList { rows, heads }
    }

    /// How many rows there are.
    pub fn len(&self) -> usize
        ensures { result ≡ length self.now.items }
    {
        self.rows.len()
    }

    /// The row at a place.
    pub fn at(&self, place: usize) -> &Row
        requires { place < length self.now.items }
        ensures { slice_get self.now.items place ≡ Some result.now }
    {
        self.rows.at(place)
    }

    /// The head of the row at a place. It doesn't read the row.
    pub fn head(&self, place: usize) -> RowHead
        requires { place < length self.now.items }
        ensures { slice_get (heads_of self.now.items) place ≡ Some result }
    {
        *self.heads.at(place)
    }

    /// Puts the rows of another list to these: its full chunks of 256 rows in front, and the rest behind, in their order.
    ///
    /// Errors: `AllocError` where a growth was refused. The rows stay then.
    pub fn append(&mut self, other: RowList) -> Result<(), AllocError>
        ensures ok { OnOk result (self.new.items ≡ by_chunks self.old.items other.items) }
        ensures err { OnErr result (self.new.items ≡ self.old.items) }
    {
        let RowList { rows, heads } = other;
        self.heads.append(heads)?;
        match self.rows.append(rows) {
            Ok(()) => Ok(()),
            Err(AllocError) => {
                // The heads have the room that they had before, at least.
                empty(&mut self.heads);
                fill_heads(&mut self.heads, &self.rows);
                Err(AllocError)
            }
        }
    }

    /// The rows by themselves, lent.
    pub fn as_rows(&self) -> &Chunks<Row>
        ensures { result.now.items ≡ self.now.items }
    {
        &self.rows
    }

    /// The rows by themselves.
    pub fn into_rows(self) -> Chunks<Row>
        ensures { result.items ≡ self.items }
    {
        let RowList { rows, heads: _ } = self;
        rows
    }
}

/// Puts the heads of the rows that have none yet behind those that are there.
///
/// Errors: `AllocError` where a growth was refused.
pub fn push_heads(heads: &mut Chunks<RowHead>, rows: &Chunks<Row>) -> Result<(), AllocError>
    requires { heads.old.items ≡ heads_of (take (length heads.old.items) rows.now.items) }
    ensures { OnOk result (heads.new.items ≡ heads_of rows.now.items) }
{
    heads.reserve(rows.len() - heads.len())?;
    fill_heads(heads, rows);
    Ok(())
}

// As `push_heads`, where there is room for all. It takes no memory.
fn fill_heads(heads: &mut Chunks<RowHead>, rows: &Chunks<Row>)
    requires first { heads.old.items ≡ heads_of (take (length heads.old.items) rows.now.items) }
    requires room { length rows.now.items ≤ length heads.old.items + heads.old.room }
    ensures { heads.new.items ≡ heads_of rows.now.items }
{
    for place in heads.len()..rows.len() {
        heads.push_reserved(head_of(rows.at(place)));
    }
}

fn head_of(row: &Row) -> RowHead
    ensures { result ≡ head_of row.now }
{
    RowHead {
        inode: row.inode,
        links: row.numbers.links,
        kind: row.kind,
        has_names: !row.names.is_empty(),
    }
}

// Takes all heads out. The memory stays.
fn empty(heads: &mut Chunks<RowHead>)
    ensures items { heads.new.items ≡ [] }
    ensures room { length heads.old.items + heads.old.room ≤ heads.new.room }
{
    while heads.pop().is_some() {}
}
