//! What is kept of the inodes that were scanned.

ghost use Rattle.std.specs.Prelude.{◌≡◌, ◌++◌, ◌∷◌, [], OnErr, OnOk};
ghost use Rattle.nv_numbered.specs.Chunked.{by_chunks};
ghost use Rattle.nv_scan.specs.Heads.{heads_of};
ghost use Rattle.nv_scan.specs.Kept.{SameInodes};

use crate::piece::Row;
use crate::row_list::{RowHead, RowList};
use nv_numbered::Chunks;
use nv_super::Fault;
use std::alloc::{AllocError, Global};

/// The inodes that were scanned, by themselves: a row for each that is in use, and what is wrong with each.
#[derive(Drop)]
pub struct Inodes {
    pub rows: Chunks<Row>,
    pub faults: Vec<Fault>,
}

impl Inodes {
    /// None yet. It takes no memory.
    pub fn new(alloc: Global) -> Inodes
        ensures rows { result.rows.items ≡ [] }
        ensures faults { result.faults.items ≡ [] }
    {
        Inodes {
            rows: Chunks::new(alloc),
            faults: Vec::new(alloc),
        }
    }

    /// Puts the row of one inode and its faults behind what is there. Where a growth is refused, what is there stays.
    pub(crate) fn push(&mut self, row: Row, faults: &[Fault]) -> Result<(), AllocError>
        ensures rows { OnOk result (self.new.rows.items ≡ self.old.rows.items ++ row ∷ []) }
        ensures faults { OnOk result (self.new.faults.items ≡ self.old.faults.items ++ faults.now) }
        ensures refused { OnErr result (SameInodes self.old self.new) }
    {
        if !faults.is_empty() {
            // With this room the row can't be refused once the faults are there.
            self.rows.reserve(1)?;
            self.faults.extend_from_slice(faults)?;
        }
        self.rows.push(row)?;
        Ok(())
    }

    /// No more inodes come. It takes the heads of all rows, and no memory.
    pub fn with_heads(self, heads: Chunks<RowHead>) -> ListedInodes
        requires { heads.items ≡ heads_of self.rows.items }
        ensures rows { result.rows.items ≡ self.rows.items }
        ensures faults { result.faults.items ≡ self.faults.items }
    {
        let Inodes { rows, faults } = self;
        ListedInodes {
            rows: RowList::with_heads(rows, heads),
            faults,
        }
    }
}

/// The inodes that were scanned, once no more come: their rows with the heads side by side, and what is wrong with each.
#[derive(Drop)]
pub struct ListedInodes {
    pub rows: RowList,
    pub faults: Vec<Fault>,
}

impl ListedInodes {
    /// Puts what others found to what is there: the rows chunk by chunk, as `RowList::append` does, and the faults behind the
    /// others.
    ///
    /// Errors: `AllocError` where a growth was refused; what is there stays as it was.
    pub fn append(&mut self, mut other: ListedInodes) -> Result<(), AllocError>
        ensures rows { OnOk result (self.new.rows.items ≡ by_chunks self.old.rows.items other.rows.items) }
        ensures faults { OnOk result (self.new.faults.items ≡ self.old.faults.items ++ other.faults.items) }
        ensures refused { OnErr result ((self.new.rows.items ≡ self.old.rows.items) × (self.new.faults.items ≡ self.old.faults.items)) }
    {
        // With this room the faults can't be refused once the rows are there.
        self.faults.reserve(other.faults.len())?;
        self.rows.append(other.rows)?;
        self.faults.append(&mut other.faults)?;
        Ok(())
    }
}
