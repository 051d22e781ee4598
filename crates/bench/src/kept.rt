//! A row that was scanned, kept as a recovery keeps its rows.

ghost use Rattle.std.specs.Prelude.{◌≡◌, IsTrue};
ghost use Rattle.nv_inode.specs.Numbers.{has_slot};

use nv_inode::Tables;
use nv_numbered::Chunks;
use nv_outcome::{Rows, cross_faults};
use nv_scan::{Inodes, Row, RowList};
use std::alloc::{AllocError, Global};

/// Keeps the last row of these inodes, and finds the faults between rows. Answers how many rows and faults there are.
pub(crate) fn keep_last(
    alloc: Global,
    tables: &Tables,
    inodes: Inodes,
) -> Result<usize, AllocError> {
    let Inodes {
        mut rows,
        faults: _,
    } = inodes;
    let Some(row) = rows.pop() else {
        return Ok(0);
    };
    if has_slot(tables, row.inode) {
        keep(alloc, tables, row)
    } else {
        Ok(0)
    }
}

fn has_slot(tables: &Tables, inode: u64) -> bool
    ensures { result ≡ has_slot tables.now.layout inode }
{
    tables.slot_address(inode).is_some()
}

fn keep(alloc: Global, tables: &Tables, row: Row) -> Result<usize, AllocError>
    requires { IsTrue (has_slot tables.now.layout row.inode) }
{
    tables.are_laid();
    let mut rows = Chunks::new(alloc);
    rows.push(row)?;
    let list = RowList::of(alloc, rows)?;
    let faults = cross_faults(alloc, tables, &list)?;
    let kept = Rows::from_rows(alloc, list, tables)?;
    Ok(kept.len().saturating_add(faults.len()))
}
