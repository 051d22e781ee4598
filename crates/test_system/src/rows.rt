//! Rows by number, each call on its happy path with ample memory. Inodes have the numbers 1 to 31.

ghost use Rattle.std.specs.Prelude.{◌≡◌, ◌<◌, IfOk};
ghost use Rattle.nv_super.specs.Layout.{fixed_layout};
ghost use Rattle.nv_rows.specs.RowList.{HasNumbersOf};

use crate::small::{SMALL, small_tables};
use nv_names::NameIndex;
use nv_numbered::Chunks;
use nv_radix::FileIndex;
use nv_recover::Rows;
use nv_region::RegionRefusal;
use nv_scan::{LogPages, Numbers, Row, RowList};
use nv_super::Kind;
use std::alloc::{AllocError, Global};
use std::process::Abort;
use std::test::Fail;

/// The row of an inode with so many links and these names, and nothing else.
pub fn row(alloc: Global, inode: u64, kind: Kind, links: u32, names: NameIndex) -> Row
    ensures { result.inode ≡ inode }
{
    Row {
        inode,
        kind,
        numbers: Numbers {
            size: 0,
            mode: 0,
            owner: 0,
            group: 0,
            links,
            time: 0,
        },
        head: 0,
        tail: 0,
        pages: LogPages::new(alloc),
        index: FileIndex::new(alloc),
        names,
    }
}

fn file(alloc: Global, inode: u64) -> Row
    ensures { result.inode ≡ inode }
{
    row(alloc, inode, Kind::File, 1, NameIndex::new(alloc))
}

/// The inodes 4 and 2, given in this order.
fn two_files(alloc: Global) -> Result<Rows, RegionRefusal>
    ensures { IfOk result (HasNumbersOf (fixed_layout SMALL)) }
{
    let mut rows = Chunks::new(alloc);
    rows.push(file(alloc, 4))?;
    rows.push(file(alloc, 2))?;
    let tables = small_tables(alloc)?;
    Ok(Rows::from_rows(alloc, RowList::of(alloc, rows)?, &tables)?)
}

/// Puts in the row of a file, where its number has none.
fn insert_new(alloc: Global, rows: &mut Rows, inode: u64) -> Result<(), AllocError>
    requires numbers { HasNumbersOf (fixed_layout SMALL) rows.old }
    requires inode { inode < 32 }
    ensures { HasNumbersOf (fixed_layout SMALL) rows.new }
{
    rows.reserve(1)?;
    if rows.get(inode).is_none() {
        rows.insert(file(alloc, inode));
    }
    Ok(())
}

/// Takes out the row of an inode, and answers the inode that it tells.
fn take_out(rows: &mut Rows, inode: u64) -> Option<u64>
    requires { HasNumbersOf (fixed_layout SMALL) rows.old }
    ensures { HasNumbersOf (fixed_layout SMALL) rows.new }
{
    let row = rows.remove(inode)?;
    Some(row.inode)
}

/// The rows of these inodes alone are listed, in this order.
fn assert_listed(rt: &impl Abort, rows: &Rows, inodes: &[u64]) {
    assert!(rt; rows.len() == inodes.len());
    let mut listed = rows.iter();
    for inode in inodes {
        match listed.next() {
            Some((_, row)) => assert!(rt; row.inode == *inode),
            None => assert!(rt; false, "the row of {inode} is missing"),
        }
    }
    assert!(rt; listed.next().is_none());
}

fn come_and_go(rt: &impl Abort, alloc: Global, rows: &mut Rows) -> Result<(), AllocError>
    requires { HasNumbersOf (fixed_layout SMALL) rows.old }
{
    assert_listed(rt, rows, &[2, 4]);
    insert_new(alloc, rows, 1)?;
    assert!(rt; rows.lowest_unused(0) == Some(3));
    assert!(rt; take_out(rows, 2) == Some(2));
    assert_listed(rt, rows, &[1, 4]);
    Ok(())
}

#[test]
fn given_rows_are_listed_by_their_numbers_and_come_and_go(rt: HostRuntime) -> Result<(), Fail> {
    let mut rows = two_files(rt.alloc())?;
    Ok(come_and_go(&rt, rt.alloc(), &mut rows)?)
}
