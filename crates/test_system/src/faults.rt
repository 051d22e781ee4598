//! Small rows, written by hand. Inodes have the numbers 1 to 31.

use crate::rows::row;
use crate::small::small_tables;
use nv_claimmap::ClaimedRuns;
use nv_cross_check::{cross_faults, doubled};
use nv_names::NameIndex;
use nv_numbered::Chunks;
use nv_scan::RowList;
use nv_super::{Fault, Kind, Owner, Run};
use std::alloc::{AllocError, Global};
use std::process::Abort;
use std::test::Fail;

/// One name, of this inode and at this place.
fn one_name(alloc: Global, inode: u64, place: u64) -> Result<NameIndex, AllocError> {
    let mut names = NameIndex::new(alloc);
    names.reserve(1)?;
    names.add(b"a", inode, place);
    Ok(names)
}

/// The names of the root: inode 2, and inode 9, which has no row.
fn root_names(alloc: Global) -> Result<NameIndex, AllocError> {
    let mut names = one_name(alloc, 2, 12288)?;
    names.reserve(1)?;
    names.add(b"b", 9, 12352);
    Ok(names)
}

const FOUND: [Fault; 4] = [
    Fault::C1 {
        directory: 1,
        at: 12352,
    },
    Fault::C3 { inode: 2 },
    Fault::C4 { inode: 3 },
    Fault::C4 { inode: 4 },
];

fn assert_faults(rt: &impl Abort, faults: &[Fault]) {
    assert!(rt; faults == FOUND.as_slice());
}

/// Inode 2 is a file of two links. Inodes 3 and 4 name each other. The rows come in no order.
#[test]
fn faults_between_four_rows(rt: HostRuntime) -> Result<(), Fail> {
    let alloc = rt.alloc();
    let names = root_names(alloc)?;
    let names_of_3 = one_name(alloc, 4, 16384)?;
    let names_of_4 = one_name(alloc, 3, 20480)?;
    let mut rows = Chunks::new(alloc);
    rows.push(row(alloc, 3, Kind::Directory, 1, names_of_3))?;
    rows.push(row(alloc, 1, Kind::Directory, 1, names))?;
    rows.push(row(alloc, 4, Kind::Directory, 1, names_of_4))?;
    rows.push(row(alloc, 2, Kind::File, 2, NameIndex::new(alloc)))?;
    let rows = RowList::of(alloc, rows)?;
    let tables = small_tables(alloc)?;
    let found = cross_faults(alloc, &tables, &rows)?;
    assert_faults(&rt, &found);
    Ok(())
}

/// Block 5 is in the second set, and blocks 4 and 6 aren't.
#[test]
fn both_owners_of_a_block_are_told(rt: HostRuntime) -> Result<(), AllocError> {
    let first = Owner::Log { inode: 2, page: 0 };
    let mut claims = ClaimedRuns::new(rt.alloc());
    claims.push(
        Run { start: 4, count: 3 },
        Owner::Data { inode: 3, page: 1 },
    )?;
    claims.push(Run { start: 5, count: 1 }, first)?;
    let found = doubled(rt.alloc(), &claims, &[32])?;
    let second = Owner::Data { inode: 3, page: 2 };
    assert!(rt; found.as_slice() == &[(5, first), (5, second)][..]);
    Ok(())
}
