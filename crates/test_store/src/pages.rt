//! Runs of pages that are mapped in a file index and in a map of extents, with ample memory.

use crate::checks::check;
use nv_radix::{Extent, ExtentMap, FileIndex};
use std::alloc::{AllocError, Global};

const fn extent(page: u64, block: u64, count: u64) -> Extent {
    Extent { page, block, count }
}

/// A run over two leaves, a later one over a part of it, and a cut.
fn extents_of_index(alloc: Global) -> Result<Vec<Extent>, AllocError> {
    let mut index = FileIndex::new(alloc);
    index.reserve(60, 10)?;
    index.set_run(60, 500, 10);
    index.reserve(62, 2)?;
    index.set_run(62, 40, 2);
    index.cut(68);
    index.runs()
}

#[test]
fn a_run_takes_the_place_of_an_older_one(rt: HostRuntime) {
    let extents = extents_of_index(rt.alloc()).expect(&rt, "memory");
    let wanted = [extent(60, 500, 2), extent(62, 40, 2), extent(64, 504, 4)];
    check(&rt, extents.as_slice() == wanted.as_slice(), "the extents");
}

/// The second run begins in front of the first. A write cuts what lies behind it.
fn extents_of_map(alloc: Global) -> Result<Vec<Extent>, AllocError> {
    let mut map = ExtentMap::new(alloc);
    map.set_run(2, 20, 6)?;
    map.set_run(0, 10, 2)?;
    map.cut(7)?;
    map.write_run(5, 3, 70, 1)?;
    let mut index = FileIndex::new(alloc);
    let mut extents = Vec::new(alloc);
    map.fill_index(&mut index, &mut extents)?;
    Ok(extents)
}

#[test]
fn a_write_cuts_what_lies_behind_it(rt: HostRuntime) {
    let extents = extents_of_map(rt.alloc()).expect(&rt, "memory");
    let wanted = [
        extent(0, 10, 2),
        extent(2, 20, 1),
        extent(3, 70, 1),
        extent(4, 22, 1),
    ];
    check(&rt, extents.as_slice() == wanted.as_slice(), "the extents");
}
