//! Names at the edges in an index, with ample memory.

use crate::checks::{check, check_at};
use nv_names::{NameIndex, Target};
use std::alloc::{AllocError, Global};
use std::process::Abort;

/// Names of 1, 40, 41 and 255 bytes, names that begin one another, and bytes above 127, in no order.
fn edge_names(alloc: Global) -> Result<Vec<Vec<u8>>, AllocError> {
    let mut names = Vec::new(alloc);
    for &(byte, count) in [
        (b'a', 41),
        (0xff, 1),
        (b'a', 1),
        (b'z', 255),
        (b'a', 2),
        (0x80, 3),
        (b'a', 40),
    ]
    .iter()
    {
        names.push(vec![in alloc; byte; count]?)?;
    }
    Ok(names)
}

/// The places of these names in the order of their bytes.
const RISING: [u64; 7] = [2, 4, 6, 0, 3, 5, 1];

/// Each name gets its place in the list: one with an odd place where room was made, and any other where none was.
fn put_all(index: &mut NameIndex, names: &[Vec<u8>]) -> Result<(), AllocError> {
    for (place, name) in names.iter().enumerate() {
        if name.is_empty() || name.len() > 255 {
            continue;
        }
        if place % 2 == 0 {
            index.insert(name, 7, place as u64)?;
        } else {
            index.reserve(1)?;
            index.add(name, 7, place as u64);
        }
    }
    Ok(())
}

/// Each name stands for inode 7 at its place in the list.
fn assert_named(rt: &impl Abort, index: &NameIndex, names: &[Vec<u8>]) {
    check(rt, index.len() == names.len(), "how many names");
    for (place, name) in names.iter().enumerate() {
        let target = Target {
            inode: 7,
            place: place as u64,
        };
        let is_found = index.get(name) == Some(target);
        check_at(rt, is_found, "a name", place as u64);
    }
}

fn assert_rising(rt: &impl Abort, index: &NameIndex) {
    let listed = index.list().expect(rt, "memory");
    check(rt, listed.len() == 7, "how many names are listed");
    for (line, place) in listed.iter().zip(&RISING) {
        check_at(rt, line.place == *place, "a listed name", *place);
    }
}

/// The last name goes, and no other.
fn assert_last_goes(rt: &impl Abort, index: &mut NameIndex, names: &[Vec<u8>]) {
    if let Some((last, others)) = names.split_last() {
        index.remove(last);
        check(rt, index.get(last).is_none(), "the last name");
        assert_named(rt, index, others);
    }
}

fn are_told_apart(rt: &impl Abort, index: &mut NameIndex, names: &[Vec<u8>]) {
    check(rt, index.is_empty(), "an empty index");
    check(rt, put_all(index, names).is_ok(), "memory");
    assert_named(rt, index, names);
    assert_rising(rt, index);
    assert_last_goes(rt, index, names);
}

#[test]
fn names_at_the_edges_are_told_apart_and_listed(rt: HostRuntime) {
    let names = edge_names(rt.alloc()).expect(&rt, "memory");
    let mut index = NameIndex::new(rt.alloc());
    are_told_apart(&rt, &mut index, &names);
}
