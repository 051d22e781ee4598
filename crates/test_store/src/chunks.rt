//! Lists of more than one chunk, which has 256 values, with ample memory.

use crate::checks::{check, check_at};
use nv_numbered::Chunks;
use std::alloc::{AllocError, Global};
use std::process::Abort;

/// The numbers of a range, rising.
fn numbers(alloc: Global, from: u64, end: u64) -> Result<Chunks<u64>, AllocError> {
    let mut values = Chunks::new(alloc);
    for number in from..end {
        values.push(number)?;
    }
    Ok(values)
}

/// A place with its value, or with none behind the last one.
type Place = (usize, Option<u64>);

/// So many values are there, and these places have these.
fn assert_values(rt: &impl Abort, values: &Chunks<u64>, count: usize, places: &[Place]) {
    check(rt, values.len() == count, "how many values");
    check(rt, values.is_empty() == (count == 0), "whether it's empty");
    for (place, value) in places {
        let found = values.get(*place).copied();
        check_at(rt, found == *value, "a value", *place as u64);
    }
}

/// The second list's full chunks, the first list, the second's rest, and a number.
const JOINED: [Place; 8] = [
    (0, Some(300)),
    (511, Some(811)),
    (512, Some(0)),
    (811, Some(299)),
    (812, Some(812)),
    (999, Some(999)),
    (1000, Some(7)),
    (1001, None),
];

#[test]
fn full_chunks_come_in_front_of_the_list_that_they_join(rt: HostRuntime) -> Result<(), AllocError> {
    let mut values = numbers(rt.alloc(), 0, 300)?;
    values.append(numbers(rt.alloc(), 300, 1000)?)?;
    values.reserve(1)?;
    values.push_reserved(7);
    assert_values(&rt, &values, 1001, &JOINED);
    Ok(())
}

#[test]
fn the_last_value_comes_to_the_place_of_a_removed_one(rt: HostRuntime) -> Result<(), AllocError> {
    let mut values = numbers(rt.alloc(), 0, 257)?;
    if values.len() > 3 {
        check(&rt, values.swap_remove(3) == 3, "the value of place 3");
    }
    check(&rt, values.pop() == Some(255), "the last value");
    if values.len() > 4 {
        *values.at_mut(4) = 9;
    }
    let places = [(3, Some(256)), (4, Some(9)), (254, Some(254)), (255, None)];
    assert_values(&rt, &values, 255, &places);
    Ok(())
}
