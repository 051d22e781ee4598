//! Regions over borrowed bytes, and what their front takes.

use super::{Answered, Step, assert_steps};
use crate::checks::check;
use crate::small::Word;
use nv_region::{ImageRegion, Stopped};
use std::alloc::Global;
use std::process::Abort;

const BLOCK: u64 = 4096;

/// Each word of a region of bytes that are 1.
const ONES: u64 = 0x0101_0101_0101_0101;

/// The blocks of the front, steps, and words that they leave.
type Row<'a> = (u64, &'a [Answered], &'a [Word]);

// A store behind the front is refused, and so is what follows it.
const ROWS: [Row<'static>; 3] = [
    (
        1,
        &[(Step::Store(BLOCK - 8, 7), Ok(())), (Step::Fence, Ok(()))],
        &[(0, ONES), (BLOCK - 8, 7), (BLOCK, ONES)],
    ),
    (
        1,
        &[
            (Step::Store(BLOCK, 7), Err(Stopped)),
            (Step::Store(0, 7), Err(Stopped)),
            (Step::Fence, Err(Stopped)),
        ],
        &[(0, ONES), (BLOCK, ONES)],
    ),
    (
        2,
        &[
            (Step::Store(2 * BLOCK - 8, 7), Ok(())),
            (Step::Store(8, 9), Ok(())),
        ],
        &[(0, ONES), (8, 9), (BLOCK, ONES), (2 * BLOCK - 8, 7)],
    ),
];

// Whether many threads may read it, and another own it.
fn is_shared<M: Sync + Send>(_memory: &M) -> bool {
    true
}

fn assert_front(rt: &impl Abort, region: &mut ImageRegion<'_>, row: &Row<'_>) {
    let (front, steps, words) = *row;
    check(rt, region.open_front(front).is_ok(), "the front");
    check(rt, is_shared(region), "a shared region");
    assert_steps(rt, region, steps, words);
}

fn is_image(rt: &impl Abort, alloc: Global, row: &Row<'_>) {
    let mut region = ImageRegion::from_bytes(alloc, &[1; 12_288]).expect(rt, "a region");
    assert_front(rt, &mut region, row);
}

#[test]
fn the_front_of_a_region_over_bytes_takes_stores(rt: HostRuntime) {
    for row in ROWS.iter() {
        is_image(&rt, rt.alloc(), row);
    }
}
