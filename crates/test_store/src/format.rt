//! Regions after format: the words that it stores, clears and leaves.

use crate::checks::check;
use crate::small::{SMALL, Word, assert_words, small_region};
use nv_format::format;
use nv_region::MemRegion;
use nv_super::{MAGIC, Super, read_super};
use std::alloc::Global;
use std::process::Abort;

const ROOT_ALONE: [Word; 20] = [
    (0, MAGIC),
    (8, 1),
    (16, 1),
    (24, 16),
    (32, 1),
    (40, 0),
    (4096, 0),
    (4104, 0),
    (8192, 0),
    (8320, 1),
    (8328, 2),
    (8336, 12_288),
    (8344, 12_320),
    (8352, 7),
    (8448, 0),
    (12_288, 0x01ed_0020_0002),
    (12_296, 0),
    (12_304, 7),
    (12_312, 0),
    (12_320, 0),
];

const USED: [Word; 9] = [
    (4096, 5),
    (4104, 5),
    (8192, 5),
    (12_288, 5),
    (14_208, 5),
    (14_216, 5),
    (20_480, 5),
    (20_488, 5),
    (20_496, 5),
];

const CLEARED_OR_KEPT: [Word; 11] = [
    (4096, 0),
    (4104, 0),
    (8192, 0),
    (12_288, 0),
    (14_208, 0),
    (14_216, 5),
    (16_384, 1),
    (16_400, 20_480),
    (20_480, 0x01ed_0020_0002),
    (20_488, 0),
    (20_496, 0),
];

// The first slot of the second CPU's table.
const ROOT: [Word; 5] = [
    (24_576, 1),
    (24_584, 2),
    (24_592, 36_864),
    (24_600, 36_896),
    (24_608, 9),
];

/// What a region holds, the CPUs, table blocks and time of a format, and words that it leaves.
type Row<'a> = (&'a [Word], u64, u64, u64, &'a [Word]);

const FORMATTED: [Row<'static>; 3] = [
    (&[], 1, 1, 7, &ROOT_ALONE),
    (&USED, 2, 1, 0, &CLEARED_OR_KEPT),
    (&[], 2, 3, 9, &ROOT),
];

fn assert_formatted(rt: &impl Abort, memory: &mut MemRegion, row: &Row<'_>) {
    let (_, cpus, table_blocks, time, after) = *row;
    let sup = Super {
        cpus,
        table_blocks,
        ..SMALL
    };
    let formatted = format(memory, cpus, table_blocks, time).is_ok();
    check(rt, formatted, "a format");
    check(rt, read_super(memory) == Ok(sup), "the superblock");
    assert_words(rt, memory, after);
}

fn is_formatted(rt: &impl Abort, alloc: Global, row: &Row<'_>) {
    let mut memory = small_region(rt, alloc, row.0);
    assert_formatted(rt, &mut memory, row);
}

// What the region held is cleared or kept, and its superblock is accepted.
#[test]
fn a_formatted_region_has_the_root_alone(rt: HostRuntime) {
    for row in FORMATTED.iter() {
        is_formatted(&rt, rt.alloc(), row);
    }
}
