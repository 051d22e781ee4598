//! Chains of tables in small regions of version 2. Their superblock isn't stored: these calls are given one.

mod worked;

ghost use Rattle.std.specs.Prelude.{◌≡◌};
ghost use Rattle.nv_region.specs.Region.{HasBlocks};
ghost use Rattle.nv_super.specs.Layout.{IsLayout};
ghost use Rattle.nv_inode.specs.Chains.{layout_of};

use crate::checks::{check, check_at};
use crate::small::{SMALL, Word, assert_words, new_region, small_region};
use nv_inode::{Tables, link_block, read_tables, upgrade_tables};
use nv_region::{Fuse, MemRegion, Pmem, Stopped};
use nv_super::{Fault, Super};
use std::alloc::Global;
use std::process::Abort;

// The fixed table has the slots of the numbers up to 31.
const ONE_CPU: Super = Super {
    version: 2,
    ..SMALL
};

// Their fixed tables have the slots of the numbers up to 63, those of CPU 1 the odd ones.
const TWO_CPUS: Super = Super {
    version: 2,
    cpus: 2,
    ..SMALL
};

/// An inode, and the address of its slot if it has one.
type Place = (u64, Option<u64>);

/// The words of a region, the faults of its chains, and slots of its tables.
type Row<'a> = (&'a [Word], &'a [Fault], &'a [Place]);

// Blocks 9 and 5, in this order.
const TWO_BLOCKS: [Word; 2] = [(4112, 36864), (36864, 20480)];

const RING: [Word; 3] = [(4112, 36864), (36864, 20480), (20480, 36864)];

const RING_OF_ONE: [Word; 2] = [(4112, 36864), (36864, 36864)];

// Block 7, the third, leads back to the second.
const BACK_TO_THE_SECOND: [Word; 4] = [
    (4112, 36864),
    (36864, 20480),
    (20480, 28672),
    (28672, 20480),
];

// The second link doesn't lead to the start of a block.
const WRONG: [Word; 2] = [(4112, 36864), (36864, 20488)];

// The last data block, and the first.
const LAST_AND_FIRST: [Word; 2] = [(4112, 61440), (61440, 12288)];

/// Links that lead to no data block: to the journal itself, into one, behind the last, and to nowhere.
const NO_DATA_BLOCKS: [u64; 6] = [1, 4096, 36872, 65536, 61441, u64::MAX];

const SLOTS_OF_TWO: [Place; 8] = [
    (0, None),
    (1, Some(8320)),
    (31, Some(12160)),
    (32, Some(36992)),
    (62, Some(40832)),
    (63, Some(20608)),
    (93, Some(24448)),
    (94, None),
];

const OF_ONE_CPU: [Row<'static>; 8] = [
    (&[(4104, 36864)], &[], &[(31, Some(12160)), (32, None)]),
    (&TWO_BLOCKS, &[], &SLOTS_OF_TWO),
    (&RING, &[Fault::H2 { cpu: 0, at: 20480 }], &SLOTS_OF_TWO),
    (
        &WRONG,
        &[Fault::H1 { cpu: 0, at: 36864 }],
        &[(62, Some(40832)), (63, None)],
    ),
    (
        &[(4112, 8192)],
        &[Fault::H1 { cpu: 0, at: 4112 }],
        &[(31, Some(12160)), (32, None)],
    ),
    (
        &RING_OF_ONE,
        &[Fault::H2 { cpu: 0, at: 36864 }],
        &[(32, Some(36992)), (62, Some(40832)), (63, None)],
    ),
    (
        &BACK_TO_THE_SECOND,
        &[Fault::H2 { cpu: 0, at: 28672 }],
        &[(93, Some(24448)), (94, Some(28800)), (125, None)],
    ),
    (
        &LAST_AND_FIRST,
        &[],
        &[(62, Some(65408)), (63, Some(12416)), (94, None)],
    ),
];

// The chains of two CPUs meet in block 12, and go on to block 13: there each of them has a slot in the same place.
const MEETING: [Word; 5] = [
    (4112, 40960),
    (40960, 49152),
    (8208, 45056),
    (45056, 49152),
    (49152, 53248),
];

// One ring, which each CPU's chain enters at another block.
const ENTERED_TWICE: [Word; 4] = [(4112, 40960), (40960, 45056), (8208, 45056), (45056, 40960)];

// CPU 0 has no chain, that of CPU 1 is block 10; and both lead to block 10, of which each has a slot in the same place.
const OF_TWO_CPUS: [Row<'static>; 4] = [
    (
        &[(8208, 40960)],
        &[],
        &[(63, Some(20352)), (64, None), (65, Some(41088))],
    ),
    (
        &[(4112, 40960), (8208, 40960), (40960, 1)],
        &[
            Fault::H1 { cpu: 0, at: 40960 },
            Fault::H1 { cpu: 1, at: 40960 },
        ],
        &[(64, Some(41088)), (65, Some(41088)), (66, Some(41216))],
    ),
    (
        &MEETING,
        &[],
        &[
            (126, Some(49280)),
            (127, Some(49280)),
            (188, Some(53376)),
            (189, Some(53376)),
            (250, None),
        ],
    ),
    (
        &ENTERED_TWICE,
        &[
            Fault::H2 { cpu: 0, at: 45056 },
            Fault::H2 { cpu: 1, at: 40960 },
        ],
        &[(64, Some(41088)), (65, Some(45184)), (127, Some(41088))],
    ),
];

// No chain is read in version 1.
const OF_VERSION_1: [Row<'static>; 1] = [(&RING, &[], &[(31, Some(12160)), (32, None)])];

/// The tables of a region with this superblock.
pub(crate) fn tables_of(rt: &impl Abort, alloc: Global, memory: &MemRegion, sup: &Super) -> Tables
    requires layout { IsLayout sup.now }
    requires blocks { HasBlocks memory.now.region sup.now.blocks }
    ensures { result.layout ≡ layout_of sup.now memory.now.region }
{
    match read_tables(alloc, memory, sup) {
        Ok(tables) => tables,
        Err(_) => rt.panic("no room for the tables"),
    }
}

fn assert_slots(rt: &impl Abort, tables: &Tables, slots: &[Place]) {
    for (inode, at) in slots {
        check_at(rt, tables.slot_address(*inode) == *at, "a slot", *inode);
    }
}

fn assert_tables(rt: &impl Abort, alloc: Global, sup: &Super, row: &Row)
    requires layout { IsLayout sup.now }
    requires blocks { sup.now.blocks ≡ 16 }
{
    let (words, faults, slots) = *row;
    let memory = small_region(rt, alloc, words);
    let tables = tables_of(rt, alloc, &memory, sup);
    check(rt, tables.faults() == faults, "the faults of the chains");
    assert_slots(rt, &tables, slots);
}

fn assert_rows(rt: &impl Abort, alloc: Global, sup: &Super, rows: &[Row])
    requires layout { IsLayout sup.now }
    requires blocks { sup.now.blocks ≡ 16 }
{
    for row in rows {
        assert_tables(rt, alloc, sup, row);
    }
}

#[test]
fn chains_are_read_to_their_ends(rt: HostRuntime) {
    assert_rows(&rt, rt.alloc(), &ONE_CPU, &OF_ONE_CPU);
    assert_rows(&rt, rt.alloc(), &TWO_CPUS, &OF_TWO_CPUS);
    assert_rows(&rt, rt.alloc(), &SMALL, &OF_VERSION_1);
}

#[test]
fn a_chain_ends_where_no_data_block_begins(rt: HostRuntime) {
    let faults = [Fault::H1 { cpu: 0, at: 36864 }];
    for link in NO_DATA_BLOCKS.iter() {
        let words = [(4112, 36864), (36864, *link)];
        let row: Row<'_> = (&words, &faults, &[(62, Some(40832)), (63, None)]);
        assert_tables(&rt, rt.alloc(), &ONE_CPU, &row);
    }
}

/// Sixteen blocks of bytes 255 but for these words.
fn full_region(rt: &impl Abort, alloc: Global, words: &[Word]) -> MemRegion
    ensures { HasBlocks result.region 16 }
{
    let mut memory = new_region(rt, alloc, 16);
    fill(&mut memory);
    put_all(&mut memory, words);
    memory
}

fn fill(memory: &mut MemRegion)
    requires { HasBlocks memory.old.region 16 }
    ensures { HasBlocks memory.new.region 16 }
{
    for word in 0..8192u64 {
        let _unstopped = memory.store(8 * word, u64::MAX);
    }
}

fn put_all(memory: &mut MemRegion, words: &[Word])
    requires { HasBlocks memory.old.region 16 }
    ensures { HasBlocks memory.new.region 16 }
{
    for (at, word) in words {
        if *at % 8 == 0 && *at < 65536 {
            let _unstopped = memory.store(*at, *word);
        }
    }
}

fn assert_full(rt: &impl Abort, alloc: Global, sup: &Super, faults: &[Fault])
    requires layout { IsLayout sup.now }
    requires blocks { sup.now.blocks ≡ 16 }
{
    let memory = full_region(rt, alloc, &[]);
    let tables = tables_of(rt, alloc, &memory, sup);
    check(rt, tables.faults() == faults, "the faults of full blocks");
    assert_slots(rt, &tables, &[(63, Some(20352)), (64, None)]);
}

#[test]
fn bytes_of_255_lead_nowhere(rt: HostRuntime) {
    let faults = [
        Fault::H1 { cpu: 0, at: 4112 },
        Fault::H1 { cpu: 1, at: 8208 },
    ];
    assert_full(&rt, rt.alloc(), &TWO_CPUS, &faults);
    let version_1 = Super {
        version: 1,
        ..TWO_CPUS
    };
    assert_full(&rt, rt.alloc(), &version_1, &[]);
}

// Of slot 32, of the links, and of the fixed table.
const PERMITTED: [(u64, bool); 10] = [
    (36992, true),
    (37008, true),
    (37016, true),
    (37000, false),
    (36864, false),
    (36880, false),
    (4112, false),
    (8320, true),
    (8192, false),
    (12288, false),
];

fn assert_permitted(rt: &impl Abort, alloc: Global) {
    let memory = small_region(rt, alloc, &TWO_BLOCKS);
    let tables = tables_of(rt, alloc, &memory, &ONE_CPU);
    for &(at, permitted) in PERMITTED.iter() {
        check_at(rt, tables.permits(at) == permitted, "a word", at);
    }
    let blocks = [9, 5, 8].map(|block| tables.has_block(block));
    check(rt, blocks == [true, true, false], "the blocks of the chain");
}

#[test]
fn a_journal_may_name_words_of_slots_in_chains(rt: HostRuntime) {
    assert_permitted(&rt, rt.alloc());
}

/// Makes version 2 of the region, and a chain of blocks 9 and 5.
fn grow(memory: &mut MemRegion) -> Result<(), Stopped>
    requires { HasBlocks memory.old.region 16 }
    ensures { HasBlocks memory.new.region 16 }
{
    upgrade(memory)?;
    link(memory, 4112, 9)?;
    link(memory, 36864, 5)
}

fn upgrade(memory: &mut MemRegion) -> Result<(), Stopped>
    requires { HasBlocks memory.old.region 16 }
    ensures { HasBlocks memory.new.region 16 }
{
    upgrade_tables(memory, &SMALL)
}

fn link(memory: &mut MemRegion, at: u64, block: u64) -> Result<(), Stopped>
    requires { HasBlocks memory.old.region 16 }
    ensures { HasBlocks memory.new.region 16 }
{
    if at % 8 == 0 && at < 65536 && block < 16 && at / 4096 != block {
        link_block(memory, at, block)?;
    }
    Ok(())
}

// A link of another time, and words of block 9 that would be slots in use.
const USED: [Word; 4] = [(4112, 8192), (36864, 45056), (36992, 1), (40832, 1)];

const GROWN: [Word; 6] = [
    (8, 2),
    (4112, 36864),
    (36864, 20480),
    (36992, 0),
    (40832, 0),
    (20480, 0),
];

fn assert_grown(rt: &impl Abort, alloc: Global) {
    let mut memory = small_region(rt, alloc, &USED);
    check(rt, grow(&mut memory).is_ok(), "the table grows");
    assert_words(rt, &memory, &GROWN);
    let tables = tables_of(rt, alloc, &memory, &ONE_CPU);
    check(rt, tables.faults().is_empty(), "no fault of a chain");
    assert_slots(rt, &tables, &SLOTS_OF_TWO);
}

// Of each slot the valid word is stored, and nothing else but the links.
const GROWN_IN_FULL: [Word; 10] = [
    (4104, u64::MAX),
    (4112, 36864),
    (4120, u64::MAX),
    (36864, 20480),
    (36872, u64::MAX),
    (36992, 0),
    (37000, u64::MAX),
    (40832, 0),
    (20480, 0),
    (24576, u64::MAX),
];

fn assert_grown_in_full(rt: &impl Abort, alloc: Global) {
    let mut memory = full_region(rt, alloc, &[]);
    check(rt, grow(&mut memory).is_ok(), "the table grows");
    assert_words(rt, &memory, &GROWN_IN_FULL);
    let tables = tables_of(rt, alloc, &memory, &ONE_CPU);
    check(rt, tables.faults().is_empty(), "no fault of a chain");
    assert_slots(rt, &tables, &SLOTS_OF_TWO);
}

#[test]
fn a_table_grows_by_blocks_without_slots_in_use(rt: HostRuntime) {
    assert_grown(&rt, rt.alloc());
    assert_grown_in_full(&rt, rt.alloc());
}

/// After so many stores and fences: the first link, the version, and the valid word of slot 32.
const STOPPED: [(u64, u64, u64, u64); 5] = [
    (0, 8192, 0, 1),
    (2, 0, 0, 1),
    (3, 0, 2, 1),
    (37, 0, 2, 0),
    (38, 36864, 2, 0),
];

fn assert_stopped(rt: &impl Abort, alloc: Global) {
    for &(steps, link, version, valid) in STOPPED.iter() {
        let mut memory = small_region(rt, alloc, &USED);
        memory.set_fuse(Fuse::After(steps));
        check(rt, grow(&mut memory).is_err(), "the stop");
        assert_words(rt, &memory, &[(4112, link), (8, version), (36992, valid)]);
    }
}

#[test]
fn a_block_is_linked_behind_its_zeros_alone(rt: HostRuntime) {
    assert_stopped(&rt, rt.alloc());
}
