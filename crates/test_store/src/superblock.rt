//! The superblock of small regions, and the order of faults.

ghost use Rattle.nv_region.specs.Region.{HasBlocks};

use crate::checks::{check, check_at};
use crate::small::new_region;
use nv_region::{MemRegion, Pmem, Stopped};
use nv_super::{Fault, Owner, Super, SuperFault, read_super, sort_faults, write_super};
use std::alloc::AllocError;
use std::process::Abort;

const MAGIC: u64 = 0x3130_4d50_4156_4f4e;

const TWO_CPUS: Super = Super {
    version: 1,
    cpus: 2,
    blocks: 64,
    table_blocks: 1,
    state: 0,
};

/// What is read of a superblock, once a word at this address was stored.
fn assert_super(rt: &impl Abort, memory: &MemRegion, at: u64, wanted: Result<Super, SuperFault>) {
    check_at(rt, read_super(memory) == wanted, "after a word", at);
}

/// Stores the superblock of two CPUs.
fn write_two(memory: &mut MemRegion) -> Result<(), Stopped>
    requires { HasBlocks memory.old.region 64 }
    ensures { HasBlocks memory.new.region 64 }
{
    write_super(memory, &TWO_CPUS)?;
    store(memory, 0, MAGIC)
}

/// Words that are stored one after another, and the fault that is told then.
const FIRST_FAULTS: [(u64, u64, SuperFault); 6] = [
    (40, 2, SuperFault::State),
    (32, 31, SuperFault::Tables),
    (24, 65, SuperFault::Blocks),
    (16, 65, SuperFault::Cpus),
    (8, 3, SuperFault::Version),
    (8, 0, SuperFault::Version),
];

fn store(memory: &mut MemRegion, at: u64, word: u64) -> Result<(), Stopped>
    requires { HasBlocks memory.old.region 64 }
    ensures { HasBlocks memory.new.region 64 }
{
    if at % 8 == 0 && at < 262_144 {
        memory.store(at, word)?;
    }
    Ok(())
}

fn faults_are_told(rt: &impl Abort, memory: &mut MemRegion)
    requires { HasBlocks memory.old.region 64 }
{
    for &(at, word, fault) in FIRST_FAULTS.iter() {
        check_at(rt, store(memory, at, word).is_ok(), "a store", at);
        assert_super(rt, memory, at, Err(fault));
    }
}

fn is_read_as_written(rt: &impl Abort, memory: &mut MemRegion)
    requires { HasBlocks memory.old.region 64 }
{
    assert_super(rt, memory, 0, Err(SuperFault::Magic));
    check(rt, write_two(memory).is_ok(), "the superblock is written");
    assert_super(rt, memory, 0, Ok(TWO_CPUS));
    check(rt, store(memory, 8, 2).is_ok(), "a store");
    let in_version_2 = Super {
        version: 2,
        ..TWO_CPUS
    };
    assert_super(rt, memory, 8, Ok(in_version_2));
    faults_are_told(rt, memory);
}

#[test]
fn a_superblock_reads_as_it_was_written_and_its_first_fault_is_told(rt: HostRuntime) {
    let mut region = new_region(&rt, rt.alloc(), 64);
    is_read_as_written(&rt, &mut region);
}

/// The system blocks, the pools, slots 1 and 2, and the bounds of inodes.
fn areas() -> [u64; 9] {
    let sup = TWO_CPUS;
    let (first, border) = sup.pool(0);
    let (second, end) = sup.pool(1);
    [
        sup.system_blocks(),
        first,
        border,
        second,
        end,
        sup.slot_address(1),
        sup.slot_address(2),
        sup.inode_limit(),
        sup.max_inode(),
    ]
}

/// The last number that a name may say and the one behind it, in version 1 and 2.
fn names() -> [bool; 5] {
    let old = TWO_CPUS;
    let new = Super { version: 2, ..old };
    [
        old.is_name_number(63),
        old.is_name_number(64),
        new.is_name_number(0),
        new.is_name_number(3721),
        new.is_name_number(3722),
    ]
}

#[test]
fn areas_lie_where_the_layout_says(rt: HostRuntime) {
    let wanted = [5, 5, 34, 34, 64, 16384, 12416, 64, 63];
    check(&rt, areas() == wanted, "the areas");
    check(
        &rt,
        names() == [true, false, false, true, false],
        "the names",
    );
}

const LOG: Owner = Owner::Log { inode: 2, page: 0 };

const DATA: Owner = Owner::Data { inode: 2, page: 0 };

const TABLE: Owner = Owner::Table { cpu: 63, place: 9 };

const UNSORTED: [Fault; 7] = [
    Fault::B1 {
        block: 8,
        owner: DATA,
    },
    Fault::C5,
    Fault::B1 {
        block: 8,
        owner: LOG,
    },
    Fault::J2 {
        cpu: 0,
        record: 251,
    },
    Fault::C5,
    Fault::B1 {
        block: 8,
        owner: TABLE,
    },
    Fault::J2 { cpu: 0, record: 0 },
];

const SORTED: [Fault; 6] = [
    Fault::J2 { cpu: 0, record: 0 },
    Fault::J2 {
        cpu: 0,
        record: 251,
    },
    Fault::C5,
    Fault::B1 {
        block: 8,
        owner: TABLE,
    },
    Fault::B1 {
        block: 8,
        owner: LOG,
    },
    Fault::B1 {
        block: 8,
        owner: DATA,
    },
];

#[test]
fn faults_rise_by_class_and_fields(rt: HostRuntime) -> Result<(), AllocError> {
    let mut faults = Vec::from_array(rt.alloc(), UNSORTED)?;
    sort_faults(&mut faults);
    check(&rt, faults.as_slice() == SORTED.as_slice(), "the order");
    Ok(())
}
