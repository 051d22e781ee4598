//! Journals of a small region, undone.

mod changes;

ghost use Rattle.std.specs.Prelude.{◌≡◌};
ghost use Rattle.nv_region.specs.Region.{HasBlocks};
ghost use Rattle.nv_super.specs.Layout.{IsLayout};

use crate::checks::check;
use crate::small::{SMALL, Word, assert_words, small_region};
use nv_journal::undo;
use nv_region::{Fuse, MemRegion};
use nv_super::{Fault, Super};
use std::alloc::Global;
use std::process::Abort;

// Two CPUs: their journals are blocks 1 and 2, the tables blocks 3 and 4. Slot 2 begins at 12416.
const TWO: Super = Super {
    version: 1,
    cpus: 2,
    blocks: 16,
    table_blocks: 1,
    state: 0,
};

// The small region in version 2, whose tables have chains.
const GROWN: Super = Super {
    version: 2,
    cpus: 1,
    blocks: 16,
    table_blocks: 1,
    state: 0,
};

// Records 250, 251 and 0 are pending. The first two name the tail of slot 1.
const WRAPPED: [Word; 11] = [
    (4096, 250),
    (4104, 1),
    (8160, 8344),
    (8168, 12320),
    (8176, 8344),
    (8184, 12328),
    (4160, 8336),
    (4168, 12288),
    (8320, 1),
    (8336, 12288),
    (8344, 12344),
];

/// An undo tells these faults.
fn assert_undone(
    rt: &impl Abort,
    alloc: Global,
    memory: &mut MemRegion,
    sup: &Super,
    told: &[Fault],
)
    requires layout { IsLayout sup.now }
    requires blocks { HasBlocks memory.old.region sup.now.blocks }
    ensures { HasBlocks memory.new.region sup.now.blocks }
{
    let faults = undo(alloc, memory, sup).expect(rt, "an undo");
    check(rt, faults.as_slice() == told, "the faults that are told");
}

const ROLLED_BACK: [Word; 3] = [(8344, 12320), (8336, 12288), (4096, 1)];

// The pointer is too large, and stays.
const TOO_LARGE: [Word; 3] = [(4096, 252), (4160, 8344), (4168, 5)];

// The address is not permitted, and is skipped.
const NOT_PERMITTED: [Word; 3] = [(4104, 1), (4160, 4096), (4168, 77)];

// Records 251 and 0 of the first journal name words that none may, and a pointer of the second is too large.
const FAULTY: [Word; 5] = [
    (4096, 251),
    (4104, 1),
    (8176, 12416 + 8),
    (4160, 12416 + 32),
    (8200, 300),
];

// They rise by class and then by record.
const RISING: [Fault; 3] = [
    Fault::J1 { cpu: 1 },
    Fault::J2 { cpu: 0, record: 0 },
    Fault::J2 {
        cpu: 0,
        record: 251,
    },
];

// Both journals name the head of slot 2, the second one twice.
const NAMED_BY_BOTH: [Word; 10] = [
    (4104, 2),
    (4160, 12416 + 24),
    (4168, 1),
    (4176, 12416),
    (4184, 2),
    (8200, 2),
    (8256, 12416 + 24),
    (8264, 3),
    (8272, 12416 + 24),
    (8280, 4),
];

// The highest journal that names a word counts.
const HIGHEST: [Word; 4] = [(12416 + 24, 3), (12416, 2), (4096, 2), (8192, 2)];

// One of the numbers is too large. No store is caused, so a fuse that takes none doesn't stop the undo.
const NOTHING_PENDING: [Word; 3] = [(4096, 7), (4104, 7), (8192, 252)];

// The chain has block 9. The records name the tail of a slot there, both links, and a word of a block of no chain.
const IN_A_CHAIN: [Word; 11] = [
    (4112, 36864),
    (4104, 4),
    (4160, 37016),
    (4168, 5),
    (4176, 36864),
    (4184, 7),
    (4192, 4112),
    (4200, 0),
    (4208, 20632),
    (4216, 7),
    (37016, 3),
];

// The tail alone is rolled back.
const CHAIN_ROLLED_BACK: [Word; 5] = [(37016, 5), (36864, 0), (4112, 36864), (20632, 0), (4096, 4)];

// In version 1 no data block has slots.
const CHAIN_UNREAD: [Word; 3] = [(37016, 3), (4112, 36864), (4096, 4)];

// Neither the links nor a word of a block of no chain.
const NO_PLACES: [Fault; 3] = [
    Fault::J2 { cpu: 0, record: 1 },
    Fault::J2 { cpu: 0, record: 2 },
    Fault::J2 { cpu: 0, record: 3 },
];

const NO_SLOTS: [Fault; 4] = [
    Fault::J2 { cpu: 0, record: 0 },
    Fault::J2 { cpu: 0, record: 1 },
    Fault::J2 { cpu: 0, record: 2 },
    Fault::J2 { cpu: 0, record: 3 },
];

/// The words of a region, its fuse, the faults that an undo tells, the words that it leaves, and the faults that another
/// one tells, which leaves the same words.
type Row<'a> = (&'a [Word], Fuse, &'a [Fault], &'a [Word], &'a [Fault]);

const OF_ONE_CPU: [Row<'static>; 3] = [
    (&WRAPPED, Fuse::Off, &[], &ROLLED_BACK, &[]),
    (
        &TOO_LARGE,
        Fuse::Off,
        &[Fault::J1 { cpu: 0 }],
        &[(4096, 252), (8344, 0)],
        &[Fault::J1 { cpu: 0 }],
    ),
    (
        &NOT_PERMITTED,
        Fuse::Off,
        &[Fault::J2 { cpu: 0, record: 0 }],
        &[(4096, 1)],
        &[],
    ),
];

const OF_TWO_CPUS: [Row<'static>; 3] = [
    (
        &FAULTY,
        Fuse::Off,
        &RISING,
        &[(8200, 300)],
        &[Fault::J1 { cpu: 1 }],
    ),
    (&NAMED_BY_BOTH, Fuse::Off, &[], &HIGHEST, &[]),
    (
        &NOTHING_PENDING,
        Fuse::After(0),
        &[Fault::J1 { cpu: 1 }],
        &NOTHING_PENDING,
        &[Fault::J1 { cpu: 1 }],
    ),
];

/// An undo and another one tell and leave what the row says.
fn assert_undone_twice(
    rt: &impl Abort,
    alloc: Global,
    memory: &mut MemRegion,
    sup: &Super,
    row: &Row<'_>,
)
    requires layout { IsLayout sup.now }
    requires blocks { HasBlocks memory.old.region sup.now.blocks }
{
    let (_, fuse, told, left, again) = *row;
    memory.set_fuse(fuse);
    assert_undone(rt, alloc, memory, sup, told);
    assert_words(rt, memory, left);
    assert_undone(rt, alloc, memory, sup, again);
    assert_words(rt, memory, left);
}

fn is_undone(rt: &impl Abort, alloc: Global, sup: &Super, row: &Row<'_>)
    requires layout { IsLayout sup.now }
    requires blocks { sup.now.blocks ≡ 16 }
{
    let mut memory = small_region(rt, alloc, row.0);
    assert_undone_twice(rt, alloc, &mut memory, sup, row);
}

const BY_CHAINS: Row<'static> = (&IN_A_CHAIN, Fuse::Off, &NO_PLACES, &CHAIN_ROLLED_BACK, &[]);

const BY_FIXED_TABLES: Row<'static> = (&IN_A_CHAIN, Fuse::Off, &NO_SLOTS, &CHAIN_UNREAD, &[]);

#[test]
fn pending_records_are_undone_and_faults_told(rt: HostRuntime) {
    for row in OF_ONE_CPU.iter() {
        is_undone(&rt, rt.alloc(), &SMALL, row);
    }
    for row in OF_TWO_CPUS.iter() {
        is_undone(&rt, rt.alloc(), &TWO, row);
    }
    is_undone(&rt, rt.alloc(), &GROWN, &BY_CHAINS);
    is_undone(&rt, rt.alloc(), &SMALL, &BY_FIXED_TABLES);
}
