//! What a worker of a recovery finds where tables have chains: the inodes of the slots there, and before them the claim of
//! each block for its table.

ghost use Rattle.std.specs.Prelude.{◌≡◌, ◌<◌, IfOk};
ghost use Rattle.nv_region.specs.Region.{HasBlocks};
ghost use Rattle.nv_super.specs.Layout.{IsLayout};
ghost use Rattle.nv_claimcore.specs.Claims.{nothing};

use super::{MEETING, ONE_CPU, TWO_CPUS, full_region, grow, put_all, tables_of};
use crate::checks::{check, check_at};
use crate::small::{Word, small_region};
use nv_claimcore::Sizes;
use nv_claimmap::{ClaimMap, ClaimSeat, Claimed};
use nv_inode::Tables;
use nv_region::MemRegion;
use nv_scan::{NoGate, RowList, WorkerResult, scan_slot, ticket_count, worker};
use nv_super::{Fault, Owner, Super};
use std::alloc::{AllocError, Global};
use std::process::Abort;
use std::test::Fail;

/// A block, and its owner.
type Claim = (u64, Owner);

/// What a worker finds: the inodes in use, their faults, all claims in their order, and the blocks that were claimed twice,
/// as bits.
type Found<'a> = (&'a [u64], &'a [Fault], &'a [Claim], u64);

/// The first word of the attributes entry of a directory of mode 755, whose other words are zeros.
const DIRECTORY_MODE: u64 = 493 * 4294967296 + 32 * 65536 + 2;

/// The first word of an entry that adds a name of one byte.
const ADD: u64 = 4294967296 + 32 * 65536 + 256 + 3;

// In the block where the chains meet the last slot is in use, by a directory whose log is block 5. Each CPU has a number for
// it.
const USED_BY_BOTH: [Word; 5] = [
    (53120, 1),
    (53128, 2),
    (53136, 20480),
    (53144, 20512),
    (20480, DIRECTORY_MODE),
];

const CLAIMED_BY_BOTH: [Claim; 8] = [
    (10, Owner::Table { cpu: 0, place: 0 }),
    (12, Owner::Table { cpu: 0, place: 1 }),
    (
        5,
        Owner::Log {
            inode: 186,
            page: 0,
        },
    ),
    (13, Owner::Table { cpu: 0, place: 2 }),
    (11, Owner::Table { cpu: 1, place: 0 }),
    (12, Owner::Table { cpu: 1, place: 1 }),
    (
        5,
        Owner::Log {
            inode: 187,
            page: 0,
        },
    ),
    (13, Owner::Table { cpu: 1, place: 2 }),
];

// The log of the root, block 5, has four attributes entries, and at byte 128 the name a of inode 2. The chain of CPU 0 has
// the same block: its link is the log's first word, and its first slot the entry of the name.
const IN_A_LOG: [Word; 12] = [
    (4112, 20480),
    (16384, 1),
    (16392, 2),
    (16400, 20480),
    (16408, 20640),
    (20480, DIRECTORY_MODE),
    (20512, DIRECTORY_MODE),
    (20544, DIRECTORY_MODE),
    (20576, DIRECTORY_MODE),
    (20608, ADD),
    (20616, 2),
    (20632, 97),
];

const CLAIMED_IN_A_LOG: [Claim; 2] = [
    (5, Owner::Log { inode: 1, page: 0 }),
    (5, Owner::Table { cpu: 0, place: 0 }),
];

/// A claim map of so many tickets for one worker, with its seat.
fn opened(alloc: Global, tickets: u64) -> Result<(ClaimMap, ClaimSeat), AllocError>
    requires { tickets < 64 }
    ensures { IfOk result (λ r. (r.1.map ≡ r.0) × (r.1.view ≡ nothing 1) × (r.0.sizes ≡ record { blocks = 16; tickets = tickets; workers = 1 })) }
{
    let sizes = Sizes {
        blocks: 16,
        tickets,
        workers: 1,
    };
    let (map, mut seats) = ClaimMap::open(alloc, sizes)?;
    let Some(seat) = seats.pop() else {
        unreachable!()
    };
    Ok((map, seat))
}

/// The number of the inode at a place.
fn inode_at(rows: &RowList, place: usize) -> Option<u64> {
    let row = rows.as_rows().get(place)?;
    Some(row.inode)
}

fn assert_inodes(rt: &impl Abort, rows: &RowList, inodes: &[u64]) {
    check(rt, rows.len() == inodes.len(), "how many are in use");
    for (place, inode) in (0..64usize).zip(inodes) {
        let found = inode_at(rows, place);
        check_at(rt, found == Some(*inode), "an inode in use", *inode);
    }
}

fn assert_done(rt: &impl Abort, done: &WorkerResult, found: &Found<'_>) {
    check(rt, !done.refused, "a worker with ample memory");
    assert_inodes(rt, &done.rows, found.0);
    check(rt, done.faults.as_slice() == found.1, "their faults");
}

fn assert_claimed(
    rt: &impl Abort,
    alloc: Global,
    claimed: &Claimed,
    found: &Found<'_>,
) -> Result<(), AllocError> {
    let claims = claimed.claims.to_list(alloc)?;
    check(rt, claims.as_slice() == found.2, "the claims");
    check(
        rt,
        claimed.second.as_slice() == [found.3].as_slice(),
        "claimed twice",
    );
    Ok(())
}

/// What a worker finds by these tables.
fn works(
    rt: &impl Abort,
    alloc: Global,
    memory: &MemRegion,
    tables: &Tables,
    tickets: u64,
    found: &Found<'_>,
) -> Result<(), AllocError>
    requires blocks { HasBlocks memory.now.region 16 }
    requires sup { tables.now.layout.sup.blocks ≡ 16 }
{
    let count = ticket_count(tables);
    check(rt, count == tickets, "the number of tickets");
    if count < 64 {
        let (map, seat) = opened(alloc, count)?;
        let done = worker(alloc, memory, tables, &map, seat, &NoGate);
        assert_done(rt, &done, found);
        assert_claimed(rt, alloc, &map.close(done.seat), found)?;
    }
    Ok(())
}

fn works_in(
    rt: &impl Abort,
    alloc: Global,
    memory: &MemRegion,
    sup: &Super,
    tickets: u64,
    found: &Found<'_>,
) -> Result<(), AllocError>
    requires layout { IsLayout sup.now }
    requires few { sup.now.blocks ≡ 16 }
    requires blocks { HasBlocks memory.now.region 16 }
{
    let tables = tables_of(rt, alloc, memory, sup);
    works(rt, alloc, memory, &tables, tickets, found)
}

/// The chains of two CPUs that meet, with an inode in use there.
fn meeting(rt: &impl Abort, alloc: Global) -> MemRegion
    ensures { HasBlocks result.region 16 }
{
    let mut memory = small_region(rt, alloc, &MEETING);
    put_all(&mut memory, &USED_BY_BOTH);
    memory
}

#[test]
fn blocks_of_two_chains_have_two_owners(rt: HostRuntime) -> Result<(), Fail> {
    let memory = meeting(&rt, rt.alloc());
    let found: Found<'_> = (&[186, 187], &[], &CLAIMED_BY_BOTH, 12320);
    works_in(&rt, rt.alloc(), &memory, &TWO_CPUS, 8, &found)?;
    let version_1 = Super {
        version: 1,
        ..TWO_CPUS
    };
    let nothing: Found<'_> = (&[], &[], &[], 0);
    works_in(&rt, rt.alloc(), &memory, &version_1, 2, &nothing)?;
    Ok(())
}

#[test]
fn entries_of_a_log_are_slots_of_a_chain(rt: HostRuntime) -> Result<(), Fail> {
    let memory = small_region(&rt, rt.alloc(), &IN_A_LOG);
    let found: Found<'_> = (&[1], &[Fault::I1 { inode: 64 }], &CLAIMED_IN_A_LOG, 32);
    works_in(&rt, rt.alloc(), &memory, &TWO_CPUS, 3, &found)?;
    Ok(())
}

/// The fault of each inode below a number, if the valid word of none is 0 or 1.
fn bad_valid(alloc: Global, end: u64) -> Result<Vec<Fault>, AllocError> {
    let mut faults = Vec::new(alloc);
    for inode in 1..end {
        faults.push(Fault::I1 { inode })?;
    }
    Ok(faults)
}

// Each slot of a full block is in no state that it can be in. A block that is linked has no slot in use, whatever it held.
#[test]
fn slots_of_full_blocks_are_told_one_by_one(rt: HostRuntime) -> Result<(), Fail> {
    let memory = full_region(&rt, rt.alloc(), &[(4112, 36864)]);
    let faults = bad_valid(rt.alloc(), 63)?;
    let found: Found<'_> = (&[], &faults, &[(9, Owner::Table { cpu: 0, place: 0 })], 0);
    works_in(&rt, rt.alloc(), &memory, &ONE_CPU, 2, &found)?;
    let mut memory = full_region(&rt, rt.alloc(), &[]);
    check(&rt, grow(&mut memory).is_ok(), "the table grows");
    let faults = bad_valid(rt.alloc(), 32)?;
    let found: Found<'_> = (
        &[],
        &faults,
        &[
            (9, Owner::Table { cpu: 0, place: 0 }),
            (5, Owner::Table { cpu: 0, place: 1 }),
        ],
        0,
    );
    works_in(&rt, rt.alloc(), &memory, &ONE_CPU, 3, &found)?;
    Ok(())
}

/// What the inode of a number claims, if it has a slot.
fn claims_of_one(
    alloc: Global,
    memory: &MemRegion,
    tables: &Tables,
    inode: u64,
) -> Result<Option<Vec<Claim>>, AllocError>
    requires blocks { HasBlocks memory.now.region 16 }
    requires sup { tables.now.layout.sup.blocks ≡ 16 }
{
    let Some(_) = tables.slot_address(inode) else {
        return Ok(None);
    };
    let piece = scan_slot(alloc, memory, tables, inode)?;
    Ok(Some(piece.claims.to_list(alloc)?))
}

// Of the first slot of a block, whether in use or not, of the second, of the last, and of a number behind the chain.
const OF_ONE: [(u64, Option<&'static [Claim]>); 6] = [
    (64, Some(&[(10, Owner::Table { cpu: 0, place: 0 })])),
    (126, Some(&[(12, Owner::Table { cpu: 0, place: 1 })])),
    (127, Some(&[(12, Owner::Table { cpu: 1, place: 1 })])),
    (128, Some(&[])),
    (
        186,
        Some(&[(
            5,
            Owner::Log {
                inode: 186,
                page: 0,
            },
        )]),
    ),
    (250, None),
];

fn assert_of_one(
    rt: &impl Abort,
    alloc: Global,
    memory: &MemRegion,
    tables: &Tables,
) -> Result<(), AllocError>
    requires blocks { HasBlocks memory.now.region 16 }
    requires sup { tables.now.layout.sup.blocks ≡ 16 }
{
    for &(inode, wanted) in OF_ONE.iter() {
        let claims = claims_of_one(alloc, memory, tables, inode)?;
        let found = claims.as_ref().map(|claims| claims.as_slice());
        check_at(rt, found == wanted, "the claims of an inode", inode);
    }
    Ok(())
}

#[test]
fn one_inode_is_scanned_by_the_slot_of_its_number(rt: HostRuntime) -> Result<(), Fail> {
    let memory = meeting(&rt, rt.alloc());
    let tables = tables_of(&rt, rt.alloc(), &memory, &TWO_CPUS);
    Ok(assert_of_one(&rt, rt.alloc(), &memory, &tables)?)
}
