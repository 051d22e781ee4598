//! Inodes of small regions, written word by word, and their pieces.

ghost use Rattle.std.specs.Prelude.{◌≡◌};
ghost use Rattle.nv_region.specs.Region.{HasBlocks};

use crate::small::{DIRECTORY_MODE, SMALL, opened_for_one, small_region, tables_of};
use nv_claimmap::Claimed;
use nv_inode::{Tables, read_tables};
use nv_numbered::Chunks;
use nv_region::MemRegion;
use nv_scan::{
    Claims, Inodes, NoGate, Piece, Row, RowList, Scanner, room_for_ticket, scan_slot, scan_slots,
    ticket_count, worker,
};
use nv_super::{Fault, Owner, Super};
use std::alloc::{AllocError, Global};
use std::process::Abort;
use std::test::Fail;

/// The first words of an attributes entry of a mode, of a write of pages, and of an add and a removal of a one-byte name.
const FILE_MODE: u64 = 420 * 4294967296 + 32 * 65536 + 2;

const WRITE_ONE: u64 = 4294967296 + 40 * 65536 + 1;

const WRITE_TWO: u64 = 8592556033;

const ADD: u64 = 4297064707;

const REMOVE: u64 = 4297064963;

fn assert_claims(rt: &impl Abort, alloc: Global, claims: &Claims, owned: &[(u64, Owner)]) {
    match claims.to_list(alloc) {
        Ok(listed) => assert!(rt; listed.as_slice() == owned),
        Err(AllocError) => assert!(rt; false),
    }
}

/// A directory, inode 1, with one entry in block 3; and a file, inode 2, whose log in block 4 maps pages 0 and 1 to
/// blocks 5 and 6, and page 2 to block 9.
const TWO_INODES: [(u64, u64); 16] = [
    (8320, 1),
    (8328, 2),
    (8336, 12288),
    (8344, 12320),
    (12288, DIRECTORY_MODE),
    (8448, 1),
    (8456, 1),
    (8464, 16384),
    (8472, 16464),
    (16384, WRITE_TWO),
    (16400, 5),
    (16408, 12288),
    (16424, WRITE_ONE),
    (16432, 2),
    (16440, 9),
    (16448, 12288),
];

const OWNED_BY_FILE: [(u64, Owner); 4] = [
    (4, Owner::Log { inode: 2, page: 0 }),
    (5, Owner::Data { inode: 2, page: 0 }),
    (6, Owner::Data { inode: 2, page: 1 }),
    (9, Owner::Data { inode: 2, page: 2 }),
];

/// A directory, inode 1, whose log in block 3 sets its mode and adds the name a.
const ONE_NAME: [(u64, u64); 9] = [
    (8320, 1),
    (8328, 2),
    (8336, 12288),
    (8344, 12352),
    (12288, DIRECTORY_MODE),
    (12320, ADD),
    (12328, 2),
    (12336, 5),
    (12344, 97),
];

/// A file, inode 1, with two writes out of range, and then one in range.
const TWO_OUT_OF_RANGE: [(u64, u64); 16] = [
    (8320, 1),
    (8328, 1),
    (8336, 12288),
    (8344, 12440),
    (12288, FILE_MODE),
    (12320, WRITE_TWO),
    (12328, 18446744073709551615),
    (12336, 7),
    (12344, 5000),
    (12360, WRITE_TWO),
    (12368, 262143),
    (12376, 9),
    (12384, 8192),
    (12400, WRITE_ONE),
    (12416, 7),
    (12424, 8192),
];

const THEIR_FAULTS: [Fault; 2] = [
    Fault::E1 {
        inode: 1,
        at: 12320,
    },
    Fault::E1 {
        inode: 1,
        at: 12360,
    },
];

const OWNED_BY_THE_THIRD: [(u64, Owner); 2] = [
    (3, Owner::Log { inode: 1, page: 0 }),
    (7, Owner::Data { inode: 1, page: 0 }),
];

/// A directory, inode 1, that adds the name a twice, and removes b, which it hasn't.
const A_TWICE: [(u64, u64); 13] = [
    (8320, 1),
    (8328, 2),
    (8336, 12288),
    (8344, 12384),
    (12288, ADD),
    (12296, 2),
    (12312, 97),
    (12320, ADD),
    (12328, 4),
    (12344, 97),
    (12352, REMOVE),
    (12360, 2),
    (12376, 98),
];

const TOLD_OF_NAMES: [Fault; 2] = [
    Fault::E3 {
        inode: 1,
        at: 12320,
    },
    Fault::E4 {
        inode: 1,
        at: 12352,
    },
];

const WRONG_HEAD: [(u64, u64); 5] = [
    (8320, 1),
    (8328, 2),
    (8336, 12296),
    (8344, 12320),
    (8352, 9),
];

/// The words of a region, and the faults and claims of inode 1 in it, the places where its log begins and ends if it has a
/// row, and the names of that.
type Scanned<'a> = (
    &'a [(u64, u64)],
    &'a [Fault],
    &'a [(u64, Owner)],
    Option<(u64, u64)>,
    usize,
);

const ITS_LOG: [(u64, Owner); 1] = [(3, Owner::Log { inode: 1, page: 0 })];

// The first three are slots out of use. Of a wrong head no log is read, an entry out of range is skipped and the log read
// on, and a second add of a name holds.
const SCANNED: [Scanned<'static>; 7] = [
    (&[(8320, 0), (8328, 0)], &[], &[], None, 0),
    (
        &[(8320, 2), (8328, 1)],
        &[Fault::I1 { inode: 1 }],
        &[],
        None,
        0,
    ),
    (
        &[(8320, 1), (8328, 3)],
        &[Fault::I2 { inode: 1 }],
        &[],
        None,
        0,
    ),
    (
        &WRONG_HEAD,
        &[Fault::I3 { inode: 1 }],
        &[],
        Some((12296, 12320)),
        0,
    ),
    (&ONE_NAME, &[], &ITS_LOG, Some((12288, 12352)), 1),
    (
        &TWO_OUT_OF_RANGE,
        &THEIR_FAULTS,
        &OWNED_BY_THE_THIRD,
        Some((12288, 12440)),
        0,
    ),
    (&A_TWICE, &TOLD_OF_NAMES, &ITS_LOG, Some((12288, 12384)), 1),
];

fn ends_of(row: &Row) -> (u64, u64) {
    (row.head, row.tail)
}

fn assert_piece(rt: &impl Abort, alloc: Global, piece: &Piece, scanned: &Scanned<'_>) {
    let (_, faults, claims, ends, names) = *scanned;
    assert!(rt; piece.faults.as_slice() == faults);
    assert_claims(rt, alloc, &piece.claims, claims);
    assert!(rt; piece.row.as_ref().map(ends_of) == ends);
    assert!(rt; piece.row.as_ref().map_or(0, |row| row.names.len()) == names);
}

/// Scans inode 1, whose slot is at 8320.
fn is_scanned_in(
    rt: &impl Abort,
    alloc: Global,
    memory: &MemRegion,
    scanned: &Scanned<'_>,
) -> Result<(), Fail>
    requires { HasBlocks memory.now.region 16 }
{
    let tables = tables_of(alloc, memory, &SMALL)?;
    let piece = scan_slot(alloc, memory, &tables, 1)?;
    assert_piece(rt, alloc, &piece, scanned);
    Ok(())
}

fn is_scanned(rt: &impl Abort, alloc: Global, scanned: &Scanned<'_>) -> Result<(), Fail> {
    let memory = small_region(alloc, scanned.0)?;
    is_scanned_in(rt, alloc, &memory, scanned)
}

#[test]
fn a_slot_is_told_with_its_log(rt: HostRuntime) -> Result<(), Fail> {
    for scanned in SCANNED.iter() {
        is_scanned(&rt, rt.alloc(), scanned)?;
    }
    Ok(())
}

fn first_inode(rows: &Chunks<Row>) -> Option<u64> {
    let row = rows.get(0)?;
    Some(row.inode)
}

/// The small region in version 2. Its table goes on in block 10, where inode 34 is a directory with its log in block 3.
const CHAINED: Super = Super {
    version: 2,
    ..SMALL
};

const IN_A_CHAIN: [(u64, u64); 6] = [
    (4112, 40960),
    (41344, 1),
    (41352, 2),
    (41360, 12288),
    (41368, 12320),
    (12288, DIRECTORY_MODE),
];

/// The block is told with inode 32, whose slot stands first there and isn't in use.
const OWNED_BY_TABLE: [(u64, Owner); 1] = [(10, Owner::Table { cpu: 0, place: 0 })];

const OWNED_IN_THE_CHAIN: [(u64, Owner); 1] = [(3, Owner::Log { inode: 34, page: 0 })];

/// The second ticket stands for the block of the chain.
fn finds_in_a_chain(
    rt: &impl Abort,
    alloc: Global,
    memory: &MemRegion,
    tables: &Tables,
) -> Result<(), AllocError>
    requires sup { tables.now.layout.sup.blocks ≡ 16 }
    requires blocks { HasBlocks memory.now.region 16 }
{
    tables.are_laid();
    let mut scanner = Scanner::new(alloc, tables.sup());
    let mut inodes = Inodes::new(alloc);
    let mut each = room_for_ticket(alloc)?;
    let tickets = ticket_count(tables);
    assert!(rt; tickets == 2);
    let count = scan_slots(memory, tables, &mut scanner, &mut inodes, &mut each, 1)?;
    assert!(rt; count == 2);
    assert!(rt; first_inode(&inodes.rows) == Some(34));
    assert_claims(rt, alloc, &each[0], &OWNED_BY_TABLE);
    assert_claims(rt, alloc, &each[1], &OWNED_IN_THE_CHAIN);
    Ok(())
}

#[test]
fn a_block_of_a_chain_has_a_ticket(rt: HostRuntime) -> Result<(), Fail> {
    let memory = small_region(rt.alloc(), &IN_A_CHAIN)?;
    let tables = read_tables(rt.alloc(), &memory, &CHAINED)?;
    Ok(finds_in_a_chain(&rt, rt.alloc(), &memory, &tables)?)
}

/// The rows of inodes 1 and 2.
fn are_two(list: &RowList) -> bool {
    let rows = list.as_rows();
    match (rows.get(0), rows.get(1)) {
        (Some(one), Some(two)) => {
            rows.len() == 2
                && one.inode == 1
                && two.inode == 2
                && two.pages.as_slice() == [4].as_slice()
        }
        _ => false,
    }
}

/// A worker finds both inodes, and the map that is closed after it has what they own.
fn works(rt: &impl Abort, alloc: Global, memory: &MemRegion) -> Result<(), Fail>
    requires { HasBlocks memory.now.region 16 }
{
    let (map, seat) = opened_for_one(alloc)?;
    let tables = tables_of(alloc, memory, &SMALL)?;
    let done = worker(alloc, memory, &tables, &map, seat, &NoGate);
    assert!(rt; !done.refused && are_two(&done.rows));
    assert_closed(rt, alloc, &map.close(done.seat))
}

fn assert_closed(rt: &impl Abort, alloc: Global, closed: &Claimed) -> Result<(), Fail> {
    let claims = closed.claims.to_list(alloc)?;
    assert!(rt; closed.first.as_slice() == [632].as_slice());
    assert!(rt; closed.second.as_slice() == [0].as_slice());
    assert!(rt; claims.len() == 5);
    assert!(rt; claims[1..] == OWNED_BY_FILE[..]);
    Ok(())
}

#[test]
fn a_worker_claims_what_the_inodes_own(rt: HostRuntime) -> Result<(), Fail> {
    let memory = small_region(rt.alloc(), &TWO_INODES)?;
    works(&rt, rt.alloc(), &memory)
}
