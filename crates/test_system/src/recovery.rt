//! Small regions, written word by word, and what each recovery answers of them.

use crate::small::{DIRECTORY_MODE, SMALL, Word, small_region};
use nv_recover::{RecoverError, Recovered, recover, recover_one, recover_replay};
use nv_region::MemRegion;
use nv_scan::{NoGate, Row};
use nv_super::{Fault, Kind, MAGIC, Owner, Run, SuperFault};
use std::alloc::Global;
use std::process::Abort;
use std::test::Fail;
use std::thread::Threads;

/// A superblock. Inode 1 is a directory whose log, block 3, has one attributes entry, of mode 755.
const ROOT: [Word; 10] = [
    (0, MAGIC),
    (8, 1),
    (16, 1),
    (24, 16),
    (32, 1),
    (8320, 1),
    (8328, 2),
    (8336, 12288),
    (8344, 12320),
    (12288, DIRECTORY_MODE),
];

/// The same in version 2, where the table goes on in block 10. Its first slot is that of inode 32, which is a file with the
/// root's log, so two inodes own block 3.
const SHARED_LOG: [Word; 15] = [
    (0, MAGIC),
    (8, 2),
    (16, 1),
    (24, 16),
    (32, 1),
    (4112, 40960),
    (8320, 1),
    (8328, 2),
    (8336, 12288),
    (8344, 12320),
    (41088, 1),
    (41096, 1),
    (41104, 12288),
    (41112, 12320),
    (12288, DIRECTORY_MODE),
];

fn assert_root_row(rt: &impl Abort, row: &Row) {
    assert!(rt; (row.inode, row.head, row.tail, row.numbers.mode) == (1, 12288, 12320, 493));
    assert!(rt; row.kind == Kind::Directory);
}

/// One pool, of the blocks 4 to 15.
fn assert_free(rt: &impl Abort, lists: &[Vec<Run>]) {
    assert!(rt; lists.len() == 1);
    let pool = lists.first().expect(rt, "there is a pool");
    let free = Run {
        start: 4,
        count: 12,
    };
    assert!(rt; pool.as_slice() == [free].as_slice());
}

/// The root alone: its row, the blocks 4 to 15 free, nothing doubled and nothing wrong.
fn assert_root_alone(rt: &impl Abort, answer: &Recovered) -> Result<(), Fail> {
    assert!(rt; answer.sup == SMALL);
    assert!(rt; answer.rows.len() == 1);
    assert_root_row(rt, answer.rows.get(1).expect(rt, "there is a row"));
    assert!(rt; answer.doubled.is_empty());
    assert!(rt; answer.faults.is_empty());
    assert_free(rt, &answer.free.lists()?);
    Ok(())
}

/// The ways to recover a region.
#[derive(Clone, Copy)]
enum Way<'a> {
    OneThread,
    Workers(u64),
    Schedule(u64, &'a [u32]),
}

fn recover_by<R: Threads + Sync>(
    rt: &R,
    alloc: Global,
    memory: &mut MemRegion,
    way: &Way<'_>,
) -> Result<Recovered, RecoverError> {
    match way {
        Way::OneThread => recover_one(alloc, memory),
        Way::Workers(workers) => recover(rt, alloc, memory, *workers, &NoGate),
        Way::Schedule(workers, schedule) => recover_replay(alloc, memory, *workers, schedule),
    }
}

const OF_ROOT_ALONE: [Way<'static>; 5] = [
    Way::OneThread,
    Way::Workers(1),
    Way::Workers(2),
    Way::Workers(8),
    Way::Schedule(2, &[1, 0, 1, 1, 0]),
];

/// The log of both.
const ITS_OWNERS: [(u64, Owner); 2] = [
    (3, Owner::Log { inode: 1, page: 0 }),
    (3, Owner::Log { inode: 32, page: 0 }),
];

const ITS_FAULTS: [Fault; 4] = [
    Fault::C3 { inode: 32 },
    Fault::C4 { inode: 32 },
    Fault::B1 {
        block: 3,
        owner: Owner::Log { inode: 1, page: 0 },
    },
    Fault::B1 {
        block: 3,
        owner: Owner::Log { inode: 32, page: 0 },
    },
];

/// The file has no name, and both inodes are told as owners of the block.
fn assert_shared_log(rt: &impl Abort, answer: &Recovered) {
    assert!(rt; answer.rows.len() == 2);
    assert!(rt; answer.doubled.as_slice() == ITS_OWNERS.as_slice());
    assert!(rt; answer.faults.as_slice() == ITS_FAULTS.as_slice());
}

const OF_SHARED_LOG: [Way<'static>; 6] = [
    Way::OneThread,
    Way::Workers(1),
    Way::Workers(2),
    Way::Workers(8),
    Way::Workers(64),
    Way::Schedule(3, &[2, 1, 0, 2, 1, 0]),
];

fn recovers<R: Threads + Abort + Sync>(
    rt: &R,
    alloc: Global,
    memory: &mut MemRegion,
    way: &Way<'_>,
    is_shared: bool,
) -> Result<(), Fail> {
    let answer = recover_by(rt, alloc, memory, way)?;
    if is_shared {
        assert_shared_log(rt, &answer);
        return Ok(());
    }
    assert_root_alone(rt, &answer)
}

/// The region of the root alone, or that with a shared log, is told alike by all these ways.
fn all_recover<R: Threads + Abort + Sync>(
    rt: &R,
    alloc: Global,
    words: &[Word],
    ways: &[Way<'_>],
    is_shared: bool,
) -> Result<(), Fail> {
    for way in ways {
        let mut memory = small_region(alloc, words)?;
        recovers(rt, alloc, &mut memory, way, is_shared)?;
    }
    Ok(())
}

#[test]
fn the_root_alone_is_found_alike_by_all(rt: HostRuntime) -> Result<(), Fail> {
    all_recover(&rt, rt.alloc(), &ROOT, &OF_ROOT_ALONE, false)
}

#[test]
fn a_log_that_two_inodes_own_is_told_alike_by_all(rt: HostRuntime) -> Result<(), Fail> {
    all_recover(&rt, rt.alloc(), &SHARED_LOG, &OF_SHARED_LOG, true)
}

/// Ways to recover a region of zeros, and why each is refused.
const REFUSED: [(Way<'static>, RecoverError); 5] = [
    (Way::Workers(0), RecoverError::Workers),
    (Way::Workers(65), RecoverError::Workers),
    (Way::Schedule(65, &[70]), RecoverError::Workers),
    (Way::Schedule(2, &[1, 0, 2, 3]), RecoverError::Schedule(2)),
    (Way::OneThread, RecoverError::Super(SuperFault::Magic)),
];

fn is_refused<R: Threads + Abort + Sync>(
    rt: &R,
    alloc: Global,
    way: &Way<'_>,
    refusal: RecoverError,
) -> Result<(), Fail> {
    let mut zeros = MemRegion::new(alloc, 16)?;
    let answer = recover_by(rt, alloc, &mut zeros, way).err();
    assert!(rt; answer == Some(refusal));
    Ok(())
}

#[test]
fn refusals_in_their_order(rt: HostRuntime) -> Result<(), Fail> {
    for (way, refusal) in REFUSED.iter() {
        is_refused(&rt, rt.alloc(), way, *refusal)?;
    }
    Ok(())
}
