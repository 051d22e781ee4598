//! Recovers two small regions by each of the recoveries, and tells what was found. Before that two workers scan one of them in
//! turn, once its journals are rolled back.
//!
//! A recovery that answers want of memory leaves its region as before or with its journals rolled back, and a worker gives
//! its seat and neither rows nor faults; each is then made once more.

ghost use Rattle.std.specs.Prelude.{◌≡◌, ◌≤◌};
ghost use Rattle.nv_region.specs.Region.{HasBlocks};

use crate::findings::{Counts, Left, counts_of, is_want_of_memory, left_of, name_of};
use crate::region::{CHAINED, Damage, blocks_of, store_damaged, store_rolled_back};
use crate::working::{Given, Work, work_in_turn};
use nv_inode::{Tables, read_tables};
use nv_recover::{RecoverError, Recovered, recover, recover_one, recover_replay};
use nv_region::MemRegion;
use nv_scan::NoGate;
use std::alloc::Global;
use std::thread::Threads;

/// By what a region is recovered.
#[derive(Clone, Copy)]
enum Way {
    OneThread,
    Schedule,
    TwoWorkers,
}

/// A recovery of a region with this damage, and how it is called.
#[derive(Clone, Copy)]
struct Case {
    damage: Damage,
    way: Way,
    label: &'static str,
}

const CHAINED_ONE_THREAD: Case = Case {
    damage: Damage::Chained,
    way: Way::OneThread,
    label: "Chained OneThread",
};

const CHAINED_SCHEDULE: Case = Case {
    damage: Damage::Chained,
    way: Way::Schedule,
    label: "Chained Schedule",
};

const CHAINED_TWO_WORKERS: Case = Case {
    damage: Damage::Chained,
    way: Way::TwoWorkers,
    label: "Chained TwoWorkers",
};

const NAMES_ONE_THREAD: Case = Case {
    damage: Damage::Names,
    way: Way::OneThread,
    label: "Names OneThread",
};

const NAMES_SCHEDULE: Case = Case {
    damage: Damage::Names,
    way: Way::Schedule,
    label: "Names Schedule",
};

const NAMES_TWO_WORKERS: Case = Case {
    damage: Damage::Names,
    way: Way::TwoWorkers,
    label: "Names TwoWorkers",
};

/// The recoveries whose allocations have no order of their own come last.
const CASES: [Case; 6] = [
    CHAINED_ONE_THREAD,
    CHAINED_SCHEDULE,
    NAMES_ONE_THREAD,
    NAMES_SCHEDULE,
    CHAINED_TWO_WORKERS,
    NAMES_TWO_WORKERS,
];

/// The bytes that a region had, and those that it has once its journals are rolled back.
#[derive(Drop)]
struct Expected {
    before: Vec<u8>,
    rolled_back: Vec<u8>,
}

/// What a recovery answered, and left of the region.
#[derive(Clone, Copy)]
struct Tried {
    answer: Result<Counts, RecoverError>,
    left: Left,
    is_rolled_back: bool,
}

/// How a recovery ended.
#[derive(Clone, Copy)]
enum Ending {
    /// With an outcome, and the journals are rolled back.
    Whole(Counts),
    /// With want of memory, and this was left of the region; made once more, it ended so.
    WholeAgain(Left, Counts),
    /// With anything else.
    Wrong(Left, Option<RecoverError>),
}

fn recovered_so<R: AllocGlobal + Threads + Sync>(
    rt: &R,
    memory: &mut MemRegion,
    way: Way,
) -> Result<Recovered, RecoverError> {
    match way {
        Way::OneThread => recover_one(rt.alloc(), memory),
        Way::Schedule => recover_replay(rt.alloc(), memory, 2, &[1, 0, 1, 1, 0]),
        Way::TwoWorkers => recover(rt, rt.alloc(), memory, 2, &NoGate),
    }
}

/// The bytes of the region with its journals rolled back; `None` where memory is refused.
fn rolled_back_bytes(alloc: Global, damage: Damage) -> Option<Vec<u8>> {
    let blocks = blocks_of(damage);
    match MemRegion::new(alloc, blocks) {
        Ok(mut memory) => rolled_back_in(&mut memory, blocks, damage),
        Err(_) => None,
    }
}

fn rolled_back_in(memory: &mut MemRegion, blocks: u64, damage: Damage) -> Option<Vec<u8>>
    requires many { 16 ≤ blocks }
    requires blocks { HasBlocks memory.old.region blocks }
{
    store_rolled_back(memory, blocks, damage)?;
    memory.to_bytes().ok()
}

/// What is expected of a region with this damage; `None` where memory is refused.
fn expected_of(alloc: Global, memory: &MemRegion, damage: Damage) -> Option<Expected> {
    let before = memory.to_bytes().ok()?;
    let rolled_back = rolled_back_bytes(alloc, damage)?;
    Some(Expected {
        before,
        rolled_back,
    })
}

fn counted(answer: &Result<Recovered, RecoverError>) -> Result<Counts, RecoverError> {
    match answer {
        Ok(found) => Ok(counts_of(found)),
        Err(error) => Err(*error),
    }
}

fn answer_of<R: AllocGlobal + Threads + Sync>(
    rt: &R,
    memory: &mut MemRegion,
    way: Way,
) -> Result<Counts, RecoverError> {
    let answer = recovered_so(rt, memory, way);
    counted(&answer)
}

/// What a recovery does to the region; `None` where memory is refused outside of it.
fn try_recovery<R: AllocGlobal + Threads + Sync>(
    rt: &R,
    memory: &mut MemRegion,
    expected: &Expected,
    way: Way,
) -> Option<Tried> {
    let answer = answer_of(rt, memory, way);
    let after = memory.to_bytes().ok()?;
    Some(Tried {
        answer,
        left: left_of(&expected.before, &expected.rolled_back, &after),
        is_rolled_back: after.as_slice() == expected.rolled_back.as_slice(),
    })
}

/// How a recovery ends that is made once more, after one that left this; `None` where memory is refused outside of it.
fn ended_again<R: AllocGlobal + Threads + Sync>(
    rt: &R,
    memory: &mut MemRegion,
    expected: &Expected,
    way: Way,
    left: Left,
) -> Option<Ending> {
    let again = try_recovery(rt, memory, expected, way)?;
    Some(match again.answer {
        Ok(counts) if again.is_rolled_back => Ending::WholeAgain(left, counts),
        answer => Ending::Wrong(again.left, answer.err()),
    })
}

/// How a recovery of a region ends; `None` where memory is refused outside of it.
fn ended_so<R: AllocGlobal + Threads + Sync>(
    rt: &R,
    memory: &mut MemRegion,
    expected: &Expected,
    way: Way,
) -> Option<Ending> {
    let first = try_recovery(rt, memory, expected, way)?;
    match first.answer {
        Ok(counts) if first.is_rolled_back => Some(Ending::Whole(counts)),
        Err(error) if is_want_of_memory(error, first.left) => {
            ended_again(rt, memory, expected, way, first.left)
        }
        answer => Some(Ending::Wrong(first.left, answer.err())),
    }
}

fn tell_counts<R: Print>(rt: &R, label: &str, counts: Counts) -> Option<()> {
    println!(rt;
        "{label}: inodes {} free {} doubled {} faults {}",
        counts.inodes, counts.free, counts.doubled, counts.faults
    )
    .ok()
}

fn tell_refused<R: Print>(rt: &R, label: &str, left: &str) -> Option<()> {
    println!(rt; "refused once: {label} {left}").ok()
}

fn tell_wrong<R: Print>(
    rt: &R,
    label: &str,
    left: &str,
    error: Option<RecoverError>,
) -> Option<()> {
    println!(rt; "{label}: wrong, {left} {error:?}").ok()
}

fn tell_ending<R: Print>(rt: &R, label: &str, ending: Ending) -> Option<()> {
    match ending {
        Ending::Whole(counts) => tell_counts(rt, label, counts),
        Ending::WholeAgain(left, counts) => {
            tell_refused(rt, label, name_of(left))?;
            tell_counts(rt, label, counts)
        }
        Ending::Wrong(left, error) => tell_wrong(rt, label, name_of(left), error),
    }
}

/// Recovers a region, and tells how that ended; `None` where memory is refused outside of it.
fn tell_recovery_in<R: AllocGlobal + Print + Threads + Sync>(
    rt: &R,
    memory: &mut MemRegion,
    blocks: u64,
    case: Case,
) -> Option<()>
    requires many { 16 ≤ blocks }
    requires blocks { HasBlocks memory.old.region blocks }
{
    store_damaged(memory, blocks, case.damage)?;
    let expected = expected_of(rt.alloc(), memory, case.damage)?;
    let ending = ended_so(rt, memory, &expected, case.way)?;
    tell_ending(rt, case.label, ending)
}

fn tell_recovery<R: AllocGlobal + Print + Threads + Sync>(rt: &R, case: Case) -> Option<()> {
    let blocks = blocks_of(case.damage);
    match MemRegion::new(rt.alloc(), blocks) {
        Ok(mut memory) => tell_recovery_in(rt, &mut memory, blocks, case),
        Err(_) => None,
    }
}

fn tell_work<R: Print>(rt: &R, work: Work) -> Option<()> {
    println!(rt;
        "two workers in turn: rows {} faults {} claims {}",
        work.whole.rows, work.whole.faults, work.claims
    )
    .ok()
}

fn tell_given<R: Print>(rt: &R, given: Given) -> Option<()> {
    println!(rt;
        "refused once: worker, which gave {} rows and {} faults",
        given.rows, given.faults
    )
    .ok()
}

/// Lets two workers scan a region in turn, and tells what they gave; `None` where memory is refused outside of them.
fn tell_workers_by<R: AllocGlobal + Print>(
    rt: &R,
    memory: &MemRegion,
    tables: &Tables,
) -> Option<()>
    requires sup { tables.now.layout.sup.blocks ≡ 16 }
    requires blocks { HasBlocks memory.now.region 16 }
{
    let work = work_in_turn(rt.alloc(), memory, tables).ok()?;
    let Some(given) = work.refused else {
        return tell_work(rt, work);
    };
    tell_given(rt, given)?;
    let again = work_in_turn(rt.alloc(), memory, tables).ok()?;
    tell_work(rt, again)
}

fn tell_workers_on<R: AllocGlobal + Print>(rt: &R, memory: &mut MemRegion) -> Option<()>
    requires { HasBlocks memory.old.region 16 }
{
    store_rolled_back(memory, 16, Damage::Chained)?;
    let tables = read_tables(rt.alloc(), &*memory, &CHAINED).ok()?;
    tell_workers_by(rt, memory, &tables)
}

fn tell_workers<R: AllocGlobal + Print>(rt: &R) -> Option<()> {
    match MemRegion::new(rt.alloc(), 16) {
        Ok(mut memory) => tell_workers_on(rt, &mut memory),
        Err(_) => None,
    }
}

/// `None` where memory is refused outside of a recovery and of the workers.
pub(crate) fn tell_recoveries<R: AllocGlobal + Print + Threads + Sync>(rt: &R) -> Option<()> {
    tell_workers(rt)?;
    for case in &CASES {
        tell_recovery(rt, *case)?;
    }
    Some(())
}
