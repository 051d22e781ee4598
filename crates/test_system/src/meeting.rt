//! Two workers are at work at the same time: each waits, for so many turns at most, until the other was seen.

use crate::small::{DIRECTORY_MODE, Word};
use crate::watched::{Watch, WatchedRegion};
use nv_recover::{RecoverError, recover};
use nv_region::{MemRegion, Pmem, RegionRefusal};
use nv_scan::{Gate, NoGate};
use nv_super::MAGIC;
use std::alloc::Global;
use std::process::Abort;
use std::sync::atomic::{AtomicBool, AtomicU64, Ordering};
use std::test::Fail;
use std::thread::Threads;

/// The most turns that a party waits for the other: seconds of them, since the other may wait for a processor meanwhile.
const TURNS: u64 = 1_000_000_000;

/// Where two parties meet: each shows that it came, and waits for the other.
#[derive(Drop)]
struct Meeting {
    came: [AtomicBool; 2],
    met: [AtomicBool; 2],
}

impl Meeting {
    fn new() -> Meeting {
        Meeting {
            came: [AtomicBool::new(false), AtomicBool::new(false)],
            met: [AtomicBool::new(false), AtomicBool::new(false)],
        }
    }

    fn first(&self) {
        wait_for(&self.came[0], &self.came[1], &self.met[0]);
    }

    fn second(&self) {
        wait_for(&self.came[1], &self.came[0], &self.met[1]);
    }

    fn both_met(&self) -> bool {
        self.met[0].load(Ordering::SeqCst) && self.met[1].load(Ordering::SeqCst)
    }
}

/// Shows that one party came, and waits until the other came.
fn wait_for(mine: &AtomicBool, other: &AtomicBool, met: &AtomicBool) {
    mine.store(true, Ordering::SeqCst);
    for _ in 0..TURNS {
        if other.load(Ordering::SeqCst) {
            met.store(true, Ordering::SeqCst);
            return;
        }
    }
}

/// The numbers of workers that are tried: as many as there are tickets, and more.
const WORKERS: [u64; 3] = [2, 3, 64];

/// No worker has this number.
const NOBODY: u64 = 64;

/// A gate at which the workers that drew tickets 0 and 1 meet. It notes their numbers.
#[derive(Drop)]
struct MeetingGate {
    meeting: Meeting,
    numbers: [AtomicU64; 2],
}

impl MeetingGate {
    fn new() -> MeetingGate {
        MeetingGate {
            meeting: Meeting::new(),
            numbers: [AtomicU64::new(NOBODY), AtomicU64::new(NOBODY)],
        }
    }

    /// Two workers came, which are all that there are.
    fn has_two_numbers(&self) -> bool {
        let one = self.numbers[0].load(Ordering::SeqCst);
        let two = self.numbers[1].load(Ordering::SeqCst);
        one < 2 && two < 2 && one != two
    }
}

impl Gate for MeetingGate {
    ghost entered = { λ gate worker ticket. Unit {0} };

    fn enter(&self, worker: u32, ticket: u64) {
        match ticket {
            0 => {
                self.numbers[0].store(u64::from(worker), Ordering::SeqCst);
                self.meeting.first();
            }
            1 => {
                self.numbers[1].store(u64::from(worker), Ordering::SeqCst);
                self.meeting.second();
            }
            _ => {}
        }
    }
}

/// The valid word of inode 1 in the region of these tests.
const FIRST_SLOT: u64 = 16384;

/// The valid word of inode 2.
const SECOND_SLOT: u64 = 12416;

/// The log of inode 1.
const FIRST_LOG: u64 = 20480;

/// The log of inode 2, if it is in use.
const SECOND_LOG: u64 = 24576;

/// A meeting of the workers that load these words.
#[derive(Drop)]
struct MeetingLoads {
    meeting: Meeting,
    first: u64,
    second: u64,
}

impl MeetingLoads {
    fn at(first: u64, second: u64) -> MeetingLoads {
        MeetingLoads {
            meeting: Meeting::new(),
            first,
            second,
        }
    }
}

impl Watch for MeetingLoads {
    fn loads(&self, at: u64) {
        if at == self.first {
            self.meeting.first();
        }
        if at == self.second {
            self.meeting.second();
        }
    }
}

/// The words of a region of two CPUs and 64 blocks, in which the root alone is in use.
const WORDS: [Word; 10] = [
    (0, MAGIC),
    (8, 1),
    (16, 2),
    (24, 64),
    (32, 1),
    (FIRST_SLOT, 1),
    (FIRST_SLOT + 8, 2),
    (FIRST_SLOT + 16, FIRST_LOG),
    (FIRST_SLOT + 24, FIRST_LOG + 32),
    (FIRST_LOG, DIRECTORY_MODE),
];

/// Inode 2 is a directory that no name leads to.
const LOST: [Word; 5] = [
    (SECOND_SLOT, 1),
    (SECOND_SLOT + 8, 2),
    (SECOND_SLOT + 16, SECOND_LOG),
    (SECOND_SLOT + 24, SECOND_LOG + 32),
    (SECOND_LOG, DIRECTORY_MODE),
];

/// A region of one CPU in version 2. Its tickets are its table's block, and block 10, in which the table goes on.
const CHAINED: [Word; 11] = [
    (0, MAGIC),
    (8, 2),
    (16, 1),
    (24, 64),
    (32, 1),
    (4112, 40960),
    (8320, 1),
    (8328, 2),
    (8336, FIRST_LOG),
    (8344, FIRST_LOG + 32),
    (FIRST_LOG, DIRECTORY_MODE),
];

fn store_all(memory: &mut MemRegion, words: &[Word]) {
    for &(at, word) in words {
        if at % 8 == 0 && memory.len().saturating_sub(at) >= 8 {
            let _unstopped = memory.store(at, word);
        }
    }
}

/// A region of 64 blocks with these words.
fn region_of(alloc: Global, words: &[Word]) -> Result<MemRegion, RegionRefusal> {
    let mut memory = MemRegion::new(alloc, 64)?;
    store_all(&mut memory, words);
    Ok(memory)
}

fn region_with_both(alloc: Global) -> Result<MemRegion, RegionRefusal> {
    let mut memory = region_of(alloc, &WORDS)?;
    store_all(&mut memory, &LOST);
    Ok(memory)
}

/// The workers find so many inodes and faults.
fn recover_all<P: Pmem + Sync, G: Gate + Sync, R: Threads + Abort + Sync>(
    rt: &R,
    alloc: Global,
    memory: &mut P,
    workers: u64,
    gate: &G,
    found: (usize, usize),
) -> Result<(), RecoverError> {
    let recovered = recover(rt, alloc, memory, workers, gate)?;
    assert!(rt; recovered.rows.len() == found.0);
    assert!(rt; recovered.faults.len() == found.1);
    Ok(())
}

/// The workers with the first two tickets are at the gate at the same time.
fn meet_at_the_gate<R: Threads + Abort + Sync>(
    rt: &R,
    alloc: Global,
    words: &[Word],
    workers: u64,
) -> Result<(), Fail> {
    let mut memory = region_of(alloc, words)?;
    let gate = MeetingGate::new();
    recover_all(rt, alloc, &mut memory, workers, &gate, (1, 0))?;
    assert!(rt; gate.meeting.both_met());
    assert!(rt; gate.has_two_numbers());
    Ok(())
}

#[test]
fn two_tickets_at_once(rt: HostRuntime) -> Result<(), Fail> {
    for workers in &WORKERS {
        meet_at_the_gate(&rt, rt.alloc(), &WORDS, *workers)?;
        meet_at_the_gate(&rt, rt.alloc(), &CHAINED, *workers)?;
    }
    Ok(())
}

#[test]
fn two_inodes_are_read_at_once(rt: HostRuntime) -> Result<(), Fail> {
    for workers in &WORKERS {
        let mut memory = WatchedRegion {
            memory: region_of(rt.alloc(), &WORDS)?,
            watch: MeetingLoads::at(FIRST_SLOT, SECOND_SLOT),
        };
        recover_all(&rt, rt.alloc(), &mut memory, *workers, &NoGate, (1, 0))?;
        assert!(rt; memory.watch.meeting.both_met());
    }
    Ok(())
}

/// The second word of a log is loaded by the scan alone. What is touched ahead of it are a log's first word and its ninth.
#[test]
fn two_logs_are_read_at_once(rt: HostRuntime) -> Result<(), Fail> {
    for workers in &WORKERS {
        let mut memory = WatchedRegion {
            memory: region_with_both(rt.alloc())?,
            watch: MeetingLoads::at(FIRST_LOG + 8, SECOND_LOG + 8),
        };
        recover_all(&rt, rt.alloc(), &mut memory, *workers, &NoGate, (2, 2))?;
        assert!(rt; memory.watch.meeting.both_met());
    }
    Ok(())
}
