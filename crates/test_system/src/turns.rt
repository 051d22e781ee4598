//! A worker enters its gate once for each ticket, by its number, and before it loads a slot of the ticket's block.

use crate::small::{TWO_TABLES, opened_for_two, small_region, tables_of};
use crate::watched::{Watch, WatchedRegion};
use nv_scan::{Gate, SLOTS, worker};
use std::sync::atomic::{AtomicBool, AtomicU64, Ordering};
use std::test::Fail;

/// The valid words of inodes 0 to 63, in the blocks of tickets 0 and 1.
const FIRST_SLOT: u64 = 8192;

const LAST_SLOT: u64 = 16256;

const SLOT_SIZE: u64 = 128;

/// Tickets 0 and 1, each as a bit.
const ALL_TICKETS: u64 = 3;

/// Inodes 1 to 63, each as a bit: number 0 isn't read.
const ALL_INODES: u64 = 0xffff_ffff_ffff_fffe;

/// The number of the worker under test, which is the second of two.
const WORKER: u32 = 1;

/// What a worker's gate and its region saw. Ticket `t` and inode `i` are bits `t` and `i`.
#[derive(Drop)]
struct Seen {
    entered: AtomicU64,
    loaded: AtomicU64,
    out_of_turn: AtomicBool,
}

impl Seen {
    fn new() -> Seen {
        Seen {
            entered: AtomicU64::new(0),
            loaded: AtomicU64::new(0),
            out_of_turn: AtomicBool::new(false),
        }
    }

    /// A ticket is entered once, by the worker under test.
    fn enter_once(&self, worker: u32, ticket: u64) {
        let bit = bit_of(ticket);
        if self.entered.fetch_or(bit, Ordering::SeqCst) & bit != 0 || worker != WORKER {
            self.out_of_turn.store(true, Ordering::SeqCst);
        }
    }

    /// The slot of an inode is loaded once its ticket was entered.
    fn load_slot(&self, inode: u64) {
        self.loaded.fetch_or(bit_of(inode), Ordering::SeqCst);
        if self.entered.load(Ordering::SeqCst) & bit_of(inode / SLOTS) == 0 {
            self.out_of_turn.store(true, Ordering::SeqCst);
        }
    }

    fn all_in_turn(&self) -> bool {
        self.entered.load(Ordering::SeqCst) == ALL_TICKETS
            && self.loaded.load(Ordering::SeqCst) == ALL_INODES
            && !self.out_of_turn.load(Ordering::SeqCst)
    }
}

fn bit_of(number: u64) -> u64 {
    if number < 64 { 1 << number } else { 0 }
}

impl Gate for Seen {
    ghost entered = { λ gate worker ticket. Unit {0} };

    fn enter(&self, worker: u32, ticket: u64) {
        self.enter_once(worker, ticket);
    }
}

impl Watch for Seen {
    fn loads(&self, at: u64) {
        if at >= FIRST_SLOT && at <= LAST_SLOT && at % SLOT_SIZE == 0 {
            self.load_slot((at - FIRST_SLOT) / SLOT_SIZE);
        }
    }
}

#[test]
fn the_gate_is_entered_once_for_each_ticket_before_its_slots_are_loaded(
    rt: HostRuntime,
) -> Result<(), Fail> {
    let region = WatchedRegion {
        memory: small_region(rt.alloc(), &[])?,
        watch: Seen::new(),
    };
    let (map, seat) = opened_for_two(rt.alloc())?;
    let tables = tables_of(rt.alloc(), &region.memory, &TWO_TABLES)?;
    let done = worker(rt.alloc(), &region, &tables, &map, seat, &region.watch);
    assert!(rt; !done.refused);
    assert!(rt; region.watch.all_in_turn());
    Ok(())
}
