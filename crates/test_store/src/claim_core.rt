//! Worked lists of events and schedules. In each, two workers claim block 3 of four blocks, once as a page of inode 1's
//! log and once as a page of inode 2's file.

ghost use Rattle.std.specs.Prelude.{IfOk};
ghost use Rattle.nv_claimcore.specs.Replay.{lists, Inside};

use crate::checks::check;
use nv_claimcore::{ClaimState, CoreRefusal, Event, Record, Sizes, Worker, replay, run};
use nv_super::{Owner, Run};
use std::alloc::{AllocError, Global};
use std::process::Abort;

const SIZES: Sizes = Sizes {
    blocks: 4,
    tickets: 2,
    workers: 2,
};

const LOG: Owner = Owner::Log { inode: 1, page: 0 };

const DATA: Owner = Owner::Data { inode: 2, page: 0 };

// Both workers draw a ticket, worker 1 wins block 3, worker 0 loses it and marks it, and both draw past the end.
const EVENTS: [Event; 7] = [
    Event::Draw { worker: 0 },
    Event::Draw { worker: 1 },
    Event::Claim {
        worker: 1,
        block: 3,
        owner: DATA,
    },
    Event::Claim {
        worker: 0,
        block: 3,
        owner: LOG,
    },
    Event::Mark {
        worker: 0,
        block: 3,
    },
    Event::Draw { worker: 0 },
    Event::Draw { worker: 1 },
];

// What a worker is to have at the end: the numbers that it drew, and its one record.
struct Wanted {
    numbers: [u64; 2],
    record: Record,
}

const LOST_LOG: Record = Record {
    block: 3,
    owner: LOG,
    won: false,
    marked: true,
};

const WON_DATA: Record = Record {
    block: 3,
    owner: DATA,
    won: true,
    marked: false,
};

fn assert_worker(rt: &impl Abort, worker: &Worker, wanted: &Wanted) {
    let numbers = wanted.numbers.as_slice();
    check(rt, worker.numbers() == numbers, "the numbers of a worker");
    let records = [wanted.record];
    check(rt, worker.records() == records.as_slice(), "its records");
}

// Both claimed block 3 of four, and drew four numbers in all.
fn assert_state(rt: &impl Abort, state: &ClaimState, wanted: &[Wanted]) {
    check(rt, state.first() == [8].as_slice(), "the first set");
    check(rt, state.second() == [8].as_slice(), "the second set");
    check(rt, state.cursor() == 4, "the cursor");
    let workers = state.views();
    check(rt, workers.len() == wanted.len(), "the number of workers");
    for (worker, wanted) in workers.iter().zip(wanted) {
        assert_worker(rt, worker, wanted);
    }
}

const LOSES_AND_MARKS: Wanted = Wanted {
    numbers: [0, 2],
    record: LOST_LOG,
};

const WINS: Wanted = Wanted {
    numbers: [1, 3],
    record: WON_DATA,
};

const MARKED: [Wanted; 2] = [LOSES_AND_MARKS, WINS];

#[test]
fn the_second_claim_of_a_block_is_lost_and_marked(rt: HostRuntime) {
    let state = run(rt.alloc(), SIZES, &EVENTS).expect(&rt, "a run");
    assert_state(&rt, &state, &MARKED);
}

// The winner marks the block.
#[test]
fn the_first_event_that_is_not_allowed_is_refused(rt: HostRuntime) {
    let mut events = EVENTS;
    events[4] = Event::Mark {
        worker: 1,
        block: 3,
    };
    let refusal = run(rt.alloc(), SIZES, &events).err();
    let wanted = Some(CoreRefusal::NotAllowed { place: 4 });
    check(&rt, refusal == wanted, "a refused event");
}

// Ticket 0 claims block 3 for a log, ticket 1 for a file.
fn work(alloc: Global) -> Result<Vec<Vec<(u64, Owner)>>, AllocError>
    ensures { IfOk result (λ work. Inside 4 (lists work.items)) }
{
    let mut work = Vec::new(alloc);
    work.push(vec![in alloc; (3, LOG)]?)?;
    work.push(vec![in alloc; (3, DATA)]?)?;
    Ok(work)
}

const DRAWS_1_AND_WINS: Wanted = Wanted {
    numbers: [1, 2],
    record: WON_DATA,
};

const DRAWS_0_AND_LOSES: Wanted = Wanted {
    numbers: [0, 3],
    record: LOST_LOG,
};

const SCHEDULED: [Wanted; 2] = [DRAWS_1_AND_WINS, DRAWS_0_AND_LOSES];

// So much work is done by two workers in this order of turns.
fn replayed(alloc: Global, turns: &[u32]) -> Result<ClaimState, CoreRefusal> {
    let work = work(alloc)?;
    replay(alloc, turns, 4, 2, &work)
}

#[test]
fn a_schedule_says_which_worker_wins(rt: HostRuntime) {
    let state = replayed(rt.alloc(), &[1, 0, 0]).expect(&rt, "a replay");
    assert_state(&rt, &state, &SCHEDULED);
}

// One word of 64 blocks, and two workers.
const ONE_WORD: Sizes = Sizes {
    blocks: 64,
    tickets: 0,
    workers: 2,
};

const LAST_FOUR: Run = Run {
    start: 60,
    count: 4,
};

const LAST: Run = Run {
    start: 63,
    count: 1,
};

const LAST_BIT: u64 = 9223372036854775808;

const OTHER: Owner = Owner::Data { inode: 4, page: 0 };

// Worker 0 claims blocks 60 to 63 for a file, and then worker 1 block 63 for another, which it marks.
fn claim_and_mark(state: &mut ClaimState) -> Result<[u64; 2], CoreRefusal> {
    if state.first().len() != 1 {
        return Err(CoreRefusal::Memory);
    }
    let none = state.claim_span(0, LAST_FOUR, DATA)?;
    let lost = state.claim_span(1, LAST, OTHER)?;
    if state.second().len() != 1 {
        return Err(CoreRefusal::Memory);
    }
    state.mark_span(1, 0, lost)?;
    Ok([none, lost])
}

#[test]
fn a_span_gives_the_mask_of_its_lost_claims(rt: HostRuntime) {
    let mut state = run(rt.alloc(), ONE_WORD, &[]).expect(&rt, "a run");
    let lost = claim_and_mark(&mut state);
    check(&rt, lost == Ok([0, LAST_BIT]), "the lost claims");
    check(
        &rt,
        state.second() == [LAST_BIT].as_slice(),
        "the second set",
    );
}
