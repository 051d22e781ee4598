//! Workers in threads of the caller's own. What is checked is the same whatever the order of their steps.

ghost use Rattle.std.specs.Prelude.{◌≡◌, ◌+◌, ◌<◌, ◌≤◌, IfOk};
ghost use Rattle.nv_super.specs.Owners.{MayOwn};
ghost use Rattle.nv_claimcore.specs.Claims.{nothing, both_views};

use crate::checks::{check, check_at};
use nv_claimcore::Sizes;
use nv_claimmap::{ClaimMap, ClaimSeat, Claimed};
use nv_super::{Owner, Run};
use std::alloc::{AllocError, Global};
use std::process::Abort;
use std::test::Fail;
use std::thread;
use std::thread::Threads;

const fn sizes(blocks: u64, tickets: u64, workers: u64) -> Sizes
    ensures { (result.blocks ≡ blocks) × (result.tickets ≡ tickets) × (result.workers ≡ workers) }
{
    Sizes {
        blocks,
        tickets,
        workers,
    }
}

const fn run(start: u64, count: u64) -> Run
    ensures { (result.start ≡ start) × (result.count ≡ count) }
{
    Run { start, count }
}

// A map with two seats.
fn opened(
    alloc: Global,
    blocks: u64,
    tickets: u64,
) -> Result<(ClaimMap, ClaimSeat, ClaimSeat), AllocError>
    requires { tickets < 1000000 }
    ensures { IfOk result (λ r. (r.1.map ≡ r.0) × (r.1.view ≡ nothing 1) × (r.2.map ≡ r.0) × (r.2.view ≡ nothing 1) × (r.0.sizes.blocks ≡ blocks) × (r.0.sizes.tickets ≡ tickets)
        × (r.0.sizes.workers ≡ 2)) }
{
    let (map, mut seats) = ClaimMap::open(alloc, sizes(blocks, tickets, 2))?;
    let (Some(two), Some(one)) = (seats.pop(), seats.pop()) else {
        unreachable!()
    };
    Ok((map, one, two))
}

// Joins two seats. Where memory was refused both come back, and are joined by a second try.
fn joined(map: &ClaimMap, one: ClaimSeat, other: ClaimSeat) -> Result<ClaimSeat, AllocError>
    requires { (one.map ≡ map.now) × (other.map ≡ map.now) }
    ensures { IfOk result (λ s. (s.map ≡ one.map) × (s.number ≡ one.number) × (s.view ≡ both_views one.view other.view)) }
{
    match map.join(one, other) {
        Ok(both) => Ok(both),
        Err((one, other)) => map.join(one, other).map_err(|_| AllocError),
    }
}

// Claims a run. A refusal makes no step, so a second try has the same answer.
fn claimed(
    map: &ClaimMap,
    mut seat: ClaimSeat,
    run: Run,
    owner: Owner,
) -> Result<ClaimSeat, AllocError>
    requires own { seat.map ≡ map.now }
    requires run { (run.start + run.count ≤ map.now.sizes.blocks) × MayOwn owner run.count }
    ensures { IfOk result (λ s. (s.map ≡ seat.map) × (s.view.seats ≡ seat.view.seats)) }
{
    match map.claim(&mut seat, run, owner) {
        Ok(()) => {}
        Err(AllocError) => map.claim(&mut seat, run, owner)?,
    }
    Ok(seat)
}

// The first page of an inode.
const fn page_of(inode: u64) -> Owner
    ensures { result ≡ Owner.Data inode 0 }
{
    Owner::Data { inode, page: 0 }
}

// Draws until no ticket is left. Gives the tickets in the order of the draws.
fn draw_all(alloc: Global, map: &ClaimMap, seat: &mut ClaimSeat) -> Result<Vec<u64>, AllocError>
    requires { seat.old.map ≡ map.now }
    ensures { (seat.new.map ≡ seat.old.map) × (seat.new.view.seats ≡ seat.old.view.seats) }
{
    let mut tickets = Vec::new(alloc);
    while let Some(ticket) = map.draw(seat) {
        tickets.push(ticket)?;
    }
    Ok(tickets)
}

// The tickets, sorted, are the numbers from 0 on, so many of them.
fn assert_each_once(rt: &impl Abort, mut tickets: Vec<u64>, count: usize) {
    tickets.sort_unstable();
    check(rt, tickets.len() == count, "the number of tickets");
    for (wanted, ticket) in (0..1000u64).zip(tickets.iter()) {
        check_at(rt, *ticket == wanted, "a ticket", wanted);
    }
}

// All that was drawn, one list behind the other.
fn all_of(alloc: Global, lists: Vec<Result<Vec<u64>, AllocError>>) -> Result<Vec<u64>, AllocError> {
    let mut tickets = Vec::new(alloc);
    for list in lists {
        tickets.extend_from_slice(&list?)?;
    }
    Ok(tickets)
}

#[test]
fn sixty_four_threads_draw_each_ticket_once(rt: HostRuntime) -> Result<(), Fail> {
    let alloc: Global = rt.alloc();
    let (map, seats) = ClaimMap::open(alloc, sizes(64, 1000, 64))?;
    let lists = thread::map_vec(
        &rt,
        seats,
        &|mut seat: ClaimSeat| -> Result<Vec<u64>, AllocError>
            requires { seat.map ≡ map }
        { draw_all(alloc, &map, &mut seat) },
    )?;
    assert_each_once(&rt, all_of(alloc, lists)?, 1000);
    Ok(())
}

// The first block of a run, and the number of its blocks.
type Pair = (u64, u64);

// Claims runs of at most 100 blocks below a number, each for the first pages of an inode.
fn claim_all(
    map: &ClaimMap,
    mut seat: ClaimSeat,
    blocks: u64,
    runs: &[Pair],
    inode: u64,
) -> Result<ClaimSeat, AllocError>
    requires own { seat.map ≡ map.now }
    requires blocks { map.now.sizes.blocks ≡ blocks }
    ensures { IfOk result (λ s. (s.map ≡ seat.map) × (s.view.seats ≡ seat.view.seats)) }
{
    for (start, count) in runs {
        if *start < blocks && *count <= blocks - *start && *count <= 100 {
            seat = claimed(map, seat, run(*start, *count), page_of(inode))?;
        }
    }
    Ok(seat)
}

// Two threads claim runs, and the map is closed by both seats.
fn claimed_by_two<R: Threads>(
    rt: &R,
    alloc: Global,
    blocks: u64,
    first: &[Pair],
    second: &[Pair],
) -> Result<Claimed, AllocError> {
    let (map, one, two) = opened(alloc, blocks, 0)?;
    let (one, two) = thread::join(
        rt,
        || claim_all(&map, one, blocks, first, 2),
        || claim_all(&map, two, blocks, second, 4),
    );
    let seat = joined(&map, one?, two?)?;
    Ok(map.close(seat))
}

// What two threads claim of so many blocks, and then the two sets, and how many claims there are.
struct Row<'a> {
    blocks: u64,
    runs: [&'a [Pair]; 2],
    first: &'a [u64],
    second: &'a [u64],
    claims: usize,
}

const ROWS: [Row<'static>; 3] = [
    // Two blocks in common, at both sides of a word's end.
    Row {
        blocks: 128,
        runs: [&[(60, 11)], &[(63, 2)]],
        first: &[17293822569102704640, 127],
        second: &[9223372036854775808, 1],
        claims: 13,
    },
    // A whole word, of which one block is lost.
    Row {
        blocks: 64,
        runs: [&[(0, 64)], &[(63, 1)]],
        first: &[18446744073709551615],
        second: &[9223372036854775808],
        claims: 65,
    },
    // Nothing.
    Row {
        blocks: 128,
        runs: [&[], &[]],
        first: &[0, 0],
        second: &[0, 0],
        claims: 0,
    },
];

fn assert_claimed(rt: &impl Abort, alloc: Global, closed: &Claimed, row: &Row) {
    check(rt, closed.first.as_slice() == row.first, "the first set");
    check(rt, closed.second.as_slice() == row.second, "the second set");
    let claims = closed.claims.to_list(alloc).expect(rt, "memory");
    check(rt, claims.len() == row.claims, "the claims");
}

fn is_claimed<R: Threads + Abort>(rt: &R, alloc: Global, row: &Row) {
    let [first, second] = row.runs;
    let closed = claimed_by_two(rt, alloc, row.blocks, first, second).expect(rt, "memory");
    assert_claimed(rt, alloc, &closed, row);
}

#[test]
fn two_threads_claim_blocks_in_common(rt: HostRuntime) {
    for row in ROWS.iter() {
        is_claimed(&rt, rt.alloc(), row);
    }
}
