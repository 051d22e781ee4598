//! Workers that take their steps by a schedule, and then run to their ends, with no thread.

ghost use Rattle.std.specs.Prelude.{◌≡◌, ◌+◌, ◌/◌, ◌<◌, ◌^◌, ◌==◌, [], ◌∷◌, length, drop, slice_set, None, IfOk, IfErr, OnOk, MatchOption};
ghost use Rattle.nv_blockset.specs.BlockSet.{has};
ghost use Rattle.nv_super.specs.declared.owners.Owner.{Owner};
ghost use Rattle.nv_claimcore.specs.declared.event.Event.TheVariants.{Draw, Claim, Mark};
ghost use Rattle.nv_claimcore.specs.Claims.{Legal, Owes};
ghost use Rattle.nv_claimcore.specs.Events.{start, view_of, after};
ghost use Rattle.nv_claimcore.specs.Finished.{Finished, pairs_at};
ghost use Rattle.nv_claimcore.specs.Replay.{lists, Inside, first_stranger, Replayed, RefusesSchedule};
ghost use Rattle.nv_claimcore.specs.Pace.{Running, left_at, pace_of, marked_pace, claimed_pace, drawn_pace};
ghost use Rattle.nv_claimcore.specs.Turns.{TookTurn, TookTurns, RanToEnd, RanInOrder};

use crate::refusal::CoreRefusal;
use crate::state::ClaimState;
use crate::view::Sizes;
use nv_super::Owner;
use std::alloc::{AllocError, Global};

/// The state that `workers` workers leave who do the work, a list of claims for each ticket.
///
/// Each number of the schedule gives that worker one step: it marks its lost claim that is not marked yet, or else it
/// makes the next claim of its last ticket, or else it draws. A worker that drew past the end, and has nothing left to
/// mark or to claim, has no step. Then the workers run to their ends in rising order. Workers are numbered from 0.
///
/// Each step takes the same time, but for the growth of the worker's lists.
///
/// Errors: `NotAllowed` with the first place of the schedule that names no worker, where there is one; else only
/// `Memory`, where a growth was refused.
pub fn replay(
    alloc: Global,
    schedule: &[u32],
    blocks: u64,
    workers: u32,
    work: &[Vec<(u64, Owner)>],
) -> Result<ClaimState, CoreRefusal>
    requires some_worker { 0 < workers }
    requires inside { Inside blocks (lists work.now) }
    ensures replayed { IfOk result (Replayed record { blocks = blocks; tickets = length work.now; workers = workers } (lists work.now) schedule.now) }
    ensures legal { IfOk result (Legal record { blocks = blocks; tickets = length work.now; workers = workers }) }
    ensures finished { IfOk result (λ s. Finished s (lists work.now)) }
    ensures refused { IfErr result (RefusesSchedule workers schedule.now) }
{
    if let Some(place) = first_stranger(schedule, workers) {
        return Err(CoreRefusal::NotAllowed { place });
    }
    let sizes = Sizes {
        blocks,
        tickets: work.len() as u64,
        workers: workers as u64,
    };
    let mut progress = Progress::new(alloc, sizes, work)?;
    progress.follow(work, schedule)?;
    progress.run_out(work, workers)?;
    Ok(progress.state)
}

// The place of the first number that names no worker.
fn first_stranger(schedule: &[u32], workers: u32) -> Option<usize>
    ensures { result ≡ first_stranger workers schedule.now }
{
    schedule.iter().position(|worker| *worker >= workers)
}

/// How far a worker has come: its last ticket, how many of that ticket's claims it has made, the block of its lost claim
/// that is not marked yet, and whether it has drawn past the end.
#[derive(Clone, Copy, Drop)]
struct Pace {
    ticket: usize,
    made: usize,
    lost: Option<u64>,
    ended: bool,
}

/// A replay under way: the state, and how far each worker has come.
#[derive(Drop)]
struct Progress {
    sizes: Sizes,
    state: ClaimState,
    paces: Vec<Pace>,
}

impl Progress {
    fn new(alloc: Global, sizes: Sizes, work: &[Vec<(u64, Owner)>]) -> Result<Progress, AllocError>
        requires tickets { sizes.tickets ≡ length work.now }
        requires inside { Inside sizes.blocks (lists work.now) }
        requires fits { sizes.tickets + sizes.workers < 2 ^ 64 }
        ensures { IfOk result (λ r. (r.sizes ≡ sizes) × (r.state ≡ start sizes) × Running sizes (lists work.now) r.state r.paces.items) }
    {
        let state = ClaimState::new(alloc, sizes)?;
        let mut paces = Vec::new(alloc);
        for _ in 0..sizes.workers {
            paces.push(Pace {
                ticket: work.len(),
                made: 0,
                lost: None,
                ended: false,
            })?;
        }
        Ok(Progress {
            sizes,
            state,
            paces,
        })
    }

    // Gives each worker of the schedule one turn.
    fn follow(&mut self, work: &[Vec<(u64, Owner)>], schedule: &[u32]) -> Result<(), AllocError>
        requires running { Running self.old.sizes (lists work.now) self.old.state self.old.paces.items }
        requires named { first_stranger self.old.sizes.workers schedule.now ≡ None }
        ensures { OnOk result (TookTurns (lists work.now) schedule.now self.old self.new) }
    {
        for worker in schedule {
            self.step(work, *worker)?;
        }
        Ok(())
    }

    // The workers run to their ends, one after the other.
    fn run_out(&mut self, work: &[Vec<(u64, Owner)>], workers: u32) -> Result<(), AllocError>
        requires running { Running self.old.sizes (lists work.now) self.old.state self.old.paces.items }
        requires all { self.old.sizes.workers ≡ workers }
        ensures { OnOk result (RanInOrder (lists work.now) workers self.old self.new) }
    {
        for worker in 0..workers {
            self.finish(work, worker)?;
        }
        Ok(())
    }

    // One worker runs to its end.
    fn finish(&mut self, work: &[Vec<(u64, Owner)>], worker: u32) -> Result<(), AllocError>
        requires running { Running self.old.sizes (lists work.now) self.old.state self.old.paces.items }
        requires worker { worker < self.old.sizes.workers }
        ensures { OnOk result (RanToEnd (lists work.now) worker self.old self.new) }
    {
        while self.step(work, worker)? {}
        Ok(())
    }

    // One turn of a worker; false where it has none.
    fn step(&mut self, work: &[Vec<(u64, Owner)>], worker: u32) -> Result<bool, AllocError>
        requires running { Running self.old.sizes (lists work.now) self.old.state self.old.paces.items }
        requires worker { worker < self.old.sizes.workers }
        ensures { IfOk result (λ took. TookTurn (lists work.now) worker self.old self.new took) }
    {
        let pace = self.paces[worker as usize];
        if let Some(block) = pace.lost {
            self.mark(worker, block);
            return Ok(true);
        }
        if let Some((block, owner)) = pace.next_claim(work) {
            self.claim(worker, block, owner)?;
            return Ok(true);
        }
        if pace.ended {
            return Ok(false);
        }
        self.draw(worker)?;
        Ok(true)
    }

    fn mark(&mut self, worker: u32, block: u64)
        requires worker { (worker < length self.old.state.views) × (worker < length self.old.paces.items) }
        requires block { block / 64 < length self.old.state.second }
        requires last { Owes block (view_of self.old.state worker).records }
        ensures sizes { self.new.sizes ≡ self.old.sizes }
        ensures state { self.new.state ≡ after self.old.state (Mark worker block) }
        ensures paces { self.new.paces.items ≡ slice_set self.old.paces.items worker (marked_pace (pace_of self.old.paces.items worker)) }
    {
        self.state.mark_last(worker as usize, block);
        self.paces[worker as usize].lost = None;
    }

    fn claim(&mut self, worker: u32, block: u64, owner: Owner) -> Result<(), AllocError>
        requires worker { (worker < length self.old.state.views) × (worker < length self.old.paces.items) }
        requires block { block / 64 < length self.old.state.first }
        requires room { (pace_of self.old.paces.items worker).made + 1 < 2 ^ 64 }
        ensures sizes { OnOk result (self.new.sizes ≡ self.old.sizes) }
        ensures state { OnOk result (self.new.state ≡ after self.old.state (Claim worker block owner)) }
        ensures paces { OnOk result (self.new.paces.items ≡ slice_set self.old.paces.items worker (claimed_pace (pace_of self.old.paces.items worker) block (has self.old.state.first block == 0))) }
    {
        let won = self.state.claim(worker as usize, block, owner)?;
        let pace = &mut self.paces[worker as usize];
        pace.made += 1;
        pace.lost = if won { None } else { Some(block) };
        Ok(())
    }

    fn draw(&mut self, worker: u32) -> Result<(), AllocError>
        requires worker { (worker < length self.old.state.views) × (worker < length self.old.paces.items) }
        requires room { self.old.state.cursor + 1 < 2 ^ 64 }
        ensures sizes { OnOk result (self.new.sizes ≡ self.old.sizes) }
        ensures state { OnOk result (self.new.state ≡ after self.old.state (Draw worker)) }
        ensures paces { OnOk result (self.new.paces.items ≡ slice_set self.old.paces.items worker (drawn_pace self.old.sizes.tickets self.old.state.cursor)) }
    {
        let number = self.state.draw(worker as usize)?;
        self.paces[worker as usize] = Pace {
            ticket: number as usize,
            made: 0,
            lost: None,
            ended: number >= self.sizes.tickets,
        };
        Ok(())
    }
}

impl Pace {
    // The next claim of the last ticket.
    fn next_claim(&self, work: &[Vec<(u64, Owner)>]) -> Option<(u64, Owner)>
        ensures { MatchOption result (left_at (lists work.now) self.now ≡ []) (λ p. (left_at (lists work.now) self.now ≡ p ∷ drop (self.now.made + 1) (pairs_at (lists work.now) self.now.ticket))
            × (self.now.made + 1 < 2 ^ 64)) }
    {
        if self.ticket < work.len() && self.made < work[self.ticket].len() {
            Some(work[self.ticket][self.made])
        } else {
            None
        }
    }
}
