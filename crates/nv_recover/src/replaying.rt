//! Recovery whose claims are made in a written order, with no thread.

ghost use Rattle.std.specs.Prelude.{[], ◌≡◌, ◌*◌, ◌<◌, ℕ, List, Some, None, IfOk, IfErr, length};
ghost use Rattle.std.specs.List.Sorted.{IsPermutation};
ghost use Rattle.nv_region.specs.Region.{HasBlocks};
ghost use Rattle.nv_claimcore.specs.Replay.{lists, Inside, first_stranger};
ghost use Rattle.nv_scan.specs.declared.piece.Piece.{Piece as PieceValue};
ghost use Rattle.nv_scan.specs.Tickets.{ticket_count};
ghost use Rattle.nv_scan.specs.Work.{claims_among, claims_in};
ghost use Rattle.nv_rows.specs.RowList.{HasNumbersOf};
ghost use Rattle.nv_recover.specs.declared.errors.RecoverError.TheVariants as errors;
ghost use Rattle.nv_outcome.specs.Answer.{outcome_of, SharesBlocks};
ghost use Rattle.nv_outcome.specs.Outcome.{IsOutcome};
ghost use Rattle.nv_journal.specs.Undo.{undone};
ghost use Rattle.nv_recover.specs.Errors.{Fails, RefusesFirst};
ghost use Rattle.nv_recover.specs.Keeping.{KeepsRecovering};
ghost use Rattle.nv_recover.specs.Scanned.{AreInodes, IsScanned, AreClaimedSets, all_claims};

use crate::errors::RecoverError;
use crate::finishing::finish;
use crate::scanned::Scanned;
use crate::sets::owned_of;
use crate::starting::{is_worker_count, start};
use nv_claimcore::{ClaimState, CoreRefusal, replay};
use nv_claimmap::{Claimed, ClaimedRuns};
use nv_inode::Tables;
use nv_numbered::Chunks;
use nv_outcome::{Recovered, cross_faults};
use nv_region::Pmem;
use nv_scan::{
    Claims, Inodes, ListedInodes, Scanner, push_heads, room_for_ticket, scan_slots, ticket_count,
};
use nv_super::{Owner, Super};
use std::alloc::{AllocError, Global};

/// Recovers a region as `recover` does, on one thread: the workers' claims are made in the order of the schedule, of
/// which each number gives that worker one step, and then the workers run to their ends in rising order. Workers and
/// places of the schedule are numbered from 0.
///
/// Errors: `Workers`, tested first, where their number isn't 1 to 64; `Schedule` with the first place that names no
/// worker, tested next; both with the memory as before; and those of `recover_one`.
pub fn recover_replay<P: Pmem>(
    alloc: Global,
    memory: &mut P,
    workers: u64,
    schedule: &[u32],
) -> Result<Recovered, RecoverError>
    ensures ok { IfOk result (λ r. IsOutcome (P.region memory.old) (outcome_of r)) }
    ensures undone { IfOk result (λ r. P.region memory.new ≡ undone r.sup (P.region memory.old)) }
    // Where nothing is wrong, each data block stands in exactly one free list or has exactly one owner.
    ensures once { IfOk result (λ r. r.faults.items ≡ [] → SharesBlocks (P.region memory.new) r) }
    ensures lists { IfOk result (λ r. r.free.sup ≡ r.sup) }
    // The tables are those of the outcome, and each row has a number in them.
    ensures tables { IfOk result (λ r. r.tables.layout.sup ≡ r.sup) }
    ensures numbers { IfOk result (λ r. HasNumbersOf r.tables.layout r.rows) }
    ensures first { RefusesFirst workers schedule.now result }
    ensures err { IfErr result (λ e. Fails workers schedule.now e (P.region memory.old) (P.region memory.new)) }
    // What it stores, what a stop leaves, and when it is stopped.
    ensures kept { KeepsRecovering P.region P.may_hold P.fuse memory.old memory.new result }
{
    if !is_worker_count(workers) {
        return Err(RecoverError::Workers);
    }
    if let Some(place) = first_stranger(schedule, workers as u32) {
        return Err(RecoverError::Schedule(place));
    }
    let started = start(alloc, memory)?;
    let scanned = scan_by_schedule(alloc, &*memory, &started.tables, workers as u32, schedule)?;
    Ok(finish(alloc, started, scanned)?)
}

// Scans all inodes, and makes their claims in the order of the schedule.
fn scan_by_schedule<P: Pmem>(
    alloc: Global,
    memory: &P,
    tables: &Tables,
    workers: u32,
    schedule: &[u32],
) -> Result<Scanned, AllocError>
    requires blocks { HasBlocks (P.region memory.now) tables.now.layout.sup.blocks }
    requires workers { 0 < workers }
    requires named { first_stranger workers schedule.now ≡ None }
    ensures { IfOk result (IsScanned (P.region memory.now) tables.now.layout) }
{
    tables.are_laid();
    let (inodes, work, claims) = scan_apart(alloc, memory, tables)?;
    let claimed = claim_all(alloc, tables.sup(), workers, schedule, work, claims)?;
    let owned = owned_of(alloc, claimed)?;
    let cross = cross_faults(alloc, tables, &inodes.rows)?;
    Ok(Scanned {
        inodes,
        owned,
        cross,
    })
}

// Scans the inodes of each ticket, and keeps a list of claims for each, and all claims as runs.
fn scan_apart<P: Pmem>(
    alloc: Global,
    memory: &P,
    tables: &Tables,
) -> Result<(ListedInodes, Vec<Vec<(u64, Owner)>>, ClaimedRuns), AllocError>
    requires { HasBlocks (P.region memory.now) tables.now.layout.sup.blocks }
    ensures inodes { IfOk result (λ r. (pieces : List PieceValue) × AreInodes (P.region memory.now) tables.now.layout pieces r.0 × IsPermutation (claims_in pieces) (all_claims r.1.items)) }
    ensures tickets { IfOk result (λ r. length r.1.items ≡ ticket_count tables.now.layout) }
    ensures claims { IfOk result (λ r. r.2.items ≡ all_claims r.1.items) }
{
    tables.are_laid();
    let mut scanner = Scanner::new(alloc, tables.sup());
    let mut inodes = Inodes::new(alloc);
    let mut heads = Chunks::new(alloc);
    let mut each = room_for_ticket(alloc)?;
    let mut work = Vec::new(alloc);
    let mut claims = ClaimedRuns::new(alloc);
    for ticket in 0..ticket_count(tables) {
        let count = scan_slots(memory, tables, &mut scanner, &mut inodes, &mut each, ticket)?;
        push_heads(&mut heads, &inodes.rows)?;
        let mut runs = runs_of(alloc, &each[..count])?;
        work.push(runs.to_list(alloc)?)?;
        claims.append(&mut runs)?;
    }
    Ok((inodes.with_heads(heads), work, claims))
}

// The claims of several inodes together.
fn runs_of(alloc: Global, each: &[Claims]) -> Result<ClaimedRuns, AllocError>
    ensures { IfOk result (λ runs. runs.items ≡ claims_among each.now) }
{
    let mut runs = ClaimedRuns::new(alloc);
    for claims in each {
        claims.add_to(&mut runs)?;
    }
    Ok(runs)
}

// The claims of this work, made in the order of the schedule.
fn claim_all(
    alloc: Global,
    sup: &Super,
    workers: u32,
    schedule: &[u32],
    work: Vec<Vec<(u64, Owner)>>,
    claims: ClaimedRuns,
) -> Result<Claimed, AllocError>
    requires workers { 0 < workers }
    requires named { first_stranger workers schedule.now ≡ None }
    requires inside { Inside sup.now.blocks (lists work.items) }
    requires same { claims.items ≡ all_claims work.items }
    ensures sets { IfOk result (λ claimed. AreClaimedSets sup.now (lists work.items) claimed.first.items claimed.second.items) }
    ensures claims { IfOk result (λ claimed. claimed.claims.items ≡ all_claims work.items) }
{
    let state = replay_all(alloc, sup, workers, schedule, &work)?;
    Ok(Claimed {
        first: state.first().to_vec(alloc)?,
        second: state.second().to_vec(alloc)?,
        claims,
    })
}

// The state in which the workers end. Since the schedule names workers alone, the one refusal is of memory.
fn replay_all(
    alloc: Global,
    sup: &Super,
    workers: u32,
    schedule: &[u32],
    work: &[Vec<(u64, Owner)>],
) -> Result<ClaimState, AllocError>
    requires workers { 0 < workers }
    requires named { first_stranger workers schedule.now ≡ None }
    requires inside { Inside sup.now.blocks (lists work.now) }
    ensures { IfOk result (λ state. AreClaimedSets sup.now (lists work.now) state.first state.second) }
{
    match replay(alloc, schedule, sup.blocks, workers, work) {
        Ok(state) => Ok(state),
        Err(CoreRefusal::Memory) => Err(AllocError),
        Err(CoreRefusal::NotAllowed { .. }) => unreachable!(),
    }
}

// The place of the first number that names no worker.
fn first_stranger(schedule: &[u32], workers: u32) -> Option<usize>
    ensures { result ≡ first_stranger workers schedule.now }
{
    schedule.iter().position(|worker| *worker >= workers)
}
