//! Two workers of a recovery, one behind the other on one thread, and the join of their seats.

ghost use Rattle.std.specs.Prelude.{◌≡◌, ◌+◌};
ghost use Rattle.nv_region.specs.Region.{HasBlocks};

use crate::seats::{joined, opened};
use nv_claimcore::Sizes;
use nv_claimmap::{ClaimMap, ClaimSeat};
use nv_inode::Tables;
use nv_region::MemRegion;
use nv_scan::{NoGate, WorkerResult, ticket_count, worker};
use std::alloc::{AllocError, Global};

/// How many rows and faults workers gave back.
#[derive(Clone, Copy)]
pub(crate) struct Given {
    pub(crate) rows: usize,
    pub(crate) faults: usize,
}

/// What two workers gave back.
#[derive(Clone, Copy)]
pub(crate) struct Work {
    /// By those that were refused memory: nothing, where one was.
    pub(crate) refused: Option<Given>,
    /// By those that weren't.
    pub(crate) whole: Given,
    pub(crate) claims: usize,
}

/// What one worker gave back.
fn given_by(one: &WorkerResult) -> Given {
    Given {
        rows: one.rows.len(),
        faults: one.faults.len(),
    }
}

/// What two workers gave back together.
fn given_by_both(one: &WorkerResult, other: &WorkerResult) -> Given {
    Given {
        rows: one.rows.len().saturating_add(other.rows.len()),
        faults: one.faults.len() + other.faults.len(),
    }
}

/// What the workers gave back that were refused memory, and those that weren't.
fn given_apart(one: &WorkerResult, other: &WorkerResult) -> (Option<Given>, Given) {
    match (one.refused, other.refused) {
        (false, false) => (None, given_by_both(one, other)),
        (true, false) => (Some(given_by(one)), given_by(other)),
        (false, true) => (Some(given_by(other)), given_by(one)),
        (true, true) => (
            Some(given_by_both(one, other)),
            Given { rows: 0, faults: 0 },
        ),
    }
}

/// The claims of two seats together.
fn claims_of(
    alloc: Global,
    map: ClaimMap,
    one: ClaimSeat,
    other: ClaimSeat,
) -> Result<usize, AllocError>
    requires own { (one.map ≡ map) × (other.map ≡ map) }
    requires all { one.view.seats + other.view.seats ≡ map.sizes.workers }
{
    let (both, _) = joined(&map, one, other)?;
    Ok(map.close(both).claims.to_list(alloc)?.len())
}

fn seat_of(worker: WorkerResult) -> ClaimSeat
    ensures { result ≡ worker.seat }
{
    worker.seat
}

/// Lets two workers scan a region by its tables, one behind the other, and joins their seats, also that of one that was
/// refused memory.
pub(crate) fn work_in_turn(
    alloc: Global,
    memory: &MemRegion,
    tables: &Tables,
) -> Result<Work, AllocError>
    requires sup { tables.now.layout.sup.blocks ≡ 16 }
    requires blocks { HasBlocks memory.now.region 16 }
{
    tables.are_laid();
    let sizes = Sizes {
        blocks: 16,
        tickets: ticket_count(tables),
        workers: 2,
    };
    let (map, one, two) = opened(alloc, sizes)?;
    let one = worker(alloc, memory, tables, &map, one, &NoGate);
    let two = worker(alloc, memory, tables, &map, two, &NoGate);
    let (refused, whole) = given_apart(&one, &two);
    let claims = claims_of(alloc, map, seat_of(one), seat_of(two))?;
    Ok(Work {
        refused,
        whole,
        claims,
    })
}
