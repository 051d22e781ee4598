//! The inodes are scanned by workers on threads of their own, and what they bring is put together.

ghost use Rattle.std.specs.Prelude.{◌≡◌, ◌<◌, ◌≤◌, ◌++◌, List, IfOk, OnOk, false, vec_len};
ghost use Rattle.std.specs.List.{All};
ghost use Rattle.nv_region.specs.Region.{HasBlocks};
ghost use Rattle.nv_claimcore.specs.Claims.{nothing, both_views};
ghost use Rattle.nv_claimmap.specs.Held.{Held};
ghost use Rattle.nv_numbered.specs.Chunked.{by_chunks};
ghost use Rattle.nv_scan.specs.Tickets.{ticket_count};
ghost use Rattle.nv_scan.specs.Work.{Returned};
ghost use Rattle.nv_scan.specs.declared.piece.Piece.{Piece as PieceValue};
ghost use Rattle.nv_recover.specs.Scanned.{AreInodes, AreClaimed};
ghost use Rattle.nv_recover.specs.Workers.{IsBrought};

use nv_claimcore::Sizes;
use nv_claimmap::{ClaimMap, ClaimSeat, Claimed};
use nv_inode::Tables;
use nv_region::Pmem;
use nv_scan::{Gate, ListedInodes, WorkerResult, ticket_count, worker};
use std::alloc::{AllocError, Global};
use std::thread;
use std::thread::Threads;

/// All inodes by themselves, and what was claimed for them. There are no more workers than tickets: the others would draw
/// none, and start a thread for it.
pub(crate) fn scan_by_workers<P: Pmem + Sync, G: Gate + Sync, H: Threads + Sync>(
    rt: &H,
    alloc: Global,
    memory: &P,
    tables: &Tables,
    workers: u64,
    gate: &G,
) -> Result<(ListedInodes, Claimed), AllocError>
    requires blocks { HasBlocks (P.region memory.now) tables.now.layout.sup.blocks }
    requires workers { (0 < workers) × (workers ≤ 64) }
    ensures { IfOk result (λ r. (pieces : List PieceValue) × AreInodes (P.region memory.now) tables.now.layout pieces r.0 × AreClaimed tables.now.layout.sup pieces r.1) }
{
    tables.are_laid();
    let tickets = ticket_count(tables);
    let sizes = Sizes {
        blocks: tables.sup().blocks,
        tickets,
        workers: workers.min(tickets),
    };
    let (map, seats) = ClaimMap::open(alloc, sizes)?;
    let brought = work_all(rt, alloc, memory, tables, &map, seats, gate)?;
    Ok((brought.inodes, map.close(brought.seat)))
}

// What the workers bring, one for each seat, put together.
fn work_all<P: Pmem + Sync, G: Gate + Sync, H: Threads + Sync>(
    rt: &H,
    alloc: Global,
    memory: &P,
    tables: &Tables,
    map: &ClaimMap,
    seats: Vec<ClaimSeat>,
    gate: &G,
) -> Result<Brought, AllocError>
    requires blocks { HasBlocks (P.region memory.now) tables.now.layout.sup.blocks }
    requires sizes { (map.now.sizes.blocks ≡ tables.now.layout.sup.blocks) × (map.now.sizes.tickets ≡ ticket_count tables.now.layout) }
    requires some { 0 < vec_len seats }
    requires fresh { All (λ (h : Held). (h.map ≡ map.now) × (h.view ≡ nothing 1)) seats.items }
    ensures { IfOk result (IsBrought (P.region memory.now) tables.now.layout map.now (vec_len seats)) }
{
    let results = thread::map_vec(
        rt,
        seats,
        &|seat: ClaimSeat| -> WorkerResult
            requires { (seat.map ≡ map.now) × (seat.view ≡ nothing 1) × (map.now.sizes.blocks ≡ tables.now.layout.sup.blocks) × (map.now.sizes.tickets ≡ ticket_count tables.now.layout)
                × HasBlocks (P.region memory.now) tables.now.layout.sup.blocks }
            ensures { Returned (P.region memory.entry.now) tables.entry.now.layout map.entry.now result }
        { worker(alloc, memory, tables, map, seat, gate) },
    )?;
    join_all(memory, tables, map, results)
}

/// What all workers brought: the seat that was joined of theirs, and their inodes, the rows in no order.
#[derive(Drop)]
pub(crate) struct Brought {
    pub seat: ClaimSeat,
    pub inodes: ListedInodes,
}

// Joins the seats, and puts what was scanned together.
fn join_all<P: Pmem>(
    _memory: &P,
    _tables: &Tables,
    map: &ClaimMap,
    mut results: Vec<WorkerResult>,
) -> Result<Brought, AllocError>
    requires some { 0 < vec_len results }
    requires each { All (Returned (P.region _memory.now) _tables.now.layout map.now) results.items }
    ensures { IfOk result (IsBrought (P.region _memory.now) _tables.now.layout map.now (vec_len results)) }
{
    let Some(first) = results.pop() else {
        unreachable!()
    };
    let (mut seat, mut inodes) = take_apart(first)?;
    while let Some(next) = results.pop() {
        seat = join_next(map, seat, &mut inodes, next)?;
    }
    Ok(Brought { seat, inodes })
}

// Joins one worker's seat to this one, and puts what it scanned to what is there.
fn join_next(
    map: &ClaimMap,
    seat: ClaimSeat,
    inodes: &mut ListedInodes,
    work: WorkerResult,
) -> Result<ClaimSeat, AllocError>
    requires own { seat.map ≡ map.now }
    requires other { work.seat.map ≡ map.now }
    ensures whole { IfOk result (λ _. work.refused ≡ false) }
    ensures map { IfOk result (λ both. both.map ≡ seat.map) }
    ensures view { IfOk result (λ both. both.view ≡ both_views seat.view work.seat.view) }
    ensures rows { OnOk result (inodes.new.rows.items ≡ by_chunks inodes.old.rows.items work.rows.items) }
    ensures faults { OnOk result (inodes.new.faults.items ≡ inodes.old.faults.items ++ work.faults.items) }
{
    let (other, more) = take_apart(work)?;
    inodes.append(more)?;
    match map.join(seat, other) {
        Ok(both) => Ok(both),
        Err(_) => Err(AllocError),
    }
}

// A worker's seat, and what it scanned. A refused worker's work isn't whole, so there is no answer then.
fn take_apart(work: WorkerResult) -> Result<(ClaimSeat, ListedInodes), AllocError>
    ensures whole { IfOk result (λ _. work.refused ≡ false) }
    ensures seat { IfOk result (λ r. r.0 ≡ work.seat) }
    ensures rows { IfOk result (λ r. r.1.rows ≡ work.rows) }
    ensures faults { IfOk result (λ r. r.1.faults ≡ work.faults) }
{
    if work.refused {
        return Err(AllocError);
    }
    let WorkerResult {
        seat,
        rows,
        faults,
        refused: _,
    } = work;
    Ok((seat, ListedInodes { rows, faults }))
}
