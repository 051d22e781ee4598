//! A worker of a recovery: it draws tickets until none is left, scans the inodes of each and claims what they own.

ghost use Rattle.std.specs.Prelude.{◌≡◌, ◌<◌, ◌≤◌, ◌*◌, ℕ, IsTrue, false, [], length, take, IfOk, OnOk};
ghost use Rattle.std.specs.List.{All, Contains};
ghost use Rattle.nv_region.specs.Region.{HasBlocks};
ghost use Rattle.nv_inode.specs.Chains.{IsLaid};
ghost use Rattle.nv_inode.specs.SlotBlocks.{slot_blocks};
ghost use Rattle.nv_claimcore.specs.Claims.{nothing};
ghost use Rattle.nv_scan.specs.Tickets.{ticket_count, numbers_of, numbers_to};
ghost use Rattle.nv_scan.specs.Unused.{KnowsUnused};
ghost use Rattle.nv_scan.specs.Work.{AreNext, IsAllWork, IsDone, Returned, claims_among, tickets_among};

use crate::claiming::claim_each;
use crate::claims::Claims;
use crate::inodes::{Inodes, ListedInodes};
use crate::row_list::{RowList, push_heads};
use crate::scan::Scanner;
use crate::tickets::SLOTS;
use crate::unused::{UnusedBlocks, scan_slots_once};
use nv_claimmap::{ClaimMap, ClaimSeat};
use nv_inode::{SlotBlock, Tables};
use nv_numbered::Chunks;
use nv_region::Pmem;
use nv_super::{Fault, SLOT_SIZE};
use std::alloc::{AllocError, Global};

/// What a worker passes between drawing a ticket and its work, so that a caller can watch or hold workers.
pub trait Gate {
    /// The worker of this number has entered with this ticket. Code that takes any gate has this from `enter` alone.
    ghost entered: { Self → ℕ → ℕ → Type 0 };

    /// The worker of this number has drawn this ticket.
    fn enter(&self, worker: u32, ticket: u64)
        ensures { entered self.now worker ticket };
}

/// A gate that holds nobody.
#[derive(Clone, Copy)]
pub struct NoGate;

impl Gate for NoGate {
    ghost entered = { λ gate worker ticket. Unit {0} };

    fn enter(&self, _worker: u32, _ticket: u64) {}
}

/// What a worker gives back.
#[derive(Drop)]
pub struct WorkerResult {
    /// The seat that it worked by, in every case.
    pub seat: ClaimSeat,
    /// The rows of its tickets' inodes, in the order of the draws; none where it was refused memory.
    pub rows: RowList,
    /// What is wrong with each of these inodes by itself, in that order; nothing where it was refused memory.
    pub faults: Vec<Fault>,
    /// Memory was refused, so the work isn't whole.
    pub refused: bool,
}

/// Draws tickets until none is left; a ticket is a block of slots. After each draw the gate is entered; then the inodes of
/// the block's slots are scanned one after another, and the blocks that they own are claimed for their owners. If it is
/// of a chain, the block itself is claimed first, whatever its slots hold. A block of unused slots costs a few loads for
/// each, and no log.
///
/// It stops early only where a growth is refused: then `refused` is true, and there are no rows and no faults.
pub fn worker<P: Pmem, G: Gate>(
    alloc: Global,
    memory: &P,
    tables: &Tables,
    map: &ClaimMap,
    mut seat: ClaimSeat,
    gate: &G,
) -> WorkerResult
    requires blocks { HasBlocks (P.region memory.now) tables.now.layout.sup.blocks }
    requires own { (seat.map ≡ map.now) × (seat.view ≡ nothing 1) }
    requires sizes { (map.now.sizes.blocks ≡ tables.now.layout.sup.blocks) × (map.now.sizes.tickets ≡ ticket_count tables.now.layout) }
    ensures returned { Returned (P.region memory.now) tables.now.layout map.now result }
    ensures number { result.seat.number ≡ seat.number }
    ensures refused { IsTrue result.refused → (result.rows.items ≡ []) × (result.faults.items ≡ []) }
    // It has entered the gate with each ticket that its seat drew, by the seat's number.
    ensures entered { result.refused ≡ false → All (G.entered gate.now seat.number) (tickets_among (ticket_count tables.now.layout) result.seat.view.numbers) }
{
    match draw_all(alloc, memory, tables, map, &mut seat, gate) {
        Ok(inodes) => WorkerResult {
            seat,
            rows: inodes.rows,
            faults: inodes.faults,
            refused: false,
        },
        Err(AllocError) => WorkerResult {
            seat,
            rows: RowList::new(alloc),
            faults: Vec::new(alloc),
            refused: true,
        },
    }
}

/// Does the work of one ticket after another until none is left, and answers the inodes of all.
fn draw_all<P: Pmem, G: Gate>(
    alloc: Global,
    memory: &P,
    tables: &Tables,
    map: &ClaimMap,
    seat: &mut ClaimSeat,
    gate: &G,
) -> Result<ListedInodes, AllocError>
    requires blocks { HasBlocks (P.region memory.now) tables.now.layout.sup.blocks }
    requires own { (seat.old.map ≡ map.now) × (seat.old.view ≡ nothing 1) }
    requires sizes { (map.now.sizes.blocks ≡ tables.now.layout.sup.blocks) × (map.now.sizes.tickets ≡ ticket_count tables.now.layout) }
    ensures seat { (seat.new.map ≡ map.now) × (seat.new.number ≡ seat.old.number) × (seat.new.view.seats ≡ 1) }
    ensures done { IfOk result (λ inodes. IsAllWork (P.region memory.now) tables.now.layout seat.new.view inodes.rows.items inodes.faults.items) }
    ensures entered { IfOk result (λ _. All (G.entered gate.now seat.old.number) (tickets_among (ticket_count tables.now.layout) seat.new.view.numbers)) }
{
    tables.are_laid();
    let mut scanner = Scanner::new(alloc, tables.sup());
    let mut inodes = Inodes::new(alloc);
    let mut heads = Chunks::new(alloc);
    let mut each = room_for_ticket(alloc)?;
    let mut unused = UnusedBlocks::new(alloc, tables.sup().blocks)?;
    while let Some(ticket) = map.draw(seat) {
        gate.enter(seat.number(), ticket);
        scan_ticket(
            memory,
            tables,
            &mut scanner,
            map,
            seat,
            &mut inodes,
            &mut each,
            &mut unused,
            ticket,
            gate,
        )?;
        // Now, while the ticket's rows are in the processor's cache.
        push_heads(&mut heads, &inodes.rows)?;
    }
    Ok(inodes.with_heads(heads))
}

/// Does the work of one ticket: the inodes of its block of slots are scanned, their rows and faults are kept, and what they own
/// is claimed.
///
/// All are scanned before the first is claimed. A step of the claim map waits for what was stored before it, and other
/// workers want the same words: so the steps of a ticket come in a row. The gate has been entered with the ticket before.
fn scan_ticket<P: Pmem, G: Gate>(
    memory: &P,
    tables: &Tables,
    scanner: &mut Scanner,
    map: &ClaimMap,
    seat: &mut ClaimSeat,
    inodes: &mut Inodes,
    each: &mut Vec<Claims>,
    unused: &mut UnusedBlocks,
    ticket: u64,
    _gate: &G,
) -> Result<(), AllocError>
    requires entered { G.entered _gate.now seat.old.number ticket }
    requires tables { tables.now.layout.sup ≡ scanner.old }
    requires blocks { HasBlocks (P.region memory.now) tables.now.layout.sup.blocks }
    requires own { seat.old.map ≡ map.now }
    requires sizes { map.now.sizes.blocks ≡ tables.now.layout.sup.blocks }
    requires ticket { ticket < ticket_count tables.now.layout }
    requires room { length each.old.items ≡ 32 }
    requires known { KnowsUnused (P.region memory.now) unused.old }
    requires set { tables.now.layout.sup.blocks ≤ 64 * length unused.old }
    ensures scanner { scanner.new ≡ scanner.old }
    ensures seat { (seat.new.map ≡ seat.old.map) × (seat.new.number ≡ seat.old.number) × (seat.new.view.seats ≡ seat.old.view.seats) }
    ensures room { length each.new.items ≡ 32 }
    ensures done { OnOk result (IsDone (P.region memory.now) tables.now.layout (numbers_of tables.now.layout ticket) seat.old.view seat.new.view inodes.old.rows.items inodes.new.rows.items
        inodes.old.faults.items inodes.new.faults.items) }
    ensures known { KnowsUnused (P.region memory.now) unused.new }
    ensures set { length unused.new ≡ length unused.old }
{
    tables.are_laid();
    let count = scan_slots_once(memory, tables, scanner, inodes, each, unused, ticket)?;
    claim_each(map, seat, &each[..count])
}

/// Scans the inodes of a ticket's block of slots, and answers how many are told of. Their rows and faults are put behind
/// those that are kept, and their claims take the first places of the room for a ticket's.
///
/// Errors: `AllocError` where a growth was refused.
pub fn scan_slots<P: Pmem>(
    memory: &P,
    tables: &Tables,
    scanner: &mut Scanner,
    inodes: &mut Inodes,
    each: &mut Vec<Claims>,
    ticket: u64,
) -> Result<usize, AllocError>
    requires tables { tables.now.layout.sup ≡ scanner.old }
    requires blocks { HasBlocks (P.region memory.now) tables.now.layout.sup.blocks }
    requires ticket { ticket < ticket_count tables.now.layout }
    requires room { length each.old.items ≡ 32 }
    ensures scanner { scanner.new ≡ scanner.old }
    ensures room { length each.new.items ≡ 32 }
    ensures count { IfOk result (λ count. count ≤ 32) }
    ensures next { IfOk result (λ count. AreNext (P.region memory.now) tables.now.layout (numbers_of tables.now.layout ticket) inodes.old inodes.new (claims_among (take count each.new.items))) }
{
    tables.are_laid();
    let block = tables.slot_block(ticket);
    scanner.touch(memory, &block);
    scan_block(memory, tables, scanner, inodes, each, &block)
}

/// Scans the inodes of a block of slots, one after another.
pub(crate) fn scan_block<P: Pmem>(
    memory: &P,
    tables: &Tables,
    scanner: &mut Scanner,
    inodes: &mut Inodes,
    each: &mut Vec<Claims>,
    block: &SlotBlock,
) -> Result<usize, AllocError>
    requires laid { IsLaid tables.now.layout }
    requires tables { tables.now.layout.sup ≡ scanner.old }
    requires blocks { HasBlocks (P.region memory.now) tables.now.layout.sup.blocks }
    requires block { Contains (slot_blocks tables.now.layout) block.now }
    requires room { length each.old.items ≡ 32 }
    ensures scanner { scanner.new ≡ scanner.old }
    ensures room { length each.new.items ≡ 32 }
    ensures count { IfOk result (λ count. count ≤ 32) }
    ensures next { IfOk result (λ count. AreNext (P.region memory.now) tables.now.layout (numbers_to tables.now.layout block.now block.now.slots) inodes.old inodes.new
        (claims_among (take count each.new.items))) }
{
    let cpus = tables.cpus();
    let mut count = 0;
    let mut at = block.start;
    let mut inode = block.first;
    for _ in 0..block.slots {
        let found = scanner.scan_at(memory, inode, at, inodes, &mut each[count])?;
        if found {
            count += 1;
        }
        at += SLOT_SIZE;
        inode += cpus;
    }
    Ok(count)
}

/// Room for the claims of a ticket's inodes.
///
/// Errors: `AllocError` where its memory was refused.
pub fn room_for_ticket(alloc: Global) -> Result<Vec<Claims>, AllocError>
    ensures { IfOk result (λ each. length each.items ≡ 32) }
{
    let mut each = Vec::with_capacity(alloc, SLOTS as usize)?;
    for _ in 0..SLOTS {
        each.push(Claims::new(alloc))?;
    }
    Ok(each)
}
