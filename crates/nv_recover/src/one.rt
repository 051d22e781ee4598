//! Recovery on one thread.

ghost use Rattle.std.specs.Prelude.{◌≡◌, ◌*◌, List, [], IfOk, IfErr};
ghost use Rattle.nv_region.specs.Region.{HasBlocks};
ghost use Rattle.std.specs.List.Sorted.{IsPermutation};
ghost use Rattle.nv_scan.specs.Work.{claims_in};
ghost use Rattle.nv_scan.specs.declared.piece.Piece.{Piece};
ghost use Rattle.nv_rows.specs.RowList.{HasNumbersOf};
ghost use Rattle.nv_recover.specs.declared.errors.RecoverError.TheVariants as errors;
ghost use Rattle.nv_outcome.specs.Answer.{outcome_of, SharesBlocks};
ghost use Rattle.nv_outcome.specs.Outcome.{IsOutcome};
ghost use Rattle.nv_journal.specs.Undo.{undone};
ghost use Rattle.nv_recover.specs.Errors.{Fails};
ghost use Rattle.nv_recover.specs.Keeping.{KeepsRecovering};
ghost use Rattle.nv_recover.specs.Scanned.{AreInodes, AreSetsOf, IsScanned};

use crate::errors::RecoverError;
use crate::finishing::finish;
use crate::scanned::Scanned;
use crate::sets::Sets;
use crate::starting::start;
use nv_inode::Tables;
use nv_numbered::Chunks;
use nv_outcome::{Recovered, cross_faults};
use nv_region::Pmem;
use nv_scan::{
    Gate, Inodes, ListedInodes, NoGate, Scanner, UnusedBlocks, push_heads, room_for_ticket,
    scan_slots_once, ticket_count,
};
use std::alloc::{AllocError, Global};

/// Recovers a region, damaged or not, on one thread: rolls its journals back, and answers the outcome of the region as
/// it came.
///
/// Errors: `Super` with the first fault of the superblock, the memory as before; `Memory` where a growth was refused,
/// the region as before or with its journals rolled back; `Stopped` where its fuse has burnt. After `Stopped` a later
/// recovery gives the region that this one would have given. It doesn't come where no journal has anything to roll
/// back, or where the memory is open up to the first data block.
///
/// It stores what rolling the journals back stores, and nothing else: nothing to a journal that has nothing to roll back.
///
/// Where nothing was pending before, whatever a power failure leaves, at any of its stores or behind the last one, has the
/// same superblock and rolls back to the same region.
pub fn recover_one<P: Pmem>(alloc: Global, memory: &mut P) -> Result<Recovered, RecoverError>
    ensures ok { IfOk result (λ r. IsOutcome (P.region memory.old) (outcome_of r)) }
    ensures undone { IfOk result (λ r. P.region memory.new ≡ undone r.sup (P.region memory.old)) }
    // Where nothing is wrong, each data block stands in exactly one free list or has exactly one owner.
    ensures once { IfOk result (λ r. r.faults.items ≡ [] → SharesBlocks (P.region memory.new) r) }
    ensures lists { IfOk result (λ r. r.free.sup ≡ r.sup) }
    // The tables are those of the outcome, and each row has a number in them.
    ensures tables { IfOk result (λ r. r.tables.layout.sup ≡ r.sup) }
    ensures numbers { IfOk result (λ r. HasNumbersOf r.tables.layout r.rows) }
    ensures err { IfErr result (λ e. Fails 1 [] e (P.region memory.old) (P.region memory.new)) }
    // What it stores, what a stop leaves, and when it is stopped.
    ensures kept { KeepsRecovering P.region P.may_hold P.fuse memory.old memory.new result }
{
    let started = start(alloc, memory)?;
    let scanned = scan_all(alloc, &*memory, &started.tables, &NoGate)?;
    Ok(finish(alloc, started, scanned)?)
}

/// Scans all inodes by the one worker that there is, of number 0, on this thread. It shares nothing: no list of all claims is
/// kept, and none is made by an atomic step.
pub(crate) fn scan_all<P: Pmem, G: Gate>(
    alloc: Global,
    memory: &P,
    tables: &Tables,
    gate: &G,
) -> Result<Scanned, AllocError>
    requires { HasBlocks (P.region memory.now) tables.now.layout.sup.blocks }
    ensures { IfOk result (IsScanned (P.region memory.now) tables.now.layout) }
{
    tables.are_laid();
    let (inodes, sets) = scan_tickets(alloc, memory, tables, gate)?;
    let owned = sets.owned(alloc, tables, inodes.rows.as_rows())?;
    let cross = cross_faults(alloc, tables, &inodes.rows)?;
    Ok(Scanned {
        inodes,
        owned,
        cross,
    })
}

// Scans the inodes of one ticket after another, with each of which the gate is entered, and puts the blocks that they claim into
// the sets.
fn scan_tickets<P: Pmem, G: Gate>(
    alloc: Global,
    memory: &P,
    tables: &Tables,
    gate: &G,
) -> Result<(ListedInodes, Sets), AllocError>
    requires { HasBlocks (P.region memory.now) tables.now.layout.sup.blocks }
    ensures { IfOk result (λ r. (pieces drawn : List Piece) × AreInodes (P.region memory.now) tables.now.layout pieces r.0 × IsPermutation (claims_in pieces) (claims_in drawn)
        × AreSetsOf (P.region memory.now) tables.now.layout drawn r.0.rows.items r.1.first.items r.1.second.items) }
{
    tables.are_laid();
    let mut scanner = Scanner::new(alloc, tables.sup());
    let mut inodes = Inodes::new(alloc);
    let mut heads = Chunks::new(alloc);
    let mut each = room_for_ticket(alloc)?;
    let mut sets = Sets::new(alloc, tables.sup())?;
    let mut unused = UnusedBlocks::new(alloc, tables.sup().blocks)?;
    for ticket in 0..ticket_count(tables) {
        gate.enter(0, ticket);
        let count = scan_slots_once(
            memory,
            tables,
            &mut scanner,
            &mut inodes,
            &mut each,
            &mut unused,
            ticket,
        )?;
        push_heads(&mut heads, &inodes.rows)?;
        sets.claim_each(&each[..count]);
    }
    Ok((inodes.with_heads(heads), sets))
}
