//! Recovery by workers on threads of their own.

ghost use Rattle.std.specs.Prelude.{◌≡◌, ◌*◌, ◌<◌, ◌≤◌, [], IfOk, IfErr};
ghost use Rattle.nv_region.specs.Region.{HasBlocks};
ghost use Rattle.nv_rows.specs.RowList.{HasNumbersOf};
ghost use Rattle.nv_recover.specs.declared.errors.RecoverError.TheVariants as errors;
ghost use Rattle.nv_outcome.specs.Answer.{outcome_of, SharesBlocks};
ghost use Rattle.nv_outcome.specs.Outcome.{IsOutcome};
ghost use Rattle.nv_journal.specs.Undo.{undone};
ghost use Rattle.nv_recover.specs.Errors.{Fails, IsBadCount};
ghost use Rattle.nv_recover.specs.Keeping.{KeepsRecovering};
ghost use Rattle.nv_recover.specs.Scanned.{IsScanned};

use crate::errors::RecoverError;
use crate::finishing::finish;
use crate::one::scan_all;
use crate::scanned::Scanned;
use crate::sets::owned_of;
use crate::starting::{is_worker_count, start};
use crate::workers::scan_by_workers;
use nv_inode::Tables;
use nv_outcome::{Recovered, cross_faults};
use nv_region::Pmem;
use nv_scan::Gate;
use std::alloc::{AllocError, Global};
use std::thread::Threads;

/// Recovers a region, damaged or not, by 1 to 64 workers on threads of their own: rolls its journals back, and answers
/// the outcome of the region as it came, whatever order the workers' steps fall in. No more of them begin than there
/// are tickets, and one works on the caller's thread, as do those for which no thread can be started. All threads are
/// joined before it answers; it waits for them and for the gate, which each worker enters after each ticket that it
/// draws.
///
/// Errors: `Workers`, tested first, where their number isn't 1 to 64, the memory as before; and those of `recover_one`.
pub fn recover<P: Pmem + Sync, G: Gate + Sync, H: Threads + Sync>(
    rt: &H,
    alloc: Global,
    memory: &mut P,
    workers: u64,
    gate: &G,
) -> Result<Recovered, RecoverError>
    ensures ok { IfOk result (λ r. IsOutcome (P.region memory.old) (outcome_of r)) }
    ensures undone { IfOk result (λ r. P.region memory.new ≡ undone r.sup (P.region memory.old)) }
    // Where nothing is wrong, each data block stands in exactly one free list or has exactly one owner.
    ensures once { IfOk result (λ r. r.faults.items ≡ [] → SharesBlocks (P.region memory.new) r) }
    ensures lists { IfOk result (λ r. r.free.sup ≡ r.sup) }
    // The tables are those of the outcome, and each row has a number in them.
    ensures tables { IfOk result (λ r. r.tables.layout.sup ≡ r.sup) }
    ensures numbers { IfOk result (λ r. HasNumbersOf r.tables.layout r.rows) }
    ensures workers { IsBadCount workers → IfOk result (λ _. ⊥) × IfErr result (λ e. e ≡ errors.Workers) }
    ensures err { IfErr result (λ e. Fails workers [] e (P.region memory.old) (P.region memory.new)) }
    // What it stores, what a stop leaves, and when it is stopped.
    ensures kept { KeepsRecovering P.region P.may_hold P.fuse memory.old memory.new result }
{
    if !is_worker_count(workers) {
        return Err(RecoverError::Workers);
    }
    let started = start(alloc, memory)?;
    let scanned = scan_on_threads(rt, alloc, &*memory, &started.tables, workers, gate)?;
    Ok(finish(alloc, started, scanned)?)
}

// Scans all inodes by workers. One alone shares nothing.
fn scan_on_threads<P: Pmem + Sync, G: Gate + Sync, H: Threads + Sync>(
    rt: &H,
    alloc: Global,
    memory: &P,
    tables: &Tables,
    workers: u64,
    gate: &G,
) -> Result<Scanned, AllocError>
    requires blocks { HasBlocks (P.region memory.now) tables.now.layout.sup.blocks }
    requires workers { (0 < workers) × (workers ≤ 64) }
    ensures { IfOk result (IsScanned (P.region memory.now) tables.now.layout) }
{
    if workers == 1 {
        return scan_all(alloc, memory, tables, gate);
    }
    tables.are_laid();
    let (inodes, claimed) = scan_by_workers(rt, alloc, memory, tables, workers, gate)?;
    let owned = owned_of(alloc, claimed)?;
    let cross = cross_faults(alloc, tables, &inodes.rows)?;
    Ok(Scanned {
        inodes,
        owned,
        cross,
    })
}
