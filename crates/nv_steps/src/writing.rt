//! New bytes of a file, by its row: all growths first, then the commit, then the row and the free lists.

ghost use Rattle.std.specs.Prelude.{◌≡◌, ◌<◌, ◌≤◌, ℕ, Result, IfErr, OnOk};
ghost use Rattle.nv_region.specs.Region.{size};
ghost use Rattle.nv_region.specs.Stops.{LeavesOnly, NothingPending};
ghost use Rattle.nv_alloc.specs.Taking.{all_blocks};
ghost use Rattle.nv_mounted.specs.Held.{Held, Store};
ghost use Rattle.nv_commit.specs.Stopped.{LeavesEither};
ghost use Rattle.nv_tree.specs.declared.refusal.Refusal.{Refusal as RefusalValue};
ghost use Rattle.nv_steps.specs.Steps.{LeavesStep, ShowsRow};
ghost use Rattle.nv_steps.specs.Stopped.{Wrote};
ghost use Rattle.nv_steps.specs.Stores.{StoresIn, one_log};
ghost use Rattle.nv_steps.specs.Writes.{NeedsBlocks};
ghost use Rattle.nv_steps.specs.Written.{RefusesWrite, WritesFile};
ghost use Rattle.nv_steps.specs.Keeping.{SettlesStep};
ghost use Rattle.nv_bytes.specs.Data.{data_bytes};
ghost use Rattle.nv_steps.specs.Premises.{CanWrite};

use crate::giving::give_all;
use crate::planning::Plan;
use crate::preparing_data::prepare_data;
use crate::settling_data::settle_data;
use crate::slots::slot_of_row;
use crate::storing_data::commit_data;
use nv_alloc::{AllocRefusal, Allocators};
use nv_bytes::NewBytes;
use nv_inode::Tables;
use nv_region::Pmem;
use nv_scan::Row;
use nv_tree::Refusal;
use std::alloc::Global;

/// Writes new bytes, of which there are some, into the file of a row: they and what stays of their pages go to free blocks,
/// the entries that name these behind the log, and then the blocks that the pages had are given back.
///
/// `NoSpace` where all pools together have too few blocks, `Memory` where a growth was refused; both change nothing.
/// `Stopped` where the fuse has burnt.
pub fn change_bytes<P: Pmem>(
    alloc: Global,
    memory: &mut P,
    tables: &Tables,
    free: &mut Allocators,
    cpu: u64,
    row: &mut Row,
    plan: &Plan,
    change: &NewBytes,
) -> Result<(), Refusal>
    requires { CanWrite (P.region memory.old) tables.now.layout free.old cpu row.old plan.now change.now.offset (data_bytes change.now.content) change.now.size }
    ensures writes { OnOk result (WritesFile (P.region memory.old) (P.region memory.new) tables.now.layout free.old free.new cpu plan.now change.now.offset
        (data_bytes change.now.content) row.old row.new) }
    ensures enough { OnOk result ((count : ℕ) → NeedsBlocks free.old.pools cpu row.old.tail plan.now count → count ≤ all_blocks free.old.pools) }
    ensures kept { SettlesStep P.region P.may_hold P.fuse memory.old memory.new free.old free.new result }
    ensures refused { IfErr result (λ e. RefusesWrite e free.old cpu row.old.tail plan.now) }
    ensures unchanged { IfErr result (λ e. (e ≡ RefusalValue.Stopped → ⊥) → LeavesStep memory.old memory.new free.old free.new row.old row.new) }
    ensures inode { row.new.inode ≡ row.old.inode }
    // Every word outside these places is as it was.
    ensures wrote { (held : Store) (h : Held) → ShowsRow (P.region memory.old) tables.now.layout held h row.old free.old
        → StoresIn tables.now.layout held (one_log tables.now.layout row.old.inode) (P.region memory.old) (P.region memory.new) }
    // What a stop leaves, at any exit.
    ensures any_stop { (held : Store) (h : Held) → ShowsRow (P.region memory.old) tables.now.layout held h row.old free.old → NothingPending (P.region memory.old) (P.may_hold memory.old)
        → LeavesOnly (P.region memory.new) (P.may_hold memory.new) (LeavesEither (P.region memory.old) tables.now.layout held
        (Wrote (P.region memory.old) tables.now.layout free.old cpu plan.now change.now.offset (data_bytes change.now.content) row.old)) }
{
    let ready = match prepare_data(alloc, free, cpu, row, plan) {
        Ok(ready) => ready,
        Err(AllocRefusal::NoSpace) => return Err(Refusal::NoSpace),
        Err(AllocRefusal::Memory) => return Err(Refusal::Memory),
    };
    let slot = slot_of_row(tables, row.inode);
    match commit_data(memory, &row.index, slot, row.tail, &ready.log, change) {
        Ok(end) => {
            settle_data(row, &ready.log, plan, end);
            give_all(free, &ready.replaced);
            Ok(())
        }
        Err(_) => Err(Refusal::Stopped),
    }
}
