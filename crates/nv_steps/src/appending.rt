//! Entries written behind the log of a row: all growths first, then the commit, then the row.

ghost use Rattle.std.specs.Prelude.{◌≡◌, ◌<◌, ◌≤◌, ◌%◌, length, IfErr, OnOk};
ghost use Rattle.nv_region.specs.Stops.{LeavesOnly, NothingPending};
ghost use Rattle.nv_logpage.specs.Append.{AreGiven, needed};
ghost use Rattle.nv_mounted.specs.Held.{Held, Store};
ghost use Rattle.nv_commit.specs.Stopped.{LeavesEither};
ghost use Rattle.nv_tree.specs.declared.refusal.Refusal.{Refusal as RefusalValue};
ghost use Rattle.nv_steps.specs.Steps.{AppendsLog, LeavesStep, ShowsRow};
ghost use Rattle.nv_steps.specs.Stopped.{Appended};
ghost use Rattle.nv_steps.specs.Stores.{StoresIn, one_log};
ghost use Rattle.nv_steps.specs.Keeping.{NeedsFree, SettlesStep};
ghost use Rattle.nv_steps.specs.Premises.{CanAppendLog};

use crate::preparing::prepare_log;
use crate::settling::settle_log;
use crate::slots::slot_of_row;
use nv_alloc::{AllocRefusal, Allocators};
use nv_commit::extend_log;
use nv_entry::Entry;
use nv_inode::Tables;
use nv_region::Pmem;
use nv_scan::Row;
use nv_tree::Refusal;
use std::alloc::Global;

/// Writes entries behind the log of a row, over blocks that it takes for them, and puts its new tail and pages into the row.
/// What else the entries say of the inode is left to the caller.
///
/// `NoSpace` where all pools together have too few blocks, `Memory` where a growth was refused; both change nothing.
/// `Stopped` where the fuse has burnt.
pub(crate) fn append_log<P: Pmem>(
    alloc: Global,
    memory: &mut P,
    tables: &Tables,
    free: &mut Allocators,
    cpu: u64,
    row: &mut Row,
    entries: &[Entry],
) -> Result<(), Refusal>
    requires { CanAppendLog (P.region memory.old) tables.now.layout free.old cpu row.old (AreGiven entries.now) }
    ensures appended { OnOk result (AppendsLog (P.region memory.old) (P.region memory.new) tables.now.layout free.old free.new cpu row.old row.new entries.now) }
    ensures needs { NeedsFree (needed (row.old.tail % 4096) entries.now) free.old result }
    ensures room { OnOk result (free.old.room ≤ free.new.room) }
    ensures kept { SettlesStep P.region P.may_hold P.fuse memory.old memory.new free.old free.new result }
    ensures unchanged { IfErr result (λ e. (e ≡ RefusalValue.Stopped → ⊥) → LeavesStep memory.old memory.new free.old free.new row.old row.new) }
    ensures inode { row.new.inode ≡ row.old.inode }
    // Every word outside these places is as it was.
    ensures wrote { (held : Store) (h : Held) → ShowsRow (P.region memory.old) tables.now.layout held h row.old free.old → 0 < length entries.now
        → StoresIn tables.now.layout held (one_log tables.now.layout row.old.inode) (P.region memory.old) (P.region memory.new) }
    // What a stop leaves, at any exit.
    ensures any_stop { (held : Store) (h : Held) → ShowsRow (P.region memory.old) tables.now.layout held h row.old free.old → 0 < length entries.now
        → NothingPending (P.region memory.old) (P.may_hold memory.old)
        → LeavesOnly (P.region memory.new) (P.may_hold memory.new) (LeavesEither (P.region memory.old) tables.now.layout held
        (Appended (P.region memory.old) tables.now.layout free.old cpu row.old entries.now)) }
{
    let slot = slot_of_row(tables, row.inode);
    let tail = row.tail;
    let fresh = match prepare_log(alloc, free, cpu, &mut row.pages, tail, entries) {
        Ok(fresh) => fresh,
        Err(AllocRefusal::NoSpace) => return Err(Refusal::NoSpace),
        Err(AllocRefusal::Memory) => return Err(Refusal::Memory),
    };
    match extend_log(memory, slot, tail, entries, &fresh) {
        Ok(end) => {
            settle_log(row, &fresh, end);
            Ok(())
        }
        Err(_) => Err(Refusal::Stopped),
    }
}
