//! A log that grows while another inode goes, and the row that stands for it: all growths first, then the commit, then the row.

ghost use Rattle.std.specs.Prelude.{◌≡◌, ◌≢◌, ◌%◌, ◌<◌, ◌≤◌, length, IfOk, IfErr, OnOk, OnErr};
ghost use Rattle.smallvec.specs.SmallVec.{HasRoomFor};
ghost use Rattle.nv_region.specs.Stops.{LeavesOnly, NothingPending};
ghost use Rattle.nv_logpage.specs.Append.{AreGiven, needed};
ghost use Rattle.nv_names.specs.Names.{EachOnce};
ghost use Rattle.nv_outcome.specs.Same.{SameRow};
ghost use Rattle.nv_mounted.specs.Held.{Held, Store};
ghost use Rattle.nv_commit.specs.Stopped.{LeavesEither};
ghost use Rattle.nv_tree.specs.declared.refusal.Refusal.{Refusal as RefusalValue};
ghost use Rattle.nv_steps.specs.Grown.{HasGrown};
ghost use Rattle.nv_steps.specs.Steps.{LeavesStep, ShowsRow};
ghost use Rattle.nv_steps.specs.InOrder.{TailIsFirst};
ghost use Rattle.nv_steps.specs.Stores.{StoresIn, one_less};
ghost use Rattle.nv_steps.specs.Takes.{AppendedLess, AppendsLess};
ghost use Rattle.nv_steps.specs.Taken.{SamePools};
ghost use Rattle.nv_steps.specs.Keeping.{NeedsFree, SettlesStep};
ghost use Rattle.nv_steps.specs.Slots.{slot_in};
ghost use Rattle.nv_steps.specs.Premises.{CanAppendWith};
ghost use Rattle.nv_steps.specs.Readied.{NeedsRoom, TakesCount};

use crate::preparing::prepare_log;
use crate::settling::settle_log;
use crate::slots::slot_of_row;
use nv_alloc::{AllocRefusal, Allocators};
use nv_commit::{Extension, remove_inode};
use nv_entry::Entry;
use nv_inode::Tables;
use nv_region::Pmem;
use nv_scan::Row;
use nv_tree::Refusal;
use std::alloc::Global;

/// Puts entries behind the log of a row, over blocks that it takes, and with them another inode goes. The row gets the new tail and
/// the new pages. There is room in the free lists for so many blocks that come.
///
/// `NoSpace` where all pools together have too few blocks, `Memory` where a growth was refused; both change nothing.
/// `Stopped` where the fuse has burnt.
pub fn append_less<P: Pmem>(
    alloc: Global,
    memory: &mut P,
    tables: &Tables,
    free: &mut Allocators,
    cpu: u64,
    row: &mut Row,
    entries: &[Entry],
    gone: u64,
    coming: usize,
) -> Result<(), Refusal>
    requires { CanAppendWith (P.region memory.old) tables.now.layout free.old cpu gone row.old ((row.old.inode ≢ gone) × AreGiven entries.now × (0 < length entries.now)) }
    ensures appended { OnOk result (AppendsLess (P.region memory.old) (P.region memory.new) tables.now.layout free.old free.new cpu row.old row.new gone entries.now) }
    ensures needs { NeedsRoom (needed (row.old.tail % 4096) entries.now) (coming ≤ free.new.room) free.old result }
    ensures kept { SettlesStep P.region P.may_hold P.fuse memory.old memory.new free.old free.new result }
    ensures unchanged { IfErr result (λ e. (e ≡ RefusalValue.Stopped → ⊥) → LeavesStep memory.old memory.new free.old free.new row.old row.new) }
    ensures row { (row.new.inode ≡ row.old.inode) × (row.new.names.room ≡ row.old.names.room) }
    // Every word outside these places is as it was.
    ensures wrote { (held : Store) (h : Held) → ShowsRow (P.region memory.old) tables.now.layout held h row.old free.old
        → StoresIn tables.now.layout held (one_less tables.now.layout cpu row.old.inode gone) (P.region memory.old) (P.region memory.new) }
    // The log's tail is stored first.
    ensures in_order { (held : Store) (h : Held) → ShowsRow (P.region memory.old) tables.now.layout held h row.old free.old
        → TailIsFirst (P.region memory.old) (P.region memory.new) tables.now.layout free.old.pools cpu row.old.inode row.old.tail entries.now (slot_in tables.now.layout gone) }
    // Whatever a stop leaves: recovery finds what is held, or it with the entries and without the inode, without faults.
    ensures any_stop { (held : Store) (h : Held) → ShowsRow (P.region memory.old) tables.now.layout held h row.old free.old → NothingPending (P.region memory.old) (P.may_hold memory.old)
        → LeavesOnly (P.region memory.new) (P.may_hold memory.new) (LeavesEither (P.region memory.old) tables.now.layout held
        (AppendedLess (P.region memory.old) tables.now.layout free.old cpu row.old gone entries.now)) }
{
    let fresh = prepare_cut(alloc, free, cpu, row, entries, coming)?;
    let parent = Extension {
        slot: slot_of_row(tables, row.inode),
        tail: row.tail,
        entries,
        fresh: &fresh,
    };
    let Ok(end) = remove_inode(memory, cpu, &parent, slot_of_row(tables, gone)) else {
        return Err(Refusal::Stopped);
    };
    settle_less(row, &fresh, end);
    Ok(())
}

/// Takes the blocks that entries need behind the tail of a log, each by itself. It makes room for their pages in the
/// row, and in the free lists for so many blocks that come.
///
/// `NoSpace` where all pools together have fewer blocks, `Memory` where a growth was refused. Both leave the free lists.
fn prepare_cut(
    alloc: Global,
    free: &mut Allocators,
    cpu: u64,
    row: &mut Row,
    entries: &[Entry],
    coming: usize,
) -> Result<Vec<u64>, Refusal>
    requires cpu { cpu < free.old.sup.cpus }
    ensures taken { IfOk result (λ blocks. TakesCount free.old cpu blocks.items (needed (row.old.tail % 4096) entries.now) free.new) }
    ensures pages_room { IfOk result (λ blocks. HasRoomFor row.new.pages (length blocks.items)) }
    ensures room { OnOk result (coming ≤ free.new.room) }
    ensures needs { NeedsFree (needed (row.old.tail % 4096) entries.now) free.old result }
    ensures once { EachOnce row.old.names }
    ensures row { SameRow row.old row.new × (row.new.names.room ≡ row.old.names.room) }
    ensures goes_on { IfErr result (λ e. e ≡ RefusalValue.Stopped → ⊥) }
    ensures unchanged { OnErr result (SamePools free.old free.new) }
{
    // A name index says of itself that it has no name twice.
    let _names = row.names.len();
    let tail = row.tail;
    if free.reserve(coming).is_err() {
        return Err(Refusal::Memory);
    }
    match prepare_log(alloc, free, cpu, &mut row.pages, tail, entries) {
        Ok(fresh) => Ok(fresh),
        Err(AllocRefusal::NoSpace) => Err(Refusal::NoSpace),
        Err(AllocRefusal::Memory) => Err(Refusal::Memory),
    }
}

/// Puts the new pages and the new tail of its log into a row, which has room for them, and whose names stay.
fn settle_less(row: &mut Row, fresh: &[u64], end: u64)
    requires { HasRoomFor row.old.pages (length fresh.now) }
    ensures row { HasGrown row.old fresh.now end row.new }
    ensures once { EachOnce row.new.names }
{
    settle_log(row, fresh, end);
    // A name index says of itself that it has no name twice.
    let _names = row.names.len();
}
