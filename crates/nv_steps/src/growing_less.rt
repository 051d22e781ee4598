//! Two logs that grow while another inode goes, and the rows that stand for them: all growths first, then the commit, then the
//! rows.

ghost use Rattle.std.specs.Prelude.{◌≡◌, ◌+◌, ◌%◌, ◌<◌, ◌≤◌, length, IfOk, IfErr, OnOk, OnErr};
ghost use Rattle.nv_region.specs.Stops.{LeavesOnly, NothingPending};
ghost use Rattle.nv_logpage.specs.Append.{needed};
ghost use Rattle.nv_outcome.specs.Same.{SameRow};
ghost use Rattle.nv_mounted.specs.Held.{Held, Store};
ghost use Rattle.nv_commit.specs.Stopped.{LeavesEither};
ghost use Rattle.nv_tree.specs.declared.refusal.Refusal.{Refusal as RefusalValue};
ghost use Rattle.nv_steps.specs.Across.{AppendedLogsLess, AppendsLogsLess};
ghost use Rattle.nv_steps.specs.MoreNames.{AreFew, ReadiesRow};
ghost use Rattle.nv_steps.specs.Steps.{LeavesStep, ShowsRow};
ghost use Rattle.nv_steps.specs.InOrder.{TailIsFirst, TailIsNext, tail_address};
ghost use Rattle.nv_steps.specs.Taken.{SamePools};
ghost use Rattle.nv_steps.specs.Stores.{StoresIn, two_less};
ghost use Rattle.nv_steps.specs.Keeping.{NeedsFree, SettlesStep};
ghost use Rattle.nv_steps.specs.Slots.{slot_in};
ghost use Rattle.nv_steps.specs.Premises.{CanAppendLogsLess};
ghost use Rattle.nv_steps.specs.Readied.{NeedsRoom, TakesCount};

use crate::growing::{Growth, blocks_for, extension, prepare_logs};
use crate::settling::settle_log;
use crate::slots::slot_of_row;
use crate::taking::Displaced;
use nv_alloc::Allocators;
use nv_commit::replace_inode;
use nv_inode::Tables;
use nv_region::Pmem;
use nv_scan::Row;
use nv_tree::Refusal;
use std::alloc::Global;

/// Writes entries behind the logs of two rows, over blocks that it takes, the first log's first, and with them another inode goes.
/// Both rows get the new tails and the new pages. There is room for the names, and for the blocks of that inode.
///
/// `NoSpace` where all pools together have too few blocks, `Memory` where a growth was refused; both change nothing.
/// `Stopped` where the fuse has burnt.
pub(crate) fn append_logs_less<P: Pmem>(
    alloc: Global,
    memory: &mut P,
    tables: &Tables,
    free: &mut Allocators,
    cpu: u64,
    row: &mut Row,
    first: &Growth<'_>,
    other: &mut Row,
    second: &Growth<'_>,
    gone: Displaced,
) -> Result<(), Refusal>
    requires { CanAppendLogsLess (P.region memory.old) tables.now.layout free.old cpu row.old other.old gone.inode (AreFew first.now.entries.now × AreFew second.now.entries.now) }
    ensures appended { OnOk result (AppendsLogsLess (P.region memory.old) (P.region memory.new) tables.now.layout free.old free.new cpu row.old row.new first.now.entries.now other.old other.new
        second.now.entries.now gone.inode) }
    ensures needs { NeedsRoom (needed (row.old.tail % 4096) first.now.entries.now + needed (other.old.tail % 4096) second.now.entries.now)
        ((second.now.names ≤ other.new.names.room) × (gone.blocks ≤ free.new.room)) free.old result }
    ensures kept { SettlesStep P.region P.may_hold P.fuse memory.old memory.new free.old free.new result }
    ensures unchanged { IfErr result (λ e. (e ≡ RefusalValue.Stopped → ⊥) → LeavesStep memory.old memory.new free.old free.new row.old row.new × SameRow other.old other.new) }
    ensures inodes { (row.new.inode ≡ row.old.inode) × (other.new.inode ≡ other.old.inode) }
    // Every word outside these places is as it was.
    ensures wrote { (held : Store) (h g : Held) → ShowsRow (P.region memory.old) tables.now.layout held h row.old free.old → ShowsRow (P.region memory.old) tables.now.layout held g other.old free.old
        → StoresIn tables.now.layout held (two_less tables.now.layout cpu row.old.inode other.old.inode gone.inode) (P.region memory.old) (P.region memory.new) }
    // The tails are stored in their order, and then the valid word.
    ensures in_order { (held : Store) (h g : Held) → ShowsRow (P.region memory.old) tables.now.layout held h row.old free.old
        → ShowsRow (P.region memory.old) tables.now.layout held g other.old free.old
        → TailIsFirst (P.region memory.old) (P.region memory.new) tables.now.layout free.old.pools cpu row.old.inode row.old.tail first.now.entries.now (tail_address tables.now.layout other.old.inode)
        × TailIsNext (P.region memory.old) (P.region memory.new) tables.now.layout free.old.pools cpu (needed
        (row.old.tail % 4096) first.now.entries.now) other.old.inode other.old.tail second.now.entries.now (slot_in tables.now.layout gone.inode) }
    // Whatever a stop leaves: recovery finds what is held, or it with both logs grown and without the inode, without faults.
    ensures any_stop { (held : Store) (h g : Held) → ShowsRow (P.region memory.old) tables.now.layout held h row.old free.old
        → ShowsRow (P.region memory.old) tables.now.layout held g other.old free.old
        → NothingPending (P.region memory.old) (P.may_hold memory.old)
        → LeavesOnly (P.region memory.new) (P.may_hold memory.new) (LeavesEither (P.region memory.old) tables.now.layout held
        (AppendedLogsLess (P.region memory.old) tables.now.layout free.old cpu row.old first.now.entries.now other.old second.now.entries.now gone.inode)) }
{
    let blocks = prepare_logs_less(alloc, free, cpu, row, first, other, second, gone.blocks)?;
    let count = blocks_for(row, first) as usize;
    let (fresh, more) = blocks.split_at(count);
    let one = extension(tables, row, first.entries, fresh);
    let two = extension(tables, other, second.entries, more);
    let slot = slot_of_row(tables, gone.inode);
    let Ok((end, last)) = replace_inode(memory, cpu, &one, &two, slot) else {
        return Err(Refusal::Stopped);
    };
    settle_log(row, fresh, end);
    settle_log(other, more, last);
    Ok(())
}

/// Takes the blocks that both logs need, each by itself, and makes room for them in both rows, and in the free lists for so many
/// blocks that come.
///
/// `NoSpace` where all pools together have fewer blocks, `Memory` where a growth was refused. Both leave the free lists.
fn prepare_logs_less(
    alloc: Global,
    free: &mut Allocators,
    cpu: u64,
    row: &mut Row,
    first: &Growth<'_>,
    other: &mut Row,
    second: &Growth<'_>,
    coming: usize,
) -> Result<Vec<u64>, Refusal>
    requires cpu { cpu < free.old.sup.cpus }
    requires few { (length first.now.entries.now < 4096) × (length second.now.entries.now < 4096) }
    ensures taken { IfOk result (λ blocks. TakesCount free.old cpu blocks.items (needed (row.old.tail % 4096) first.now.entries.now + needed (other.old.tail % 4096) second.now.entries.now)
        free.new) }
    ensures needs { NeedsFree (needed (row.old.tail % 4096) first.now.entries.now + needed (other.old.tail % 4096) second.now.entries.now) free.old result }
    ensures room { OnOk result (coming ≤ free.new.room) }
    ensures goes_on { IfErr result (λ e. e ≡ RefusalValue.Stopped → ⊥) }
    ensures unchanged { OnErr result (SamePools free.old free.new) }
    ensures rows { SameRow row.old row.new × SameRow other.old other.new }
    ensures ready { OnOk result (ReadiesRow row.old row.new first.now.entries.now first.now.names × ReadiesRow other.old other.new second.now.entries.now second.now.names) }
{
    if free.reserve(coming).is_err() {
        return Err(Refusal::Memory);
    }
    prepare_logs(alloc, free, cpu, row, first, other, second)
}
