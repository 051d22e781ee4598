//! Three logs that grow together, and the rows that stand for them: all growths first, then the commit, then the rows.

ghost use Rattle.std.specs.Prelude.{◌≡◌, ◌+◌, ◌%◌, ◌<◌, ◌≤◌, length, IfOk, IfErr, OnOk, OnErr};
ghost use Rattle.nv_region.specs.Stops.{LeavesOnly, NothingPending};
ghost use Rattle.nv_logpage.specs.Append.{needed};
ghost use Rattle.nv_outcome.specs.Same.{SameRow};
ghost use Rattle.nv_mounted.specs.Held.{Held, Store};
ghost use Rattle.nv_commit.specs.Stopped.{LeavesEither};
ghost use Rattle.nv_tree.specs.declared.refusal.Refusal.{Refusal as RefusalValue};
ghost use Rattle.nv_steps.specs.Across.{AppendedThreeLogs, AppendsThreeLogs};
ghost use Rattle.nv_steps.specs.MoreNames.{AreFew, ReadiesRow};
ghost use Rattle.nv_steps.specs.Steps.{LeavesStep, ShowsRow};
ghost use Rattle.nv_steps.specs.InOrder.{TailIsFirst, TailIsNext, tail_address};
ghost use Rattle.nv_steps.specs.Taken.{SamePools};
ghost use Rattle.nv_steps.specs.Stores.{StoresIn, three_logs};
ghost use Rattle.nv_steps.specs.Keeping.{NeedsFree, SettlesStep};
ghost use Rattle.nv_steps.specs.Premises.{CanAppendThreeLogs};
ghost use Rattle.nv_steps.specs.Readied.{NeedsRoom, TakesCount};

use crate::blocks::{are_enough, take_blocks};
use crate::growing::{Growth, blocks_for, extension, make_room};
use crate::settling::settle_log;
use nv_alloc::{AllocRefusal, Allocators};
use nv_commit::extend_three;
use nv_inode::Tables;
use nv_region::Pmem;
use nv_scan::Row;
use nv_tree::Refusal;
use std::alloc::Global;

/// Writes entries behind the logs of three rows, over blocks that it takes, log after log. All rows get the new tails and the new
/// pages, and there is room for the names.
///
/// `NoSpace` where all pools together have too few blocks, `Memory` where a growth was refused; both change nothing.
/// `Stopped` where the fuse has burnt.
pub(crate) fn append_three_logs<P: Pmem>(
    alloc: Global,
    memory: &mut P,
    tables: &Tables,
    free: &mut Allocators,
    cpu: u64,
    row: &mut Row,
    first: &Growth<'_>,
    other: &mut Row,
    second: &Growth<'_>,
    last: &mut Row,
    third: &Growth<'_>,
) -> Result<(), Refusal>
    requires { CanAppendThreeLogs (P.region memory.old) tables.now.layout free.old cpu row.old other.old last.old
        (AreFew first.now.entries.now × AreFew second.now.entries.now × AreFew third.now.entries.now) }
    ensures appended { OnOk result (AppendsThreeLogs (P.region memory.old) (P.region memory.new) tables.now.layout free.old free.new cpu row.old row.new first.now.entries.now other.old other.new
        second.now.entries.now last.old last.new third.now.entries.now) }
    ensures needs { NeedsRoom (needed (row.old.tail % 4096) first.now.entries.now + needed (other.old.tail % 4096) second.now.entries.now
        + needed (last.old.tail % 4096) third.now.entries.now) (second.now.names ≤ other.new.names.room) free.old result }
    ensures kept { SettlesStep P.region P.may_hold P.fuse memory.old memory.new free.old free.new result }
    ensures unchanged { IfErr result (λ e. (e ≡ RefusalValue.Stopped → ⊥) → LeavesStep memory.old memory.new free.old free.new row.old row.new × SameRow other.old other.new
        × SameRow last.old last.new) }
    ensures inodes { (row.new.inode ≡ row.old.inode) × (other.new.inode ≡ other.old.inode) × (last.new.inode ≡ last.old.inode) }
    // Every word outside these places is as it was.
    ensures wrote { (held : Store) (h g f : Held) → ShowsRow (P.region memory.old) tables.now.layout held h row.old free.old
        → ShowsRow (P.region memory.old) tables.now.layout held g other.old free.old
        → ShowsRow (P.region memory.old) tables.now.layout held f last.old free.old
        → StoresIn tables.now.layout held (three_logs tables.now.layout cpu row.old.inode other.old.inode last.old.inode) (P.region memory.old) (P.region memory.new) }
    // The tails are stored in their order.
    ensures in_order { (held : Store) (h g f : Held) → ShowsRow (P.region memory.old) tables.now.layout held h row.old free.old
        → ShowsRow (P.region memory.old) tables.now.layout held g other.old free.old
        → ShowsRow (P.region memory.old) tables.now.layout held f last.old free.old
        → TailIsFirst (P.region memory.old) (P.region memory.new) tables.now.layout free.old.pools cpu row.old.inode row.old.tail first.now.entries.now (tail_address tables.now.layout other.old.inode)
        × TailIsNext (P.region memory.old) (P.region memory.new) tables.now.layout free.old.pools cpu (needed
        (row.old.tail % 4096) first.now.entries.now) other.old.inode other.old.tail second.now.entries.now (tail_address tables.now.layout last.old.inode) }
    // Whatever a stop leaves: recovery finds what is held, or it with all logs grown, without faults.
    ensures any_stop { (held : Store) (h g f : Held) → ShowsRow (P.region memory.old) tables.now.layout held h row.old free.old
        → ShowsRow (P.region memory.old) tables.now.layout held g other.old free.old
        → ShowsRow (P.region memory.old) tables.now.layout held f last.old free.old
        → NothingPending (P.region memory.old) (P.may_hold memory.old)
        → LeavesOnly (P.region memory.new) (P.may_hold memory.new) (LeavesEither (P.region memory.old) tables.now.layout held
        (AppendedThreeLogs (P.region memory.old) tables.now.layout free.old cpu row.old first.now.entries.now other.old second.now.entries.now last.old third.now.entries.now)) }
{
    let blocks = prepare_three(alloc, free, cpu, row, first, other, second, last, third)?;
    let count = blocks_for(row, first) as usize;
    let (fresh, later) = blocks.split_at(count);
    let next = blocks_for(other, second) as usize;
    let (more, rest) = later.split_at(next);
    let one = extension(tables, row, first.entries, fresh);
    let two = extension(tables, other, second.entries, more);
    let three = extension(tables, last, third.entries, rest);
    let Ok(ends) = extend_three(memory, cpu, &one, &two, &three) else {
        return Err(Refusal::Stopped);
    };
    settle_log(row, fresh, ends.0);
    settle_log(other, more, ends.1);
    settle_log(last, rest, ends.2);
    Ok(())
}

/// Takes the blocks that all three logs need, each by itself, and makes room for them in the rows.
///
/// `NoSpace` where all pools together have fewer blocks, `Memory` where a growth was refused. Both leave the free lists.
fn prepare_three(
    alloc: Global,
    free: &mut Allocators,
    cpu: u64,
    row: &mut Row,
    first: &Growth<'_>,
    other: &mut Row,
    second: &Growth<'_>,
    last: &mut Row,
    third: &Growth<'_>,
) -> Result<Vec<u64>, Refusal>
    requires cpu { cpu < free.old.sup.cpus }
    requires few { (length first.now.entries.now < 4096) × (length second.now.entries.now < 4096) × (length third.now.entries.now < 4096) }
    ensures taken { IfOk result (λ blocks. TakesCount free.old cpu blocks.items (needed (row.old.tail % 4096) first.now.entries.now + needed (other.old.tail % 4096) second.now.entries.now
        + needed (last.old.tail % 4096) third.now.entries.now) free.new) }
    ensures needs { NeedsFree (needed (row.old.tail % 4096) first.now.entries.now + needed (other.old.tail % 4096) second.now.entries.now
        + needed (last.old.tail % 4096) third.now.entries.now) free.old result }
    ensures goes_on { IfErr result (λ e. e ≡ RefusalValue.Stopped → ⊥) }
    ensures unchanged { OnErr result (SamePools free.old free.new) }
    ensures rows { SameRow row.old row.new × SameRow other.old other.new × SameRow last.old last.new }
    ensures ready { OnOk result (ReadiesRow row.old row.new first.now.entries.now first.now.names × ReadiesRow other.old other.new second.now.entries.now second.now.names
        × ReadiesRow last.old last.new third.now.entries.now third.now.names) }
{
    let count = blocks_for(row, first);
    let more = blocks_for(other, second);
    let rest = blocks_for(last, third);
    let all = count + more + rest;
    if !are_enough(free, all) {
        return Err(Refusal::NoSpace);
    }
    let Ok(()) = make_room(row, count as usize, first.names) else {
        return Err(Refusal::Memory);
    };
    let Ok(()) = make_room(other, more as usize, second.names) else {
        return Err(Refusal::Memory);
    };
    let Ok(()) = make_room(last, rest as usize, third.names) else {
        return Err(Refusal::Memory);
    };
    match take_blocks(alloc, free, cpu, all) {
        Ok(blocks) => Ok(blocks),
        Err(AllocRefusal::NoSpace) => Err(Refusal::NoSpace),
        Err(AllocRefusal::Memory) => Err(Refusal::Memory),
    }
}
