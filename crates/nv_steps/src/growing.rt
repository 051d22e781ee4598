//! Two logs that grow together, and the rows that stand for them: all growths first, then the commit, then the rows.

ghost use Rattle.std.specs.Prelude.{◌≡◌, ◌+◌, ◌%◌, ◌<◌, ◌≤◌, ℕ, List, [], ◌∷◌, length, IfOk, IfErr, OnOk, OnErr, IsTrue};
ghost use Rattle.smallvec.specs.SmallVec.{HasRoomFor};
ghost use Rattle.nv_region.specs.Stops.{LeavesOnly, NothingPending};
ghost use Rattle.nv_inode.specs.Numbers.{has_slot};
ghost use Rattle.nv_logpage.specs.Append.{needed};
ghost use Rattle.nv_names.specs.Names.{name_at};
ghost use Rattle.nv_outcome.specs.Same.{SameRow};
ghost use Rattle.nv_mounted.specs.Held.{Held, Store};
ghost use Rattle.nv_commit.specs.Stopped.{LeavesEither};
ghost use Rattle.nv_tree.specs.declared.refusal.Refusal.{Refusal as RefusalValue};
ghost use Rattle.nv_steps.specs.MoreNames.{AppendsLogs, AreFew, NamesOnce, ReadiesRow};
ghost use Rattle.nv_steps.specs.Steps.{LeavesStep, ShowsRow};
ghost use Rattle.nv_steps.specs.Stopped.{AppendedBoth};
ghost use Rattle.nv_steps.specs.InOrder.{TailIsFirst, tail_address};
ghost use Rattle.nv_steps.specs.Taken.{SamePools};
ghost use Rattle.nv_steps.specs.Stores.{StoresIn, two_logs};
ghost use Rattle.nv_steps.specs.Keeping.{NeedsFree, SettlesStep};
ghost use Rattle.nv_steps.specs.Slots.{slot_in};
ghost use Rattle.nv_steps.specs.Premises.{CanAppendLogs};
ghost use Rattle.nv_steps.specs.Readied.{NeedsRoom, TakesCount};

use crate::blocks::{are_enough, take_blocks};
use crate::settling::settle_log;
use crate::slots::slot_of_row;
use nv_alloc::{AllocRefusal, Allocators};
use nv_commit::{Extension, extend_two};
use nv_entry::Entry;
use nv_inode::Tables;
use nv_logpage::pages_needed;
use nv_names::NameIndex;
use nv_region::Pmem;
use nv_scan::Row;
use nv_tree::Refusal;
use std::alloc::{AllocError, Global};

/// What goes behind the log of a row.
#[derive(Clone, Copy)]
pub(crate) struct Growth<'a> {
    pub entries: &'a [Entry],
    /// How many names the row gets.
    pub names: usize,
}

/// Writes entries behind the logs of two rows, over blocks that it takes, the first log's first. Both rows get the new tails and the
/// new pages, and there is room for the names.
///
/// `NoSpace` where all pools together have too few blocks, `Memory` where a growth was refused; both change nothing.
/// `Stopped` where the fuse has burnt.
pub(crate) fn append_logs<P: Pmem>(
    alloc: Global,
    memory: &mut P,
    tables: &Tables,
    free: &mut Allocators,
    cpu: u64,
    row: &mut Row,
    first: &Growth<'_>,
    other: &mut Row,
    second: &Growth<'_>,
) -> Result<(), Refusal>
    requires { CanAppendLogs (P.region memory.old) tables.now.layout free.old cpu row.old other.old (AreFew first.now.entries.now × AreFew second.now.entries.now) }
    ensures appended { OnOk result (AppendsLogs (P.region memory.old) (P.region memory.new) tables.now.layout free.old free.new cpu (row.old ∷ other.old ∷ [])
        (row.new ∷ other.new ∷ []) 0 first.now.entries.now 1 second.now.entries.now) }
    ensures needs { NeedsRoom (needed (row.old.tail % 4096) first.now.entries.now + needed (other.old.tail % 4096) second.now.entries.now)
        ((first.now.names ≤ row.new.names.room) × (second.now.names ≤ other.new.names.room)) free.old result }
    ensures kept { SettlesStep P.region P.may_hold P.fuse memory.old memory.new free.old free.new result }
    ensures unchanged { IfErr result (λ e. (e ≡ RefusalValue.Stopped → ⊥) → LeavesStep memory.old memory.new free.old free.new row.old row.new × SameRow other.old other.new) }
    ensures inodes { (row.new.inode ≡ row.old.inode) × (other.new.inode ≡ other.old.inode) }
    // Every word outside these places is as it was.
    ensures wrote { (held : Store) (h g : Held) → ShowsRow (P.region memory.old) tables.now.layout held h row.old free.old → ShowsRow (P.region memory.old) tables.now.layout held g other.old free.old
        → StoresIn tables.now.layout held (two_logs tables.now.layout cpu row.old.inode other.old.inode) (P.region memory.old) (P.region memory.new) }
    // The first log's tail is stored first.
    ensures in_order { (held : Store) (h g : Held) → ShowsRow (P.region memory.old) tables.now.layout held h row.old free.old
        → ShowsRow (P.region memory.old) tables.now.layout held g other.old free.old
        → TailIsFirst (P.region memory.old) (P.region memory.new) tables.now.layout free.old.pools cpu row.old.inode row.old.tail first.now.entries.now
        (tail_address tables.now.layout other.old.inode) }
    // Whatever a stop leaves: recovery finds what is held, or it with both logs grown, without faults.
    ensures any_stop { (held : Store) (h g : Held) → ShowsRow (P.region memory.old) tables.now.layout held h row.old free.old
        → ShowsRow (P.region memory.old) tables.now.layout held g other.old free.old
        → NothingPending (P.region memory.old) (P.may_hold memory.old)
        → LeavesOnly (P.region memory.new) (P.may_hold memory.new) (LeavesEither (P.region memory.old) tables.now.layout held
        (AppendedBoth (P.region memory.old) tables.now.layout free.old cpu row.old first.now.entries.now other.old second.now.entries.now)) }
{
    let blocks = prepare_logs(alloc, free, cpu, row, first, other, second)?;
    let count = blocks_for(row, first) as usize;
    let (fresh, more) = blocks.split_at(count);
    let one = extension(tables, row, first.entries, fresh);
    let two = extension(tables, other, second.entries, more);
    let Ok((end, last)) = extend_two(memory, cpu, &one, &two) else {
        return Err(Refusal::Stopped);
    };
    settle_log(row, fresh, end);
    settle_log(other, more, last);
    Ok(())
}

/// How many blocks the log of a row takes.
pub(crate) fn blocks_for(row: &Row, growth: &Growth<'_>) -> u64
    ensures { result ≡ needed (row.now.tail % 4096) growth.now.entries.now }
{
    pages_needed(row.tail, growth.entries)
}

/// Entries for the log of a row, over these blocks.
pub(crate) fn extension<'a>(
    tables: &Tables,
    row: &Row,
    entries: &'a [Entry],
    fresh: &'a [u64],
) -> Extension<'a>
    requires number { IsTrue (has_slot tables.now.layout row.now.inode) }
    ensures slot { result.slot ≡ slot_in tables.now.layout row.now.inode }
    ensures tail { result.tail ≡ row.now.tail }
    ensures entries { result.entries.now ≡ entries.now }
    ensures fresh { result.fresh.now ≡ fresh.now }
{
    Extension {
        slot: slot_of_row(tables, row.inode),
        tail: row.tail,
        entries,
        fresh,
    }
}

/// Takes the blocks that both logs need, each by itself, and makes room for them in both rows.
///
/// `NoSpace` where all pools together have fewer blocks, `Memory` where a growth was refused. Both leave the free lists.
pub(crate) fn prepare_logs(
    alloc: Global,
    free: &mut Allocators,
    cpu: u64,
    row: &mut Row,
    first: &Growth<'_>,
    other: &mut Row,
    second: &Growth<'_>,
) -> Result<Vec<u64>, Refusal>
    requires cpu { cpu < free.old.sup.cpus }
    requires few { (length first.now.entries.now < 4096) × (length second.now.entries.now < 4096) }
    ensures taken { IfOk result (λ blocks. TakesCount free.old cpu blocks.items (needed (row.old.tail % 4096) first.now.entries.now + needed (other.old.tail % 4096) second.now.entries.now)
        free.new) }
    ensures needs { NeedsFree (needed (row.old.tail % 4096) first.now.entries.now + needed (other.old.tail % 4096) second.now.entries.now) free.old result }
    ensures room { OnOk result (free.old.room ≤ free.new.room) }
    ensures goes_on { IfErr result (λ e. e ≡ RefusalValue.Stopped → ⊥) }
    ensures unchanged { OnErr result (SamePools free.old free.new) }
    ensures rows { SameRow row.old row.new × SameRow other.old other.new }
    ensures ready { OnOk result (ReadiesRow row.old row.new first.now.entries.now first.now.names × ReadiesRow other.old other.new second.now.entries.now second.now.names) }
{
    let count = blocks_for(row, first);
    let more = blocks_for(other, second);
    let both = count + more;
    if !are_enough(free, both) {
        return Err(Refusal::NoSpace);
    }
    let Ok(()) = make_room(row, count as usize, first.names) else {
        return Err(Refusal::Memory);
    };
    let Ok(()) = make_room(other, more as usize, second.names) else {
        return Err(Refusal::Memory);
    };
    match take_blocks(alloc, free, cpu, both) {
        Ok(blocks) => Ok(blocks),
        Err(AllocRefusal::NoSpace) => Err(Refusal::NoSpace),
        Err(AllocRefusal::Memory) => Err(Refusal::Memory),
    }
}

/// Makes room in a row for so many pages and so many names.
pub(crate) fn make_room(row: &mut Row, pages: usize, names: usize) -> Result<(), AllocError>
    ensures row { SameRow row.old row.new }
    ensures pages { OnOk result (HasRoomFor row.new.pages pages) }
    ensures names { OnOk result (names ≤ row.new.names.room) }
    ensures once { OnOk result (NamesOnce row.old row.new) }
{
    // A name index says of itself that it has no name twice.
    let _names = row.names.len();
    row.pages.reserve(pages)?;
    reserve_names(&mut row.names, names)?;
    let _names = row.names.len();
    Ok(())
}

/// Makes room for so many names. For none it takes no memory, as the index of a file's names would.
fn reserve_names(names: &mut NameIndex, more: usize) -> Result<(), AllocError>
    ensures same { (q : List ℕ) → name_at names.new q ≡ name_at names.old q }
    ensures room { OnOk result (more ≤ names.new.room) }
{
    if more == 0 {
        return Ok(());
    }
    names.reserve(more)
}
