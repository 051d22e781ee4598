//! A new inode and its name, over blocks that are taken for both logs: all growths of memory first, then the commit.

ghost use Rattle.std.specs.Prelude.{◌≡◌, ◌+◌, ◌<◌, ◌%◌, IfOk, IfErr, OnOk, OnErr, None};
ghost use Rattle.nv_journal.specs.InOrder.{FirstIsFirst};
ghost use Rattle.smallvec.specs.SmallVec.{HasRoomFor};
ghost use Rattle.nv_region.specs.Stops.{LeavesOnly, NothingPending};
ghost use Rattle.nv_entry.specs.declared.entry.Operation.{Operation as OperationValue};
ghost use Rattle.nv_logpage.specs.Append.{needed};
ghost use Rattle.nv_names.specs.Names.{EachOnce, IsName, name_at};
ghost use Rattle.nv_mounted.specs.Held.{Held, Store};
ghost use Rattle.nv_commit.specs.Stopped.{LeavesEither};
ghost use Rattle.nv_outcome.specs.Same.{SameRow};
ghost use Rattle.nv_tree.specs.declared.refusal.Refusal.{Refusal as RefusalValue};
ghost use Rattle.nv_steps.specs.NameEntries.{name_entries};
ghost use Rattle.nv_steps.specs.NewNames.{MakesNamed};
ghost use Rattle.nv_steps.specs.Steps.{LeavesStep, ShowsRow};
ghost use Rattle.nv_steps.specs.Stopped.{Named};
ghost use Rattle.nv_steps.specs.InOrder.{tail_address};
ghost use Rattle.nv_steps.specs.Taken.{SamePools};
ghost use Rattle.nv_steps.specs.Stores.{StoresIn, one_more};
ghost use Rattle.nv_steps.specs.Keeping.{NeedsFree, SettlesStep};
ghost use Rattle.nv_steps.specs.Slots.{slot_in};
ghost use Rattle.nv_steps.specs.Premises.{CanAppendWith};
ghost use Rattle.nv_steps.specs.Readied.{TakesCount};

use crate::blocks::take_blocks;
use crate::committing_names::commit_name;
use crate::slots::slot_of_row;
use nv_alloc::{AllocRefusal, Allocators};
use nv_entry::{Operation, name_entry};
use nv_inode::Tables;
use nv_logpage::pages_needed;
use nv_region::Pmem;
use nv_scan::Row;
use nv_super::Kind;
use nv_tree::Refusal;
use std::alloc::{AllocError, Global};

/// A new inode, and the name that a directory has for it.
#[derive(Clone, Copy)]
pub struct NewName<'a> {
    pub inode: u64,
    pub kind: Kind,
    /// Of which the low 12 bits are kept.
    pub mode: u32,
    pub time: u64,
    pub name: &'a [u8],
}

/// Makes a new inode with its name in the directory of a row, over blocks that it takes: one for the new log, and then those
/// that the directory's log needs. The directory's row gets the name, the time, the new tail and the new pages. Answers the
/// new inode's row.
///
/// `NoSpace` where all pools together have too few blocks, `Memory` where a growth was refused; both change nothing.
/// `Stopped` where the fuse has burnt.
pub fn make_named<P: Pmem>(
    alloc: Global,
    memory: &mut P,
    tables: &Tables,
    free: &mut Allocators,
    cpu: u64,
    directory: &mut Row,
    new: &NewName<'_>,
) -> Result<Row, Refusal>
    requires { CanAppendWith (P.region memory.old) tables.now.layout free.old cpu new.now.inode directory.old (IsName new.now.name.now) }
    ensures made { IfOk result (λ row. MakesNamed (P.region memory.old) (P.region memory.new) tables.now.layout free.old free.new cpu directory.old directory.new new.now.kind new.now.mode new.now.time
        new.now.inode new.now.name.now row) }
    ensures needs { NeedsFree (1 + needed (directory.old.tail % 4096) (name_entries OperationValue.Add new.now.inode new.now.name.now new.now.time)) free.old result }
    ensures kept { SettlesStep P.region P.may_hold P.fuse memory.old memory.new free.old free.new result }
    ensures unchanged { IfErr result (λ e. (e ≡ RefusalValue.Stopped → ⊥) → LeavesStep memory.old memory.new free.old free.new directory.old directory.new) }
    ensures inode { directory.new.inode ≡ directory.old.inode }
    // Every word outside these places is as it was.
    ensures wrote { (held : Store) (h : Held) → ShowsRow (P.region memory.old) tables.now.layout held h directory.old free.old → held new.now.inode ≡ None
        → StoresIn tables.now.layout held (one_more tables.now.layout cpu new.now.inode directory.old.inode) (P.region memory.old) (P.region memory.new) }
    // The new inode's valid word is stored first.
    ensures in_order { (held : Store) (h : Held) → ShowsRow (P.region memory.old) tables.now.layout held h directory.old free.old → held new.now.inode ≡ None
        → FirstIsFirst (P.region memory.old) (slot_in tables.now.layout new.now.inode) 1 (tail_address tables.now.layout directory.old.inode) (P.region memory.new) }
    // What a stop leaves, at any exit.
    ensures any_stop { (held : Store) (h : Held) → ShowsRow (P.region memory.old) tables.now.layout held h directory.old free.old → held new.now.inode ≡ None
        → name_at directory.old.names new.now.name.now ≡ None → NothingPending (P.region memory.old) (P.may_hold memory.old)
        → LeavesOnly (P.region memory.new) (P.may_hold memory.new) (LeavesEither (P.region memory.old) tables.now.layout held
        (Named (P.region memory.old) tables.now.layout free.old cpu directory.old new.now.kind new.now.mode new.now.time new.now.inode new.now.name.now)) }
{
    let entries = [name_entry(Operation::Add, new.inode, new.name, new.time)];
    let count = 1 + pages_needed(directory.tail, &entries);
    let blocks = prepare_name(alloc, free, cpu, directory, count)?;
    let slot = slot_of_row(tables, new.inode);
    let parent = slot_of_row(tables, directory.inode);
    commit_name(alloc, memory, cpu, slot, parent, directory, new, &blocks)
}

/// Takes so many blocks, each by itself, and makes room in a directory's row for as many pages and for a name.
///
/// `NoSpace` where all pools together have fewer blocks, `Memory` where a growth was refused. Both leave the free lists.
pub(crate) fn prepare_name(
    alloc: Global,
    free: &mut Allocators,
    cpu: u64,
    directory: &mut Row,
    count: u64,
) -> Result<Vec<u64>, Refusal>
    requires cpu { cpu < free.old.sup.cpus }
    ensures taken { IfOk result (λ blocks. TakesCount free.old cpu blocks.items count free.new) }
    ensures room { OnOk result (HasRoomFor directory.new.pages count) }
    ensures names_room { OnOk result (0 < directory.new.names.room) }
    ensures needs { NeedsFree count free.old result }
    ensures once { EachOnce directory.old.names }
    ensures row { SameRow directory.old directory.new }
    ensures goes_on { IfErr result (λ e. e ≡ RefusalValue.Stopped → ⊥) }
    ensures unchanged { OnErr result (SamePools free.old free.new) }
{
    // A name index says of itself that it has no name twice.
    let _names = directory.names.len();
    if make_room(directory, count as usize).is_err() {
        return Err(Refusal::Memory);
    }
    match take_blocks(alloc, free, cpu, count) {
        Ok(blocks) => Ok(blocks),
        Err(AllocRefusal::NoSpace) => Err(Refusal::NoSpace),
        Err(AllocRefusal::Memory) => Err(Refusal::Memory),
    }
}

/// Makes room in a row for so many pages and for a name.
fn make_room(row: &mut Row, pages: usize) -> Result<(), AllocError>
    ensures row { SameRow row.old row.new }
    ensures pages { OnOk result (HasRoomFor row.new.pages pages) }
    ensures names { OnOk result (0 < row.new.names.room) }
{
    row.pages.reserve(pages)?;
    row.names.reserve(1)
}
