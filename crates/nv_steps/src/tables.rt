//! A CPU's table that grows by one block for a new inode: all memory and all blocks first, then the link to the block, which
//! commits it by itself, and then the new inode and its name.

ghost use Rattle.std.specs.Prelude.{◌≡◌, ◌+◌, ◌%◌, ◌<◌, [], ◌∷◌, ℕ, None, IfOk, IfErr, OnOk, OnErr};
ghost use Rattle.nv_journal.specs.InOrder.{FirstIsFirst};
ghost use Rattle.nv_region.specs.Region.{Region};
ghost use Rattle.nv_region.specs.Stops.{LeavesOnly, NothingPending};
ghost use Rattle.nv_super.specs.Layout.{Layout};
ghost use Rattle.nv_inode.specs.Growing.{with_block};
ghost use Rattle.nv_inode.specs.Numbers.{next_number};
ghost use Rattle.nv_alloc.specs.FreeValue.{FreeLists};
ghost use Rattle.nv_entry.specs.declared.entry.Operation.{Operation as OperationValue};
ghost use Rattle.nv_logpage.specs.Append.{needed};
ghost use Rattle.nv_names.specs.Names.{name_at};
ghost use Rattle.nv_mounted.specs.Held.{Held, Store};
ghost use Rattle.nv_commit.specs.Stopped.{LeavesEither};
ghost use Rattle.nv_tree.specs.declared.refusal.Refusal.{Refusal as RefusalValue};
ghost use Rattle.nv_steps.specs.GrownTables.{CanGrow, GrowsAndNames, GrowsTable, LeavesGrown, LeavesTables, ShowsFree, TableGrown, grown_more, one_link, GrowsAtMostBeside};
ghost use Rattle.nv_steps.specs.InOrder.{tail_address};
ghost use Rattle.nv_steps.specs.Keeping.{NeedsFree, SettlesStep};
ghost use Rattle.nv_steps.specs.NameEntries.{name_entries};
ghost use Rattle.nv_steps.specs.Slots.{slot_in};
ghost use Rattle.nv_steps.specs.Steps.{ShowsRow};
ghost use Rattle.nv_steps.specs.Stores.{StoresIn};
ghost use Rattle.nv_steps.specs.Taken.{TakesEach};
ghost use Rattle.nv_steps.specs.Premises.{CanLinkBlock, CanMakeGrown};

use crate::committing_names::commit_name;
use crate::making::{NewName, prepare_name};
use crate::slots::slot_of_row;
use nv_alloc::Allocators;
use nv_entry::{Operation, name_entry};
use nv_inode::{Tables, link_block};
use nv_logpage::pages_needed;
use nv_region::Pmem;
use nv_scan::Row;
use nv_tree::Refusal;
use std::alloc::Global;

/// Makes a new inode with its name in the directory of a row, as `make_named` does, where its number has no slot yet: one
/// block more, which is taken first, becomes the last of the CPU's chain, and the inode gets its first slot. There is room for
/// it in the tables, which have it as soon as it is linked.
///
/// `NoSpace` where all pools together have too few blocks, `Memory` where a growth was refused; both change nothing.
/// `Stopped` where the fuse has burnt.
pub fn make_grown<P: Pmem>(
    alloc: Global,
    memory: &mut P,
    tables: &mut Tables,
    free: &mut Allocators,
    cpu: u64,
    directory: &mut Row,
    new: &NewName<'_>,
) -> Result<Row, Refusal>
    requires { CanMakeGrown (P.region memory.old) tables.old free.old cpu directory.old new.now.inode new.now.name.now }
    ensures made { IfOk result (λ row. GrowsAndNames (P.region memory.old) (P.region memory.new) tables.old.layout tables.new.layout free.old free.new cpu directory.old directory.new
        new.now.kind new.now.mode new.now.time new.now.inode new.now.name.now row) }
    ensures needs { NeedsFree (2 + needed (directory.old.tail % 4096) (name_entries OperationValue.Add new.now.inode new.now.name.now new.now.time)) free.old result }
    ensures kept { SettlesStep P.region P.may_hold P.fuse memory.old memory.new free.old free.new result }
    ensures unchanged { IfErr result (λ e. (e ≡ RefusalValue.Stopped → ⊥)
        → LeavesTables memory.old memory.new free.old free.new directory.old directory.new tables.old.layout tables.new.layout) }
    ensures tables { GrowsAtMostBeside cpu tables.old tables.new directory.old directory.new }
    // Every word outside these places is as it was.
    ensures wrote { (held : Store) (h : Held) → ShowsRow (P.region memory.old) tables.old.layout held h directory.old free.old
        → StoresIn tables.old.layout held (grown_more tables.old.layout cpu directory.old.inode) (P.region memory.old) (P.region memory.new) }
    // The new inode's valid word is stored before the directory's tail.
    ensures in_order { (held : Store) (h : Held) → ShowsRow (P.region memory.old) tables.old.layout held h directory.old free.old
        → FirstIsFirst (P.region memory.old) (slot_in tables.new.layout new.now.inode) 1 (tail_address tables.new.layout directory.old.inode) (P.region memory.new) }
    // What a stop leaves, at any exit.
    ensures any_stop { (held : Store) (h : Held) → ShowsRow (P.region memory.old) tables.old.layout held h directory.old free.old
        → name_at directory.old.names new.now.name.now ≡ None → NothingPending (P.region memory.old) (P.may_hold memory.old)
        → LeavesOnly (P.region memory.new) (P.may_hold memory.new) (LeavesGrown (P.region memory.old) tables.old.layout held free.old cpu directory.old new.now.kind new.now.mode new.now.time
        new.now.inode new.now.name.now) }
{
    tables.are_laid();
    let entries = [name_entry(Operation::Add, new.inode, new.name, new.time)];
    let count = 2 + pages_needed(directory.tail, &entries);
    let blocks = prepare_name(alloc, free, cpu, directory, count)?;
    link_table(memory, tables, cpu, blocks[0])?;
    let slot = slot_of_row(tables, new.inode);
    let parent = slot_of_row(tables, directory.inode);
    commit_name(
        alloc,
        memory,
        cpu,
        slot,
        parent,
        directory,
        new,
        &blocks[1..],
    )
}

/// Links a block that was taken to the end of a CPU's chain, with all slots unused, and fences it. The tables have room for
/// it, and have it then. What the region shows is the same before and after.
///
/// Errors: `Stopped` where the fuse has burnt, and no other. It takes no memory.
fn link_table<P: Pmem>(
    memory: &mut P,
    tables: &mut Tables,
    cpu: u64,
    block: u64,
) -> Result<(), Refusal>
    requires { CanLinkBlock (P.region memory.old) tables.old cpu block }
    ensures grown { (free after : FreeLists) → CanGrow (P.region memory.old) tables.old.layout free cpu → TakesEach free cpu (block ∷ []) after
        → OnOk result (GrowsTable (P.region memory.old) (P.region memory.new) tables.old.layout tables.new.layout free after cpu (next_number tables.old.layout cpu)) }
    ensures layout { OnOk result (tables.new.layout ≡ with_block tables.old.layout cpu block) }
    ensures tables { OnErr result (tables.new.layout ≡ tables.old.layout) }
    ensures faults { tables.new.faults ≡ tables.old.faults }
    ensures stopped { IfErr result (λ e. e ≡ RefusalValue.Stopped) }
    ensures kept { (free after : FreeLists) → after.sup ≡ free.sup → SettlesStep P.region P.may_hold P.fuse memory.old memory.new free after result }
    // Every word outside these places is as it was.
    ensures wrote { (free after : FreeLists) → CanGrow (P.region memory.old) tables.old.layout free cpu → TakesEach free cpu (block ∷ []) after → (held : Store)
        → ShowsFree (P.region memory.old) tables.old.layout held free → StoresIn tables.old.layout held (one_link tables.old.layout cpu) (P.region memory.old) (P.region memory.new) }
    // What a stop leaves, at any exit.
    ensures any_stop { (free after : FreeLists) → CanGrow (P.region memory.old) tables.old.layout free cpu → TakesEach free cpu (block ∷ []) after → (held : Store)
        → ShowsFree (P.region memory.old) tables.old.layout held free → NothingPending (P.region memory.old) (P.may_hold memory.old)
        → LeavesOnly (P.region memory.new) (P.may_hold memory.new) (LeavesEither (P.region memory.old) tables.old.layout held (TableGrown (P.region memory.old) tables.old.layout free cpu)) }
{
    // The region's length is a u64, and so is each address in it.
    let _length = memory.len();
    tables.are_laid();
    let link = tables.last_link(cpu);
    let Ok(()) = link_block(memory, link, block) else {
        return Err(Refusal::Stopped);
    };
    tables.push_block(cpu, block);
    Ok(())
}

/// The table of each CPU can grow in a region with chains that shows what is held, with free lists of it.
pub fn shown_tables_can_grow()
    ensures { (R : Region) (l : Layout) (held : Store) (free : FreeLists) (cpu : ℕ) → ShowsFree R l held free → free.sup ≡ l.sup → l.sup.version ≡ 2 → cpu < l.sup.cpus → CanGrow R l free cpu }
{}
