//! A name that goes with its inode, by its directory's row.

ghost use Rattle.std.specs.Prelude.{◌≡◌, ◌≢◌, ◌%◌, ◌≤◌, IfErr, OnOk};
ghost use Rattle.nv_region.specs.Stops.{LeavesOnly, NothingPending};
ghost use Rattle.nv_entry.specs.declared.entry.Operation.{Operation as OperationValue};
ghost use Rattle.nv_logpage.specs.Append.{needed};
ghost use Rattle.nv_names.specs.Names.{IsName};
ghost use Rattle.nv_mounted.specs.Held.{Held, Store};
ghost use Rattle.nv_commit.specs.Stopped.{LeavesEither};
ghost use Rattle.nv_tree.specs.declared.refusal.Refusal.{Refusal as RefusalValue};
ghost use Rattle.nv_steps.specs.LessNames.{CutsName};
ghost use Rattle.nv_steps.specs.NameEntries.{name_entries};
ghost use Rattle.nv_steps.specs.Steps.{LeavesStep, ShowsRow};
ghost use Rattle.nv_steps.specs.Stopped.{Cut};
ghost use Rattle.nv_steps.specs.InOrder.{TailIsFirst};
ghost use Rattle.nv_steps.specs.Stores.{StoresIn, one_less};
ghost use Rattle.nv_steps.specs.Keeping.{SettlesStep};
ghost use Rattle.nv_steps.specs.Slots.{slot_in};
ghost use Rattle.nv_steps.specs.Premises.{CanAppendWith};
ghost use Rattle.nv_steps.specs.Readied.{NeedsRoom};

use crate::lessening::append_less;
use crate::settling_names::remove_name;
use nv_alloc::Allocators;
use nv_entry::{Operation, name_entry};
use nv_inode::Tables;
use nv_region::Pmem;
use nv_scan::Row;
use nv_tree::Refusal;
use std::alloc::Global;

/// An inode that goes with its name.
#[derive(Clone, Copy)]
pub struct Gone<'a> {
    pub inode: u64,
    /// At most so many blocks are its own.
    pub blocks: usize,
    pub name: &'a [u8],
    pub time: u64,
}

/// Puts the removal of a name behind its directory's log, over blocks that it takes, and with it the inode goes. The directory's
/// row loses the name, and gets the time, the new tail and the new pages. There is room for the blocks of the inode then.
///
/// `NoSpace` where all pools together have too few blocks, `Memory` where a growth was refused; both change nothing.
/// `Stopped` where the fuse has burnt.
pub fn cut_name<P: Pmem>(
    alloc: Global,
    memory: &mut P,
    tables: &Tables,
    free: &mut Allocators,
    cpu: u64,
    directory: &mut Row,
    gone: &Gone<'_>,
) -> Result<(), Refusal>
    requires { CanAppendWith (P.region memory.old) tables.now.layout free.old cpu gone.now.inode directory.old ((directory.old.inode ≢ gone.now.inode) × IsName gone.now.name.now) }
    ensures cut { OnOk result (CutsName (P.region memory.old) (P.region memory.new) tables.now.layout free.old free.new cpu directory.old directory.new
        gone.now.inode gone.now.time gone.now.name.now) }
    ensures needs { NeedsRoom (needed (directory.old.tail % 4096) (name_entries OperationValue.Remove gone.now.inode gone.now.name.now gone.now.time))
        (gone.now.blocks ≤ free.new.room) free.old result }
    ensures kept { SettlesStep P.region P.may_hold P.fuse memory.old memory.new free.old free.new result }
    ensures unchanged { IfErr result (λ e. (e ≡ RefusalValue.Stopped → ⊥) → LeavesStep memory.old memory.new free.old free.new directory.old directory.new) }
    ensures inode { directory.new.inode ≡ directory.old.inode }
    // Every word outside these places is as it was.
    ensures wrote { (held : Store) (h : Held) → ShowsRow (P.region memory.old) tables.now.layout held h directory.old free.old
        → StoresIn tables.now.layout held (one_less tables.now.layout cpu directory.old.inode gone.now.inode) (P.region memory.old) (P.region memory.new) }
    // The directory's tail is stored first.
    ensures in_order { (held : Store) (h : Held) → ShowsRow (P.region memory.old) tables.now.layout held h directory.old free.old
        → TailIsFirst (P.region memory.old) (P.region memory.new) tables.now.layout free.old.pools cpu directory.old.inode directory.old.tail
        (name_entries OperationValue.Remove gone.now.inode gone.now.name.now
        gone.now.time) (slot_in tables.now.layout gone.now.inode) }
    // Whatever a stop leaves: recovery finds what is held, or it without the name and the inode, without faults.
    ensures any_stop { (held : Store) (h : Held) → ShowsRow (P.region memory.old) tables.now.layout held h directory.old free.old → NothingPending (P.region memory.old) (P.may_hold memory.old)
        → LeavesOnly (P.region memory.new) (P.may_hold memory.new) (LeavesEither (P.region memory.old) tables.now.layout held
        (Cut (P.region memory.old) tables.now.layout free.old cpu directory.old gone.now.inode gone.now.time gone.now.name.now)) }
{
    let entries = [name_entry(Operation::Remove, gone.inode, gone.name, gone.time)];
    append_less(
        alloc,
        memory,
        tables,
        free,
        cpu,
        directory,
        &entries,
        gone.inode,
        gone.blocks,
    )?;
    remove_name(directory, gone.name, gone.time);
    Ok(())
}
