//! One more name of a file, by the rows of the file and of the directory.

ghost use Rattle.std.specs.Prelude.{◌≡◌, ◌+◌, ◌%◌, ◌<◌, [], ◌∷◌, Option, Result, IfErr, OnOk};
ghost use Rattle.nv_super.specs.Layout.{most_links};
ghost use Rattle.nv_region.specs.Stops.{LeavesOnly, NothingPending};
ghost use Rattle.nv_entry.specs.declared.entry.Operation.TheVariants.{Add};
ghost use Rattle.nv_logpage.specs.Append.{needed};
ghost use Rattle.nv_names.specs.Names.{IsName, name_at};
ghost use Rattle.nv_outcome.specs.Same.{SameRow};
ghost use Rattle.nv_mounted.specs.Held.{Held, Store};
ghost use Rattle.nv_commit.specs.Stopped.{LeavesEither};
ghost use Rattle.nv_tree.specs.Calls.{linked};
ghost use Rattle.nv_tree.specs.declared.refusal.Refusal.{Refusal as RefusalValue};
ghost use Rattle.nv_steps.specs.NameEntries.{links_entries, name_entries};
ghost use Rattle.nv_steps.specs.MoreNames.{LinksAt};
ghost use Rattle.nv_steps.specs.Steps.{LeavesStep, ShowsRow};
ghost use Rattle.nv_steps.specs.Stopped.{Linked};
ghost use Rattle.nv_steps.specs.InOrder.{TailIsFirst, tail_address};
ghost use Rattle.nv_steps.specs.Stores.{StoresIn, two_logs};
ghost use Rattle.nv_steps.specs.Keeping.{NeedsFree, SettlesStep};
ghost use Rattle.nv_steps.specs.Premises.{CanAppendLogs};

use crate::growing::{Growth, append_logs};
use crate::settling_names::{add_name, set_links};
use nv_alloc::Allocators;
use nv_entry::{Entry, LinksEntry, Operation, length, name_entry};
use nv_inode::Tables;
use nv_region::Pmem;
use nv_scan::Row;
use nv_tree::Refusal;
use std::alloc::Global;

/// Gives a file a name in a directory, by their rows: the file's log says one link more, and the directory's log says the name.
///
/// `NoSpace` where all pools together have too few blocks, `Memory` where a growth was refused; both change nothing.
/// `Stopped` where the fuse has burnt.
pub fn link_both<P: Pmem>(
    alloc: Global,
    memory: &mut P,
    tables: &Tables,
    free: &mut Allocators,
    cpu: u64,
    file: &mut Row,
    directory: &mut Row,
    name: &[u8],
    time: u64,
) -> Result<(), Refusal>
    requires { CanAppendLogs (P.region memory.old) tables.now.layout free.old cpu file.old directory.old ((file.old.numbers.links < most_links) × IsName name.now) }
    ensures linked { OnOk result (LinksAt (P.region memory.old) (P.region memory.new) tables.now.layout free.old free.new cpu (file.old ∷ directory.old ∷ [])
        (file.new ∷ directory.new ∷ []) 0 1 name.now time) }
    ensures needs { NeedsFree (needed (file.old.tail % 4096) (links_entries (file.old.numbers.links + 1) time)
        + needed (directory.old.tail % 4096) (name_entries Add file.old.inode name.now time)) free.old result }
    ensures kept { SettlesStep P.region P.may_hold P.fuse memory.old memory.new free.old free.new result }
    ensures unchanged { IfErr result (λ e. (e ≡ RefusalValue.Stopped → ⊥) → LeavesStep memory.old memory.new free.old free.new file.old file.new × SameRow directory.old directory.new) }
    ensures inodes { (file.new.inode ≡ file.old.inode) × (directory.new.inode ≡ directory.old.inode) }
    // Every word outside these places is as it was.
    ensures wrote { (held : Store) (h g : Held) → ShowsRow (P.region memory.old) tables.now.layout held h file.old free.old
        → ShowsRow (P.region memory.old) tables.now.layout held g directory.old free.old
        → StoresIn tables.now.layout held (two_logs tables.now.layout cpu file.old.inode directory.old.inode) (P.region memory.old) (P.region memory.new) }
    // The file's tail is stored first.
    ensures in_order { (held : Store) (h g : Held) → ShowsRow (P.region memory.old) tables.now.layout held h file.old free.old
        → ShowsRow (P.region memory.old) tables.now.layout held g directory.old free.old
        → TailIsFirst (P.region memory.old) (P.region memory.new) tables.now.layout free.old.pools cpu file.old.inode file.old.tail (links_entries
        (file.old.numbers.links + 1) time) (tail_address tables.now.layout directory.old.inode) }
    // Whatever a stop leaves: recovery finds what is held, or it with the link and the name, without faults.
    ensures any_stop { (held : Store) (h g : Held) → ShowsRow (P.region memory.old) tables.now.layout held h file.old free.old
        → ShowsRow (P.region memory.old) tables.now.layout held g directory.old free.old
        → name_at directory.old.names name.now ≡ Option.None → NothingPending (P.region memory.old) (P.may_hold memory.old)
        → LeavesOnly (P.region memory.new) (P.may_hold memory.new) (LeavesEither (P.region memory.old) tables.now.layout held
        (Linked (P.region memory.old) tables.now.layout free.old cpu file.old directory.old name.now time)) }
{
    let inode = file.inode;
    let count = file.numbers.links + 1;
    let links = [Entry::Links(LinksEntry { count, time })];
    let names = [name_entry(Operation::Add, inode, name, time)];
    let first = Growth {
        entries: &links,
        names: 0,
    };
    let second = Growth {
        entries: &names,
        names: 1,
    };
    append_logs(
        alloc, memory, tables, free, cpu, file, &first, directory, &second,
    )?;
    set_links(file, count, time);
    let place = directory.tail - length(&names[0]);
    add_name(directory, name, inode, place, time);
    Ok(())
}
