//! One name of a file less that has others, by the rows of the directory and of the file.

ghost use Rattle.std.specs.Prelude.{◌≡◌, ◌+◌, ◌-◌, ◌%◌, ◌<◌, [], ◌∷◌, Result, IfErr, OnOk};
ghost use Rattle.nv_region.specs.Stops.{LeavesOnly, NothingPending};
ghost use Rattle.nv_entry.specs.declared.entry.Operation.TheVariants.{Remove};
ghost use Rattle.nv_logpage.specs.Append.{needed};
ghost use Rattle.nv_names.specs.Names.{IsName};
ghost use Rattle.nv_outcome.specs.Same.{SameRow};
ghost use Rattle.nv_mounted.specs.Held.{Held, Store};
ghost use Rattle.nv_commit.specs.Stopped.{LeavesEither};
ghost use Rattle.nv_tree.specs.Calls.{unlinked};
ghost use Rattle.nv_tree.specs.declared.refusal.Refusal.{Refusal as RefusalValue};
ghost use Rattle.nv_steps.specs.NameEntries.{links_entries, name_entries};
ghost use Rattle.nv_steps.specs.Steps.{LeavesStep, ShowsRow};
ghost use Rattle.nv_steps.specs.Stopped.{Unlinked};
ghost use Rattle.nv_steps.specs.InOrder.{TailIsFirst, tail_address};
ghost use Rattle.nv_steps.specs.Unlinks.{UnlinksAt};
ghost use Rattle.nv_steps.specs.Stores.{StoresIn, two_logs};
ghost use Rattle.nv_steps.specs.Keeping.{NeedsFree, SettlesStep};
ghost use Rattle.nv_steps.specs.Premises.{CanAppendLogs};

use crate::growing::{Growth, append_logs};
use crate::settling_names::{remove_name, set_links};
use nv_alloc::Allocators;
use nv_entry::{Entry, LinksEntry, Operation, name_entry};
use nv_inode::Tables;
use nv_region::Pmem;
use nv_scan::Row;
use nv_tree::Refusal;
use std::alloc::Global;

/// Takes a name of a file that has others out of a directory, by their rows: the directory's log says so, and the file's log
/// says one link less.
///
/// `NoSpace` where all pools together have too few blocks, `Memory` where a growth was refused; both change nothing.
/// `Stopped` where the fuse has burnt.
pub fn unlink_both<P: Pmem>(
    alloc: Global,
    memory: &mut P,
    tables: &Tables,
    free: &mut Allocators,
    cpu: u64,
    directory: &mut Row,
    file: &mut Row,
    name: &[u8],
    time: u64,
) -> Result<(), Refusal>
    requires { CanAppendLogs (P.region memory.old) tables.now.layout free.old cpu directory.old file.old ((1 < file.old.numbers.links) × IsName name.now) }
    ensures unlinked { OnOk result (UnlinksAt (P.region memory.old) (P.region memory.new) tables.now.layout free.old free.new cpu (directory.old ∷ file.old ∷ [])
        (directory.new ∷ file.new ∷ []) 0 1 name.now time) }
    ensures needs { NeedsFree (needed (directory.old.tail % 4096) (name_entries Remove file.old.inode name.now time)
        + needed (file.old.tail % 4096) (links_entries (file.old.numbers.links - 1) time)) free.old result }
    ensures kept { SettlesStep P.region P.may_hold P.fuse memory.old memory.new free.old free.new result }
    ensures unchanged { IfErr result (λ e. (e ≡ RefusalValue.Stopped → ⊥) → LeavesStep memory.old memory.new free.old free.new directory.old directory.new × SameRow file.old file.new) }
    ensures inodes { (directory.new.inode ≡ directory.old.inode) × (file.new.inode ≡ file.old.inode) }
    // Every word outside these places is as it was.
    ensures wrote { (held : Store) (h g : Held) → ShowsRow (P.region memory.old) tables.now.layout held h directory.old free.old
        → ShowsRow (P.region memory.old) tables.now.layout held g file.old free.old
        → StoresIn tables.now.layout held (two_logs tables.now.layout cpu directory.old.inode file.old.inode) (P.region memory.old) (P.region memory.new) }
    // The directory's tail is stored first.
    ensures in_order { (held : Store) (h f : Held) → ShowsRow (P.region memory.old) tables.now.layout held h directory.old free.old
        → ShowsRow (P.region memory.old) tables.now.layout held f file.old free.old
        → TailIsFirst (P.region memory.old) (P.region memory.new) tables.now.layout free.old.pools cpu directory.old.inode directory.old.tail
        (name_entries Remove file.old.inode name.now time) (tail_address
        tables.now.layout file.old.inode) }
    // Whatever a stop leaves: recovery finds what is held, or it without the name and the link, without faults.
    ensures any_stop { (held : Store) (h f : Held) → ShowsRow (P.region memory.old) tables.now.layout held h directory.old free.old
        → ShowsRow (P.region memory.old) tables.now.layout held f file.old free.old
        → NothingPending (P.region memory.old) (P.may_hold memory.old)
        → LeavesOnly (P.region memory.new) (P.may_hold memory.new) (LeavesEither (P.region memory.old) tables.now.layout held
        (Unlinked (P.region memory.old) tables.now.layout free.old cpu directory.old file.old name.now time)) }
{
    let count = file.numbers.links - 1;
    let names = [name_entry(Operation::Remove, file.inode, name, time)];
    let links = [Entry::Links(LinksEntry { count, time })];
    let first = Growth {
        entries: &names,
        names: 0,
    };
    let second = Growth {
        entries: &links,
        names: 0,
    };
    append_logs(
        alloc, memory, tables, free, cpu, directory, &first, file, &second,
    )?;
    remove_name(directory, name, time);
    set_links(file, count, time);
    Ok(())
}
