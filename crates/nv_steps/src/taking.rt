//! A name of one inode that is given to another in its directory: the first inode goes, or counts a link less.

ghost use Rattle.std.specs.Prelude.{◌≡◌, ◌≢◌, ◌+◌, ◌-◌, ◌%◌, ◌<◌, ◌≤◌, [], ◌∷◌, IfErr, OnOk};
ghost use Rattle.nv_region.specs.Stops.{LeavesOnly, NothingPending};
ghost use Rattle.nv_logpage.specs.Append.{needed};
ghost use Rattle.nv_names.specs.Names.{IsName};
ghost use Rattle.nv_outcome.specs.Same.{SameRow};
ghost use Rattle.nv_mounted.specs.Held.{Held, Store};
ghost use Rattle.nv_commit.specs.Stopped.{LeavesEither};
ghost use Rattle.nv_tree.specs.declared.refusal.Refusal.{Refusal as RefusalValue};
ghost use Rattle.nv_steps.specs.NameEntries.{links_entries};
ghost use Rattle.nv_steps.specs.Steps.{LeavesStep, ShowsRow};
ghost use Rattle.nv_steps.specs.InOrder.{TailIsFirst, tail_address};
ghost use Rattle.nv_steps.specs.Lessens.{Lessened, LessensAt};
ghost use Rattle.nv_steps.specs.Stores.{StoresIn, one_less, two_logs};
ghost use Rattle.nv_steps.specs.Takes.{TakesWithin, TookWithin, take_entries};
ghost use Rattle.nv_steps.specs.Keeping.{NeedsFree, SettlesStep};
ghost use Rattle.nv_steps.specs.Slots.{slot_in};
ghost use Rattle.nv_steps.specs.Premises.{CanAppendLogs, CanAppendWith};
ghost use Rattle.nv_steps.specs.Readied.{NeedsRoom};

use crate::growing::{Growth, append_logs};
use crate::lessening::append_less;
use crate::renaming::OtherName;
use crate::settling_names::{add_name, remove_name, set_links};
use nv_alloc::Allocators;
use nv_entry::{Entry, LinksEntry, Operation, length, name_entry};
use nv_inode::Tables;
use nv_region::Pmem;
use nv_scan::Row;
use nv_tree::Refusal;
use std::alloc::Global;

/// An inode whose name is given to another.
#[derive(Clone, Copy)]
pub struct Displaced {
    /// Its number.
    pub inode: u64,
    /// At most so many blocks are its own.
    pub blocks: usize,
}

/// Takes a name out of a directory, and gives its inode the name of another, which goes. There is room for the blocks of that one
/// then.
///
/// `NoSpace` where all pools together have too few blocks, `Memory` where a growth was refused; both change nothing.
/// `Stopped` where the fuse has burnt.
pub fn take_within<P: Pmem>(
    alloc: Global,
    memory: &mut P,
    tables: &Tables,
    free: &mut Allocators,
    cpu: u64,
    directory: &mut Row,
    moved: &OtherName<'_>,
    gone: Displaced,
) -> Result<(), Refusal>
    requires { CanAppendWith (P.region memory.old) tables.now.layout free.old cpu gone.inode directory.old
        ((directory.old.inode ≢ gone.inode) × IsName moved.now.name.now × IsName moved.now.other.now) }
    ensures taken { OnOk result (TakesWithin (P.region memory.old) (P.region memory.new) tables.now.layout free.old free.new cpu directory.old directory.new
        moved.now.inode gone.inode moved.now.name.now
        moved.now.other.now moved.now.time) }
    ensures needs { NeedsRoom (needed (directory.old.tail % 4096) (take_entries moved.now.inode gone.inode moved.now.name.now moved.now.other.now moved.now.time))
        (gone.blocks ≤ free.new.room) free.old result }
    ensures kept { SettlesStep P.region P.may_hold P.fuse memory.old memory.new free.old free.new result }
    ensures unchanged { IfErr result (λ e. (e ≡ RefusalValue.Stopped → ⊥) → LeavesStep memory.old memory.new free.old free.new directory.old directory.new) }
    ensures inode { directory.new.inode ≡ directory.old.inode }
    // Every word outside these places is as it was.
    ensures wrote { (held : Store) (h : Held) → ShowsRow (P.region memory.old) tables.now.layout held h directory.old free.old
        → StoresIn tables.now.layout held (one_less tables.now.layout cpu directory.old.inode gone.inode) (P.region memory.old) (P.region memory.new) }
    // The directory's tail is stored first.
    ensures in_order { (held : Store) (h : Held) → ShowsRow (P.region memory.old) tables.now.layout held h directory.old free.old
        → TailIsFirst (P.region memory.old) (P.region memory.new) tables.now.layout free.old.pools cpu directory.old.inode directory.old.tail
        (take_entries moved.now.inode gone.inode moved.now.name.now
        moved.now.other.now moved.now.time) (slot_in tables.now.layout gone.inode) }
    // Whatever a stop leaves: recovery finds what is held, or it with the name given and without the inode, without faults.
    ensures any_stop { (held : Store) (h : Held) → ShowsRow (P.region memory.old) tables.now.layout held h directory.old free.old → NothingPending (P.region memory.old) (P.may_hold memory.old)
        → LeavesOnly (P.region memory.new) (P.may_hold memory.new) (LeavesEither (P.region memory.old) tables.now.layout held
        (TookWithin (P.region memory.old) tables.now.layout free.old cpu directory.old moved.now.inode gone.inode moved.now.name.now moved.now.other.now moved.now.time)) }
{
    let entries = [
        name_entry(Operation::Remove, moved.inode, moved.name, moved.time),
        name_entry(Operation::Remove, gone.inode, moved.other, moved.time),
        name_entry(Operation::Add, moved.inode, moved.other, moved.time),
    ];
    // A name index says of itself that it has no name twice.
    let _names = directory.names.len();
    if directory.names.reserve(1).is_err() {
        return Err(Refusal::Memory);
    }
    append_less(
        alloc,
        memory,
        tables,
        free,
        cpu,
        directory,
        &entries,
        gone.inode,
        gone.blocks,
    )?;
    let place = directory.tail - length(&entries[2]);
    remove_name(directory, moved.name, moved.time);
    remove_name(directory, moved.other, moved.time);
    add_name(directory, moved.other, moved.inode, place, moved.time);
    Ok(())
}

/// Takes a name out of a directory, and gives its inode the name of a file that keeps others: the file's log says one link less.
///
/// `NoSpace` where all pools together have too few blocks, `Memory` where a growth was refused; both change nothing.
/// `Stopped` where the fuse has burnt.
pub fn lessen_within<P: Pmem>(
    alloc: Global,
    memory: &mut P,
    tables: &Tables,
    free: &mut Allocators,
    cpu: u64,
    directory: &mut Row,
    file: &mut Row,
    moved: &OtherName<'_>,
) -> Result<(), Refusal>
    requires { CanAppendLogs (P.region memory.old) tables.now.layout free.old cpu directory.old file.old ((1 < file.old.numbers.links) × IsName moved.now.name.now × IsName moved.now.other.now) }
    ensures lessened { OnOk result (LessensAt (P.region memory.old) (P.region memory.new) tables.now.layout free.old free.new cpu (directory.old ∷ file.old ∷ [])
        (directory.new ∷ file.new ∷ []) 0 1 moved.now.inode moved.now.name.now moved.now.other.now moved.now.time) }
    ensures needs { NeedsFree (needed (directory.old.tail % 4096) (take_entries moved.now.inode file.old.inode moved.now.name.now moved.now.other.now moved.now.time)
        + needed (file.old.tail % 4096) (links_entries (file.old.numbers.links - 1) moved.now.time)) free.old result }
    ensures kept { SettlesStep P.region P.may_hold P.fuse memory.old memory.new free.old free.new result }
    ensures unchanged { IfErr result (λ e. (e ≡ RefusalValue.Stopped → ⊥) → LeavesStep memory.old memory.new free.old free.new directory.old directory.new × SameRow file.old file.new) }
    ensures inodes { (directory.new.inode ≡ directory.old.inode) × (file.new.inode ≡ file.old.inode) }
    // Every word outside these places is as it was.
    ensures wrote { (held : Store) (h f : Held) → ShowsRow (P.region memory.old) tables.now.layout held h directory.old free.old
        → ShowsRow (P.region memory.old) tables.now.layout held f file.old free.old
        → StoresIn tables.now.layout held (two_logs tables.now.layout cpu directory.old.inode file.old.inode) (P.region memory.old) (P.region memory.new) }
    // The directory's tail is stored first.
    ensures in_order { (held : Store) (h f : Held) → ShowsRow (P.region memory.old) tables.now.layout held h directory.old free.old
        → ShowsRow (P.region memory.old) tables.now.layout held f file.old free.old
        → TailIsFirst (P.region memory.old) (P.region memory.new) tables.now.layout free.old.pools cpu directory.old.inode directory.old.tail
        (take_entries moved.now.inode file.old.inode moved.now.name.now
        moved.now.other.now moved.now.time) (tail_address tables.now.layout file.old.inode) }
    // Whatever a stop leaves: recovery finds what is held, or it with the name given and a link less, without faults.
    ensures any_stop { (held : Store) (h f : Held) → ShowsRow (P.region memory.old) tables.now.layout held h directory.old free.old
        → ShowsRow (P.region memory.old) tables.now.layout held f file.old free.old
        → NothingPending (P.region memory.old) (P.may_hold memory.old)
        → LeavesOnly (P.region memory.new) (P.may_hold memory.new) (LeavesEither (P.region memory.old) tables.now.layout held
        (Lessened (P.region memory.old) tables.now.layout free.old cpu directory.old file.old moved.now.inode moved.now.name.now moved.now.other.now moved.now.time)) }
{
    let time = moved.time;
    let count = file.numbers.links - 1;
    let names = [
        name_entry(Operation::Remove, moved.inode, moved.name, time),
        name_entry(Operation::Remove, file.inode, moved.other, time),
        name_entry(Operation::Add, moved.inode, moved.other, time),
    ];
    let links = [Entry::Links(LinksEntry { count, time })];
    let first = Growth {
        entries: &names,
        names: 1,
    };
    let second = Growth {
        entries: &links,
        names: 0,
    };
    append_logs(
        alloc, memory, tables, free, cpu, directory, &first, file, &second,
    )?;
    let place = directory.tail - length(&names[2]);
    remove_name(directory, moved.name, time);
    remove_name(directory, moved.other, time);
    add_name(directory, moved.other, moved.inode, place, time);
    set_links(file, count, time);
    Ok(())
}
