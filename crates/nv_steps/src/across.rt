//! A name of one inode that is given to another, by the rows of two directories: the first inode goes, or loses a link.

ghost use Rattle.std.specs.Prelude.{◌≡◌, ◌+◌, ◌-◌, ◌%◌, ◌<◌, ◌≤◌, IfErr, OnOk};
ghost use Rattle.nv_region.specs.Stops.{LeavesOnly, NothingPending};
ghost use Rattle.nv_entry.specs.declared.entry.Operation.TheVariants.{Remove};
ghost use Rattle.nv_logpage.specs.Append.{needed};
ghost use Rattle.nv_names.specs.Names.{IsName};
ghost use Rattle.nv_outcome.specs.Same.{SameRow};
ghost use Rattle.nv_mounted.specs.Held.{Held, Store};
ghost use Rattle.nv_commit.specs.Stopped.{LeavesEither};
ghost use Rattle.nv_tree.specs.declared.refusal.Refusal.{Refusal as RefusalValue};
ghost use Rattle.nv_steps.specs.Across.{LessenedAcross, LessensAcross, TakesAcross, TookAcross, handed_entries};
ghost use Rattle.nv_steps.specs.NameEntries.{links_entries, name_entries};
ghost use Rattle.nv_steps.specs.Steps.{LeavesStep, ShowsRow};
ghost use Rattle.nv_steps.specs.InOrder.{TailIsFirst, TailIsNext, tail_address};
ghost use Rattle.nv_steps.specs.Stores.{StoresIn, three_logs, two_less};
ghost use Rattle.nv_steps.specs.Keeping.{NeedsFree, SettlesStep};
ghost use Rattle.nv_steps.specs.Slots.{slot_in};
ghost use Rattle.nv_steps.specs.Premises.{CanAppendLogsLess, CanAppendThreeLogs};
ghost use Rattle.nv_steps.specs.Readied.{NeedsRoom};

use crate::growing::Growth;
use crate::growing_less::append_logs_less;
use crate::growing_three::append_three_logs;
use crate::renaming::OtherName;
use crate::settling_names::{add_name, remove_name, set_links};
use crate::taking::Displaced;
use nv_alloc::Allocators;
use nv_entry::{Entry, LinksEntry, Operation, length, name_entry};
use nv_inode::Tables;
use nv_region::Pmem;
use nv_scan::Row;
use nv_tree::Refusal;
use std::alloc::Global;

/// Takes a name out of one directory, and gives its inode the name of another inode in a second directory. That one goes, and there
/// is room for its blocks then.
///
/// `NoSpace` where all pools together have too few blocks, `Memory` where a growth was refused; both change nothing.
/// `Stopped` where the fuse has burnt.
pub fn take_across<P: Pmem>(
    alloc: Global,
    memory: &mut P,
    tables: &Tables,
    free: &mut Allocators,
    cpu: u64,
    from: &mut Row,
    to: &mut Row,
    moved: &OtherName<'_>,
    gone: Displaced,
) -> Result<(), Refusal>
    requires { CanAppendLogsLess (P.region memory.old) tables.now.layout free.old cpu from.old to.old gone.inode (IsName moved.now.name.now × IsName moved.now.other.now) }
    ensures taken { OnOk result (TakesAcross (P.region memory.old) (P.region memory.new) tables.now.layout free.old free.new cpu from.old from.new to.old to.new
        moved.now.inode gone.inode moved.now.name.now
        moved.now.other.now moved.now.time) }
    ensures needs { NeedsRoom (needed (from.old.tail % 4096) (name_entries Remove moved.now.inode moved.now.name.now moved.now.time)
        + needed (to.old.tail % 4096) (handed_entries moved.now.inode gone.inode moved.now.other.now moved.now.time)) (gone.blocks ≤ free.new.room) free.old result }
    ensures kept { SettlesStep P.region P.may_hold P.fuse memory.old memory.new free.old free.new result }
    ensures unchanged { IfErr result (λ e. (e ≡ RefusalValue.Stopped → ⊥) → LeavesStep memory.old memory.new free.old free.new from.old from.new × SameRow to.old to.new) }
    ensures inodes { (from.new.inode ≡ from.old.inode) × (to.new.inode ≡ to.old.inode) }
    // Every word outside these places is as it was.
    ensures wrote { (held : Store) (h g : Held) → ShowsRow (P.region memory.old) tables.now.layout held h from.old free.old → ShowsRow (P.region memory.old) tables.now.layout held g to.old free.old
        → StoresIn tables.now.layout held (two_less tables.now.layout cpu from.old.inode to.old.inode gone.inode) (P.region memory.old) (P.region memory.new) }
    // The old directory's tail is stored first, then that of the new one, and then the valid word.
    ensures in_order { (held : Store) (h g : Held) → ShowsRow (P.region memory.old) tables.now.layout held h from.old free.old → ShowsRow (P.region memory.old) tables.now.layout held g to.old free.old
        → TailIsFirst (P.region memory.old) (P.region memory.new) tables.now.layout free.old.pools cpu from.old.inode from.old.tail (name_entries Remove moved.now.inode moved.now.name.now
        moved.now.time) (tail_address tables.now.layout to.old.inode)
        × TailIsNext (P.region memory.old) (P.region memory.new) tables.now.layout free.old.pools cpu (needed (from.old.tail % 4096)
        (name_entries Remove moved.now.inode moved.now.name.now moved.now.time)) to.old.inode to.old.tail (handed_entries moved.now.inode gone.inode moved.now.other.now moved.now.time)
        (slot_in tables.now.layout gone.inode) }
    // Whatever a stop leaves: recovery finds what is held, or it with the name given and without the inode, without faults.
    ensures any_stop { (held : Store) (h g : Held) → ShowsRow (P.region memory.old) tables.now.layout held h from.old free.old → ShowsRow (P.region memory.old) tables.now.layout held g to.old free.old
        → NothingPending (P.region memory.old) (P.may_hold memory.old)
        → LeavesOnly (P.region memory.new) (P.may_hold memory.new) (LeavesEither (P.region memory.old) tables.now.layout held
        (TookAcross (P.region memory.old) tables.now.layout free.old cpu from.old to.old moved.now.inode gone.inode moved.now.name.now moved.now.other.now moved.now.time)) }
{
    let removal = [name_entry(Operation::Remove, moved.inode, moved.name, moved.time)];
    let handing = [
        name_entry(Operation::Remove, gone.inode, moved.other, moved.time),
        name_entry(Operation::Add, moved.inode, moved.other, moved.time),
    ];
    let first = Growth {
        entries: &removal,
        names: 0,
    };
    let second = Growth {
        entries: &handing,
        names: 1,
    };
    append_logs_less(
        alloc, memory, tables, free, cpu, from, &first, to, &second, gone,
    )?;
    remove_name(from, moved.name, moved.time);
    let place = to.tail - length(&handing[1]);
    remove_name(to, moved.other, moved.time);
    add_name(to, moved.other, moved.inode, place, moved.time);
    Ok(())
}

/// Takes a name out of one directory, and gives its inode the name of a file in a second directory. The file has other names, and
/// its log says one link less.
///
/// `NoSpace` where all pools together have too few blocks, `Memory` where a growth was refused; both change nothing.
/// `Stopped` where the fuse has burnt.
pub fn lessen_across<P: Pmem>(
    alloc: Global,
    memory: &mut P,
    tables: &Tables,
    free: &mut Allocators,
    cpu: u64,
    from: &mut Row,
    to: &mut Row,
    file: &mut Row,
    moved: &OtherName<'_>,
) -> Result<(), Refusal>
    requires { CanAppendThreeLogs (P.region memory.old) tables.now.layout free.old cpu from.old to.old file.old
        ((1 < file.old.numbers.links) × IsName moved.now.name.now × IsName moved.now.other.now) }
    ensures lessened { OnOk result (LessensAcross (P.region memory.old) (P.region memory.new) tables.now.layout free.old free.new cpu from.old from.new to.old to.new file.old file.new moved.now.inode
        moved.now.name.now moved.now.other.now moved.now.time) }
    ensures needs { NeedsFree (needed (from.old.tail % 4096) (name_entries Remove moved.now.inode moved.now.name.now moved.now.time)
        + needed (to.old.tail % 4096) (handed_entries moved.now.inode file.old.inode moved.now.other.now moved.now.time)
        + needed (file.old.tail % 4096) (links_entries (file.old.numbers.links - 1) moved.now.time)) free.old result }
    ensures kept { SettlesStep P.region P.may_hold P.fuse memory.old memory.new free.old free.new result }
    ensures unchanged { IfErr result (λ e. (e ≡ RefusalValue.Stopped → ⊥) → LeavesStep memory.old memory.new free.old free.new from.old from.new × SameRow to.old to.new × SameRow file.old file.new) }
    ensures inodes { (from.new.inode ≡ from.old.inode) × (to.new.inode ≡ to.old.inode) × (file.new.inode ≡ file.old.inode) }
    // Every word outside these places is as it was.
    ensures wrote { (held : Store) (h g f : Held) → ShowsRow (P.region memory.old) tables.now.layout held h from.old free.old → ShowsRow (P.region memory.old) tables.now.layout held g to.old free.old
        → ShowsRow (P.region memory.old) tables.now.layout held f file.old free.old
        → StoresIn tables.now.layout held (three_logs tables.now.layout cpu from.old.inode to.old.inode file.old.inode) (P.region memory.old) (P.region memory.new) }
    // The old directory's tail is stored first, then that of the new one, and then that of the file.
    ensures in_order { (held : Store) (h g f : Held) → ShowsRow (P.region memory.old) tables.now.layout held h from.old free.old
        → ShowsRow (P.region memory.old) tables.now.layout held g to.old free.old
        → ShowsRow (P.region memory.old) tables.now.layout held f file.old free.old
        → TailIsFirst (P.region memory.old) (P.region memory.new) tables.now.layout free.old.pools cpu from.old.inode from.old.tail (name_entries Remove moved.now.inode moved.now.name.now
        moved.now.time) (tail_address tables.now.layout to.old.inode)
        × TailIsNext (P.region memory.old) (P.region memory.new) tables.now.layout free.old.pools cpu (needed (from.old.tail % 4096)
        (name_entries Remove moved.now.inode moved.now.name.now moved.now.time)) to.old.inode to.old.tail (handed_entries moved.now.inode file.old.inode moved.now.other.now moved.now.time)
        (tail_address tables.now.layout file.old.inode) }
    // Whatever a stop leaves: recovery finds what is held, or it with the name given and the link less, without faults.
    ensures any_stop { (held : Store) (h g f : Held) → ShowsRow (P.region memory.old) tables.now.layout held h from.old free.old
        → ShowsRow (P.region memory.old) tables.now.layout held g to.old free.old
        → ShowsRow (P.region memory.old) tables.now.layout held f file.old free.old
        → NothingPending (P.region memory.old) (P.may_hold memory.old)
        → LeavesOnly (P.region memory.new) (P.may_hold memory.new) (LeavesEither (P.region memory.old) tables.now.layout held
        (LessenedAcross (P.region memory.old) tables.now.layout free.old cpu from.old to.old file.old moved.now.inode moved.now.name.now moved.now.other.now moved.now.time)) }
{
    let time = moved.time;
    let count = file.numbers.links - 1;
    let removal = [name_entry(Operation::Remove, moved.inode, moved.name, time)];
    let handing = [
        name_entry(Operation::Remove, file.inode, moved.other, time),
        name_entry(Operation::Add, moved.inode, moved.other, time),
    ];
    let links = [Entry::Links(LinksEntry { count, time })];
    let first = Growth {
        entries: &removal,
        names: 0,
    };
    let second = Growth {
        entries: &handing,
        names: 1,
    };
    let third = Growth {
        entries: &links,
        names: 0,
    };
    append_three_logs(
        alloc, memory, tables, free, cpu, from, &first, to, &second, file, &third,
    )?;
    remove_name(from, moved.name, time);
    let place = to.tail - length(&handing[1]);
    remove_name(to, moved.other, time);
    add_name(to, moved.other, moved.inode, place, time);
    set_links(file, count, time);
    Ok(())
}
