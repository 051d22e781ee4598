//! Another name for an inode, by the rows of one directory or of two.

ghost use Rattle.std.specs.Prelude.{◌≡◌, ◌+◌, ◌%◌, ◌<◌, [], ◌∷◌, Option, Result, IfErr, OnOk};
ghost use Rattle.nv_region.specs.Stops.{LeavesOnly, NothingPending};
ghost use Rattle.nv_entry.specs.declared.entry.Operation.TheVariants.{Add, Remove};
ghost use Rattle.nv_logpage.specs.Append.{needed};
ghost use Rattle.nv_names.specs.Names.{IsName, name_at};
ghost use Rattle.nv_outcome.specs.Same.{SameRow};
ghost use Rattle.nv_mounted.specs.Held.{Held, Store};
ghost use Rattle.nv_commit.specs.Stopped.{LeavesEither};
ghost use Rattle.nv_tree.specs.declared.refusal.Refusal.{Refusal as RefusalValue};
ghost use Rattle.nv_steps.specs.Moves.{MovesWithin, move_entries};
ghost use Rattle.nv_steps.specs.MoreNames.{GetsName, GrowsTwo};
ghost use Rattle.nv_steps.specs.NameEntries.{name_entries};
ghost use Rattle.nv_steps.specs.Steps.{LeavesStep, ShowsRow};
ghost use Rattle.nv_steps.specs.Stopped.{MovedHere, MovedOver};
ghost use Rattle.nv_steps.specs.InOrder.{TailIsFirst, tail_address};
ghost use Rattle.nv_steps.specs.Unlinks.{LosesName};
ghost use Rattle.nv_steps.specs.Stores.{StoresIn, one_log, two_logs};
ghost use Rattle.nv_steps.specs.Keeping.{NeedsFree, SettlesStep};
ghost use Rattle.nv_steps.specs.Premises.{CanAppendLog, CanAppendLogs};

use crate::appending::append_log;
use crate::blocks::are_enough;
use crate::growing::{Growth, append_logs};
use crate::settling_names::{add_name, remove_name};
use nv_alloc::Allocators;
use nv_entry::{Operation, length, name_entry};
use nv_inode::Tables;
use nv_logpage::pages_needed;
use nv_region::Pmem;
use nv_scan::Row;
use nv_tree::Refusal;
use std::alloc::Global;

/// A name that an inode has, and the other that it gets for it.
#[derive(Clone, Copy)]
pub struct OtherName<'a> {
    pub inode: u64,
    pub name: &'a [u8],
    pub other: &'a [u8],
    pub time: u64,
}

/// Takes a name out of a directory and puts another in for the same inode, by entries behind one log.
///
/// `NoSpace` where all pools together have too few blocks, `Memory` where a growth was refused; both change nothing.
/// `Stopped` where the fuse has burnt.
pub fn move_within<P: Pmem>(
    alloc: Global,
    memory: &mut P,
    tables: &Tables,
    free: &mut Allocators,
    cpu: u64,
    directory: &mut Row,
    moved: &OtherName<'_>,
) -> Result<(), Refusal>
    requires { CanAppendLog (P.region memory.old) tables.now.layout free.old cpu directory.old (IsName moved.now.name.now × IsName moved.now.other.now) }
    ensures moved { OnOk result (MovesWithin (P.region memory.old) (P.region memory.new) tables.now.layout free.old free.new cpu directory.old directory.new moved.now.inode moved.now.name.now
        moved.now.other.now moved.now.time) }
    ensures needs { NeedsFree (needed (directory.old.tail % 4096) (move_entries moved.now.inode moved.now.name.now moved.now.other.now moved.now.time)) free.old result }
    ensures kept { SettlesStep P.region P.may_hold P.fuse memory.old memory.new free.old free.new result }
    ensures unchanged { IfErr result (λ e. (e ≡ RefusalValue.Stopped → ⊥) → LeavesStep memory.old memory.new free.old free.new directory.old directory.new) }
    ensures inode { directory.new.inode ≡ directory.old.inode }
    // Every word outside these places is as it was.
    ensures wrote { (held : Store) (h : Held) → ShowsRow (P.region memory.old) tables.now.layout held h directory.old free.old
        → StoresIn tables.now.layout held (one_log tables.now.layout directory.old.inode) (P.region memory.old) (P.region memory.new) }
    // Whatever a stop leaves: recovery finds what is held, or it with the other name, without faults.
    ensures any_stop { (held : Store) (h : Held) → ShowsRow (P.region memory.old) tables.now.layout held h directory.old free.old → name_at directory.old.names moved.now.other.now ≡ Option.None
        → NothingPending (P.region memory.old) (P.may_hold memory.old)
        → LeavesOnly (P.region memory.new) (P.may_hold memory.new) (LeavesEither (P.region memory.old) tables.now.layout held
        (MovedHere (P.region memory.old) tables.now.layout free.old cpu directory.old moved.now.inode moved.now.name.now moved.now.other.now moved.now.time)) }
{
    let entries = [
        name_entry(Operation::Remove, moved.inode, moved.name, moved.time),
        name_entry(Operation::Add, moved.inode, moved.other, moved.time),
    ];
    // A name index says of itself that it has no name twice.
    let _names = directory.names.len();
    if !are_enough(free, pages_needed(directory.tail, &entries)) {
        return Err(Refusal::NoSpace);
    }
    if directory.names.reserve(1).is_err() {
        return Err(Refusal::Memory);
    }
    append_log(alloc, memory, tables, free, cpu, directory, &entries)?;
    let place = directory.tail - length(&entries[1]);
    remove_name(directory, moved.name, moved.time);
    add_name(directory, moved.other, moved.inode, place, moved.time);
    Ok(())
}

/// Takes a name out of one directory and puts one in another for the same inode, by their rows.
///
/// `NoSpace` where all pools together have too few blocks, `Memory` where a growth was refused; both change nothing.
/// `Stopped` where the fuse has burnt.
pub fn move_both<P: Pmem>(
    alloc: Global,
    memory: &mut P,
    tables: &Tables,
    free: &mut Allocators,
    cpu: u64,
    from: &mut Row,
    to: &mut Row,
    moved: &OtherName<'_>,
) -> Result<(), Refusal>
    requires { CanAppendLogs (P.region memory.old) tables.now.layout free.old cpu from.old to.old (IsName moved.now.name.now × IsName moved.now.other.now) }
    ensures moved { OnOk result (GrowsTwo (P.region memory.old) (P.region memory.new) tables.now.layout free.old free.new cpu (from.old ∷ to.old ∷ []) (from.new ∷ to.new ∷ []) 0 from.old
        (name_entries Remove moved.now.inode moved.now.name.now moved.now.time) 1 to.old (name_entries Add moved.now.inode moved.now.other.now moved.now.time) (λ fresh now. LosesName from.old
        moved.now.name.now moved.now.inode moved.now.time fresh now) (λ more now. GetsName to.old moved.now.other.now moved.now.inode moved.now.time more now)) }
    ensures needs { NeedsFree (needed (from.old.tail % 4096) (name_entries Remove moved.now.inode moved.now.name.now moved.now.time)
        + needed (to.old.tail % 4096) (name_entries Add moved.now.inode moved.now.other.now moved.now.time)) free.old result }
    ensures kept { SettlesStep P.region P.may_hold P.fuse memory.old memory.new free.old free.new result }
    ensures unchanged { IfErr result (λ e. (e ≡ RefusalValue.Stopped → ⊥) → LeavesStep memory.old memory.new free.old free.new from.old from.new × SameRow to.old to.new) }
    ensures inodes { (from.new.inode ≡ from.old.inode) × (to.new.inode ≡ to.old.inode) }
    // Every word outside these places is as it was.
    ensures wrote { (held : Store) (h g : Held) → ShowsRow (P.region memory.old) tables.now.layout held h from.old free.old → ShowsRow (P.region memory.old) tables.now.layout held g to.old free.old
        → StoresIn tables.now.layout held (two_logs tables.now.layout cpu from.old.inode to.old.inode) (P.region memory.old) (P.region memory.new) }
    // The old directory's tail is stored first.
    ensures in_order { (held : Store) (h g : Held) → ShowsRow (P.region memory.old) tables.now.layout held h from.old free.old → ShowsRow (P.region memory.old) tables.now.layout held g to.old free.old
        → TailIsFirst (P.region memory.old) (P.region memory.new) tables.now.layout free.old.pools cpu from.old.inode from.old.tail (name_entries Remove moved.now.inode moved.now.name.now
        moved.now.time) (tail_address tables.now.layout to.old.inode) }
    // Whatever a stop leaves: recovery finds what is held, or it with the name in the other directory, without faults.
    ensures any_stop { (held : Store) (h g : Held) → ShowsRow (P.region memory.old) tables.now.layout held h from.old free.old → ShowsRow (P.region memory.old) tables.now.layout held g to.old free.old
        → name_at to.old.names moved.now.other.now ≡ Option.None → NothingPending (P.region memory.old) (P.may_hold memory.old)
        → LeavesOnly (P.region memory.new) (P.may_hold memory.new) (LeavesEither (P.region memory.old) tables.now.layout held
        (MovedOver (P.region memory.old) tables.now.layout free.old cpu from.old to.old moved.now.inode moved.now.name.now moved.now.other.now moved.now.time)) }
{
    let removal = [name_entry(Operation::Remove, moved.inode, moved.name, moved.time)];
    let addition = [name_entry(Operation::Add, moved.inode, moved.other, moved.time)];
    let first = Growth {
        entries: &removal,
        names: 0,
    };
    let second = Growth {
        entries: &addition,
        names: 1,
    };
    append_logs(alloc, memory, tables, free, cpu, from, &first, to, &second)?;
    remove_name(from, moved.name, moved.time);
    let place = to.tail - length(&addition[0]);
    add_name(to, moved.other, moved.inode, place, moved.time);
    Ok(())
}
