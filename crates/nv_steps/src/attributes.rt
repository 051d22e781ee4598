//! An attributes entry behind the log of a row, and the row with what it says.

ghost use Rattle.std.specs.Prelude.{◌≡◌, ◌<◌, ◌≤◌, ◌%◌, ◌∷◌, [], Result, IfErr, OnOk};
ghost use Rattle.nv_region.specs.Region.{size};
ghost use Rattle.nv_region.specs.Stops.{LeavesOnly, NothingPending};
ghost use Rattle.nv_entry.specs.declared.entry.Entry.TheVariants.{Attr};
ghost use Rattle.nv_logpage.specs.Append.{needed};
ghost use Rattle.nv_mounted.specs.Held.{Held, Store};
ghost use Rattle.nv_commit.specs.Stopped.{LeavesEither};
ghost use Rattle.nv_tree.specs.declared.refusal.Refusal.{Refusal as RefusalValue};
ghost use Rattle.nv_steps.specs.Attributes.{HasAttributes, attributes};
ghost use Rattle.nv_steps.specs.Steps.{LeavesStep, LogFollows, ShowsRow};
ghost use Rattle.nv_steps.specs.Stopped.{Attributed};
ghost use Rattle.nv_steps.specs.Stores.{StoresIn, one_log};
ghost use Rattle.nv_steps.specs.Keeping.{NeedsFree, SettlesStep};
ghost use Rattle.nv_steps.specs.Premises.{CanAppendLog};

use crate::appending::append_log;
use crate::settling::numbers_with;
use nv_alloc::Allocators;
use nv_entry::{AttrEntry, Entry};
use nv_inode::Tables;
use nv_region::Pmem;
use nv_scan::Row;
use nv_tree::Refusal;
use std::alloc::Global;

/// Writes an attributes entry behind the log of a row, with the size as it is, and puts what it says into the row.
///
/// `NoSpace` where all pools together have too few blocks, `Memory` where a growth was refused; both change nothing.
/// `Stopped` where the fuse has burnt.
pub fn change_attributes<P: Pmem>(
    alloc: Global,
    memory: &mut P,
    tables: &Tables,
    free: &mut Allocators,
    cpu: u64,
    row: &mut Row,
    attributes: AttrEntry,
) -> Result<(), Refusal>
    requires { CanAppendLog (P.region memory.old) tables.now.layout free.old cpu row.old ((attributes.mode ≤ 4095) × (attributes.size ≡ row.old.numbers.size)) }
    ensures log { (held : Store) (h : Held) → ShowsRow (P.region memory.old) tables.now.layout held h row.old free.old
        → OnOk result (LogFollows (P.region memory.old) (P.region memory.new) tables.now.layout held h (Attr attributes ∷ []) free.old.pools cpu row.old row.new free.new) }
    ensures row { OnOk result (HasAttributes row.old attributes row.new) }
    ensures needs { NeedsFree (needed (row.old.tail % 4096) (Attr attributes ∷ [])) free.old result }
    ensures kept { SettlesStep P.region P.may_hold P.fuse memory.old memory.new free.old free.new result }
    ensures unchanged { IfErr result (λ e. (e ≡ RefusalValue.Stopped → ⊥) → LeavesStep memory.old memory.new free.old free.new row.old row.new) }
    ensures inode { row.new.inode ≡ row.old.inode }
    // Every word outside these places is as it was.
    ensures wrote { (held : Store) (h : Held) → ShowsRow (P.region memory.old) tables.now.layout held h row.old free.old
        → StoresIn tables.now.layout held (one_log tables.now.layout row.old.inode) (P.region memory.old) (P.region memory.new) }
    // What a stop leaves, at any exit.
    ensures any_stop { (held : Store) (h : Held) → ShowsRow (P.region memory.old) tables.now.layout held h row.old free.old → NothingPending (P.region memory.old) (P.may_hold memory.old)
        → LeavesOnly (P.region memory.new) (P.may_hold memory.new) (LeavesEither (P.region memory.old) tables.now.layout held
        (Attributed (P.region memory.old) tables.now.layout free.old cpu row.old attributes)) }
{
    let entries = [Entry::Attr(attributes)];
    append_log(alloc, memory, tables, free, cpu, row, &entries)?;
    row.numbers = numbers_with(row.numbers, attributes);
    Ok(())
}
