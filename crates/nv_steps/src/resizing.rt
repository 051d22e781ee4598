//! A file's new size: its log grows by the attributes, and the pages behind the new end are cut.

ghost use Rattle.std.specs.Prelude.{◌≡◌, ◌<◌, IfErr, OnOk, Option};
ghost use Rattle.nv_region.specs.Region.{size};
ghost use Rattle.nv_region.specs.Stops.{LeavesOnly, NothingPending};
ghost use Rattle.nv_radix.specs.Pages.{block_at};
ghost use Rattle.nv_mounted.specs.Held.{Held, Store};
ghost use Rattle.nv_commit.specs.Stopped.{LeavesEither};
ghost use Rattle.nv_tree.specs.declared.refusal.Refusal.{Refusal as RefusalValue};
ghost use Rattle.nv_steps.specs.Sizes.{CanResize, Resizes, blocks_from, end_block};
ghost use Rattle.nv_steps.specs.Steps.{LeavesStep, ShowsRow};
ghost use Rattle.nv_steps.specs.Stopped.{Resized};
ghost use Rattle.nv_steps.specs.Stores.{StoresIn, one_log};
ghost use Rattle.nv_steps.specs.Keeping.{NeedsFree, SettlesStep};
ghost use Rattle.nv_steps.specs.Premises.{CanResizeFrom};

use crate::appending::append_log;
use crate::copying::resize_with_copy;
use crate::giving::give_pages;
use crate::settling::numbers_with;
use nv_alloc::Allocators;
use nv_entry::{AttrEntry, Entry};
use nv_inode::Tables;
use nv_region::Pmem;
use nv_scan::Row;
use nv_super::BLOCK_SIZE;
use nv_tree::Refusal;
use std::alloc::Global;

/// Gives a file the size of these attributes, which are its own but for size and time: cuts it, or lengthens it by zeros.
///
/// `NoSpace` where all pools together have too few blocks, `Memory` where a growth was refused; both change nothing.
/// `Stopped` where the fuse has burnt.
pub fn resize<P: Pmem>(
    alloc: Global,
    memory: &mut P,
    tables: &Tables,
    free: &mut Allocators,
    cpu: u64,
    row: &mut Row,
    attributes: AttrEntry,
) -> Result<(), Refusal>
    requires cpu { cpu < free.old.sup.cpus }
    requires can { CanResize (P.region memory.old) tables.now.layout free.old row.old attributes }
    ensures resized { OnOk result (Resizes (P.region memory.old) (P.region memory.new) tables.now.layout free.old cpu row.old attributes row.new free.new) }
    ensures needs { NeedsFree (blocks_from row.old.tail attributes (end_block (block_at row.old.index) row.old.numbers.size attributes.size)) free.old result }
    ensures kept { SettlesStep P.region P.may_hold P.fuse memory.old memory.new free.old free.new result }
    ensures unchanged { IfErr result (λ e. (e ≡ RefusalValue.Stopped → ⊥) → LeavesStep memory.old memory.new free.old free.new row.old row.new) }
    ensures inode { row.new.inode ≡ row.old.inode }
    // Every word outside these places is as it was.
    ensures wrote { (held : Store) (h : Held) → ShowsRow (P.region memory.old) tables.now.layout held h row.old free.old
        → StoresIn tables.now.layout held (one_log tables.now.layout row.old.inode) (P.region memory.old) (P.region memory.new) }
    // Whatever a stop leaves: recovery finds what is held, or it with the file's new size, without faults.
    ensures any_stop { (held : Store) (h : Held) → ShowsRow (P.region memory.old) tables.now.layout held h row.old free.old → NothingPending (P.region memory.old) (P.may_hold memory.old)
        → LeavesOnly (P.region memory.new) (P.may_hold memory.new) (LeavesEither (P.region memory.old) tables.now.layout held
        (Resized (P.region memory.old) tables.now.layout free.old cpu row.old attributes)) }
{
    match end_block(row, attributes.size) {
        Some(from) => resize_with_copy(alloc, memory, tables, free, cpu, row, attributes, from),
        None => resize_in_place(alloc, memory, tables, free, cpu, row, attributes),
    }
}

/// The block of the page in which a file ends, where the file gets longer and has bytes of that page.
fn end_block(row: &Row, new: u64) -> Option<u64>
    ensures { result ≡ end_block (block_at row.now.index) row.now.numbers.size new }
{
    let old = row.numbers.size;
    if old < new && old % BLOCK_SIZE != 0 {
        row.index.get(old / BLOCK_SIZE)
    } else {
        None
    }
}

/// Writes the attributes behind the log of a file whose last page isn't copied. Gives back the blocks of the pages behind
/// the new end.
fn resize_in_place<P: Pmem>(
    alloc: Global,
    memory: &mut P,
    tables: &Tables,
    free: &mut Allocators,
    cpu: u64,
    row: &mut Row,
    attributes: AttrEntry,
) -> Result<(), Refusal>
    requires cpu { cpu < free.old.sup.cpus }
    requires can { CanResizeFrom (P.region memory.old) tables.now.layout free.old row.old attributes Option.None }
    ensures resized { OnOk result (Resizes (P.region memory.old) (P.region memory.new) tables.now.layout free.old cpu row.old attributes row.new free.new) }
    ensures needs { NeedsFree (blocks_from row.old.tail attributes Option.None) free.old result }
    ensures kept { SettlesStep P.region P.may_hold P.fuse memory.old memory.new free.old free.new result }
    ensures unchanged { IfErr result (λ e. (e ≡ RefusalValue.Stopped → ⊥) → LeavesStep memory.old memory.new free.old free.new row.old row.new) }
    ensures inode { row.new.inode ≡ row.old.inode }
    // Every word outside these places is as it was.
    ensures wrote { (held : Store) (h : Held) → ShowsRow (P.region memory.old) tables.now.layout held h row.old free.old
        → StoresIn tables.now.layout held (one_log tables.now.layout row.old.inode) (P.region memory.old) (P.region memory.new) }
    // Whatever a stop leaves: recovery finds what is held, or it with the file's new size, without faults.
    ensures any_stop { (held : Store) (h : Held) → ShowsRow (P.region memory.old) tables.now.layout held h row.old free.old → NothingPending (P.region memory.old) (P.may_hold memory.old)
        → LeavesOnly (P.region memory.new) (P.may_hold memory.new) (LeavesEither (P.region memory.old) tables.now.layout held
        (Resized (P.region memory.old) tables.now.layout free.old cpu row.old attributes)) }
{
    let first = attributes.size.div_ceil(BLOCK_SIZE);
    let end = row.numbers.size.div_ceil(BLOCK_SIZE);
    let entries = [Entry::Attr(attributes)];
    // Room for the blocks that are given back.
    if free.reserve(end.saturating_sub(first) as usize).is_err() {
        return Err(Refusal::Memory);
    }
    append_log(alloc, memory, tables, free, cpu, row, &entries)?;
    give_pages(free, &row.index, first, end);
    row.index.cut(first);
    row.numbers = numbers_with(row.numbers, attributes);
    Ok(())
}
