//! The first page that the log of a row can do without, taken out of it, and such pages that follow one another.

ghost use Rattle.std.specs.Prelude.{◌≡◌, ◌+◌, ◌<◌, ℕ, List, length, true, Option, IfOk, IfErr, IfSome, OnOk, IsTrue};
ghost use Rattle.nv_region.specs.Region.{HasBlocks};
ghost use Rattle.nv_region.specs.Stops.{LeavesOnly, NothingPending};
ghost use Rattle.nv_super.specs.Layout.{HasAreas};
ghost use Rattle.nv_alloc.specs.FreeValue.{FreeLists};
ghost use Rattle.nv_inode.specs.Slot.{is_right_log};
ghost use Rattle.nv_inode.specs.Numbers.{has_slot};
ghost use Rattle.nv_logpage.specs.declared.found.Placed.{Placed as PlacedValue};
ghost use Rattle.nv_logpage.specs.Unlinked.{page_behind};
ghost use Rattle.nv_deadpages.specs.Dead.{IsFirstDead, IsSaidBy};
ghost use Rattle.nv_deadpages.specs.InTurn.{AreDeadPages};
ghost use Rattle.nv_mounted.specs.Held.{Held, Store};
ghost use Rattle.nv_tree.specs.declared.refusal.Refusal.{Refusal as RefusalValue};
ghost use Rattle.nv_commit.specs.Stopped.{LeavesEither};
ghost use Rattle.nv_steps.specs.Cleans.{Cleans, HasLess, IsKnownDead, KeepsFile, RefusesClean};
ghost use Rattle.nv_steps.specs.Steps.{LeavesStep, ShowsRow};
ghost use Rattle.nv_steps.specs.Stopped.{PageLess};
ghost use Rattle.nv_steps.specs.Stores.{StoresIn, one_page_less};
ghost use Rattle.nv_steps.specs.Keeping.{KeepsStep};
ghost use Rattle.nv_steps.specs.Premises.{CanClean};

use crate::giving::give_block;
use crate::slots::slot_of_row;
use nv_alloc::Allocators;
use nv_deadpages::{DeadPages, dead_pages, first_dead_page};
use nv_inode::Tables;
use nv_logpage::unlink_page;
use nv_region::Pmem;
use nv_scan::Row;
use nv_super::{BLOCK_SIZE, Super};
use nv_tree::Refusal;
use std::alloc::{AllocError, Global};

// The words of a slot, by their places in it.
const HEAD: u64 = 16;

const CREATED: u64 = 32;

/// Pages that the log of a row can do without, one after another, if it has one.
///
/// Errors: `AllocError` where a growth was refused.
pub fn dead_pages_of<P: Pmem>(
    alloc: Global,
    memory: &P,
    tables: &Tables,
    row: &Row,
) -> Result<Option<DeadPages>, AllocError>
    requires number { IsTrue (has_slot tables.now.layout row.now.inode) }
    requires blocks { HasBlocks (P.region memory.now) tables.now.layout.sup.blocks }
    requires right { is_right_log tables.now.layout.sup row.now.head row.now.tail ≡ true }
    ensures { (held : Store) (h : Held) (free : FreeLists) → ShowsRow (P.region memory.now) tables.now.layout held h row.now free
        → IfOk result (AreDeadPages tables.now.layout.sup h.kind row.now.inode h.created h.entries h.pages) }
{
    // The region's length is a u64, and so is each address up to it.
    let _end = memory.len();
    tables.are_laid();
    let slot = slot_of_row(tables, row.inode);
    let created = memory.load(slot + CREATED);
    dead_pages(alloc, memory, tables.sup(), row, created)
}

/// Takes the first page out of the log of a row that it can do without, and gives its block back. Answers the block, or `None`
/// where the log needs each of its pages; then nothing is stored. The page isn't looked for where its place is known.
///
/// `Memory` where a growth was refused, which changes nothing. `Stopped` where the fuse has burnt.
pub fn clean_log<P: Pmem>(
    alloc: Global,
    memory: &mut P,
    tables: &Tables,
    free: &mut Allocators,
    row: &mut Row,
    known: Option<usize>,
) -> Result<Option<u64>, Refusal>
    requires { CanClean (P.region memory.old) tables.now.layout free.old row.old known }
    ensures log { (held : Store) (h : Held) → ShowsRow (P.region memory.old) tables.now.layout held h row.old free.old
        → IsKnownDead tables.now.layout.sup h.kind row.old.inode h.created h.entries h.pages known
        → IfOk result (Cleans (P.region memory.old) (P.region memory.new) tables.now.layout held h row.old row.new free.old free.new) }
    ensures settled { NothingPending (P.region memory.old) (P.may_hold memory.old) → OnOk result (NothingPending (P.region memory.new) (P.may_hold memory.new)) }
    ensures refused { IfErr result (λ e. RefusesClean e free.old free.new) }
    // A block is given back once no log leads to it.
    ensures unchanged { IfErr result (λ e. (e ≡ RefusalValue.Stopped → ⊥) → LeavesStep memory.old memory.new free.old free.new row.old row.new) }
    ensures kept { KeepsStep P.region P.fuse memory.old memory.new free.old free.new result }
    // Every word outside these places is as it was.
    ensures wrote { (held : Store) (h : Held) (o : Option ℕ) → ShowsRow (P.region memory.old) tables.now.layout held h row.old free.old
        → IsKnownDead tables.now.layout.sup h.kind row.old.inode h.created h.entries h.pages known → IsFirstDead tables.now.layout.sup h.kind row.old.inode h.created h.entries h.pages o
        → StoresIn tables.now.layout held (one_page_less tables.now.layout row.old.inode h.pages o) (P.region memory.old) (P.region memory.new) }
    // Whatever a stop leaves: recovery finds what is held, or it without the page, without faults.
    ensures any_stop { (held : Store) (h : Held) → ShowsRow (P.region memory.old) tables.now.layout held h row.old free.old
        → IsKnownDead tables.now.layout.sup h.kind row.old.inode h.created h.entries h.pages known → NothingPending (P.region memory.old) (P.may_hold memory.old)
        → LeavesOnly (P.region memory.new) (P.may_hold memory.new) (LeavesEither (P.region memory.old) tables.now.layout held (PageLess (P.region memory.old) tables.now.layout free.old row.old)) }
    ensures file { KeepsFile row.old row.new }
{
    // The region's length is a u64, and so is each address up to it.
    let _end = memory.len();
    let slot = slot_of_row(tables, row.inode);
    let created = memory.load(slot + CREATED);
    let Ok(found) = known_or_first(alloc, &*memory, tables.sup(), row, created, known) else {
        return Err(Refusal::Memory);
    };
    let place = match found {
        Some(place) => place,
        None => return Ok(None),
    };
    let Ok(()) = free.reserve(1) else {
        return Err(Refusal::Memory);
    };
    let block = row.pages[place];
    let next = row.pages[place + 1] * BLOCK_SIZE;
    let Ok(()) = unlink_page(memory, slot + HEAD, &row.pages, place) else {
        return Err(Refusal::Stopped);
    };
    leave_page(row, place, next);
    give_block(free, Some(block));
    Ok(Some(block))
}

// The place of the first page that the log of a row can do without, looked for if it isn't known.
fn known_or_first<P: Pmem>(
    alloc: Global,
    memory: &P,
    sup: &Super,
    row: &Row,
    created: u64,
    known: Option<usize>,
) -> Result<Option<usize>, AllocError>
    requires areas { HasAreas sup.now }
    requires blocks { HasBlocks (P.region memory.now) sup.now.blocks }
    requires right { is_right_log sup.now row.now.head row.now.tail ≡ true }
    requires before_last { IfSome known (λ k. k + 1 < length row.now.pages.items) }
    ensures before_last { IfOk result (λ found. IfSome found (λ k. k + 1 < length row.now.pages.items)) }
    ensures first { IfOk result (λ found. (es : List PlacedValue) → IsSaidBy (P.region memory.now) sup.now created es row.now
        → IsKnownDead sup.now row.now.kind row.now.inode created es row.now.pages.items known
        → IsFirstDead sup.now row.now.kind row.now.inode created es row.now.pages.items found) }
{
    match known {
        Some(place) => Ok(Some(place)),
        None => first_dead_page(alloc, memory, sup, row, created),
    }
}

/// Takes the page of a place out of the log of a row. It isn't the last one, and the page behind it has this address.
fn leave_page(row: &mut Row, place: usize, next: u64)
    requires not_last { place + 1 < length row.old.pages.items }
    requires next { next ≡ page_behind row.old.pages.items place }
    ensures { HasLess row.old place row.new }
{
    if place == 0 {
        row.head = next;
    }
    let _block = row.pages.remove(place);
}
