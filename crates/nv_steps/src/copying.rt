//! A file that gets longer, and ends in a page that has a block: that page goes to a fresh block, with zeros behind the end.

ghost use Rattle.std.specs.Prelude.{◌≡◌, ℕ, ◌<◌, ◌≤◌, ◌+◌, ◌*◌, ◌/◌, ◌∷◌, [], length, IfOk, IfErr, OnOk, OnErr, Option, is_err, suc};
ghost use Rattle.smallvec.specs.SmallVec.{HasRoomFor};
ghost use Rattle.nv_region.specs.Region.{size};
ghost use Rattle.nv_region.specs.Stops.{LeavesOnly, NothingPending};
ghost use Rattle.nv_region.specs.Stored.{StoresOnly};
ghost use Rattle.nv_region.specs.Fuses.{KeepsFuse};
ghost use Rattle.nv_alloc.specs.Taking.{all_blocks};
ghost use Rattle.nv_alloc.specs.FreeLists.{Refuses};
ghost use Rattle.nv_logpage.specs.Append.{end_of};
ghost use Rattle.nv_mounted.specs.Bytes.{byte_in};
ghost use Rattle.nv_bytes.specs.Bytes.{byte_after};
ghost use Rattle.nv_bytes.specs.Storing.{HoldsPage, InBlocks};
ghost use Rattle.nv_super.specs.Layout.{Layout};
ghost use Rattle.nv_mounted.specs.Held.{Held, Store};
ghost use Rattle.nv_mounted.specs.Blocks.{IsUnowned};
ghost use Rattle.nv_commit.specs.Extends.{CanExtend};
ghost use Rattle.nv_commit.specs.Stopped.{LeavesEither};
ghost use Rattle.nv_tree.specs.declared.refusal.Refusal.{Refusal as RefusalValue};
ghost use Rattle.nv_steps.specs.Sizes.{CopiesEnd, Resizes, blocks_from, resizing};
ghost use Rattle.nv_steps.specs.Steps.{LeavesStep, ShowsRow};
ghost use Rattle.nv_steps.specs.Stopped.{Resized};
ghost use Rattle.nv_steps.specs.Stores.{StoresIn, one_log};
ghost use Rattle.nv_steps.specs.Taken.{SamePools, TakesEach};
ghost use Rattle.nv_steps.specs.Keeping.{NeedsFree, SettlesStep};
ghost use Rattle.nv_steps.specs.Premises.{CanCopyPage, CanExtendAt, CanResizeFrom};

use crate::blocks::take_blocks;
use crate::giving::give_block;
use crate::settling::{numbers_with, settle_log};
use crate::slots::slot_of_row;
use nv_alloc::{AllocRefusal, Allocators};
use nv_bytes::{Data, NewBytes, store_page};
use nv_commit::{Extension, extend_log};
use nv_entry::{AttrEntry, Entry, WriteEntry};
use nv_inode::Tables;
use nv_logpage::pages_needed;
use nv_region::{Pmem, Stopped};
use nv_scan::{LogPages, Row};
use nv_super::BLOCK_SIZE;
use nv_tree::Refusal;
use std::alloc::Global;

/// Copies the page in which a file ends from its block into one that it takes, and writes that block's entry and the
/// attributes behind the file's log. Then it gives back the page's old block.
pub(crate) fn resize_with_copy<P: Pmem>(
    alloc: Global,
    memory: &mut P,
    tables: &Tables,
    free: &mut Allocators,
    cpu: u64,
    row: &mut Row,
    attributes: AttrEntry,
    from: u64,
) -> Result<(), Refusal>
    requires cpu { cpu < free.old.sup.cpus }
    requires can { CanResizeFrom (P.region memory.old) tables.now.layout free.old row.old attributes (Option.Some from) }
    ensures resized { OnOk result (Resizes (P.region memory.old) (P.region memory.new) tables.now.layout free.old cpu row.old attributes row.new free.new) }
    ensures needs { NeedsFree (blocks_from row.old.tail attributes (Option.Some from)) free.old result }
    ensures kept { SettlesStep P.region P.may_hold P.fuse memory.old memory.new free.old free.new result }
    ensures unchanged { IfErr result (λ e. (e ≡ RefusalValue.Stopped → ⊥) → LeavesStep memory.old memory.new free.old free.new row.old row.new) }
    ensures inode { row.new.inode ≡ row.old.inode }
    // Every word outside these places is as it was.
    ensures wrote { (held : Store) (h : Held) → ShowsRow (P.region memory.old) tables.now.layout held h row.old free.old
        → StoresIn tables.now.layout held (one_log tables.now.layout row.old.inode) (P.region memory.old) (P.region memory.new) }
    // Whatever a stop leaves: recovery finds what is held, or it with the file's new size, without faults.
    ensures any_stop { (held : Store) (h : Held) → ShowsRow (P.region memory.old) tables.now.layout held h row.old free.old → NothingPending (P.region memory.old) (P.may_hold memory.old)
        → LeavesOnly (P.region memory.new) (P.may_hold memory.new) (LeavesEither (P.region memory.old) tables.now.layout held
        (Resized (P.region memory.old) tables.now.layout free.old cpu row.old attributes)) }
{
    let bytes = row.numbers.size;
    let slot = slot_of_row(tables, row.inode);
    let tail = row.tail;
    let (to, fresh) = match prepare_copy(alloc, free, cpu, &mut row.pages, tail, attributes) {
        Ok(prepared) => prepared,
        Err(AllocRefusal::NoSpace) => return Err(Refusal::NoSpace),
        Err(AllocRefusal::Memory) => return Err(Refusal::Memory),
    };
    let entries = copy_entries(bytes, to, attributes);
    let extension = Extension {
        slot,
        tail,
        entries: &entries,
        fresh: &fresh,
    };
    match copy_end(memory, from, to, bytes, &extension) {
        Ok(end) => {
            settle_log(row, &fresh, end);
            give_block(free, Some(from));
            row.index.set_run(bytes / BLOCK_SIZE, to, 1);
            row.numbers = numbers_with(row.numbers, attributes);
            Ok(())
        }
        Err(_) => Err(Refusal::Stopped),
    }
}

/// Takes a block for the page that is copied, and then those that the entries need behind the tail, each by itself. It makes
/// room for these among the log's pages, and room to give back one block.
///
/// `NoSpace` where all pools together have fewer blocks, `Memory` where a growth was refused. Both leave the free lists.
fn prepare_copy(
    alloc: Global,
    free: &mut Allocators,
    cpu: u64,
    pages: &mut LogPages,
    tail: u64,
    attributes: AttrEntry,
) -> Result<(u64, Vec<u64>), AllocRefusal>
    requires cpu { cpu < free.old.sup.cpus }
    ensures taken { IfOk result (λ blocks. TakesEach free.old cpu (blocks.0 ∷ blocks.1.items) free.new) }
    ensures count { IfOk result (λ blocks. suc (length blocks.1.items) ≡ blocks_from tail attributes (Option.Some 0)) }
    ensures room { IfOk result (λ blocks. HasRoomFor pages.new (length blocks.1.items)) }
    ensures given_back { OnOk result (0 < free.new.room) }
    ensures enough { OnOk result (blocks_from tail attributes (Option.Some 0) ≤ all_blocks free.old.pools) }
    ensures err { IfErr result (λ refusal. Refuses refusal (blocks_from tail attributes (Option.Some 0)) free.old.pools) }
    ensures unchanged { OnErr result (SamePools free.old free.new) }
    ensures pages { pages.new.items ≡ pages.old.items }
{
    let entries = copy_entries(0, 0, attributes);
    let count = pages_needed(tail, &entries);
    if free.free_blocks() <= count {
        return Err(AllocRefusal::NoSpace);
    }
    if pages.reserve(count as usize).is_err() || free.reserve(1).is_err() {
        return Err(AllocRefusal::Memory);
    }
    let mut blocks = take_blocks(alloc, free, cpu, count + 1)?;
    let to = blocks.remove(0);
    Ok((to, blocks))
}

/// The entries of a file of so many bytes whose last page was copied into a block, and which gets these attributes.
fn copy_entries(bytes: u64, to: u64, attributes: AttrEntry) -> [Entry; 2]
    ensures { result ≡ resizing bytes attributes (Option.Some to) }
{
    let copied = WriteEntry {
        offset: bytes / BLOCK_SIZE,
        count: 1,
        block: to,
        size: attributes.size,
        time: attributes.time,
    };
    [Entry::Write(copied), Entry::Attr(attributes)]
}

/// Copies the page in which a file of so many bytes ends from a block into another, with zeros behind the end, and extends
/// the file's log. Answers the new tail.
fn copy_end<P: Pmem>(
    memory: &mut P,
    from: u64,
    to: u64,
    bytes: u64,
    log: &Extension<'_>,
) -> Result<u64, Stopped>
    requires { CanExtendAt (P.region memory.old) log.now.slot log.now.tail log.now.entries.now log.now.fresh.now (CanCopyPage (P.region memory.old) from to bytes) }
    ensures end { IfOk result (λ new. new ≡ end_of log.now.fresh.now 0 log.now.tail log.now.entries.now) }
    ensures copies { OnOk result (CopiesEnd (P.region memory.old) (P.region memory.new) from to bytes log.now.slot log.now.tail log.now.entries.now log.now.fresh.now) }
    ensures settled { OnOk result (NothingPending (P.region memory.new) (P.may_hold memory.new)) }
    ensures stopped { is_err result ≡ (P.fuse memory.new).has_burnt }
    ensures length { size (P.region memory.new) ≡ size (P.region memory.old) }
    ensures keeps_fuse { KeepsFuse (λ limit. size (P.region memory.old) ≤ limit) (P.fuse memory.old) (P.fuse memory.new) }
    // Every word outside these places is as it was.
    ensures wrote { (l : Layout) (held : Store) (i : ℕ) (h : Held) → CanExtend (P.region memory.old) l held i h log.now.slot log.now.tail log.now.entries.now log.now.fresh.now
        → IsUnowned l held to
        → StoresIn l held (one_log l i) (P.region memory.old) (P.region memory.new) }
    // Whatever a stop leaves: recovery finds what is held, or it with the page copied and the log grown, without faults.
    ensures any_stop { (l : Layout) (held : Store) (i : ℕ) (h : Held) → CanExtend (P.region memory.old) l held i h log.now.slot log.now.tail log.now.entries.now log.now.fresh.now
        → IsUnowned l held to → NothingPending (P.region memory.old) (P.may_hold memory.old)
        → LeavesOnly (P.region memory.new) (P.may_hold memory.new) (LeavesEither (P.region memory.old) l held
        (λ S. CopiesEnd (P.region memory.old) S from to bytes log.now.slot log.now.tail log.now.entries.now log.now.fresh.now)) }
{
    copy_page(memory, from, to, bytes)?;
    extend_log(memory, log.slot, log.tail, log.entries, log.fresh)
}

/// Copies the page in which a file of so many bytes ends from a block into another, with zeros behind the end. Nothing is
/// fenced.
fn copy_page<P: Pmem>(memory: &mut P, from: u64, to: u64, bytes: u64) -> Result<(), Stopped>
    requires { CanCopyPage (P.region memory.old) from to bytes }
    ensures stored { OnOk result (HoldsPage (P.region memory.new) (byte_after 0 [] bytes (byte_in (P.region memory.old) (Option.Some from))) to (bytes / 4096)) }
    ensures wrote { StoresOnly (InBlocks (λ b. b ≡ to)) (P.region memory.old) (P.region memory.new) (P.may_hold memory.old) (P.may_hold memory.new) }
    ensures stopped { is_err result ≡ (P.fuse memory.new).has_burnt }
    ensures keeps_fuse { KeepsFuse (λ limit. to * 4096 + 4096 ≤ limit) (P.fuse memory.old) (P.fuse memory.new) }
{
    let copy = NewBytes {
        offset: 0,
        content: Data::Given(&[]),
        size: bytes,
    };
    let stored = store_page(memory, Some(from), to, bytes / BLOCK_SIZE, &copy);
    let NewBytes {
        offset: _,
        content: _,
        size: _,
    } = copy;
    stored
}
