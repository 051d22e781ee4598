//! What a write makes ready before it stores: all growths of memory, and the blocks that it takes.

ghost use Rattle.std.specs.Prelude.{◌≡◌, ◌<◌, ◌≤◌, ◌+◌, ◌*◌, ◌%◌, ℕ, length, Some, IfOk, IfErr, IfSome, OnOk, OnErr};
ghost use Rattle.nv_super.specs.Layout.{most_pages};
ghost use Rattle.smallvec.specs.SmallVec.{HasRoomFor};
ghost use Rattle.nv_alloc.specs.FreeLists.{SameLists};
ghost use Rattle.nv_alloc.specs.Taking.{all_blocks};
ghost use Rattle.nv_logpage.specs.Append.{needed};
ghost use Rattle.nv_outcome.specs.Same.{SameRow};
ghost use Rattle.nv_radix.specs.Pages.{AreReady, block_at};
ghost use Rattle.nv_alloc.specs.declared.allocators.AllocRefusal.TheVariants.{NoSpace};
ghost use Rattle.nv_steps.specs.Taken.{SamePools};
ghost use Rattle.nv_steps.specs.Writes.{NeedsBlocks, data_blocks, data_entries, replaced_blocks};
ghost use Rattle.nv_steps.specs.Written.{Prepared};
ghost use Rattle.nv_steps.specs.Premises.{AreRunsFor, CanPrepare};
ghost use Rattle.nv_steps.specs.Readied.{TakesCount};

use crate::giving::give_all;
use crate::planning::{Plan, data_entries, replaced_blocks};
use crate::preparing::prepare_log;
use nv_alloc::{AllocRefusal, Allocators};
use nv_entry::Entry;
use nv_radix::FileIndex;
use nv_scan::Row;
use nv_super::Run;
use std::alloc::{AllocError, Global};

/// The entries of a write, and the blocks that become pages of the log for them.
#[derive(Drop)]
pub(crate) struct Entries {
    pub entries: Vec<Entry>,
    pub fresh: Vec<u64>,
}

/// What a write has ready before it stores: its entries, and the blocks that its pages have so far.
#[derive(Drop)]
pub(crate) struct Ready {
    pub log: Entries,
    pub replaced: Vec<Run>,
}

/// Makes a write ready: room where the file's pages and what comes back will stand, then the blocks of its pages, taken at
/// once, then those that its entries need, one by one.
///
/// `NoSpace` where all pools together have too few blocks, `Memory` where a growth was refused. Both leave the free lists.
pub(crate) fn prepare_data(
    alloc: Global,
    free: &mut Allocators,
    cpu: u64,
    row: &mut Row,
    plan: &Plan,
) -> Result<Ready, AllocRefusal>
    requires { CanPrepare free.old cpu plan.now (0 < plan.now.pages) }
    ensures prepared { IfOk result (λ ready. Prepared free.old cpu row.old.tail plan.now ready.log.entries.items ready.log.fresh.items free.new) }
    ensures replaced { IfOk result (λ ready. (ready.replaced.items ≡ replaced_blocks row.old.index plan.now) × (length ready.replaced.items ≤ free.new.room)) }
    ensures pages { IfOk result (λ ready. HasRoomFor row.new.pages (length ready.log.fresh.items)) }
    ensures ready { OnOk result (AreReady row.new.index plan.now.first plan.now.pages × IfSome plan.now.ending (λ p. AreReady row.new.index p 1)) }
    ensures enough { OnOk result ((count : ℕ) → NeedsBlocks free.old.pools cpu row.old.tail plan.now count → count ≤ all_blocks free.old.pools) }
    ensures refused { IfErr result (λ e. e ≡ NoSpace → (count : ℕ) → NeedsBlocks free.old.pools cpu row.old.tail plan.now count → all_blocks free.old.pools < count) }
    ensures unchanged { OnErr result (SamePools free.old free.new) }
    ensures row { SameRow row.old row.new × (row.new.names ≡ row.old.names) }
{
    if free.free_blocks() < plan.blocks() {
        return Err(AllocRefusal::NoSpace);
    }
    let Ok(replaced) = make_room(alloc, free, &mut row.index, plan) else {
        return Err(AllocRefusal::Memory);
    };
    let runs = free.take(cpu, plan.blocks())?;
    match prepare_entries(alloc, free, cpu, row, plan, &runs) {
        Ok(log) => Ok(Ready { log, replaced }),
        Err(refusal) => {
            give_all(free, &runs);
            Err(refusal)
        }
    }
}

/// Makes room for a write, in the index for its pages and in the free lists for what comes back. Answers the blocks that
/// its pages have so far.
fn make_room(
    alloc: Global,
    free: &mut Allocators,
    index: &mut FileIndex,
    plan: &Plan,
) -> Result<Vec<Run>, AllocError>
    requires pages { plan.now.first + plan.now.pages ≤ most_pages }
    requires ending { IfSome plan.now.ending (λ p. p < most_pages) }
    ensures replaced { IfOk result (λ runs. runs.items ≡ replaced_blocks index.old plan.now) }
    ensures count { IfOk result (λ runs. length runs.items ≤ data_blocks plan.now) }
    ensures room { OnOk result (2 * data_blocks plan.now ≤ free.new.room) }
    ensures first { OnOk result (AreReady index.new plan.now.first plan.now.pages) }
    ensures last { OnOk result (IfSome plan.now.ending (λ p. AreReady index.new p 1)) }
    ensures lists { SameLists free.old free.new }
    ensures blocks { (p : ℕ) → block_at index.new p ≡ block_at index.old p }
{
    let replaced = replaced_blocks(alloc, index, plan)?;
    index.reserve(plan.first, plan.pages)?;
    if let Some(page) = plan.ending {
        index.reserve(page, 1)?;
    }
    // A refusal of one of the log's pages uses up room for at most one block an entry.
    free.reserve(2 * plan.blocks() as usize)?;
    Ok(replaced)
}

/// Makes the entries of a write over the blocks that were taken, and takes the blocks that they need in the log. Either way
/// there is room in the free lists for as many blocks as before but for one an entry.
fn prepare_entries(
    alloc: Global,
    free: &mut Allocators,
    cpu: u64,
    row: &mut Row,
    plan: &Plan,
    runs: &[Run],
) -> Result<Entries, AllocRefusal>
    requires { CanPrepare free.old cpu plan.now (AreRunsFor plan.now runs.now) }
    ensures entries { IfOk result (λ log. log.entries.items ≡ data_entries plan.now runs.now) }
    ensures taken { IfOk result (λ log. TakesCount free.old cpu log.fresh.items (needed (row.old.tail % 4096) log.entries.items) free.new) }
    ensures pages { IfOk result (λ log. HasRoomFor row.new.pages (length log.fresh.items)) }
    ensures enough { OnOk result (needed (row.old.tail % 4096) (data_entries plan.now runs.now) ≤ all_blocks free.old.pools) }
    ensures refused { IfErr result (λ e. e ≡ NoSpace → all_blocks free.old.pools < needed (row.old.tail % 4096) (data_entries plan.now runs.now)) }
    ensures unchanged { OnErr result (SamePools free.old free.new) }
    ensures room { free.old.room ≤ free.new.room + data_blocks plan.now }
    ensures row { SameRow row.old row.new × (row.new.index ≡ row.old.index) × (row.new.names ≡ row.old.names) }
{
    let Ok(entries) = data_entries(alloc, plan, runs) else {
        return Err(AllocRefusal::Memory);
    };
    let fresh = prepare_log(alloc, free, cpu, &mut row.pages, row.tail, &entries)?;
    Ok(Entries { entries, fresh })
}
