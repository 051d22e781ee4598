//! What a call makes ready before it stores: all growths of memory, and the blocks that it takes.

ghost use Rattle.std.specs.Prelude.{◌≡◌, ◌<◌, ◌≤◌, ◌+◌, ◌%◌, length, IfOk, IfErr, OnOk, OnErr};
ghost use Rattle.smallvec.specs.SmallVec.{HasRoomFor};
ghost use Rattle.nv_alloc.specs.FreeLists.{Refuses};
ghost use Rattle.nv_alloc.specs.Taking.{all_blocks};
ghost use Rattle.nv_logpage.specs.Append.{needed};
ghost use Rattle.nv_steps.specs.Taken.{SamePools};
ghost use Rattle.nv_steps.specs.Readied.{TakesCount};

use crate::blocks::{are_enough, take_blocks};
use nv_alloc::{AllocRefusal, Allocators};
use nv_entry::Entry;
use nv_logpage::pages_needed;
use nv_scan::LogPages;
use std::alloc::Global;

/// Takes the blocks that entries need behind the tail of a log, each by itself, and makes room for them among its pages.
///
/// `NoSpace` where all pools together have fewer blocks, `Memory` where a growth was refused. Both leave the free lists.
pub(crate) fn prepare_log(
    alloc: Global,
    free: &mut Allocators,
    cpu: u64,
    pages: &mut LogPages,
    tail: u64,
    entries: &[Entry],
) -> Result<Vec<u64>, AllocRefusal>
    requires cpu { cpu < free.old.sup.cpus }
    ensures taken { IfOk result (λ fresh. TakesCount free.old cpu fresh.items (needed (tail % 4096) entries.now) free.new) }
    ensures room { IfOk result (λ fresh. HasRoomFor pages.new (length fresh.items)) }
    ensures given_back { OnOk result (free.old.room ≤ free.new.room) }
    ensures enough { OnOk result (needed (tail % 4096) entries.now ≤ all_blocks free.old.pools) }
    ensures err { IfErr result (λ refusal. Refuses refusal (needed (tail % 4096) entries.now) free.old.pools) }
    ensures unchanged { OnErr result (SamePools free.old free.new) }
    ensures room_left { OnErr result (free.old.room ≤ free.new.room + needed (tail % 4096) entries.now) }
    ensures pages { pages.new.items ≡ pages.old.items }
{
    let count = pages_needed(tail, entries);
    if !are_enough(free, count) {
        return Err(AllocRefusal::NoSpace);
    }
    match pages.reserve(count as usize) {
        Ok(()) => take_blocks(alloc, free, cpu, count),
        Err(_) => Err(AllocRefusal::Memory),
    }
}
