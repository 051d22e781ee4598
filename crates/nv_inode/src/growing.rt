//! A block of slots that is linked to the end of a CPU's chain.

ghost use Rattle.std.specs.Prelude.{◌≡◌, ◌⊎◌, ◌≤◌, ◌<◌, ◌+◌, ◌*◌, ◌%◌, ℕ, IsTrue, OnOk, OnErr};
ghost use Rattle.nv_region.specs.Region.{size, word};
ghost use Rattle.nv_region.specs.Stops.{LeavesOnly, NothingPending};
ghost use Rattle.nv_region.specs.Fuses.{KeepsFuse};
ghost use Rattle.nv_region.specs.Stored.{StoresOnly, Within};
ghost use Rattle.nv_region.specs.Storing.{StoresAndFences};
ghost use Rattle.nv_inode.specs.Growing.{IsLinked, Links, LinksOrNot};

use crate::words::set_word;
use nv_region::commit_word;
use nv_super::{BLOCK_SIZE, Pmem, SLOT_SIZE, Stopped};

/// How many words of a block of slots are cleared before it is linked: its own link, and the valid word of each slot.
const STARTS: u64 = 32;

/// Clears a block of slots and, behind a fence, stores its address in the link at an address, and fences that.
///
/// Where nothing was pending, a stop at any moment leaves the region as before but for words of the block, or with
/// the block blank and linked. Errors: `Stopped` exactly where the fuse has burnt by the end of the call.
pub fn link_block<P: Pmem>(memory: &mut P, link: u64, block: u64) -> Result<(), Stopped>
    requires aligned { link % 8 ≡ 0 }
    requires within { link + 8 ≤ size (P.region memory.old) }
    requires block { 4096 * block + 4096 ≤ size (P.region memory.old) }
    requires apart { (link < 4096 * block) ⊎ (4096 * block + 4096 ≤ link) }
    ensures linked { OnOk result (IsLinked (P.region memory.old) link block (P.region memory.new)) }
    ensures kept { StoresAndFences P.region P.may_hold P.fuse (Links link block) (λ limit. (link + 8 ≤ limit) × (4096 * block + 4096 ≤ limit)) memory.old memory.new result }
    ensures any_stop { NothingPending (P.region memory.old) (P.may_hold memory.old) → LeavesOnly (P.region memory.new) (P.may_hold memory.new) (LinksOrNot (P.region memory.old) link block) }
{
    // The region's length is a u64, and so is each address in it.
    let _length = memory.len();
    let at = BLOCK_SIZE * block;
    clear_starts(memory, at)?;
    // The zeros are kept before the link is, or a stop could leave a link to words of another time.
    memory.fence()?;
    commit_word(memory, link, at)
}

/// Stores 0 in each 16th word of a block, without a fence.
fn clear_starts<P: Pmem>(memory: &mut P, at: u64) -> Result<(), Stopped>
    requires aligned { at % 8 ≡ 0 }
    requires within { at + 4096 ≤ size (P.region memory.old) }
    ensures blank { OnOk result ((k : ℕ) → k < 32 → word (P.region memory.new) (at + 128 * k) ≡ 0) }
    ensures wrote { StoresOnly (Within at 4096) (P.region memory.old) (P.region memory.new) (P.may_hold memory.old) (P.may_hold memory.new) }
    ensures stopped { OnErr result (IsTrue (P.fuse memory.new).has_burnt) }
    ensures keeps_fuse { KeepsFuse (λ limit. at + 4096 ≤ limit) (P.fuse memory.old) (P.fuse memory.new) }
{
    let _length = memory.len();
    for k in 0..STARTS {
        set_word(memory, at + SLOT_SIZE * k, 0)?;
    }
    Ok(())
}
