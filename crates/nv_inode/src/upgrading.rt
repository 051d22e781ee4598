//! A region of version 1 that becomes one of version 2.

ghost use Rattle.std.specs.Prelude.{◌≡◌, ◌≤◌, ◌<◌, ◌+◌, ◌*◌, ◌%◌, ℕ, IsTrue, OnOk, OnErr, is_err};
ghost use Rattle.nv_region.specs.Region.{HasBlocks, size, word};
ghost use Rattle.nv_region.specs.Stops.{LeavesOnly, NothingPending};
ghost use Rattle.nv_region.specs.Fuses.{KeepsFuse};
ghost use Rattle.nv_region.specs.Stored.{StoresOnly};
ghost use Rattle.nv_super.specs.Layout.{IsLayout};
ghost use Rattle.nv_inode.specs.Chains.{first_link};
ghost use Rattle.nv_inode.specs.Upgraded.{IsUpgraded, NoLinks, UpgradeStores, UpgradedOrNot};

use crate::chains::FIRST_LINK;
use crate::words::set_word;
use nv_region::commit_word;
use nv_super::{BLOCK_SIZE, Pmem, Stopped, Super, WITH_CHAINS};

/// Where the layout's version stands, in bytes.
const VERSION: u64 = 8;

/// Stores 0 in the link of each journal's block and, behind a fence, version 2, and fences that.
///
/// Where nothing was pending, a stop at any moment leaves the region as before but for links, which version 1 doesn't
/// read, or upgraded. Errors: `Stopped` exactly where the fuse has burnt by the end of the call.
pub fn upgrade_tables<P: Pmem>(memory: &mut P, sup: &Super) -> Result<(), Stopped>
    requires layout { IsLayout sup.now }
    requires blocks { HasBlocks (P.region memory.old) sup.now.blocks }
    ensures upgraded { OnOk result (IsUpgraded (P.region memory.old) sup.now.cpus (P.region memory.new)) }
    ensures settled { OnOk result (NothingPending (P.region memory.new) (P.may_hold memory.new)) }
    ensures wrote { StoresOnly (UpgradeStores sup.now.cpus) (P.region memory.old) (P.region memory.new) (P.may_hold memory.old) (P.may_hold memory.new) }
    ensures stopped { is_err result ≡ (P.fuse memory.new).has_burnt }
    ensures keeps_fuse { KeepsFuse (λ limit. 4096 * (1 + sup.now.cpus) ≤ limit) (P.fuse memory.old) (P.fuse memory.new) }
    ensures any_stop { NothingPending (P.region memory.old) (P.may_hold memory.old) → LeavesOnly (P.region memory.new) (P.may_hold memory.new) (UpgradedOrNot (P.region memory.old) sup.now.cpus) }
{
    clear_links(memory, sup)?;
    // The links are kept before the version is, or a stop could leave a version that reads words of another time.
    memory.fence()?;
    commit_word(memory, VERSION, WITH_CHAINS)
}

/// Stores 0 in the link of each journal's block, without a fence.
fn clear_links<P: Pmem>(memory: &mut P, sup: &Super) -> Result<(), Stopped>
    requires layout { IsLayout sup.now }
    requires blocks { HasBlocks (P.region memory.old) sup.now.blocks }
    ensures cleared { OnOk result ((c : ℕ) → c < sup.now.cpus → word (P.region memory.new) (first_link c) ≡ 0) }
    ensures wrote { StoresOnly (NoLinks sup.now.cpus) (P.region memory.old) (P.region memory.new) (P.may_hold memory.old) (P.may_hold memory.new) }
    ensures stopped { OnErr result (IsTrue (P.fuse memory.new).has_burnt) }
    ensures keeps_fuse { KeepsFuse (λ limit. 4096 * (1 + sup.now.cpus) ≤ limit) (P.fuse memory.old) (P.fuse memory.new) }
{
    for cpu in 0..sup.cpus {
        set_word(memory, BLOCK_SIZE * (1 + cpu) + FIRST_LINK, 0)?;
    }
    Ok(())
}
