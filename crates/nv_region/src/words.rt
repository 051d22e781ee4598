//! Stores as callers see them: one word, and one word that is committed.

ghost use Rattle.std.specs.Prelude.{◌≡◌, ◌⊎◌, ◌+◌, ◌≤◌, ◌%◌, OnOk, OnErr, is_err};
ghost use Rattle.nv_region.specs.Region.{put, size};
ghost use Rattle.nv_region.specs.Stops.{Adds, LeavesOnly, NothingPending, One};
ghost use Rattle.nv_region.specs.Fuses.{KeepsFuse};
ghost use Rattle.nv_region.specs.Stored.{Stored, StoresOnly};

use crate::pmem::{Pmem, Stopped};

/// Stores a word at a byte address, a multiple of 8, and says what became of each word of the region.
///
/// Answers `Stopped` exactly where the fuse has burnt by the end of the call; the region is then as before.
pub fn store_word<P: Pmem>(memory: &mut P, at: u64, value: u64) -> Result<(), Stopped>
    requires aligned { at % 8 ≡ 0 }
    requires within { at + 8 ≤ size (P.region memory.old) }
    ensures stored { OnOk result (Stored (P.region memory.old) at value (P.region memory.new)) }
    ensures refused { OnErr result (P.region memory.new ≡ P.region memory.old) }
    ensures may_keep { Adds (One at value) (P.may_hold memory.old) (P.may_hold memory.new) }
    ensures stopped { is_err result ≡ (P.fuse memory.new).has_burnt }
    ensures keeps_fuse { KeepsFuse (λ limit. at + 8 ≤ limit) (P.fuse memory.old) (P.fuse memory.new) }
{
    let _length = memory.len();
    memory.store(at, value)
}

/// Stores a word at a byte address, a multiple of 8, and fences it: where nothing was pending, a stop at any moment of
/// the call leaves the region from before it or the region with the word.
///
/// Answers `Stopped` exactly where the fuse has burnt by the end of the call; the region is then one of these two.
pub fn commit_word<P: Pmem>(memory: &mut P, at: u64, value: u64) -> Result<(), Stopped>
    requires aligned { at % 8 ≡ 0 }
    requires within { at + 8 ≤ size (P.region memory.old) }
    ensures done { OnOk result (P.region memory.new ≡ put (P.region memory.old) at value) }
    ensures settled { OnOk result (NothingPending (P.region memory.new) (P.may_hold memory.new)) }
    ensures reads { (P.region memory.new ≡ P.region memory.old) ⊎ (P.region memory.new ≡ put (P.region memory.old) at value) }
    ensures wrote { StoresOnly (One at value) (P.region memory.old) (P.region memory.new) (P.may_hold memory.old) (P.may_hold memory.new) }
    ensures stopped { is_err result ≡ (P.fuse memory.new).has_burnt }
    ensures keeps_fuse { KeepsFuse (λ limit. at + 8 ≤ limit) (P.fuse memory.old) (P.fuse memory.new) }
    ensures any_stop { NothingPending (P.region memory.old) (P.may_hold memory.old)
        → LeavesOnly (P.region memory.new) (P.may_hold memory.new) (λ left. (left ≡ P.region memory.old) ⊎ (left ≡ put (P.region memory.old) at value)) }
{
    memory.store(at, value)?;
    memory.fence()
}
