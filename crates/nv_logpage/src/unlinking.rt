//! A page taken out of a log by one store.

ghost use Rattle.std.specs.Prelude.{◌≡◌, ◌≢◌, ◌⊎◌, ◌+◌, ◌/◌, ◌%◌, ◌<◌, ◌≤◌, List, ℕ, length, OnOk, None, IsTrue};
ghost use Rattle.std.specs.List.{Contains};
ghost use Rattle.nv_region.specs.Region.{put, size};
ghost use Rattle.nv_region.specs.Stops.{LeavesOnly, NothingPending, One};
ghost use Rattle.nv_region.specs.Storing.{StoresAndFences};
ghost use Rattle.nv_super.specs.declared.superblock.Super.{Super};
ghost use Rattle.nv_super.specs.Layout.{is_page_start};
ghost use Rattle.nv_logpage.specs.declared.found.Placed.{Placed};
ghost use Rattle.nv_logpage.specs.Append.{EndBy};
ghost use Rattle.nv_logpage.specs.Reads.{Reads};
ghost use Rattle.nv_logpage.specs.Unlinked.{Without, head_without, page_behind, word_to};

use nv_inode::LINK;
use nv_region::{Pmem, Stopped, commit_word};
use nv_super::BLOCK_SIZE;

/// Takes the page of this place out of the log that has these pages, by one store, which it fences: the page behind it follows
/// on the page before it, or, behind the first page, the log begins there. The head word stands at a byte address.
///
/// It takes no memory. Answers `Stopped` exactly where the fuse has burnt by the end of the call. A stop at any moment of the
/// call leaves the region as it was or with that one word.
pub fn unlink_page<P: Pmem>(
    memory: &mut P,
    head_at: u64,
    pages: &[u64],
    place: usize,
) -> Result<(), Stopped>
    requires not_last { place + 1 < length pages.now }
    requires head { head_at % 8 ≡ 0 }
    requires head_inside { head_at + 8 ≤ size (P.region memory.old) }
    requires inside { EndBy pages.now (size (P.region memory.old)) }
    // The log is read without the page and its entries.
    ensures reads { (s : Super) (head tail : ℕ) (es : List Placed) → IsTrue (is_page_start s head) → ((b : ℕ) → Contains pages.now b → head_at / 4096 ≢ b)
        → Reads (P.region memory.old) s head tail es pages.now None
        → OnOk result (Without (P.region memory.new) s (head_without head pages.now place) tail es pages.now place) }
    ensures done { OnOk result (P.region memory.new ≡ put (P.region memory.old) (word_to head_at pages.now place) (page_behind pages.now place)) }
    ensures kept { StoresAndFences P.region P.may_hold P.fuse (One (word_to head_at pages.now place) (page_behind pages.now place))
        (λ limit. EndBy pages.now limit × (head_at + 8 ≤ limit)) memory.old memory.new result }
    ensures any_stop { NothingPending (P.region memory.old) (P.may_hold memory.old)
        → LeavesOnly (P.region memory.new) (P.may_hold memory.new) (λ left. (left ≡ P.region memory.old)
        ⊎ (left ≡ put (P.region memory.old) (word_to head_at pages.now place) (page_behind pages.now place))) }
{
    // The region's length is a u64, and so is each address up to it.
    let _end = memory.len();
    let next = pages[place + 1] * BLOCK_SIZE;
    if place == 0 {
        commit_word(memory, head_at, next)
    } else {
        commit_word(memory, pages[place - 1] * BLOCK_SIZE + LINK, next)
    }
}
