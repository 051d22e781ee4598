//! Slots read and stored.

ghost use Rattle.std.specs.Prelude.{◌≡◌, ◌<◌, ◌≤◌, ◌+◌, ◌%◌, ◌^◌, IsTrue, OnOk, is_err};
ghost use Rattle.nv_region.specs.Region.{HasBlocks, size, put};
ghost use Rattle.nv_region.specs.Stops.{One};
ghost use Rattle.nv_region.specs.Fuses.{KeepsFuse};
ghost use Rattle.nv_region.specs.Stored.{StoresOnly, Within};
ghost use Rattle.nv_inode.specs.Slot.{slot_at, slot_by_number, with_slot};

use crate::chains::Tables;
use crate::slot::{CREATED, HEAD, KIND, Slot, TAIL, VALID};
use nv_super::{Pmem, Stopped};

/// Reads the slot of an inode, in use or not, if its number has one.
pub fn read_slot<P: Pmem>(memory: &P, tables: &Tables, inode: u64) -> Option<Slot>
    requires { HasBlocks (P.region memory.now) tables.now.layout.sup.blocks }
    ensures { result ≡ slot_by_number (P.region memory.now) tables.now.layout inode }
{
    let at = tables.slot_address(inode)?;
    Some(read_slot_at(memory, at))
}

/// Reads the slot at a byte address, in use or not.
pub fn read_slot_at<P: Pmem>(memory: &P, at: u64) -> Slot
    requires whole { at % 8 ≡ 0 }
    requires inside { at + 40 ≤ size (P.region memory.now) }
    requires small { at + 40 < 2 ^ 64 }
    ensures { result ≡ slot_at (P.region memory.now) at }
{
    Slot {
        valid: memory.load(at + VALID),
        kind: memory.load(at + KIND),
        head: memory.load(at + HEAD),
        tail: memory.load(at + TAIL),
        created: memory.load(at + CREATED),
    }
}

/// Stores the kind, head, tail and creation time of the slot at a byte address, a multiple of 8: one row, without a
/// fence. The valid word stays: it is what puts an inode in use, so its caller stores it by itself.
///
/// Errors: `Stopped` exactly where the fuse has burnt by the end of the call; some of the words may be stored then.
pub fn store_slot<P: Pmem>(memory: &mut P, at: u64, slot: &Slot) -> Result<(), Stopped>
    requires whole { at % 8 ≡ 0 }
    requires inside { at + 40 ≤ size (P.region memory.old) }
    ensures done { OnOk result (P.region memory.new ≡ with_slot (P.region memory.old) at slot.now) }
    ensures wrote { StoresOnly (Within (at + 8) 32) (P.region memory.old) (P.region memory.new) (P.may_hold memory.old) (P.may_hold memory.new) }
    ensures stopped { is_err result ≡ (P.fuse memory.new).has_burnt }
    ensures keeps_fuse { KeepsFuse (λ limit. at + 40 ≤ limit) (P.fuse memory.old) (P.fuse memory.new) }
{
    // The region's length is a u64, and so is each address up to it.
    let _length = memory.len();
    memory.store_words(at + KIND, &[slot.kind, slot.head, slot.tail, slot.created])
}

/// Stores one word at a byte address, a multiple of 8, without a fence.
///
/// Errors: `Stopped` exactly where the fuse has burnt by the end of the call.
pub fn set_word<P: Pmem>(memory: &mut P, at: u64, value: u64) -> Result<(), Stopped>
    requires aligned { at % 8 ≡ 0 }
    requires within { at + 8 ≤ size (P.region memory.old) }
    ensures done { OnOk result (P.region memory.new ≡ put (P.region memory.old) at value) }
    ensures wrote { StoresOnly (One at value) (P.region memory.old) (P.region memory.new) (P.may_hold memory.old) (P.may_hold memory.new) }
    ensures stopped { is_err result ≡ (P.fuse memory.new).has_burnt }
    ensures keeps_fuse { KeepsFuse (λ limit. at + 8 ≤ limit) (P.fuse memory.old) (P.fuse memory.new) }
{
    memory.store(at, value)
}
