//! The areas before the data blocks, as a region without any inode has them: the superblock's numbers, a journal for
//! each CPU with nothing pending, and tables of slots that are not in use.

ghost use Rattle.std.specs.Prelude.{◌≡◌, ◌≤◌, ◌<◌, ◌+◌, ◌*◌, ◌%◌, ℕ, IsTrue, OnOk, OnErr};
ghost use Rattle.nv_region.specs.Region.{HasBlocks, size, word};
ghost use Rattle.nv_region.specs.Stops.{One};
ghost use Rattle.nv_region.specs.Fuses.{KeepsFuse};
ghost use Rattle.nv_region.specs.Stored.{StoresOnly};
ghost use Rattle.nv_super.specs.Layout.{IsLayout, inode_limit, slot_address, system_blocks};
ghost use Rattle.nv_format.specs.Format.{AnyAt, IsPointer, IsValidWord, IsSystemWord, IsEmptySystem};

use nv_inode::nth_slot;
use nv_region::{Pmem, Stopped, store_word};
use nv_super::{BLOCK_SIZE, Super, write_super};

/// Stores the superblock's numbers but not the magic, empties the journals, and puts no slot in use. Nothing is fenced.
pub fn clear_system<P: Pmem>(memory: &mut P, sup: &Super) -> Result<(), Stopped>
    requires layout { IsLayout sup.now }
    requires blocks { HasBlocks (P.region memory.old) sup.now.blocks }
    ensures done { OnOk result (IsEmptySystem (P.region memory.new) sup.now) }
    ensures blocks { HasBlocks (P.region memory.new) sup.now.blocks }
    ensures wrote { StoresOnly (AnyAt (IsSystemWord sup.now)) (P.region memory.old) (P.region memory.new) (P.may_hold memory.old) (P.may_hold memory.new) }
    ensures stopped { OnErr result (IsTrue (P.fuse memory.new).has_burnt) }
    ensures keeps_fuse { KeepsFuse (λ limit. 4096 * system_blocks sup.now ≤ limit) (P.fuse memory.old) (P.fuse memory.new) }
{
    write_super(memory, sup)?;
    clear_journals(memory, sup)?;
    clear_tables(memory, sup)
}

/// Stores 0 in both pointers of each journal, so that it has nothing pending.
fn clear_journals<P: Pmem>(memory: &mut P, sup: &Super) -> Result<(), Stopped>
    requires layout { IsLayout sup.now }
    requires blocks { HasBlocks (P.region memory.old) sup.now.blocks }
    ensures empty { OnOk result ((cpu : ℕ) → cpu < sup.now.cpus → (word (P.region memory.new) (4096 * (1 + cpu)) ≡ 0) × (word (P.region memory.new) (4096 * (1 + cpu) + 8) ≡ 0)) }
    ensures blocks { HasBlocks (P.region memory.new) sup.now.blocks }
    ensures wrote { StoresOnly (AnyAt (IsPointer sup.now)) (P.region memory.old) (P.region memory.new) (P.may_hold memory.old) (P.may_hold memory.new) }
    ensures stopped { OnErr result (IsTrue (P.fuse memory.new).has_burnt) }
    ensures keeps_fuse { KeepsFuse (λ limit. 4096 * (1 + sup.now.cpus) ≤ limit) (P.fuse memory.old) (P.fuse memory.new) }
{
    for cpu in 0..sup.cpus {
        let dequeue = BLOCK_SIZE * (1 + cpu);
        clear_word(memory, dequeue)?;
        clear_word(memory, dequeue + 8)?;
    }
    Ok(())
}

/// Stores 0 in the valid word of each slot, that of number 0 too, which no inode has.
fn clear_tables<P: Pmem>(memory: &mut P, sup: &Super) -> Result<(), Stopped>
    requires layout { IsLayout sup.now }
    requires blocks { HasBlocks (P.region memory.old) sup.now.blocks }
    ensures unused { OnOk result ((i : ℕ) → i < inode_limit sup.now → word (P.region memory.new) (slot_address sup.now i) ≡ 0) }
    ensures blocks { HasBlocks (P.region memory.new) sup.now.blocks }
    ensures wrote { StoresOnly (AnyAt (IsValidWord sup.now)) (P.region memory.old) (P.region memory.new) (P.may_hold memory.old) (P.may_hold memory.new) }
    ensures stopped { OnErr result (IsTrue (P.fuse memory.new).has_burnt) }
    ensures keeps_fuse { KeepsFuse (λ limit. 4096 * system_blocks sup.now ≤ limit) (P.fuse memory.old) (P.fuse memory.new) }
{
    for place in 0..sup.inode_limit() {
        clear_word(memory, nth_slot(sup, place))?;
    }
    Ok(())
}

/// Stores 0 in a word.
fn clear_word<P: Pmem>(memory: &mut P, at: u64) -> Result<(), Stopped>
    requires aligned { at % 8 ≡ 0 }
    requires within { at + 8 ≤ size (P.region memory.old) }
    ensures cleared { OnOk result (word (P.region memory.new) at ≡ 0) }
    ensures size { size (P.region memory.new) ≡ size (P.region memory.old) }
    ensures wrote { StoresOnly (One at 0) (P.region memory.old) (P.region memory.new) (P.may_hold memory.old) (P.may_hold memory.new) }
    ensures stopped { OnErr result (IsTrue (P.fuse memory.new).has_burnt) }
    ensures keeps_fuse { KeepsFuse (λ limit. at + 8 ≤ limit) (P.fuse memory.old) (P.fuse memory.new) }
{
    store_word(memory, at, 0)
}
