//! What a store changes of what is shown: nothing where the word is loose, one inode where it is a slot's.

ghost use Rattle.std.specs.Prelude.{◌≡◌, ◌+◌, ◌≤◌, ℕ, true, List, Option, Some, None};
ghost use Rattle.std.specs.List.{Contains};
ghost use Rattle.nv_region.specs.Region.{Region};
ghost use Rattle.nv_region.specs.Stops.{IsMixed};
ghost use Rattle.nv_region.specs.Stored.{Stored, SameOutside};
ghost use Rattle.nv_super.specs.declared.superblock.Super.{Super};
ghost use Rattle.nv_super.specs.Layout.{IsLayout, Layout, fixed_layout, slot_of, system_blocks};
ghost use Rattle.nv_inode.specs.Chains.{IsLaid};
ghost use Rattle.nv_inode.specs.Slot.{is_right_log};
ghost use Rattle.nv_logpage.specs.declared.found.Placed.{Placed};
ghost use Rattle.nv_logpage.specs.Reads.{Reads};
ghost use Rattle.nv_mounted.specs.Held.{Held, Store, Shows, ShowsSlot, with_inode};
ghost use Rattle.nv_mounted.specs.Blocks.{NoneDoubled};
ghost use Rattle.nv_mounted.specs.Slots.{HasNoSlot, HaveNoSlots, IsInNoChain, SlotsClear, SlotsStand};
ghost use Rattle.nv_mounted.specs.Mounted.{ShowsSound, IsFaultless};
ghost use Rattle.nv_mounted.specs.Front.{SameFront, SameBehind};
ghost use Rattle.nv_mounted.specs.Loose.{Loose, IsReady};

/// Of the data blocks those of chains alone hold slots. So where no block has two owners, no free block, no page of a log and
/// no block of a file holds one.
pub fn slots_are_clear()
    ensures clear { (R : Region) (l : Layout) (held : Store) → IsLaid l → NoneDoubled l held → Shows R l held → SlotsClear l held }
    ensures blocks { (l : Layout) (b : ℕ) → IsLaid l → system_blocks l.sup ≤ b → IsInNoChain l b → HasNoSlot l b }
    ensures pages { (R : Region) (l : Layout) (head tail : ℕ) (entries : List Placed) (pages : List ℕ) → IsLaid l → is_right_log l.sup head tail ≡ true
        → Reads R l.sup head tail entries pages None → ((b : ℕ) → Contains pages b → IsInNoChain l b) → HaveNoSlots l pages }
    // The fixed layout has no chains, so no data block holds a slot, whoever owns it.
    ensures chainless { (s : Super) (b : ℕ) → IsInNoChain (fixed_layout s) b }
    ensures fixed { (R : Region) (s : Super) (held : Store) → IsLayout s → Shows R (fixed_layout s) held → SlotsClear (fixed_layout s) held }
{}

/// What is stored in loose words changes nothing that is shown.
pub fn loose_words_are_not_shown()
    ensures { (l : Layout) (held : Store) (R left : Region) → SlotsClear l held → NoneDoubled l held → Shows R l held → IsMixed R (Loose l held) left → Shows left l held }
{}

/// What is stored in loose words changes nothing that is shown, and nothing is wrong with the region.
pub fn loose_words_leave_it_sound()
    ensures { (R left : Region) (l : Layout) (held : Store) → ShowsSound R l held → IsMixed R (Loose l held) left → ShowsSound left l held }
{}

/// Where a slot alone has changed and shows this, the region shows what it showed, with this in its inode's place.
pub fn one_slot_changes()
    ensures { (l : Layout) (held : Store) (R S : Region) (i a : ℕ) (o : Option Held) → SlotsClear l held → slot_of l i ≡ Some a → SameOutside R a 128 S → Shows R l held → ShowsSlot S l a o
        → Shows S l (with_inode held i o) }
{}

/// Once its tail has moved, the log of an inode is what is read up to there.
pub fn tail_moves()
    ensures { (l : Layout) (held : Store) (R S : Region) (i a new : ℕ) (h : Held) (entries : List Placed) (pages : List ℕ) → SlotsClear l held → slot_of l i ≡ Some a → held i ≡ Some h
        → is_right_log l.sup h.head new ≡ true → Reads R l.sup h.head new entries pages None → HaveNoSlots l pages
        → Stored R (a + 24) new S → Shows R l held → Shows S l (with_inode held i (Some (record h { tail = new; entries = entries; pages = pages }))) }
{}

/// Once its valid word is 0, an inode is gone.
pub fn inode_goes()
    ensures { (l : Layout) (held : Store) (R S : Region) (i a : ℕ) → SlotsClear l held → slot_of l i ≡ Some a → Stored R a 0 S → Shows R l held → Shows S l (with_inode held i None) }
{}

/// Once the valid word of a slot that is ready is 1, the inode is there.
pub fn inode_comes()
    ensures { (l : Layout) (held : Store) (R S : Region) (i a : ℕ) (h : Held) → SlotsClear l held → slot_of l i ≡ Some a → IsReady R l a h → HaveNoSlots l h.pages
        → Stored R a 1 S → Shows R l held → Shows S l (with_inode held i (Some h)) }
{}

/// The superblock, the journals and the links of chains are as before where a slot alone has changed.
pub fn slots_lie_behind()
    ensures { (l : Layout) (R S : Region) (i a : ℕ) → SlotsStand l → slot_of l i ≡ Some a → SameOutside R a 128 S → SameFront l R S }
{}

/// A region with the same tables and the same data blocks shows the same.
pub fn shown_behind()
    ensures { (l : Layout) (held : Store) (R S : Region) → SlotsStand l → SameBehind l.sup.cpus R S → Shows R l held → Shows S l held }
{}

/// What a region shows that has the superblock, the journals and the links of chains of a sound one is sound, where nothing
/// is wrong with it.
pub fn sound_moves()
    ensures { (R S : Region) (l : Layout) (held after : Store) → ShowsSound R l held → SameFront l R S → Shows S l after → IsFaultless l after → ShowsSound S l after }
{}
