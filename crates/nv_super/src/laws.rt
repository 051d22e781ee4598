//! Laws of the layout: what callers may rely on of slots and pools.

ghost use Rattle.std.specs.Prelude.{◌≡◌, ℕ, IsTrue};
ghost use Rattle.nv_super.specs.declared.superblock.Super.{Super as SuperValue};
ghost use Rattle.nv_super.specs.Layout.{IsLayout, SlotsApart, PoolsCover, fixed_layout, is_name_number, is_number};

/// Slots are whole, lie between the journals and the data blocks, and no two overlap.
pub fn slots_stand_apart()
    ensures { (s : SuperValue) → IsLayout s → SlotsApart (fixed_layout s) }
{}

/// Each data block is in the pool of exactly one CPU.
pub fn pools_cover_the_data_blocks()
    ensures { (s : SuperValue) → IsLayout s → PoolsCover s }
{}

/// A name may say each number that an inode of the fixed tables can have, and in version 1 no other.
pub fn version_1_names_are_numbers()
    ensures names { (s : SuperValue) (i : ℕ) → IsTrue (is_number s i) → IsTrue (is_name_number s i) }
    ensures version_1 { (s : SuperValue) (i : ℕ) → s.version ≡ 1 → is_name_number s i ≡ is_number s i }
{}
