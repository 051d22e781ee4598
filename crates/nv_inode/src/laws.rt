//! Laws of the tables' chains.

ghost use Rattle.std.specs.Prelude.{◌≡◌, ◌≢◌, ◌⊎◌, ◌↔◌, length, ◌≤◌, ◌<◌, ◌+◌, ◌*◌, ◌/◌, ◌%◌, ◌++◌, ◌∷◌, ℕ, IsTrue, false, eqb, List, [], None, Some, set, slice_get};
ghost use Rattle.std.specs.List.{Contains, list_any};
ghost use Rattle.nv_region.specs.Region.{Region, word};
ghost use Rattle.nv_super.specs.declared.superblock.Super.{Super};
ghost use Rattle.nv_super.specs.Layout.{IsLayout, Layout, chain_of, fixed_layout, inode_limit, is_name_number, slot_of, system_blocks};
ghost use Rattle.nv_region.specs.Stops.{IsMixed};
ghost use Rattle.nv_region.specs.Stored.{Within};
ghost use Rattle.nv_inode.specs.Growing.{CanLink, IsLinked, with_block};
ghost use Rattle.nv_super.specs.Super.{IsSuper};
ghost use Rattle.nv_inode.specs.Upgraded.{IsUpgraded, NoLinks, upgraded, upgraded_layout};
ghost use Rattle.nv_inode.specs.Permitted.{is_permitted, is_permitted_by};
ghost use Rattle.nv_inode.specs.SlotBlocks.{IsIn, slot_blocks};
ghost use Rattle.nv_inode.specs.Numbers.{has_slot, next_number, number_end, sizes_of, table_size};
ghost use Rattle.nv_inode.specs.declared.blocks.SlotBlock.{SlotBlock as SlotBlockValue};
ghost use Rattle.nv_inode.specs.Chains.{IsChain, IsLaid, IsLink, SameLinks, chain_faults, chain_in, first_link, layout_of, link_behind};

/// A CPU's chain has the blocks to which its links lead, and these alone.
pub fn one_chain()
    ensures is { (s : Super) (R : Region) (cpu : ℕ) → s.version ≡ 2 → IsChain R s [] (first_link cpu) (chain_in s R cpu) }
    ensures only { (s : Super) (R : Region) (cpu : ℕ) (blocks : List ℕ) → s.version ≡ 2 → IsChain R s [] (first_link cpu) blocks → blocks ≡ chain_in s R cpu }
{}

/// The chains of any region lay out slots: they have data blocks alone, and version 1 has none.
pub fn chains_are_laid()
    ensures { (s : Super) (R : Region) → IsLayout s → IsLaid (layout_of s R) }
{}

/// Each slot of a block of slots is that of the inode with its number, but for number 0.
pub fn slots_of_blocks()
    ensures { (l : Layout) (x : SlotBlockValue) (j i : ℕ) → IsLaid l → Contains (slot_blocks l) x → IsIn l x j i → i ≢ 0 → slot_of l i ≡ Some (x.start + 128 * j) }
{}

/// And each number that has a slot has it in such a block.
pub fn blocks_have_all_slots()
    ensures { (l : Layout) (i a : ℕ) → IsLaid l → slot_of l i ≡ Some a → (x : SlotBlockValue) × (j : ℕ) × Contains (slot_blocks l) x × IsIn l x j i × (a ≡ x.start + 128 * j) }
{}

/// No number has slots in two of them.
pub fn slots_are_in_one_block()
    ensures { (l : Layout) (t u j k i : ℕ) (x y : SlotBlockValue) → IsLaid l → slice_get (slot_blocks l) t ≡ Some x → slice_get (slot_blocks l) u ≡ Some y → IsIn l x j i → IsIn l y k i → t ≡ u }
{}

/// A chain to whose last link a data block was put that isn't among its blocks, and whose own link is 0, has it
/// behind them.
pub fn chains_grow()
    ensures { (s : Super) (R Q : Region) (cpu b : ℕ) → s.version ≡ 2 → SameLinks R Q (first_link cpu) (chain_in s R cpu)
        → word Q (link_behind (first_link cpu) (chain_in s R cpu)) ≡ 4096 * b → word Q (4096 * b) ≡ 0
        → system_blocks s ≤ b → b < s.blocks → list_any (eqb b) (chain_in s R cpu) ≡ false → chain_in s Q cpu ≡ chain_in s R cpu ++ b ∷ [] }
{}

/// Where a block was linked to the end of a CPU's chain, the layout has it there and is the same else. Before the
/// link, while words of the block alone have changed, it is the same.
pub fn linked_blocks_are_tables()
    ensures linked { (s : Super) (R Q : Region) (cpu block : ℕ) → CanLink s R cpu block → IsLinked R (link_behind (first_link cpu) (chain_in s R cpu)) block Q
        → layout_of s Q ≡ with_block (layout_of s R) cpu block }
    ensures before { (s : Super) (R left : Region) (cpu block : ℕ) → CanLink s R cpu block → IsMixed R (Within (4096 * block) 4096) left → layout_of s left ≡ layout_of s R }
{}

/// The slots stay where they are when a block is linked, and no new one is in use.
pub fn linked_slots_are_unused()
    ensures stay { (l : Layout) (c b i a : ℕ) → c < length l.chains → slot_of l i ≡ Some a → slot_of (with_block l c b) i ≡ Some a }
    ensures unused { (l : Layout) (R Q : Region) (link c b i a : ℕ) → c < length l.chains → IsLinked R link b Q → slot_of (with_block l c b) i ≡ Some a → (slot_of l i ≡ Some a) ⊎ (word Q a ≡ 0) }
{}

/// With one block more at the end of a CPU's chain, a layout is still one that a region can have. The CPU's table has 31
/// slots more, the first of which is that of its first number that had none. The chain's last link isn't in the block.
pub fn tables_grow()
    ensures laid { (l : Layout) (c b : ℕ) → IsLaid l → l.sup.version ≡ 2 → c < l.sup.cpus → system_blocks l.sup ≤ b → b < l.sup.blocks
        → list_any (eqb b) (chain_of l c) ≡ false → IsLaid (with_block l c b) }
    ensures sizes { (l : Layout) (c b : ℕ) → IsLaid l → c < l.sup.cpus → sizes_of (with_block l c b) ≡ set (sizes_of l) c (table_size l c + 31) }
    ensures before { (l : Layout) (c : ℕ) → IsLaid l → c < l.sup.cpus → slot_of l (next_number l c) ≡ None }
    ensures slot { (l : Layout) (c b : ℕ) → IsLaid l → c < l.sup.cpus → slot_of (with_block l c b) (next_number l c) ≡ Some (4096 * b + 128) }
    ensures apart { (l : Layout) (c b : ℕ) → c < l.sup.cpus → system_blocks l.sup ≤ b → list_any (eqb b) (chain_of l c) ≡ false
        → (link_behind (first_link c) (chain_of l c) < 4096 * b) ⊎ (4096 * b + 4096 ≤ link_behind (first_link c) (chain_of l c)) }
{}

/// A name may say each number that has a slot.
pub fn slots_have_names()
    ensures { (l : Layout) (i a : ℕ) → IsLaid l → slot_of l i ≡ Some a → IsTrue (is_name_number l.sup i) }
{}

/// A number above 0 has a slot where its place in its CPU's table is one that the table has. A CPU's fixed table has 32
/// numbers for each of its blocks.
pub fn numbers_with_slots()
    ensures have { (l : Layout) (i : ℕ) → i ≢ 0 → (IsTrue (has_slot l i) ↔ (i / l.sup.cpus < table_size l (i % l.sup.cpus))) }
    ensures fixed { (s : Super) (cpu : ℕ) → table_size (fixed_layout s) cpu ≡ 32 * s.table_blocks }
{}

/// Each number that has a slot is below the end of the numbers, which in fixed tables is their limit.
pub fn numbers_have_an_end()
    ensures below { (l : Layout) (i a : ℕ) → IsLaid l → slot_of l i ≡ Some a → i < number_end l }
    ensures fixed { (s : Super) → number_end (fixed_layout s) ≡ inode_limit s }
{}

/// A number that a name may say stays one where the version becomes 2.
pub fn upgraded_names_stay()
    ensures { (s : Super) (i : ℕ) → s.version ≡ 1 → IsTrue (is_name_number s i) → IsTrue (is_name_number (upgraded s) i) }
{}

/// In version 1 a region has the layout of fixed tables, whatever its words say: no chain and no fault of one, and a
/// journal may name the same words. That layout is one that a region can have.
pub fn version_1_has_fixed_tables()
    ensures layout { (s : Super) (R : Region) → s.version ≡ 1 → layout_of s R ≡ fixed_layout s }
    ensures faults { (s : Super) (R : Region) → s.version ≡ 1 → chain_faults s R ≡ [] }
    ensures laid { (s : Super) → IsLayout s → IsLaid (fixed_layout s) }
    ensures permitted { (s : Super) (at : ℕ) → is_permitted_by (fixed_layout s) at ≡ is_permitted s at }
{}

/// No word in which a link can stand is one that a journal may name.
pub fn no_link_is_permitted()
    ensures { (l : Layout) (at : ℕ) → IsLink l.sup at → is_permitted_by l at ≡ false }
{}

/// A region that was upgraded has the same superblock but for its version, which is 2, empty chains without faults,
/// and all slots where they were. Before that it is one of version 1.
pub fn upgraded_regions_are_the_same()
    ensures before { (s : Super) (R left : Region) → IsSuper R s → IsMixed R (NoLinks s.cpus) left → IsSuper left s }
    ensures superblock { (s : Super) (R Q : Region) → IsSuper R s → IsUpgraded R s.cpus Q → IsSuper Q (upgraded s) }
    ensures layout { (s : Super) (R Q : Region) → s.version ≡ 1 → IsUpgraded R s.cpus Q → layout_of (upgraded s) Q ≡ upgraded_layout (layout_of s R) }
    ensures faults { (s : Super) (R Q : Region) → IsUpgraded R s.cpus Q → chain_faults (upgraded s) Q ≡ [] }
    ensures chains { (s : Super) (R Q : Region) (c : ℕ) → IsUpgraded R s.cpus Q → chain_of (layout_of (upgraded s) Q) c ≡ [] }
    ensures slots { (s : Super) (R Q : Region) (i : ℕ) → IsLayout s → s.version ≡ 1 → IsUpgraded R s.cpus Q → slot_of (layout_of (upgraded s) Q) i ≡ slot_of (layout_of s R) i }
{}
