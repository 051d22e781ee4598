//! The tables of a region that is mounted.

ghost use Rattle.std.specs.Prelude.{◌≡◌, ◌≢◌, ◌⊎◌, ◌↔◌, ◌<◌, ◌*◌, ℕ, List, Some, length};
ghost use Rattle.nv_region.specs.Region.{Region, size};
ghost use Rattle.nv_region.specs.Stops.{IsMixed};
ghost use Rattle.nv_region.specs.Stored.{Within};
ghost use Rattle.nv_super.specs.declared.superblock.Super.{Super};
ghost use Rattle.nv_super.specs.Layout.{Layout, chain_of, fixed_layout};
ghost use Rattle.nv_super.specs.Super.{IsSuper};
ghost use Rattle.nv_inode.specs.Chains.{IsLaid, first_link, link_behind};
ghost use Rattle.nv_inode.specs.Growing.{CanLink, IsLinked, LinksOrNot, with_block};
ghost use Rattle.nv_super.specs.declared.owners.Run.{Run};
ghost use Rattle.nv_scan.specs.declared.piece.Row.{Row as RowValue};
ghost use Rattle.nv_mounted.specs.Held.{Held, Store};
ghost use Rattle.nv_mounted.specs.Blocks.{ArePoolRuns, IsUnowned};
ghost use Rattle.nv_mounted.specs.Bytes.{byte_of};
ghost use Rattle.nv_mounted.specs.Front.{SameFront};
ghost use Rattle.nv_mounted.specs.Slots.{SlotsClear};
ghost use Rattle.nv_mounted.specs.Mounted.{HasTables, IsMounted, KeepsRow, ShowsSound};

/// The tables of a region are laid out as a region can have them. A region with the same superblock, journals and links of
/// chains has the same, and where it is sound, no free block, no page of a log and no block of a file holds a slot.
pub fn tables_stay()
    ensures laid { (R : Region) (l : Layout) → HasTables R l → IsLaid l }
    ensures same { (R S : Region) (l : Layout) → SameFront l R S → HasTables R l → HasTables S l }
    ensures clear { (R : Region) (l : Layout) (held : Store) → ShowsSound R l held → SlotsClear l held }
{}

/// In version 1 a region has the fixed tables, whatever its words say, and no others.
pub fn version_1_has_no_chains()
    ensures has { (R : Region) (s : Super) → IsSuper R s → s.version ≡ 1 → HasTables R (fixed_layout s) }
    ensures only { (R : Region) (l : Layout) → HasTables R l → l.sup.version ≡ 1 → l ≡ fixed_layout l.sup }
{}

/// A free block can be linked to the end of a CPU's chain. While its words alone have changed, the region is sound as before.
/// Once it is blank and linked, the region is sound by the layout with it, and shows what it showed. The free blocks are those
/// of before but for it.
pub fn chain_grows()
    ensures can { (R : Region) (l : Layout) (held : Store) (cpu block : ℕ) → ShowsSound R l held → l.sup.version ≡ 2 → cpu < l.sup.cpus → IsUnowned l held block → CanLink l.sup R cpu block }
    ensures before { (R left : Region) (l : Layout) (held : Store) (block : ℕ) → ShowsSound R l held → IsUnowned l held block → IsMixed R (Within (4096 * block) 4096) left → ShowsSound left l held }
    ensures grown { (R Q : Region) (l : Layout) (held : Store) (cpu block : ℕ) → ShowsSound R l held → l.sup.version ≡ 2 → cpu < l.sup.cpus → IsUnowned l held block → size Q ≡ size R
        → IsLinked R (link_behind (first_link cpu) (chain_of l cpu)) block Q → ShowsSound Q (with_block l cpu block) held }
    ensures free { (l : Layout) (held : Store) (cpu block : ℕ) → cpu < length l.chains → (b : ℕ) → IsUnowned (with_block l cpu block) held b ↔ (IsUnowned l held b × (b ≢ block)) }
{}

/// A mounted region stays so once a free block is blank and linked to a CPU's chain, with free lists that are those of before
/// without the block. Its rows say what they said, and each byte of a file is where it was. What a stop leaves is sound by
/// the layout of before, or by that with the block.
pub fn mounted_tables_grow()
    ensures mounted { (R Q : Region) (l : Layout) (held : Store) (rows : List RowValue) (free without : List (List Run)) (cpu block : ℕ)
        → IsMounted R l held rows free → l.sup.version ≡ 2 → cpu < l.sup.cpus
        → IsUnowned l held block → size Q ≡ size R → IsLinked R (link_behind (first_link cpu) (chain_of l cpu)) block Q → ArePoolRuns l (λ b. IsUnowned l held b × (b ≢ block)) without
        → IsMounted Q (with_block l cpu block) held rows without }
    ensures row { (l : Layout) (cpu block : ℕ) (h : Held) (row : RowValue) → KeepsRow l h row → KeepsRow (with_block l cpu block) h row }
    ensures bytes { (R Q : Region) (l : Layout) (held : Store) (cpu block : ℕ) → ShowsSound R l held → l.sup.version ≡ 2 → cpu < l.sup.cpus → IsUnowned l held block → size Q ≡ size R
        → IsLinked R (link_behind (first_link cpu) (chain_of l cpu)) block Q → (i : ℕ) (h : Held) → held i ≡ Some h → (x : ℕ) → byte_of Q (with_block l cpu block) h x ≡ byte_of R l h x }
    ensures stopped { (R left : Region) (l : Layout) (held : Store) (cpu block : ℕ) → ShowsSound R l held → l.sup.version ≡ 2 → cpu < l.sup.cpus → IsUnowned l held block → size left ≡ size R
        → LinksOrNot R (link_behind (first_link cpu) (chain_of l cpu)) block left → ShowsSound left l held ⊎ ShowsSound left (with_block l cpu block) held }
{}
