//! What the parts of a recovery make up, and that a region has exactly one outcome.

ghost use Rattle.std.specs.Prelude.{◌≡◌, ◌↔◌, ℕ, List, []};
ghost use Rattle.nv_region.specs.Region.{Region};
ghost use Rattle.nv_super.specs.declared.superblock.Super.{Super};
ghost use Rattle.nv_super.specs.declared.superblock.SuperFault.{SuperFault};
ghost use Rattle.nv_super.specs.declared.owners.Owner.{Owner};
ghost use Rattle.nv_super.specs.declared.faults.Fault.{Fault};
ghost use Rattle.nv_super.specs.Layout.{Layout};
ghost use Rattle.nv_super.specs.Super.{IsSuper, IsRefused};
ghost use Rattle.nv_inode.specs.Chains.{chains_in, layout_of};
ghost use Rattle.nv_journal.specs.Undo.{undone};
ghost use Rattle.nv_alloc.specs.FreeValue.{FreeLists};
ghost use Rattle.nv_scan.specs.declared.piece.Row.{Row};
ghost use Rattle.nv_scan.specs.declared.piece.Piece.{Piece};
ghost use Rattle.nv_cross_check.specs.Cross.{IsCrossFaultIn};
ghost use Rattle.nv_outcome.specs.Outcome.{AreRows, IsCrossFault, Outcome, IsOutcome};
ghost use Rattle.nv_outcome.specs.Same.{SameOutcome, ShowsAgain, lasting_outcome};
ghost use Rattle.nv_outcome.specs.Shared.{SharesAll};
ghost use Rattle.nv_outcome.specs.Metadata.{SameMetadata};
ghost use Rattle.nv_outcome.specs.Parts.{AreParts, rows_in};

/// Two outcomes of a region are the same, where an index is compared by what each page and each name stands for. So
/// what a recovery's answer shows is a function of the region.
pub fn one_outcome()
    ensures { (region : Region) (a b : Outcome) → IsOutcome region a → IsOutcome region b → SameOutcome a b }
{}

/// Each region has an outcome where its superblock is accepted, and none where it is refused.
pub fn each_region_has_an_outcome()
    ensures some { (region : Region) (s : Super) → IsSuper region s → (o : Outcome) × (o.sup ≡ s) × IsOutcome region o }
    ensures none { (region : Region) (fault : SuperFault) (o : Outcome) → IsRefused region fault → IsOutcome region o → ⊥ }
{}

/// The pieces of all inodes, the sets of the blocks that they claim, and what is made of these are the outcome.
pub fn parts_make_the_outcome()
    ensures { (region : Region) (s : Super) (pieces : List Piece) (claims : List (ℕ × Owner)) (first second : List ℕ) (free : FreeLists) (doubled : List (ℕ × Owner)) (journal cross found : List Fault)
        → IsSuper region s → AreParts region s pieces claims first second free doubled journal cross found
        → IsOutcome region record { sup = s; tables = chains_in s (undone s region); rows = rows_in pieces; free = free.pools; doubled = doubled; faults = found } }
{}

/// Where an outcome has no faults, each data block stands in exactly one free list or has exactly one owner.
pub fn each_block_once()
    ensures { (region : Region) (o : Outcome) → IsOutcome region o → o.faults ≡ [] → SharesAll (undone o.sup region) (layout_of o.sup (undone o.sup region)) o.free }
{}

/// What is wrong between the rows of a region is what is wrong between its inodes.
pub fn cross_faults_are()
    ensures { (region : Region) (l : Layout) (rows : List Row) (f : Fault) → AreRows region l rows → (IsCrossFaultIn rows f ↔ IsCrossFault region l f) }
{}

/// The outcome of a region that was rolled back shows the same as that of the region before, but for the faults of
/// pending records, of which it has none.
pub fn recovered_again()
    ensures { (region : Region) (a b : Outcome) → IsOutcome region a → IsOutcome (undone a.sup region) b → ShowsAgain a b }
{}

/// A region that was rolled back has an outcome: that of before, without the faults of pending records. And it is its own undone region.
pub fn rolled_back_outcome()
    ensures outcome { (region : Region) (o : Outcome) → IsOutcome region o → IsOutcome (undone o.sup region) (lasting_outcome o) }
    ensures same { (region : Region) (o : Outcome) → IsOutcome region o → undone o.sup (undone o.sup region) ≡ undone o.sup region }
{}

/// The outcome of a region depends on its superblock, journals and tables with their chains and on the pages of its logs up to
/// their tails, and on nothing else: a region of the same length with the same words there has the same outcome.
pub fn outcome_reads_metadata_alone()
    ensures { (region other : Region) (o : Outcome) → SameMetadata o.sup region other → IsOutcome region o → IsOutcome other o }
{}
