//! What the metadata of a region say of it.

ghost use Rattle.std.specs.Prelude.{◌≡◌};
ghost use Rattle.nv_region.specs.Region.{Region};
ghost use Rattle.nv_super.specs.declared.superblock.Super.{Super};
ghost use Rattle.nv_super.specs.Super.{IsSuper};
ghost use Rattle.nv_outcome.specs.Metadata.{SameMetadata};
ghost use Rattle.nv_outcome.specs.Outcome.{Outcome, IsOutcome};
ghost use Rattle.nv_metadata.specs.Gathered.{IsGathered};

/// Each page of each log is a block that the links lead to, or all blocks are gathered: so what is gathered has all metadata of
/// a region.
pub fn a_gathered_region_has_the_metadata()
    ensures { (s : Super) (whole gathered : Region) → IsSuper whole s → IsGathered s whole gathered → SameMetadata s whole gathered }
{}

/// A region has the same outcome as what is gathered of it.
pub fn a_gathered_region_has_the_same_outcome()
    ensures gathered { (whole gathered : Region) (o : Outcome) → IsGathered o.sup whole gathered → IsOutcome whole o → IsOutcome gathered o }
    ensures whole { (s : Super) (whole gathered : Region) (o : Outcome) → IsSuper whole s → IsGathered s whole gathered → IsOutcome gathered o → IsOutcome whole o }
    ensures superblock { (s : Super) (whole gathered : Region) → IsSuper whole s → IsGathered s whole gathered → IsSuper gathered s }
{}
