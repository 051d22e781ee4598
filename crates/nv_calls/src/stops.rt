//! What a stop leaves of a format, and what recoveries find that are stopped.

ghost use Rattle.std.specs.Prelude.{◌≡◌, ℕ, List};
ghost use Rattle.nv_region.specs.Region.{Region};
ghost use Rattle.nv_super.specs.declared.superblock.Super.{Super};
ghost use Rattle.nv_super.specs.declared.owners.Run.{Run};
ghost use Rattle.nv_super.specs.Super.{IsSuper};
ghost use Rattle.nv_super.specs.Layout.{Layout};
ghost use Rattle.nv_format.specs.Format.{FormatLeaves};
ghost use Rattle.nv_journal.specs.Undo.{undone};
ghost use Rattle.nv_scan.specs.declared.piece.Row.{Row as RowValue};
ghost use Rattle.nv_outcome.specs.Outcome.{Outcome, IsOutcome};
ghost use Rattle.nv_outcome.specs.Same.{SameOutcome, lasting_outcome};
ghost use Rattle.nv_mounted.specs.Mounted.{faultless_outcome};
ghost use Rattle.nv_calls.specs.Stopped.{LeavesFormat, RecoversTo};

/// A recovery that is stopped, and each after it, find the same rows and free lists, and no faults but those of pending
/// records. Since each leaves a region that rolls back to the same, so does any number of them.
pub fn stopped_recoveries_change_nothing()
    ensures { (left next : Region) (l : Layout) (rows : List RowValue) (free : List (List Run)) (o : Outcome) → RecoversTo left l rows free → IsSuper next l.sup → undone l.sup next ≡ undone l.sup left
        → IsOutcome next o → SameOutcome (faultless_outcome l rows free) (lasting_outcome o) }
{}

/// A stop within `format` leaves the region before it, of which recovery finds what it would have found, or one that each
/// recovery refuses for its magic, or the new file system.
pub fn stopped_format()
    ensures { (old left : Region) (s : Super) (time : ℕ) → FormatLeaves old s time left → LeavesFormat old s time left }
{}
