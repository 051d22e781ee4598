//! What recovery finds once a stop has left a region, by what rolling its journals back shows.

ghost use Rattle.std.specs.Prelude.{◌≡◌, List, []};
ghost use Rattle.nv_region.specs.Region.{Region};
ghost use Rattle.nv_region.specs.Stops.{IsMixed};
ghost use Rattle.nv_super.specs.declared.owners.Run.{Run};
ghost use Rattle.nv_super.specs.Layout.{Layout};
ghost use Rattle.nv_super.specs.Super.{IsSuper};
ghost use Rattle.nv_journal.specs.Undo.{undone};
ghost use Rattle.nv_scan.specs.declared.piece.Row.{Row};
ghost use Rattle.nv_outcome.specs.Outcome.{Outcome, IsOutcome};
ghost use Rattle.nv_outcome.specs.Same.{SameOutcome, lasting_outcome};
ghost use Rattle.nv_mounted.specs.Held.{Store};
ghost use Rattle.nv_mounted.specs.Loose.{Loose};
ghost use Rattle.nv_mounted.specs.Mounted.{Keeps, ShowsSound, faultless_outcome};
ghost use Rattle.nv_commit.specs.Stopped.{CanRecover, RollsBackTo};

/// Whatever the outcome is of a region that a stop has left: it has no faults, and its rows and free lists are those of what
/// is shown once the journals are rolled back. So it is the one outcome that such rows and free lists make.
pub fn stopped_outcome()
    ensures kept { (left : Region) (l : Layout) (after : Store) (o : Outcome) → CanRecover l.sup left → ShowsSound (undone l.sup left) l after → IsOutcome left o
        → (o.faults ≡ []) × Keeps l after o.rows o.free }
    ensures same { (left : Region) (l : Layout) (after : Store) (o : Outcome) (rows : List Row) (free : List (List Run)) → CanRecover l.sup left → ShowsSound (undone l.sup left) l after
        → IsOutcome left o → Keeps l after rows free → SameOutcome (faultless_outcome l rows free) o }
{}

/// Where a sound region is left with other values in loose words, recovery finds what it would have found: it reads none of
/// these words.
pub fn loose_words_are_not_recovered()
    ensures { (R left : Region) (l : Layout) (held : Store) → ShowsSound R l held → IsMixed R (Loose l held) left → RollsBackTo R l held held left }
{}

/// A recovery that is stopped, and one of what it left, however often, find the same rows and free lists, and no faults but
/// those of pending records.
pub fn later_recoveries_find_the_same()
    ensures { (left next : Region) (l : Layout) (after : Store) (o : Outcome) → ShowsSound (undone l.sup left) l after → IsSuper next l.sup → undone l.sup next ≡ undone l.sup left → IsOutcome next o
        → ((lasting_outcome o).faults ≡ []) × Keeps l after o.rows o.free }
{}

/// A region shows one thing.
pub fn one_thing_is_shown()
    ensures { (R : Region) (l : Layout) (held other : Store) → ShowsSound R l held → ShowsSound R l other → held ≡ other }
{}
