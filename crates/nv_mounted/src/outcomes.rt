//! From an outcome without faults to what is held, and back.

ghost use Rattle.std.specs.Prelude.{◌≡◌, List, []};
ghost use Rattle.nv_region.specs.Region.{Region};
ghost use Rattle.nv_super.specs.declared.owners.Run.{Run};
ghost use Rattle.nv_super.specs.Layout.{Layout};
ghost use Rattle.nv_journal.specs.Undo.{undone};
ghost use Rattle.nv_scan.specs.declared.piece.Row.{Row};
ghost use Rattle.nv_outcome.specs.Outcome.{Outcome, IsOutcome};
ghost use Rattle.nv_mounted.specs.Held.{Store};
ghost use Rattle.nv_mounted.specs.Mounted.{ShowsSound, IsMounted, Keeps, faultless_outcome, outcome_layout};

/// A region that is its own undo and has an outcome without faults is mounted: something is held that it shows.
pub fn opening()
    ensures { (R : Region) (o : Outcome) → IsOutcome R o → o.faults ≡ [] → undone o.sup R ≡ R → (held : Store) × IsMounted R (outcome_layout o) held o.rows o.free }
{}

/// A mounted region is its own undo, and has an outcome without faults, with the rows and the free lists that are kept.
pub fn closing()
    ensures { (R : Region) (l : Layout) (held : Store) (rows : List Row) (free : List (List Run)) → IsMounted R l held rows free → IsOutcome R (faultless_outcome l rows free) × (undone l.sup R ≡ R) }
{}

/// Whatever outcome a region has that shows this with nothing wrong: it has no faults, and its rows and free lists are those of what is held.
pub fn outcome_is_held()
    ensures { (R : Region) (l : Layout) (held : Store) (o : Outcome) → ShowsSound R l held → IsOutcome R o → (o.faults ≡ []) × Keeps l held o.rows o.free }
{}
