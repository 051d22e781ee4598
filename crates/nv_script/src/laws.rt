//! What holds of whole scripts.

ghost use Rattle.std.specs.Prelude.{◌≡◌, ℕ, List, take};
ghost use Rattle.nv_script.specs.Hints.{HintsScript};
ghost use Rattle.nv_script.specs.Script.{HandlesWordsFirst, SetsNoStop, ShowsFrom, ShowsScript};
ghost use Rattle.nv_script.specs.Strict.{ShowsStrictFrom};
ghost use Rattle.nv_session.specs.Machine.{State};

/// A script that sets no stop, and in which no `peek`, `poke` or `cut` stands behind a file call that writes, has one output,
/// one exit status, and one list of hints.
pub fn one_transcript()
    ensures text { (lines : List (List ℕ)) (text other : List ℕ) (status another : ℕ) → SetsNoStop lines → HandlesWordsFirst lines → ShowsScript lines text status
        → ShowsScript lines other another → text ≡ other }
    ensures status { (lines : List (List ℕ)) (text other : List ℕ) (status another : ℕ) → SetsNoStop lines → HandlesWordsFirst lines → ShowsScript lines text status
        → ShowsScript lines other another → status ≡ another }
    ensures hints { (lines : List (List ℕ)) (hints other : List ℕ) (status another : ℕ) → SetsNoStop lines → HandlesWordsFirst lines → HintsScript lines hints status
        → HintsScript lines other another → hints ≡ other }
{}

/// A script that ends at its first refused command prints what its first lines print in an ordinary run.
pub fn strict_shows_first_lines()
    ensures { (begin : State) (lines : List (List ℕ)) (text : List ℕ) (status : ℕ) → ShowsStrictFrom begin lines text status
        → (count : ℕ) × (other : ℕ) × ShowsFrom begin (take count lines) text other }
{}
