//! What holds of the texts of a recovery.

ghost use Rattle.std.specs.Prelude.{◌≡◌, ℕ, List};
ghost use Rattle.nv_scan.specs.declared.piece.Row.{Row};
ghost use Rattle.nv_outcome.specs.Outcome.{Outcome};
ghost use Rattle.nv_outcome.specs.Same.{SameRow, SameOutcome};
ghost use Rattle.nv_report.specs.Texts.{IsRowText, IsReportText};

/// Rows that say the same of their inode have one text, whatever their indexes look like.
pub fn one_row_text()
    ensures { (a b : Row) (s t : List ℕ) → SameRow a b → IsRowText a s → IsRowText b t → s ≡ t }
{}

/// Outcomes that show the same have one report; a region's outcomes all show the same.
pub fn one_report()
    ensures { (a b : Outcome) (s t : List ℕ) → SameOutcome a b → IsReportText a s → IsReportText b t → s ≡ t }
{}
