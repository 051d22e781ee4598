//! A law of the text of a log.

ghost use Rattle.std.specs.Prelude.{◌≡◌, List, ℕ};
ghost use Rattle.nv_region.specs.Region.{Region};
ghost use Rattle.nv_super.specs.Layout.{Layout};
ghost use Rattle.nv_scan.specs.declared.piece.Row.{Row};
ghost use Rattle.nv_inspect.specs.Log.{IsLogText};

/// The log of a row has one text.
pub fn one_log_text()
    ensures { (region : Region) (l : Layout) (row : Row) (text other : List ℕ) → IsLogText region l row text → IsLogText region l row other → text ≡ other }
{}
