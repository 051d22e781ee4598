//! Paths that end in a name, names of directories, and what they stand for.

ghost use Rattle.std.specs.Prelude.{◌≡◌, ◌++◌, ℕ, List, ◌∷◌, true, false, IsTrue, IsFalse, IfOk, IfErr, IfSome, OnOk, Option, Result, option_copied};
ghost use Rattle.std.specs.Option.{option_and_then, option_map};
ghost use Rattle.nv_region.specs.Region.{Region};
ghost use Rattle.nv_super.specs.declared.kind.Kind.TheVariants.{Directory};
ghost use Rattle.nv_names.specs.Names.{name_at};
ghost use Rattle.nv_scan.specs.declared.piece.Row.{Row as RowValue};
ghost use Rattle.nv_rows.specs.Rows.{IsInUse, row_of};
ghost use Rattle.nv_tree.specs.Path.{IsPath, IsPathName, Says, last_name};
ghost use Rattle.nv_tree.specs.Tree.{walk};
ghost use Rattle.nv_tree.specs.Refusals.{Path, Tests, first_refusal, is_bad_name, walk_tests};
ghost use Rattle.nv_tree.specs.declared.refusal.Refusal.{Refusal as RefusalValue};
ghost use Rattle.nv_paths.specs.Directories.{name_tests};
ghost use Rattle.nv_paths.specs.Seen.{tree_of};

use crate::walking::{directory_at, walk};
use nv_rows::Rows;
use nv_scan::Row;
use nv_tree::{Refusal, is_path, is_path_name};

/// Whether the text is a path that ends in a name: any but `/`.
pub(crate) fn has_name(path: &[u8]) -> bool
    ensures good { IsTrue result → (name : List ℕ) × (names : List (List ℕ)) × IsPath path.now (name ∷ names) }
    ensures passed { IsTrue result → (p : Path) → Says path.now p → is_bad_name p ≡ (false, RefusalValue.BadName) }
    ensures bad { IsFalse result → (p : Path) → Says path.now p → is_bad_name p ≡ (true, RefusalValue.BadName) }
{
    // The path of one byte is `/`.
    if path.len() == 1 {
        return false;
    }
    is_path(path)
}

/// The directory in which the last name of a path stands, and that name.
///
/// Errors, the first that applies: `BadName` where the text is no path or `/`, `NotFound` or `NotDirectory` for an inode on
/// the way.
pub fn directory_for<'a>(rows: &Rows, path: &'a [u8]) -> Result<(u64, &'a [u8]), Refusal>
    ensures path { OnOk result ((name : List ℕ) × (names : List (List ℕ)) × IsPath path.now (name ∷ names)) }
    ensures walked { (region : Region) (names : List (List ℕ)) → IsPath path.now names → IfOk result (λ r. walk (tree_of region rows.now.items) 1 names ≡ Result.Ok r.0) }
    ensures name { (names : List (List ℕ)) → IsPath path.now names → IfOk result (λ r. r.1.now ≡ last_name names) }
    ensures refused { (region : Region) (p : Path) (more : Tests) → Says path.now p
        → IfErr result (λ e. first_refusal (is_bad_name p ∷ walk_tests (tree_of region rows.now.items) p ++ more) ≡ Option.Some e) }
    ensures goes_on { IfErr result (λ e. e ≡ RefusalValue.Stopped → ⊥) }
{
    if !has_name(path) {
        return Err(Refusal::BadName);
    }
    walk(rows, path)
}

/// The row of a directory in use, of which a name is asked.
///
/// Errors, the first that applies: `BadName` where no path can say the name, `NotFound` where no inode in use has the number,
/// `NotDirectory` where a file has it.
pub(crate) fn directory_named<'a>(
    rows: &'a Rows,
    directory: u64,
    name: &[u8],
) -> Result<&'a Row, Refusal>
    ensures row { IfOk result (λ r. row_of rows.now.items directory ≡ Option.Some r.now) }
    ensures kind { IfOk result (λ r. r.now.kind ≡ Directory) }
    ensures name { OnOk result (IsPathName name.now) }
    ensures passed { (region : Region) (more : Tests) → OnOk result (first_refusal (name_tests (tree_of region rows.now.items) directory name.now more) ≡ first_refusal more) }
    ensures refused { (region : Region) (more : Tests) → IfErr result (λ e. first_refusal (name_tests (tree_of region rows.now.items) directory name.now more) ≡ Option.Some e) }
    ensures goes_on { IfErr result (λ e. e ≡ RefusalValue.Stopped → ⊥) }
{
    if !is_path_name(name) {
        return Err(Refusal::BadName);
    }
    directory_at(rows, directory)
}

/// The row of the inode in use that a name of a directory stands for.
pub(crate) fn target_at<'a>(rows: &'a Rows, directory: u64, name: &[u8]) -> Option<&'a Row>
    requires in_use { IsInUse rows.now.items directory }
    ensures held { IfSome result (λ r. row_of rows.now.items r.now.inode ≡ Option.Some r.now) }
    ensures row { (row : RowValue) → row_of rows.now.items directory ≡ Option.Some row
        → option_copied result ≡ option_and_then (row_of rows.now.items) (option_map (λ x. x.0) (name_at row.names name.now)) }
{
    target_of(rows, rows.row(directory), name)
}

/// The same by the row of the directory.
pub(crate) fn target_of<'a>(rows: &'a Rows, directory: &Row, name: &[u8]) -> Option<&'a Row>
    ensures held { IfSome result (λ r. row_of rows.now.items r.now.inode ≡ Option.Some r.now) }
    ensures row { option_copied result ≡ option_and_then (row_of rows.now.items) (option_map (λ x. x.0) (name_at directory.now.names name.now)) }
{
    let target = directory.names.get(name)?;
    rows.get(target.inode)
}
