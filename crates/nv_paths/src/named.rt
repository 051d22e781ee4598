//! The inode in use that a name of a directory stands for.

ghost use Rattle.std.specs.Prelude.{◌≡◌, ℕ, List, IsTrue, IsFalse, IfOk, IfErr, OnOk, Option};
ghost use Rattle.nv_region.specs.Region.{Region};
ghost use Rattle.nv_super.specs.declared.kind.Kind.TheVariants.{File, Directory};
ghost use Rattle.nv_names.specs.Names.{name_at};
ghost use Rattle.nv_scan.specs.declared.piece.Row.{Row as RowValue};
ghost use Rattle.nv_rows.specs.Rows.{IsInUse, place_in, row_of};
ghost use Rattle.nv_tree.specs.Path.{IsPathName};
ghost use Rattle.nv_tree.specs.Refusals.{Tests, first_refusal};
ghost use Rattle.nv_tree.specs.declared.refusal.Refusal.{Refusal as RefusalValue};
ghost use Rattle.nv_paths.specs.Directories.{IsNamedIn, lookup_tests, rmdir_spot_tests, unlink_spot_tests};
ghost use Rattle.nv_paths.specs.Seen.{tree_of};

use crate::naming::{directory_named, target_of};
use nv_rows::Rows;
use nv_scan::Row;
use nv_super::Kind;
use nv_tree::Refusal;

/// A name in a directory, and the inode in use that it stands for or shall stand for.
#[derive(Clone, Copy)]
pub struct Named<'a> {
    pub directory: u64,
    pub name: &'a [u8],
    pub target: u64,
}

/// The row of the inode in use that a name of a directory stands for.
///
/// Errors, the first that applies:
/// - `BadName` where no path can say the name
/// - `NotFound` where no inode in use has the directory's number, and `NotDirectory` where a file has it
/// - `NotFound` where no inode in use has the name
pub fn row_named<'a>(rows: &'a Rows, directory: u64, name: &[u8]) -> Result<&'a Row, Refusal>
    ensures in_use { OnOk result (IsInUse rows.now.items directory) }
    ensures name { OnOk result (IsPathName name.now) }
    ensures held { IfOk result (λ r. row_of rows.now.items r.now.inode ≡ Option.Some r.now) }
    ensures spot { (region : Region)
        → IfOk result (λ r. IsNamedIn (tree_of region rows.now.items) rows.now.items directory (place_in rows.now.items directory) name.now (place_in rows.now.items r.now.inode)) }
    ensures passed { (region : Region) (more : Tests) → OnOk result (first_refusal (lookup_tests (tree_of region rows.now.items) directory name.now more) ≡ first_refusal more) }
    ensures refused { (region : Region) (more : Tests) → IfErr result (λ e. first_refusal (lookup_tests (tree_of region rows.now.items) directory name.now more) ≡ Option.Some e) }
    ensures goes_on { IfErr result (λ e. e ≡ RefusalValue.Stopped → ⊥) }
{
    let row = directory_named(rows, directory, name)?;
    match target_of(rows, row, name) {
        Some(target) => Ok(target),
        None => Err(Refusal::NotFound),
    }
}

/// The number of the file whose name goes.
///
/// Errors, the first that applies: those of `row_named`, and `IsDirectory` where the name stands for a directory.
pub fn unlink_in(rows: &Rows, directory: u64, name: &[u8]) -> Result<u64, Refusal>
    ensures in_use { OnOk result (IsInUse rows.now.items directory) }
    ensures name { OnOk result (IsPathName name.now) }
    ensures target { IfOk result (λ target. IsInUse rows.now.items target) }
    ensures spot { (region : Region)
        → IfOk result (λ target. IsNamedIn (tree_of region rows.now.items) rows.now.items directory (place_in rows.now.items directory) name.now (place_in rows.now.items target)) }
    ensures passed { (region : Region) (more : Tests) → OnOk result (first_refusal (unlink_spot_tests (tree_of region rows.now.items) directory name.now more) ≡ first_refusal more) }
    ensures refused { (region : Region) (more : Tests) → IfErr result (λ e. first_refusal (unlink_spot_tests (tree_of region rows.now.items) directory name.now more) ≡ Option.Some e) }
    ensures goes_on { IfErr result (λ e. e ≡ RefusalValue.Stopped → ⊥) }
    ensures file { IfOk result (λ target. (row : RowValue) → row_of rows.now.items target ≡ Option.Some row → row.kind ≡ File) }
{
    let target = row_named(rows, directory, name)?;
    if !is_file(target) {
        return Err(Refusal::IsDirectory);
    }
    Ok(target.inode)
}

/// The number of the directory that goes with its name.
///
/// Errors, the first that applies: those of `row_named`, `NotDirectory` where the name stands for a file, and `NotEmpty` where
/// there are names in the directory.
pub fn rmdir_in(rows: &Rows, directory: u64, name: &[u8]) -> Result<u64, Refusal>
    ensures in_use { OnOk result (IsInUse rows.now.items directory) }
    ensures name { OnOk result (IsPathName name.now) }
    ensures target { IfOk result (λ target. IsInUse rows.now.items target) }
    ensures spot { (region : Region)
        → IfOk result (λ target. IsNamedIn (tree_of region rows.now.items) rows.now.items directory (place_in rows.now.items directory) name.now (place_in rows.now.items target)) }
    ensures passed { (region : Region) (more : Tests) → OnOk result (first_refusal (rmdir_spot_tests (tree_of region rows.now.items) directory name.now more) ≡ first_refusal more) }
    ensures refused { (region : Region) (more : Tests) → IfErr result (λ e. first_refusal (rmdir_spot_tests (tree_of region rows.now.items) directory name.now more) ≡ Option.Some e) }
    ensures goes_on { IfErr result (λ e. e ≡ RefusalValue.Stopped → ⊥) }
    ensures empty { IfOk result (λ target. (row : RowValue) → row_of rows.now.items target ≡ Option.Some row → (row.kind ≡ Directory) × ((q : List ℕ) → name_at row.names q ≡ Option.None)) }
{
    let target = row_named(rows, directory, name)?;
    if is_file(target) {
        return Err(Refusal::NotDirectory);
    }
    if !target.names.is_empty() {
        return Err(Refusal::NotEmpty);
    }
    Ok(target.inode)
}

/// Whether the row is that of a file.
fn is_file(row: &Row) -> bool
    ensures yes { IsTrue result → row.now.kind ≡ File }
    ensures no { IsFalse result → row.now.kind ≡ Directory }
{
    matches!(row.kind, Kind::File)
}
