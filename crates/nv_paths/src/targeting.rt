//! What `link` is about: the file that gets a link, and the directory that gets its name.

ghost use Rattle.std.specs.Prelude.{◌≡◌, ◌++◌, ◌∷◌, ℕ, nat_le, List, IfOk, IfErr, OnOk, Option, Result};
ghost use Rattle.nv_super.specs.Layout.{most_links};
ghost use Rattle.nv_region.specs.Region.{Region};
ghost use Rattle.nv_rows.specs.Rows.{IsInUse, place_in};
ghost use Rattle.nv_tree.specs.Path.{IsPath, IsPathName, Says, last_name};
ghost use Rattle.nv_tree.specs.Tree.{found, is_directory, walk};
ghost use Rattle.nv_tree.specs.Refusals.{Path, Tests, first_refusal, is_bad, is_bad_name, is_missing, walk_tests};
ghost use Rattle.nv_tree.specs.declared.refusal.Refusal.{Refusal as RefusalValue};
ghost use Rattle.nv_paths.specs.Directories.{link_spot_tests};
ghost use Rattle.nv_paths.specs.Places.{IsLinkSpot};
ghost use Rattle.nv_paths.specs.Seen.{tree_of};

use crate::named::Named;
use crate::naming::{directory_named, has_name, target_of};
use crate::walking::{found, walk};
use nv_rows::Rows;
use nv_scan::Row;
use nv_super::{Kind, MOST_LINKS};
use nv_tree::{Refusal, is_path};

/// The inode to which a path leads, and the directory and the name that another path says.
///
/// Errors, the first that applies:
/// - `BadName` where the first text is no path or the second no path or `/`
/// - `NotFound` or `NotDirectory` for an inode on the first way and then on the second
/// - `NotFound` where the first path leads to no inode in use
pub fn link_for<'a>(rows: &Rows, old: &[u8], new: &'a [u8]) -> Result<Named<'a>, Refusal>
    ensures paths { OnOk result (((names : List (List ℕ)) × IsPath old.now names) × ((name : List ℕ) × (names : List (List ℕ)) × IsPath new.now (name ∷ names))) }
    ensures walked { (region : Region) (names : List (List ℕ)) → IsPath old.now names → OnOk result ((d : ℕ) × (walk (tree_of region rows.now.items) 1 names ≡ Result.Ok d)) }
    ensures leads { (region : Region) (names : List (List ℕ)) → IsPath old.now names → IfOk result (λ named. found (tree_of region rows.now.items) names ≡ Option.Some named.target) }
    ensures ended { (region : Region) (names : List (List ℕ)) → IsPath new.now names → IfOk result (λ named. walk (tree_of region rows.now.items) 1 names ≡ Result.Ok named.directory) }
    ensures name { (names : List (List ℕ)) → IsPath new.now names → IfOk result (λ named. named.name.now ≡ last_name names) }
    ensures refused { (region : Region) (p q : Path) (more : Tests) → Says old.now p → Says new.now q
        → IfErr result (λ e. first_refusal (is_bad p ∷ is_bad_name q ∷ walk_tests (tree_of region rows.now.items) p ++ walk_tests (tree_of region rows.now.items) q
        ++ is_missing (tree_of region rows.now.items) p ∷ more) ≡ Option.Some e) }
    ensures goes_on { IfErr result (λ e. e ≡ RefusalValue.Stopped → ⊥) }
{
    if !is_path(old) || !has_name(new) {
        return Err(Refusal::BadName);
    }
    let file = found(rows, old)?;
    let (directory, name) = walk(rows, new)?;
    let Some(target) = file else {
        return Err(Refusal::NotFound);
    };
    Ok(Named {
        directory,
        name,
        target: target.inode,
    })
}

/// Whether the file of a number can get this name in a directory.
///
/// Errors, the first that applies:
/// - `BadName` where no path can say the name
/// - `NotFound` where no inode in use has the directory's number, and `NotDirectory` where a file has it
/// - `NotFound` where no inode in use has the number, and `IsDirectory` where a directory has it
/// - `Exists` where an inode in use has the name
/// - `LinkLimit` where the file has as many links as it can have
pub fn link_in(rows: &Rows, inode: u64, directory: u64, name: &[u8]) -> Result<(), Refusal>
    ensures in_use { OnOk result (IsInUse rows.now.items directory) }
    ensures target { OnOk result (IsInUse rows.now.items inode) }
    ensures name { OnOk result (IsPathName name.now) }
    ensures spot { OnOk result (IsLinkSpot rows.now.items inode directory (place_in rows.now.items directory) name.now (place_in rows.now.items inode)) }
    ensures passed { (region : Region) (more : Tests) → OnOk result (first_refusal (link_spot_tests (tree_of region rows.now.items) inode directory name.now more) ≡ first_refusal more) }
    ensures refused { (region : Region) (more : Tests)
        → IfErr result (λ e. first_refusal (link_spot_tests (tree_of region rows.now.items) inode directory name.now more) ≡ Option.Some e) }
    ensures goes_on { IfErr result (λ e. e ≡ RefusalValue.Stopped → ⊥) }
{
    let row = directory_named(rows, directory, name)?;
    let Some(file) = rows.get(inode) else {
        return Err(Refusal::NotFound);
    };
    if is_directory(file) {
        return Err(Refusal::IsDirectory);
    }
    if target_of(rows, row, name).is_some() {
        return Err(Refusal::Exists);
    }
    if has_most_links(file) {
        return Err(Refusal::LinkLimit);
    }
    Ok(())
}

/// Whether the inode of a row is a directory.
pub(crate) fn is_directory(row: &Row) -> bool
    ensures { result ≡ is_directory row.now.kind }
{
    row.kind == Kind::Directory
}

/// Whether a file has as many links as it can have.
fn has_most_links(row: &Row) -> bool
    ensures { result ≡ nat_le most_links row.now.numbers.links }
{
    row.numbers.links >= MOST_LINKS
}
