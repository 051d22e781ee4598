//! What a move is about: the inode that gets another name, and both directories.

ghost use Rattle.std.specs.Prelude.{◌≡◌, ◌<◌, ℕ, ◌&&◌, List, ◌∷◌, length, IfOk, IfErr, OnOk, Option, Result, eqb};
ghost use Rattle.std.specs.List.{list_any};
ghost use Rattle.nv_region.specs.Region.{Region};
ghost use Rattle.nv_super.specs.declared.kind.Kind.TheVariants.{Directory};
ghost use Rattle.nv_scan.specs.declared.piece.Row.{Row as RowValue};
ghost use Rattle.nv_rows.specs.Rows.{place_in, row_of};
ghost use Rattle.nv_tree.specs.Path.{IsPath, IsPathName, Says, last_name};
ghost use Rattle.nv_tree.specs.Names.{Spells};
ghost use Rattle.nv_tree.specs.Tree.{is_directory, passed, walk as tree_walk};
ghost use Rattle.nv_tree.specs.Refusals.{Path, first_refusal};
ghost use Rattle.nv_paths.specs.MoveSpots.{IsMoveSpot, IsMoveWay, MoveInUse, move_tests, rename_spot_tests};
ghost use Rattle.nv_paths.specs.Seen.{tree_of};

use crate::named::Named;
use crate::naming::{has_name, target_at};
use crate::passing::passes;
use crate::targeting::is_directory;
use crate::walking::walk;
use nv_rows::Rows;
use nv_scan::Row;
use nv_tree::Refusal;

/// A name that an inode in use loses, and the one that it gets for it.
#[derive(Clone, Copy)]
pub struct Move<'a> {
    pub from: Named<'a>,
    /// That of the new name.
    pub directory: u64,
    pub name: &'a [u8],
}

/// The inode that gets another name, and both names.
///
/// Errors, the first that applies:
/// - `BadName` where a text is no path or `/`
/// - `NotFound` or `NotDirectory` for an inode on the first way and then on the second
/// - `NotFound` where the first path leads to no inode in use
/// - `IntoItself` where it leads to a directory that the second way passes
/// - `Exists` where the second leads to an inode in use
pub fn rename_for<'a>(rows: &Rows, old: &'a [u8], new: &'a [u8]) -> Result<Move<'a>, Refusal>
    ensures in_use { IfOk result (λ moved. MoveInUse rows.now.items moved.from.directory moved.from.target moved.directory) }
    ensures former { IfOk result (λ moved. IsPathName moved.from.name.now) }
    ensures name { IfOk result (λ moved. IsPathName moved.name.now) }
    ensures paths { OnOk result (((names : List (List ℕ)) × IsPath old.now names) × ((name : List ℕ) × (names : List (List ℕ)) × IsPath new.now (name ∷ names))) }
    ensures spot { (region : Region) (names others : List (List ℕ)) → IsPath old.now names → IsPath new.now others
        → IfOk result (λ moved. IsMoveSpot (tree_of region rows.now.items) rows.now.items names others (place_in rows.now.items moved.from.directory) moved.from.name.now
        (place_in rows.now.items moved.from.target) (place_in rows.now.items moved.directory) moved.name.now) }
    ensures allowed { (region : Region) (p q : Path) → Says old.now p → Says new.now q → OnOk result (first_refusal (rename_spot_tests (tree_of region rows.now.items) p q) ≡ Option.None) }
    ensures refused { (region : Region) (p q : Path) → Says old.now p → Says new.now q → IfErr result (λ e. first_refusal (rename_spot_tests (tree_of region rows.now.items) p q) ≡ Option.Some e) }
{
    let moved = move_for(rows, old, new)?;
    if target_at(rows, moved.directory, moved.name).is_some() {
        return Err(Refusal::Exists);
    }
    Ok(moved)
}

/// The inode that gets another name, and both names, whether an inode in use has the second or not.
///
/// Errors, the first that applies: those of `rename_for` but `Exists`.
pub(crate) fn move_for<'a>(rows: &Rows, old: &'a [u8], new: &'a [u8]) -> Result<Move<'a>, Refusal>
    ensures in_use { IfOk result (λ moved. MoveInUse rows.now.items moved.from.directory moved.from.target moved.directory) }
    ensures former { IfOk result (λ moved. IsPathName moved.from.name.now) }
    ensures name { IfOk result (λ moved. IsPathName moved.name.now) }
    ensures paths { OnOk result (((name : List ℕ) × (names : List (List ℕ)) × IsPath old.now (name ∷ names)) × ((name : List ℕ) × (names : List (List ℕ)) × IsPath new.now (name ∷ names))) }
    ensures way { (region : Region) (names others : List (List ℕ)) → IsPath old.now names → IsPath new.now others
        → IfOk result (λ moved. IsMoveWay (tree_of region rows.now.items) rows.now.items names others (place_in rows.now.items moved.from.directory) moved.from.name.now
        (place_in rows.now.items moved.from.target) (place_in rows.now.items moved.directory) moved.name.now) }
    ensures ended { (region : Region) (names : List (List ℕ)) → Spells new.now names
        → IfOk result (λ moved. (row : RowValue) → row_of rows.now.items moved.directory ≡ Option.Some row
        → (tree_walk (tree_of region rows.now.items) 1 names ≡ Result.Ok row.inode) × (row.kind ≡ Directory)) }
    ensures last { (names : List (List ℕ)) → Spells new.now names → IfOk result (λ moved. moved.name.now ≡ last_name names) }
    ensures allowed { (region : Region) (p q : Path) → Says old.now p → Says new.now q → OnOk result (first_refusal (move_tests (tree_of region rows.now.items) p q) ≡ Option.None) }
    ensures refused { (region : Region) (p q : Path) → Says old.now p → Says new.now q → IfErr result (λ e. first_refusal (move_tests (tree_of region rows.now.items) p q) ≡ Option.Some e) }
{
    if !has_name(old) {
        return Err(Refusal::BadName);
    }
    if !has_name(new) {
        return Err(Refusal::BadName);
    }
    let (former_directory, former) = walk(rows, old)?;
    let (directory, name) = walk(rows, new)?;
    let Some(target) = target_at(rows, former_directory, former) else {
        return Err(Refusal::NotFound);
    };
    if is_into_itself(rows, target, new) {
        return Err(Refusal::IntoItself);
    }
    let from = Named {
        directory: former_directory,
        name: former,
        target: target.inode,
    };
    Ok(Move {
        from,
        directory,
        name,
    })
}

/// Whether the inode of a row is a directory that the way to the last name of a path passes.
fn is_into_itself(rows: &Rows, row: &Row, path: &[u8]) -> bool
    requires some { 0 < length path.now }
    ensures { (region : Region) (names : List (List ℕ)) → Spells path.now names
        → result ≡ (is_directory row.now.kind && list_any (eqb row.now.inode) (passed (tree_of region rows.now.items) 1 names)) }
{
    is_directory(row) && passes(rows, path, row.inode)
}
