//! What `replace` is about: the inode that gets another name, and the one that has that name.

ghost use Rattle.std.specs.Prelude.{◌≡◌, ℕ, nat_lt, not, ◌&&◌, List, ◌∷◌, length, IfOk, IfErr, OnOk, Option, eqb};
ghost use Rattle.nv_region.specs.Region.{Region};
ghost use Rattle.nv_rows.specs.Rows.{IsInUse, place_in};
ghost use Rattle.nv_tree.specs.Path.{IsPath, IsPathName, Says};
ghost use Rattle.nv_tree.specs.Tree.{is_directory};
ghost use Rattle.nv_tree.specs.Refusals.{Path, first_refusal};
ghost use Rattle.nv_paths.specs.ReplaceSpots.{IsReplaceSpot, replace_spot_tests};
ghost use Rattle.nv_paths.specs.Seen.{tree_of};
ghost use Rattle.nv_paths.specs.MoveSpots.{MoveInUse};

use crate::moving::{Move, move_for};
use crate::naming::target_at;
use crate::targeting::is_directory;
use nv_rows::Rows;
use nv_scan::Row;
use nv_tree::Refusal;

/// A name that an inode in use loses, and the one that it gets for it, also from another inode.
#[derive(Clone, Copy)]
pub struct Replacement<'a> {
    pub moved: Move<'a>,
    /// The inode in use that has the new name, if one has it: another, or the one that moves.
    pub there: Option<u64>,
}

/// The inode that gets another name, both names, and the inode that has the second.
///
/// Errors, the first that applies:
/// - `BadName` where a text is no path or `/`
/// - `NotFound` or `NotDirectory` for an inode on the first way and then on the second
/// - `NotFound` where the first path leads to no inode in use
/// - `IntoItself` where it leads to a directory that the second way passes
/// - `IsDirectory` where the second leads to a directory, and the first to a file
/// - `NotDirectory` where the second leads to a file, and the first to a directory
/// - `NotEmpty` where the second leads to another inode, which has names
pub fn replace_for<'a>(
    rows: &Rows,
    old: &'a [u8],
    new: &'a [u8],
) -> Result<Replacement<'a>, Refusal>
    ensures in_use { IfOk result (λ r. MoveInUse rows.now.items r.moved.from.directory r.moved.from.target r.moved.directory) }
    ensures there { IfOk result (λ r. (i : ℕ) → r.there ≡ Option.Some i → IsInUse rows.now.items i) }
    ensures former { IfOk result (λ r. IsPathName r.moved.from.name.now) }
    ensures name { IfOk result (λ r. IsPathName r.moved.name.now) }
    ensures paths { OnOk result (((name : List ℕ) × (names : List (List ℕ)) × IsPath old.now (name ∷ names)) × ((name : List ℕ) × (names : List (List ℕ)) × IsPath new.now (name ∷ names))) }
    ensures spot { (region : Region) (names others : List (List ℕ)) → IsPath old.now names → IsPath new.now others
        → IfOk result (λ r. IsReplaceSpot (tree_of region rows.now.items) rows.now.items names others (place_in rows.now.items r.moved.from.directory) r.moved.from.name.now
        (place_in rows.now.items r.moved.from.target) (place_in rows.now.items r.moved.directory) r.moved.name.now r.there) }
    ensures allowed { (region : Region) (p q : Path) → Says old.now p → Says new.now q → OnOk result (first_refusal (replace_spot_tests (tree_of region rows.now.items) p q) ≡ Option.None) }
    ensures refused { (region : Region) (p q : Path) → Says old.now p → Says new.now q → IfErr result (λ e. first_refusal (replace_spot_tests (tree_of region rows.now.items) p q) ≡ Option.Some e) }
{
    let moved = move_for(rows, old, new)?;
    let Some(there) = target_at(rows, moved.directory, moved.name) else {
        return Ok(Replacement { moved, there: None });
    };
    let target = rows.row(moved.from.target);
    if is_the_directory(there, target) {
        return Err(Refusal::IsDirectory);
    }
    if is_the_directory(target, there) {
        return Err(Refusal::NotDirectory);
    }
    if is_another_with_names(there, target) {
        return Err(Refusal::NotEmpty);
    }
    Ok(Replacement {
        moved,
        there: Some(there.inode),
    })
}

/// Whether of two inodes the first is a directory, and the second a file.
fn is_the_directory(row: &Row, other: &Row) -> bool
    ensures { result ≡ (not (is_directory other.now.kind) && is_directory row.now.kind) }
{
    !is_directory(other) && is_directory(row)
}

/// Whether an inode is not the other one, and has names.
fn is_another_with_names(row: &Row, other: &Row) -> bool
    ensures { result ≡ (not (eqb other.now.inode row.now.inode) && nat_lt 0 (length row.now.names.names)) }
{
    other.inode != row.inode && row.names.len() > 0
}
