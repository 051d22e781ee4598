//! Where paths lead, among the rows of the inodes in use.

ghost use Rattle.std.specs.Prelude.{◌≡◌, ◌<◌, ℕ, List, length, IfOk, IfErr, IfSome, Option, Result, option_copied};
ghost use Rattle.std.specs.Option.{option_and_then};
ghost use Rattle.std.specs.Result.{result_map_both, result_err};
ghost use Rattle.nv_region.specs.Region.{Region};
ghost use Rattle.nv_super.specs.declared.kind.Kind.TheVariants.{Directory};
ghost use Rattle.nv_scan.specs.declared.piece.Row.{Row as RowValue};
ghost use Rattle.nv_rows.specs.Rows.{IsInUse, row_of};
ghost use Rattle.nv_tree.specs.Path.{IsPath, Says, last_name};
ghost use Rattle.nv_tree.specs.Names.{Spells};
ghost use Rattle.nv_tree.specs.Tree.{walk, found, as_directory};
ghost use Rattle.nv_tree.specs.Refusals.{Path, first_refusal, stat_tests};
ghost use Rattle.nv_tree.specs.declared.refusal.Refusal.{Refusal as RefusalValue};
ghost use Rattle.nv_paths.specs.Seen.{node_of, tree_of, LeadsTo};

use nv_rows::Rows;
use nv_scan::Row;
use nv_super::Kind;
use nv_tree::{Refusal, is_path, split_name};

pub(crate) const ROOT: u64 = 1;

/// The row of a directory in use. `NotFound` where the inode isn't in use, `NotDirectory` where it is a file.
pub(crate) fn directory_at(rows: &Rows, inode: u64) -> Result<&Row, Refusal>
    ensures row { IfOk result (λ r. row_of rows.now.items inode ≡ Option.Some r.now) }
    ensures kind { IfOk result (λ r. r.now.kind ≡ Directory) }
    ensures goes_on { IfErr result (λ e. e ≡ RefusalValue.Stopped → ⊥) }
    ensures reply { (region : Region) → result_map_both (λ _. inode) (λ e. e) result ≡ as_directory inode (tree_of region rows.now.items inode) }
{
    let row = rows.get(inode).ok_or(Refusal::NotFound)?;
    match row.kind {
        Kind::Directory => Ok(row),
        Kind::File => Err(Refusal::NotDirectory),
    }
}

/// The directory in which the last name of a path below the root stands, and that name.
///
/// `NotFound` where a name on the way stands for no inode in use, `NotDirectory` where it stands for a file.
pub(crate) fn walk<'a>(rows: &Rows, path: &'a [u8]) -> Result<(u64, &'a [u8]), Refusal>
    requires some { 0 < length path.now }
    ensures reply { (region : Region) (names : List (List ℕ)) → Spells path.now names → result_map_both (λ r. r.0) (λ e. e) result ≡ walk (tree_of region rows.now.items) 1 names }
    ensures in_use { IfOk result (λ r. IsInUse rows.now.items r.0) }
    ensures directory { (region : Region) (names : List (List ℕ)) → Spells path.now names
        → IfOk result (λ r. (row : RowValue) → row_of rows.now.items r.0 ≡ Option.Some row → (walk (tree_of region rows.now.items) 1 names ≡ Result.Ok row.inode) × (row.kind ≡ Directory)) }
    ensures refused { (region : Region) (names : List (List ℕ)) → Spells path.now names → IfErr result (λ e. walk (tree_of region rows.now.items) 1 names ≡ Result.Err e) }
    ensures name { (names : List (List ℕ)) → Spells path.now names → IfOk result (λ r. r.1.now ≡ last_name names) }
    ensures goes_on { IfErr result (λ e. e ≡ RefusalValue.Stopped → ⊥) }
{
    let mut directory = ROOT;
    let mut rest = path;
    loop {
        let row = directory_at(rows, directory)?;
        let (name, others) = split_name(rest);
        if others.is_empty() {
            return Ok((directory, name));
        }
        let Some(target) = row.names.get(name) else {
            return Err(Refusal::NotFound);
        };
        directory = target.inode;
        rest = others;
    }
}

/// The row of the inode in use that a path leads to, if it leads to one.
///
/// `NotFound` and `NotDirectory` as `walk` answers them.
pub(crate) fn found<'a>(rows: &'a Rows, path: &[u8]) -> Result<Option<&'a Row>, Refusal>
    requires some { 0 < length path.now }
    ensures row { (region : Region) (names : List (List ℕ)) → IsPath path.now names
        → IfOk result (λ row. option_copied row ≡ option_and_then (row_of rows.now.items) (found (tree_of region rows.now.items) names)) }
    ensures held { IfOk result (λ row. IfSome row (λ r. row_of rows.now.items r.now.inode ≡ Option.Some r.now)) }
    ensures walk { (region : Region) (names : List (List ℕ)) → IsPath path.now names → IfOk result (λ _. (d : ℕ) × (walk (tree_of region rows.now.items) 1 names ≡ Result.Ok d)) }
    ensures refused { (region : Region) (names : List (List ℕ)) → IsPath path.now names → IfErr result (λ e. walk (tree_of region rows.now.items) 1 names ≡ Result.Err e) }
    ensures goes_on { IfErr result (λ e. e ≡ RefusalValue.Stopped → ⊥) }
{
    // The path of one byte is `/`.
    if path.len() == 1 {
        return Ok(rows.get(ROOT));
    }
    let (directory, name) = walk(rows, path)?;
    match rows.row(directory).names.get(name) {
        Some(target) => Ok(rows.get(target.inode)),
        None => Ok(None),
    }
}

/// The row of the inode in use that a path leads to, or the refusal that `stat` has.
pub fn row_at<'a>(rows: &'a Rows, path: &[u8]) -> Result<&'a Row, Refusal>
    ensures row { (region : Region) (names : List (List ℕ)) → IsPath path.now names → IfOk result (λ r. LeadsTo (tree_of region rows.now.items) names r.now.inode (node_of region r.now)) }
    ensures held { IfOk result (λ r. row_of rows.now.items r.now.inode ≡ Option.Some r.now) }
    ensures refused { (region : Region) (p : Path) → Says path.now p → first_refusal (stat_tests (tree_of region rows.now.items) p) ≡ result_err result }
{
    if !is_path(path) {
        return Err(Refusal::BadName);
    }
    match found(rows, path)? {
        Some(row) => Ok(row),
        None => Err(Refusal::NotFound),
    }
}
