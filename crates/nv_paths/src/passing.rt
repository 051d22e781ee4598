//! The directories that the way to a name passes.

ghost use Rattle.std.specs.Prelude.{◌≡◌, ◌<◌, ℕ, List, length, eqb};
ghost use Rattle.std.specs.List.{list_any};
ghost use Rattle.nv_region.specs.Region.{Region};
ghost use Rattle.nv_tree.specs.Names.{Spells};
ghost use Rattle.nv_tree.specs.Tree.{name_in, passed};
ghost use Rattle.nv_paths.specs.Seen.{tree_of};

use crate::walking::ROOT;
use nv_rows::Rows;
use nv_tree::split_name;

/// Whether an inode is among the directories that the way to the last name of a path passes, the one in which that name
/// stands included.
pub(crate) fn passes(rows: &Rows, path: &[u8], inode: u64) -> bool
    requires some { 0 < length path.now }
    ensures { (region : Region) (names : List (List ℕ)) → Spells path.now names → result ≡ list_any (eqb inode) (passed (tree_of region rows.now.items) 1 names) }
{
    let mut directory = ROOT;
    let mut rest = path;
    loop {
        if directory == inode {
            return true;
        }
        let (name, others) = split_name(rest);
        if others.is_empty() {
            return false;
        }
        let Some(next) = inode_named(rows, directory, name) else {
            return false;
        };
        directory = next;
        rest = others;
    }
}

/// The inode that a name of a directory in use stands for.
fn inode_named(rows: &Rows, directory: u64, name: &[u8]) -> Option<u64>
    ensures { (region : Region) → result ≡ name_in (tree_of region rows.now.items) directory name.now }
{
    match rows.get(directory)?.names.get(name) {
        Some(target) => Some(target.inode),
        None => None,
    }
}
