//! The row of the inode that is asked for.

ghost use Rattle.std.specs.Prelude.{IfOk, IfErr};
ghost use Rattle.nv_region.specs.Region.{Region};
ghost use Rattle.nv_paths.specs.Seen.{tree_of};
ghost use Rattle.nv_logs.specs.Asking.{IsAsked, IsRefused};

use crate::inode::Inode;
use nv_paths::row_at;
use nv_rows::Rows;
use nv_scan::Row;
use nv_tree::Refusal;

/// The row of an inode in use, or why there is none: the refusal that `stat` has.
pub(crate) fn row_asked<'a>(rows: &'a Rows, inode: &Inode) -> Result<&'a Row, Refusal>
    ensures row { (region : Region) → IfOk result (λ row. IsAsked (tree_of region rows.now.items) rows.now.items inode.now row.now) }
    ensures refused { (region : Region) → IfErr result (λ e. IsRefused (tree_of region rows.now.items) inode.now e) }
{
    match inode {
        Inode::Path(path) => row_at(rows, path),
        Inode::Number(number) => match rows.get(*number) {
            Some(row) => Ok(row),
            None => Err(Refusal::NotFound),
        },
    }
}
