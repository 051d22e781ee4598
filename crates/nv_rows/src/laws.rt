//! What numbers new inodes get as tables grow.

ghost use Rattle.std.specs.Prelude.{◌≡◌, ◌<◌, ℕ, List, None, Some};
ghost use Rattle.nv_super.specs.Layout.{Layout};
ghost use Rattle.nv_inode.specs.Chains.{IsLaid};
ghost use Rattle.nv_inode.specs.Growing.{with_block};
ghost use Rattle.nv_inode.specs.Numbers.{next_number};
ghost use Rattle.nv_scan.specs.declared.piece.Row.{Row as RowValue};
ghost use Rattle.nv_rows.specs.Rows.{row_of};
ghost use Rattle.nv_rows.specs.Unused.{unused_number};

/// Where each number of a CPU's table is used, a new inode gets the first number behind it once a block is linked to the
/// CPU's chain.
pub fn grown_tables_have_an_unused_number()
    ensures { (l : Layout) (rows : List RowValue) (cpu block : ℕ) → IsLaid l → cpu < l.sup.cpus → unused_number l rows cpu ≡ None → row_of rows (next_number l cpu) ≡ None
        → unused_number (with_block l cpu block) rows cpu ≡ Some (next_number l cpu) }
{}
