//! The rows once one inode changed.

ghost use Rattle.std.specs.Prelude.{◌≡◌, ◌≢◌, ◌⊎◌, ◌<◌, ℕ, List, length, get_or, set, Some, None};
ghost use Rattle.std.specs.List.{Contains};
ghost use Rattle.nv_super.specs.Layout.{Layout};
ghost use Rattle.nv_super.specs.Order.{Rises};
ghost use Rattle.nv_scan.specs.declared.piece.Row.{Row};
ghost use Rattle.nv_cross_check.specs.Cross.{row_key};
ghost use Rattle.nv_mounted.specs.Held.{Held, Store, with_inode};
ghost use Rattle.nv_mounted.specs.Mounted.{KeepsRow, KeepsRows};

/// The rows are those of what is held once the row of the changed inode is replaced.
pub fn rows_follow()
    ensures { (l : Layout) (held : Store) (i : ℕ) (new : Held) (rows : List Row) (k : ℕ) (row : Row) → KeepsRows l held rows → k < length rows → (get_or rows k row).inode ≡ i
        → row.inode ≡ i → KeepsRow l new row → KeepsRows l (with_inode held i (Some new)) (set rows k row) }
{}

/// The rows are those of what is held once the row of an inode that is gone is taken out.
pub fn rows_less()
    ensures { (l : Layout) (held : Store) (i : ℕ) (rows left : List Row) → KeepsRows l held rows → Rises row_key left → ((r : Row) → Contains left r → Contains rows r × (r.inode ≢ i))
        → ((r : Row) → Contains rows r → r.inode ≢ i → Contains left r) → KeepsRows l (with_inode held i None) left }
{}

/// The rows are those of what is held once the row of a new inode is put in.
pub fn rows_more()
    ensures { (l : Layout) (held : Store) (i : ℕ) (new : Held) (rows more : List Row) (row : Row) → KeepsRows l held rows → held i ≡ None → Rises row_key more
        → ((r : Row) → Contains more r → Contains rows r ⊎ (r ≡ row)) → ((r : Row) → Contains rows r → Contains more r) → Contains more row → row.inode ≡ i → KeepsRow l new row
        → KeepsRows l (with_inode held i (Some new)) more }
{}
