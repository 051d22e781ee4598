//! Laws of runs of calls, and of recoveries that are stopped.

ghost use Rattle.std.specs.Prelude.{◌≡◌, ◌<◌, ℕ, List, IsTrue, false};
ghost use Rattle.std.specs.List.{Contains};
ghost use Rattle.nv_region.specs.Region.{Region};
ghost use Rattle.nv_super.specs.Layout.{Layout};
ghost use Rattle.nv_super.specs.declared.superblock.Super.{Super};
ghost use Rattle.nv_super.specs.declared.faults.Fault.{Fault};
ghost use Rattle.nv_super.specs.Super.{IsSuper};
ghost use Rattle.nv_inode.specs.Chains.{IsLaid};
ghost use Rattle.nv_inode.specs.Numbers.{has_slot, table_size};
ghost use Rattle.nv_journal.specs.Undo.{undone};
ghost use Rattle.nv_alloc.specs.FreeValue.{FreeLists};
ghost use Rattle.nv_scan.specs.declared.piece.Row.{Row};
ghost use Rattle.nv_tree.specs.Tree.{SameTree, Tree};
ghost use Rattle.nv_paths.specs.Seen.{tree_of};
ghost use Rattle.nv_paths.specs.Spots.{new_number};
ghost use Rattle.nv_calls.specs.Mount.{IsKept};
ghost use Rattle.nv_history.specs.declared.calls.Call.{Call as CallValue};
ghost use Rattle.nv_history.specs.Making.{AreMade, grow_tables, has_upgrade, lowest_unused, most_slots, supers_behind};
ghost use Rattle.nv_history.specs.Stopping.{StoppedRecoveries};

/// However often recoveries are stopped and begun again, the superblock stays, and the journals roll back to the same region.
pub fn stopped_recoveries_undo_the_same()
    ensures { (left next : Region) (s : Super) → StoppedRecoveries left next → IsSuper left s → IsSuper next s × (undone s next ≡ undone s left) }
{}

/// Calls make one tree of a tree, up to what nobody can tell apart.
pub fn calls_make_one_tree()
    ensures { (s : Super) (calls : List CallValue) (t u v : Tree) → AreMade s calls t u → AreMade s calls t v → SameTree u v }
{}

/// No call but `upgrade` changes the superblock. In version 1 no other call lets a table grow.
pub fn tables_stay_but_for_upgrades()
    ensures superblock { (s : Super) (calls : List CallValue) → has_upgrade calls ≡ false → supers_behind s calls ≡ s }
    ensures tables { (s : Super) (calls : List CallValue) → s.version ≡ 1 → has_upgrade calls ≡ false → grow_tables s calls ≡ false }
{}

/// The number that a new inode gets by the tree is the one that it gets by the rows: in any layout that a region can have, where
/// each row's number has a slot and, in version 2, the CPU's chain hasn't all data blocks. All this holds of a mounted file system
/// without faults.
pub fn new_numbers_are_the_same()
    ensures laid { (l : Layout) (region : Region) (rows : List Row) (cpu : ℕ) → IsLaid l → cpu < l.sup.cpus → ((row : Row) → Contains rows row → IsTrue (has_slot l row.inode))
        → (l.sup.version ≡ 2 → table_size l cpu < most_slots l.sup) → lowest_unused l.sup (tree_of region rows) cpu ≡ new_number l rows cpu }
    ensures mounted { (region : Region) (s : Super) (l : Layout) (rows : List Row) (free : FreeLists) (faults : List Fault) (cpu : ℕ) → IsKept region s l rows free faults false false
        → cpu < s.cpus → lowest_unused s (tree_of region rows) cpu ≡ new_number l rows cpu }
{}
