//! A region without faults between inodes has none after a call, by what the call leaves of the logs: its graph is then the
//! one that the call makes of the graph before.

ghost use Rattle.std.specs.Prelude.{◌≡◌, ℕ, ◌<◌, ◌≤◌, List, Some, None};
ghost use Rattle.std.specs.List.{Contains};
ghost use Rattle.nv_region.specs.Region.{Region};
ghost use Rattle.nv_super.specs.Layout.{Layout};
ghost use Rattle.nv_super.specs.declared.kind.Kind.{Kind};
ghost use Rattle.nv_super.specs.declared.kind.Kind.TheVariants.{File, Directory};
ghost use Rattle.nv_graph.specs.Graph.{Node, Graph, IsOfKind, walked, passed};
ghost use Rattle.nv_graph.specs.Calls.{made, linked, unlinked, removed, renamed};
ghost use Rattle.nv_graph.specs.Read.{HasFaultlessGraph};
ghost use Rattle.nv_graph.specs.Step.{CreateStep, LinkStep, UnlinkStep, RemoveStep, RenameStep, TouchStep, SameInode, SameWords};

/// `create` and `mkdir` leave no fault: they give a directory a name that it doesn't have.
pub fn create_leaves_none()
    ensures { (old new : Region) (l : Layout) (g : Graph) (kind : Kind) (d : ℕ) (name : List ℕ) (i : ℕ) → HasFaultlessGraph old l g
        → IsOfKind g d Directory → g.name d name ≡ None → CreateStep old new l kind d name i
        → HasFaultlessGraph new l (made g kind d name i) }
{}

/// `link` leaves no fault: it gives a directory a name that it doesn't have, for a file.
pub fn link_leaves_none()
    ensures { (old new : Region) (l : Layout) (g : Graph) (d : ℕ) (name : List ℕ) (i : ℕ) (n : Node) → HasFaultlessGraph old l g
        → IsOfKind g d Directory → g.name d name ≡ None → g.node i ≡ Some n → n.kind ≡ File → LinkStep old new l d name i n
        → HasFaultlessGraph new l (linked g d name i n) }
{}

/// `unlink` leaves no fault: it takes one of several names of a file, or the file with its last name.
pub fn unlink_leaves_none()
    ensures more_left { (old new : Region) (l : Layout) (g : Graph) (d : ℕ) (name : List ℕ) (i : ℕ) (n : Node) → HasFaultlessGraph old l g
        → g.name d name ≡ Some i → g.node i ≡ Some n → n.kind ≡ File → 1 < n.links → UnlinkStep old new l d name i n
        → HasFaultlessGraph new l (unlinked g d name i n) }
    ensures last { (old new : Region) (l : Layout) (g : Graph) (d : ℕ) (name : List ℕ) (i : ℕ) (n : Node) → HasFaultlessGraph old l g
        → g.name d name ≡ Some i → g.node i ≡ Some n → n.kind ≡ File → n.links ≤ 1 → RemoveStep old new l d name i
        → HasFaultlessGraph new l (removed g d name i) }
{}

/// `rmdir` leaves no fault: it takes a directory without names.
pub fn rmdir_leaves_none()
    ensures { (old new : Region) (l : Layout) (g : Graph) (d : ℕ) (name : List ℕ) (i : ℕ) → HasFaultlessGraph old l g
        → g.name d name ≡ Some i → IsOfKind g i Directory → ((other : List ℕ) → g.name i other ≡ None) → RemoveStep old new l d name i
        → HasFaultlessGraph new l (removed g d name i) }
{}

/// `rename` leaves no fault: the path to the new name passes no directory that is renamed.
pub fn rename_leaves_none()
    ensures { (old new : Region) (l : Layout) (g : Graph) (d : ℕ) (name : List ℕ) (path : List (List ℕ)) (e : ℕ) (other : List ℕ) (i : ℕ) → HasFaultlessGraph old l g
        → g.name d name ≡ Some i → walked g 1 path ≡ Some e → IsOfKind g e Directory → g.name e other ≡ None
        → (IsOfKind g i Directory → Contains (passed g 1 path) i → ⊥) → RenameStep old new l d name e other i
        → HasFaultlessGraph new l (renamed g d name e other i) }
{}

/// `write`, `set_size` and `set_attr` leave no fault: the graph stays, as it does where each inode is read as before.
pub fn touch_leaves_none()
    ensures same { (old new : Region) (l : Layout) (g : Graph) → HasFaultlessGraph old l g → ((j : ℕ) → SameInode old new l j) → HasFaultlessGraph new l g }
    ensures touched { (old new : Region) (l : Layout) (g : Graph) (i : ℕ) → HasFaultlessGraph old l g → TouchStep old new l i → HasFaultlessGraph new l g }
{}

/// An inode is read as before where the words of its slot and of its log's pages are as before.
pub fn same_words_same_inode()
    ensures { (old new : Region) (l : Layout) (j : ℕ) → SameWords old new l j → SameInode old new l j }
{}
