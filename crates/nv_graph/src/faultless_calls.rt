//! Where no fault stands between inodes, no call makes one.

ghost use Rattle.std.specs.Prelude.{◌≡◌, ◌≢◌, ℕ, ◌<◌, ◌≤◌, ◌-◌, List, Option, Some, None};
ghost use Rattle.std.specs.List.{Contains};
ghost use Rattle.nv_super.specs.declared.kind.Kind.{Kind};
ghost use Rattle.nv_super.specs.declared.kind.Kind.TheVariants.{File, Directory};
ghost use Rattle.nv_graph.specs.Graph.{Node, Graph, IsOfKind, IsReachedPast, NoCrossFaults, walked, passed};
ghost use Rattle.nv_graph.specs.Calls.{made, linked, unlinked, removed, renamed, replaced, with_name, with_node, SameGraph, root_alone};

/// A root without names has no faults, and graphs that show the same have the same faults.
pub fn root_has_none()
    ensures root { NoCrossFaults root_alone }
    ensures same { (g h : Graph) → SameGraph g h → NoCrossFaults g → NoCrossFaults h }
{}

/// Graphs that show the same do so after one change more.
pub fn changes_follow()
    ensures name { (f g h : Graph) (d : ℕ) (name : List ℕ) (o : Option ℕ) → SameGraph f g → SameGraph (with_name g d name o) h → SameGraph (with_name f d name o) h }
    ensures node { (f g h : Graph) (i : ℕ) (o : Option Node) → SameGraph f g → SameGraph (with_node g i o) h → SameGraph (with_node f i o) h }
{}

/// `create` and `mkdir` make no fault: a directory gets a new name for a number that isn't in use.
pub fn create_keeps()
    ensures { (g : Graph) (kind : Kind) (d : ℕ) (name : List ℕ) (i : ℕ) → NoCrossFaults g
        → IsOfKind g d Directory → g.name d name ≡ None → g.node i ≡ None
        → NoCrossFaults (made g kind d name i) }
{}

/// `link` makes no fault: a directory gets a new name for a file, which counts a link more.
pub fn link_keeps()
    ensures { (g : Graph) (d : ℕ) (name : List ℕ) (i : ℕ) (n : Node) → NoCrossFaults g
        → IsOfKind g d Directory → g.name d name ≡ None → g.node i ≡ Some n → n.kind ≡ File
        → NoCrossFaults (linked g d name i n) }
{}

/// `unlink` makes no fault: a file with more links loses a name and counts a link less, and one with its last link goes with
/// its name. A file that has a name has a link.
pub fn unlink_keeps()
    ensures more_left { (g : Graph) (d : ℕ) (name : List ℕ) (i : ℕ) (n : Node) → NoCrossFaults g
        → g.name d name ≡ Some i → g.node i ≡ Some n → n.kind ≡ File → 1 < n.links
        → NoCrossFaults (unlinked g d name i n) }
    ensures last { (g : Graph) (d : ℕ) (name : List ℕ) (i : ℕ) (n : Node) → NoCrossFaults g
        → g.name d name ≡ Some i → g.node i ≡ Some n → n.kind ≡ File → n.links ≤ 1
        → NoCrossFaults (removed g d name i) }
    ensures some_link { (g : Graph) (d : ℕ) (name : List ℕ) (i : ℕ) (n : Node) → NoCrossFaults g
        → g.name d name ≡ Some i → g.node i ≡ Some n → n.kind ≡ File → 0 < n.links }
{}

/// `rmdir` makes no fault: a directory without names goes with its name.
pub fn rmdir_keeps()
    ensures { (g : Graph) (d : ℕ) (name : List ℕ) (i : ℕ) → NoCrossFaults g
        → g.name d name ≡ Some i → IsOfKind g i Directory → ((other : List ℕ) → g.name i other ≡ None)
        → NoCrossFaults (removed g d name i) }
{}

/// `rename` makes no fault, in one directory or across two: a new name comes in place of an old one. A directory is renamed
/// only where some way, or the path that was walked, leads to the new name's directory without passing it.
pub fn rename_keeps()
    ensures past { (g : Graph) (d : ℕ) (name : List ℕ) (e : ℕ) (new : List ℕ) (i : ℕ) → NoCrossFaults g
        → g.name d name ≡ Some i → IsOfKind g e Directory → g.name e new ≡ None → (IsOfKind g i Directory → IsReachedPast g i e)
        → NoCrossFaults (renamed g d name e new i) }
    ensures by_path { (g : Graph) (d : ℕ) (name : List ℕ) (path : List (List ℕ)) (e : ℕ) (new : List ℕ) (i : ℕ) → NoCrossFaults g
        → g.name d name ≡ Some i → walked g 1 path ≡ Some e → IsOfKind g e Directory → g.name e new ≡ None
        → (IsOfKind g i Directory → Contains (passed g 1 path) i → ⊥)
        → NoCrossFaults (renamed g d name e new i) }
{}

/// `rename` of a directory makes a fault where each way to the new name's directory passes it.
pub fn renamed_into_itself()
    ensures { (g : Graph) (d : ℕ) (name : List ℕ) (e : ℕ) (new : List ℕ) (i : ℕ) → NoCrossFaults g
        → g.name d name ≡ Some i → g.name e new ≡ None → IsOfKind g i Directory → (IsReachedPast g i e → ⊥)
        → NoCrossFaults (renamed g d name e new i) → ⊥ }
{}

/// `replace` makes no fault: a name of another node stands for the renamed one then. That node is a file, which goes or counts a link
/// less, or a directory without names, which goes.
pub fn replace_keeps()
    ensures last { (g : Graph) (d : ℕ) (name : List ℕ) (path : List (List ℕ)) (e : ℕ) (new : List ℕ) (i j : ℕ) (n : Node) → NoCrossFaults g
        → g.name d name ≡ Some i → walked g 1 path ≡ Some e → g.name e new ≡ Some j → i ≢ j → (IsOfKind g i Directory → Contains (passed g 1 path) i → ⊥)
        → g.node j ≡ Some n → n.kind ≡ File → n.links ≤ 1 → NoCrossFaults (replaced g d name e new i j None) }
    ensures more_left { (g : Graph) (d : ℕ) (name : List ℕ) (path : List (List ℕ)) (e : ℕ) (new : List ℕ) (i j : ℕ) (n : Node) → NoCrossFaults g
        → g.name d name ≡ Some i → walked g 1 path ≡ Some e → g.name e new ≡ Some j → i ≢ j → (IsOfKind g i Directory → Contains (passed g 1 path) i → ⊥)
        → g.node j ≡ Some n → n.kind ≡ File → 1 < n.links → NoCrossFaults (replaced g d name e new i j (Some (record { kind = n.kind; links = n.links - 1 }))) }
    ensures directory { (g : Graph) (d : ℕ) (name : List ℕ) (path : List (List ℕ)) (e : ℕ) (new : List ℕ) (i j : ℕ) → NoCrossFaults g
        → g.name d name ≡ Some i → walked g 1 path ≡ Some e → g.name e new ≡ Some j → i ≢ j → (IsOfKind g i Directory → Contains (passed g 1 path) i → ⊥)
        → IsOfKind g j Directory → ((other : List ℕ) → g.name j other ≡ None) → NoCrossFaults (replaced g d name e new i j None) }
{}
