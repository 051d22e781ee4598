//! Where no fault stands between the inodes of a tree, no call that isn't refused makes one.

ghost use Rattle.std.specs.Prelude.{◌≡◌, ℕ, List, None, Some};
ghost use Rattle.nv_super.specs.declared.kind.Kind.{Kind};
ghost use Rattle.nv_tree.specs.Tree.{Tree};
ghost use Rattle.nv_tree.specs.Calls.{attributed, created, linked, removed, renamed, resized, unlinked, written};
ghost use Rattle.nv_tree.specs.Refusals.{World, create_tests, first_refusal, link_tests, rename_tests, rmdir_tests, unlink_tests};
ghost use Rattle.nv_tree.specs.Replace.{replace_tests, replaced};
ghost use Rattle.nv_graph.specs.Trees.{CountsNames, IsFaultless, IsUnused, tree_graph};
ghost use Rattle.nv_graph.specs.Calls.{SameGraph};

/// No call makes a fault between inodes, where its tests refuse nothing.
pub fn no_call_makes_a_fault()
    ensures create { (w : World) (t : Tree) (kind : Kind) (cpu : ℕ) (names : List (List ℕ)) (needed mode time : ℕ) → IsFaultless t → IsUnused w t cpu
        → first_refusal (create_tests w t cpu (Some names) needed) ≡ None → IsFaultless (created kind (w.unused cpu) names mode time t) }
    ensures link { (w : World) (t : Tree) (cpu : ℕ) (old new : List (List ℕ)) (needed time : ℕ) → IsFaultless t
        → first_refusal (link_tests w t cpu (Some old) (Some new) needed) ≡ None → IsFaultless (linked old new time t) }
    ensures unlink { (w : World) (t : Tree) (cpu : ℕ) (names : List (List ℕ)) (needed time : ℕ) → IsFaultless t
        → first_refusal (unlink_tests w t cpu (Some names) needed) ≡ None → IsFaultless (unlinked names time t) }
    ensures rmdir { (w : World) (t : Tree) (cpu : ℕ) (names : List (List ℕ)) (needed time : ℕ) → IsFaultless t → CountsNames t
        → first_refusal (rmdir_tests w t cpu (Some names) needed) ≡ None → IsFaultless (removed names time t) }
    ensures rename { (w : World) (t : Tree) (cpu : ℕ) (old new : List (List ℕ)) (needed time : ℕ) → IsFaultless t
        → first_refusal (rename_tests w t cpu (Some old) (Some new) needed) ≡ None → IsFaultless (renamed old new time t) }
    ensures replace { (w : World) (t : Tree) (cpu : ℕ) (old new : List (List ℕ)) (needed time : ℕ) → IsFaultless t → CountsNames t
        → first_refusal (replace_tests w t cpu (Some old) (Some new) needed) ≡ None → IsFaultless (replaced old new time t) }
{}

/// The calls that change bytes, sizes and attributes leave the graph of the tree.
pub fn bytes_leave_the_graph()
    ensures write { (t : Tree) (names : List (List ℕ)) (offset : ℕ) (bytes : List ℕ) (time : ℕ) → SameGraph (tree_graph t) (tree_graph (written names offset bytes time t)) }
    ensures size { (t : Tree) (names : List (List ℕ)) (size time : ℕ) → SameGraph (tree_graph t) (tree_graph (resized names size time t)) }
    ensures attributes { (t : Tree) (names : List (List ℕ)) (mode owner group time : ℕ) → SameGraph (tree_graph t) (tree_graph (attributed names mode owner group time t)) }
{}
