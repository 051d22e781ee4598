//! What a changed inode makes of the graph of what is held. By the laws of nv_graph no call makes a fault between inodes.

ghost use Rattle.std.specs.Prelude.{◌≡◌, ◌<◌, ◌≤◌, ℕ, List, [], ◌∷◌, Some, None};
ghost use Rattle.std.specs.List.{All};
ghost use Rattle.nv_super.specs.declared.kind.Kind.TheVariants.{File, Directory};
ghost use Rattle.nv_super.specs.Layout.{Layout};
ghost use Rattle.nv_entry.specs.declared.entry.AttrEntry.{AttrEntry};
ghost use Rattle.nv_entry.specs.declared.entry.Operation.TheVariants.{Add, Remove};
ghost use Rattle.nv_entry.specs.declared.entry.Entry.TheVariants.{Attr};
ghost use Rattle.nv_logpage.specs.declared.found.Placed.{Placed};
ghost use Rattle.nv_logpage.specs.Reads.{placed};
ghost use Rattle.nv_scan.specs.State.{named};
ghost use Rattle.nv_graph.specs.Calls.{with_node, with_name, SameGraph};
ghost use Rattle.nv_graph.specs.Step.{IsGoodName, IsQuiet, links_entry, name_entry};
ghost use Rattle.nv_mounted.specs.Held.{Held, Store, good_in, with_inode};
ghost use Rattle.nv_mounted.specs.Graph.{graph_in, node_in};
ghost use Rattle.nv_mounted.specs.Grows.{SameNames, grown};

/// The graph stays where one inode changed and its names and link count didn't, as where its log grew by entries that say
/// nothing of either.
pub fn graph_touched()
    ensures same { (l : Layout) (held : Store) (i : ℕ) (h new : Held) → held i ≡ Some h → SameNames l h new → SameGraph (graph_in l held) (graph_in l (with_inode held i (Some new))) }
    ensures quiet { (l : Layout) (h : Held) (tail : ℕ) (more : List Placed) (fresh : List ℕ) → All IsQuiet more → SameNames l h (grown h tail more fresh) }
{}

/// A directory has a name more once its log grew by the entry for it.
pub fn graph_more()
    ensures { (l : Layout) (held : Store) (d : ℕ) (h : Held) (tail at i : ℕ) (name : List ℕ) (time : ℕ) (fresh : List ℕ) → held d ≡ Some h → h.kind ≡ Directory → IsGoodName l.sup i name
        → SameGraph (with_name (graph_in l held) d name (Some i)) (graph_in l (with_inode held d (Some (grown h tail (name_entry at Add i name time ∷ []) fresh)))) }
{}

/// A directory has a name less once its log grew by the entry that removes it.
pub fn graph_less()
    ensures { (l : Layout) (held : Store) (d : ℕ) (h : Held) (tail at i : ℕ) (name : List ℕ) (time : ℕ) (fresh : List ℕ) → held d ≡ Some h → h.kind ≡ Directory → IsGoodName l.sup i name
        → SameGraph (with_name (graph_in l held) d name None) (graph_in l (with_inode held d (Some (grown h tail (name_entry at Remove i name time ∷ []) fresh)))) }
{}

/// A directory has another name in place of one once its log grew by both entries.
pub fn graph_moved()
    ensures { (l : Layout) (held : Store) (d : ℕ) (h : Held) (tail at next i : ℕ) (name other : List ℕ) (time : ℕ) (fresh : List ℕ) → held d ≡ Some h → h.kind ≡ Directory
        → IsGoodName l.sup i name → IsGoodName l.sup i other
        → SameGraph (with_name (with_name (graph_in l held) d name None) d other (Some i)) (graph_in l
        (with_inode held d (Some (grown h tail (name_entry at Remove i name time ∷ name_entry next Add i other time ∷ []) fresh)))) }
{}

/// A file has this link count once its log grew by the entry for it.
pub fn graph_linked()
    ensures { (l : Layout) (held : Store) (i : ℕ) (h : Held) (tail at count time : ℕ) (fresh : List ℕ) → held i ≡ Some h → h.kind ≡ File → 0 < count → count ≤ 1000
        → SameGraph (with_node (graph_in l held) i (Some (record { kind = h.kind; links = count }))) (graph_in l (with_inode held i (Some (grown h tail (links_entry at count time ∷ []) fresh)))) }
{}

/// A new inode without names in it is a node more; one whose log is an attributes entry has no names and one link.
pub fn graph_came()
    ensures node { (l : Layout) (held : Store) (i : ℕ) (new : Held) → held i ≡ None → ((q : List ℕ) → named (good_in l new) q ≡ None)
        → SameGraph (with_node (graph_in l held) i (Some (node_in l new))) (graph_in l (with_inode held i (Some new))) }
    ensures attributes { (l : Layout) (held : Store) (i : ℕ) (new : Held) (at : ℕ) (e : AttrEntry) → held i ≡ None → new.entries ≡ placed at (Attr e) ∷ []
        → SameGraph (with_node (graph_in l held) i (Some (record { kind = new.kind; links = 1 }))) (graph_in l (with_inode held i (Some new))) }
{}

/// A file that went, or a directory without names, is a node less.
pub fn graph_went()
    ensures file { (l : Layout) (held : Store) (i : ℕ) (h : Held) → held i ≡ Some h → h.kind ≡ File → SameGraph (with_node (graph_in l held) i None) (graph_in l (with_inode held i None)) }
    ensures empty { (l : Layout) (held : Store) (i : ℕ) (h : Held) → held i ≡ Some h → ((name : List ℕ) → (graph_in l held).name i name ≡ None)
        → SameGraph (with_node (graph_in l held) i None) (graph_in l (with_inode held i None)) }
{}
