//! Nothing is wrong with what is held once a call on names is done, by the blocks that the changed inodes own.

ghost use Rattle.std.specs.Prelude.{◌≡◌, ◌≢◌, ◌<◌, ◌≤◌, ◌+◌, ◌-◌, ℕ, false, List, [], ◌∷◌, Some, None};
ghost use Rattle.std.specs.List.{Contains};
ghost use Rattle.nv_super.specs.declared.kind.Kind.TheVariants.{File, Directory};
ghost use Rattle.nv_super.specs.Layout.{Layout, most_links};
ghost use Rattle.nv_entry.specs.Content.{is_attr_out_of_range};
ghost use Rattle.nv_entry.specs.declared.entry.AttrEntry.{AttrEntry};
ghost use Rattle.nv_entry.specs.declared.entry.Operation.TheVariants.{Add, Remove};
ghost use Rattle.nv_entry.specs.declared.entry.Entry.TheVariants.{Attr};
ghost use Rattle.nv_logpage.specs.Reads.{placed};
ghost use Rattle.nv_graph.specs.Graph.{IsOfKind, passed, walked};
ghost use Rattle.nv_graph.specs.Step.{IsGoodName, links_entry, name_entry};
ghost use Rattle.nv_mounted.specs.Held.{Held, Store, with_inode};
ghost use Rattle.nv_mounted.specs.Blocks.{OwnsNew};
ghost use Rattle.nv_mounted.specs.Graph.{graph_in, node_in};
ghost use Rattle.nv_mounted.specs.Grows.{grown};
ghost use Rattle.nv_mounted.specs.Mounted.{IsFaultless};

/// A directory has a name more, which it didn't have, and a new inode stands for it, whose log is one attributes entry.
pub fn created_is_faultless()
    ensures { (l : Layout) (held : Store) (d : ℕ) (h : Held) (i : ℕ) (name : List ℕ) (at time tail : ℕ) (fresh : List ℕ) (new : Held) (place : ℕ) (e : AttrEntry) → IsFaultless l held
        → held d ≡ Some h → h.kind ≡ Directory → IsGoodName l.sup i name
        → held i ≡ None → new.entries ≡ placed place (Attr e) ∷ [] → is_attr_out_of_range new.kind e ≡ false → (graph_in l held).name d name ≡ None
        → OwnsNew l held i (Some new) → OwnsNew l (with_inode held i (Some new)) d (Some (grown h tail (name_entry at Add i name time ∷ []) fresh))
        → IsFaultless l (with_inode (with_inode held i (Some new)) d (Some (grown h tail (name_entry at Add i name time ∷ []) fresh))) }
{}

/// A directory has a name less, and the file that had no other link, or the directory without names, is gone.
pub fn removed_is_faultless()
    ensures file { (l : Layout) (held : Store) (d : ℕ) (h : Held) (i : ℕ) (f : Held) (name : List ℕ) (at time tail : ℕ) (fresh : List ℕ) → IsFaultless l held → held d ≡ Some h
        → h.kind ≡ Directory → IsGoodName l.sup i name
        → held i ≡ Some f → (graph_in l held).name d name ≡ Some i → OwnsNew l held d (Some (grown h tail (name_entry at Remove i name time ∷ []) fresh)) → f.kind ≡ File → (node_in l f).links ≤ 1
        → IsFaultless l (with_inode (with_inode held d (Some (grown h tail (name_entry at Remove i name time ∷ []) fresh))) i None) }
    ensures directory { (l : Layout) (held : Store) (d : ℕ) (h : Held) (i : ℕ) (f : Held) (name : List ℕ) (at time tail : ℕ) (fresh : List ℕ) → IsFaultless l held → held d ≡ Some h
        → h.kind ≡ Directory → IsGoodName l.sup i name
        → held i ≡ Some f → (graph_in l held).name d name ≡ Some i → OwnsNew l held d (Some (grown h tail (name_entry at Remove i name time ∷ []) fresh)) → f.kind ≡ Directory
        → ((q : List ℕ) → (graph_in l held).name i q ≡ None)
        → IsFaultless l (with_inode (with_inode held d (Some (grown h tail (name_entry at Remove i name time ∷ []) fresh))) i None) }
{}

/// A file counts a link more, and a directory has a name more for it, which it didn't have.
pub fn linked_is_faultless()
    ensures { (l : Layout) (held : Store) (d : ℕ) (h : Held) (i : ℕ) (f : Held) (name : List ℕ) (at time tail : ℕ) (fresh : List ℕ) (file_at file_tail : ℕ) (file_fresh : List ℕ)
        → IsFaultless l held → held d ≡ Some h → h.kind ≡ Directory → IsGoodName l.sup i name
        → held i ≡ Some f → f.kind ≡ File → (node_in l f).links < most_links → (graph_in l held).name d name ≡ None
        → OwnsNew l held i (Some (grown f file_tail (links_entry file_at ((node_in l f).links + 1) time ∷ []) file_fresh))
        → OwnsNew l (with_inode held i (Some (grown f file_tail (links_entry file_at ((node_in l f).links + 1) time ∷ []) file_fresh))) d
        (Some (grown h tail (name_entry at Add i name time ∷ []) fresh))
        → IsFaultless l (with_inode (with_inode held i (Some (grown f file_tail (links_entry file_at ((node_in l f).links + 1) time ∷ []) file_fresh))) d
        (Some (grown h tail (name_entry at Add i name time ∷ []) fresh))) }
{}

/// A directory has a name less, and the file that it stood for, which has others, counts a link less.
pub fn unlinked_is_faultless()
    ensures { (l : Layout) (held : Store) (d : ℕ) (h : Held) (i : ℕ) (f : Held) (name : List ℕ) (at time tail : ℕ) (fresh : List ℕ) (file_at file_tail : ℕ) (file_fresh : List ℕ)
        → IsFaultless l held → held d ≡ Some h → h.kind ≡ Directory → IsGoodName l.sup i name
        → held i ≡ Some f → f.kind ≡ File → 1 < (node_in l f).links → (node_in l f).links ≤ most_links → (graph_in l held).name d name ≡ Some i
        → OwnsNew l held d (Some (grown h tail (name_entry at Remove i name time ∷ []) fresh))
        → OwnsNew l (with_inode held d (Some (grown h tail (name_entry at Remove i name time ∷ []) fresh))) i
        (Some (grown f file_tail (links_entry file_at ((node_in l f).links - 1) time ∷ []) file_fresh))
        → IsFaultless l (with_inode (with_inode held d (Some (grown h tail (name_entry at Remove i name time ∷ []) fresh))) i
        (Some (grown f file_tail (links_entry file_at ((node_in l f).links - 1) time ∷ []) file_fresh))) }
{}

/// A directory has a name less, and another, or itself, has a name more for the same inode, which it didn't have. A directory is
/// moved only where the path that leads to the new name's directory doesn't pass it.
pub fn renamed_is_faultless()
    ensures two { (l : Layout) (held : Store) (d : ℕ) (h : Held) (i : ℕ) (name : List ℕ) (at time tail : ℕ) (fresh : List ℕ) (e : ℕ) (k : Held) (other : List ℕ)
        (path : List (List ℕ)) (next end : ℕ) (pages : List ℕ) → IsFaultless l held → held d ≡ Some h → h.kind ≡ Directory → IsGoodName l.sup i name → IsGoodName l.sup i other
        → (graph_in l held).name d name ≡ Some i → walked (graph_in l held) 1 path ≡ Some e → (graph_in l held).name e other ≡ None
        → (IsOfKind (graph_in l held) i Directory → Contains (passed (graph_in l held) 1 path) i → ⊥)
        → held e ≡ Some k → k.kind ≡ Directory → e ≢ d → OwnsNew l held d (Some (grown h tail (name_entry at Remove i name time ∷ []) fresh))
        → OwnsNew l (with_inode held d (Some (grown h tail (name_entry at Remove i name time ∷ []) fresh))) e (Some (grown k end (name_entry next Add i other time ∷ []) pages))
        → IsFaultless l (with_inode (with_inode held d (Some (grown h tail (name_entry at Remove i name time ∷ []) fresh))) e (Some (grown k end (name_entry next Add i other time ∷ []) pages))) }
    ensures one { (l : Layout) (held : Store) (d : ℕ) (h : Held) (i : ℕ) (name : List ℕ) (at time tail : ℕ) (fresh : List ℕ) (other : List ℕ) (path : List (List ℕ)) (next : ℕ)
        → IsFaultless l held → held d ≡ Some h → h.kind ≡ Directory → IsGoodName l.sup i name → IsGoodName l.sup i other
        → (graph_in l held).name d name ≡ Some i → walked (graph_in l held) 1 path ≡ Some d → (graph_in l held).name d other ≡ None
        → (IsOfKind (graph_in l held) i Directory → Contains (passed (graph_in l held) 1 path) i → ⊥)
        → OwnsNew l held d (Some (grown h tail (name_entry at Remove i name time ∷ name_entry next Add i other time ∷ []) fresh))
        → IsFaultless l (with_inode held d (Some (grown h tail (name_entry at Remove i name time ∷ name_entry next Add i other time ∷ []) fresh))) }
{}
