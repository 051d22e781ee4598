//! Nothing is wrong with what is held once a name of one inode was given to another, by the blocks that the changed inodes own.

ghost use Rattle.std.specs.Prelude.{◌≡◌, ◌≢◌, ◌<◌, ◌≤◌, ◌-◌, ℕ, List, [], ◌∷◌, Some, None};
ghost use Rattle.nv_super.specs.declared.kind.Kind.TheVariants.{File};
ghost use Rattle.nv_super.specs.Layout.{Layout, most_links};
ghost use Rattle.nv_entry.specs.declared.entry.Operation.TheVariants.{Remove};
ghost use Rattle.nv_graph.specs.Step.{links_entry, name_entry};
ghost use Rattle.nv_mounted.specs.Held.{Held, Store, with_inode};
ghost use Rattle.nv_mounted.specs.Blocks.{OwnsNew};
ghost use Rattle.nv_mounted.specs.Graph.{node_in};
ghost use Rattle.nv_mounted.specs.Grows.{grown};
ghost use Rattle.nv_mounted.specs.Mounted.{IsFaultless};
ghost use Rattle.nv_commit.specs.ReplacedNames.{CanGo, CanTakeName, taking_entries};

/// A directory has a name less, and another has a name for its inode that stood for a second one. That one is gone, a file with its
/// last link or a directory without names, or it is a file that counts a link less.
pub fn taken_name_is_faultless()
    ensures gone { (l : Layout) (held : Store) (d : ℕ) (h : Held) (name : List ℕ) (path : List (List ℕ)) (e : ℕ)
        (k : Held) (other : List ℕ) (i j : ℕ) (f : Held) (at time tail : ℕ) (fresh : List ℕ) (next last end : ℕ) (pages : List ℕ)
        → CanTakeName l held d h name path e k other i j f → e ≢ d → CanGo l held j f
        → OwnsNew l held d (Some (grown h tail (name_entry at Remove i name time ∷ []) fresh))
        → OwnsNew l (with_inode held d (Some (grown h tail (name_entry at Remove i name time ∷ []) fresh))) e (Some (grown k end (taking_entries i j other time next last) pages))
        → IsFaultless l (with_inode
        (with_inode (with_inode held d (Some (grown h tail (name_entry at Remove i name time ∷ []) fresh))) e (Some (grown k end (taking_entries i j other time next last) pages))) j None) }
    ensures less { (l : Layout) (held : Store) (d : ℕ) (h : Held) (name : List ℕ) (path : List (List ℕ)) (e : ℕ) (k : Held) (other : List ℕ)
        (i j : ℕ) (f : Held) (at time tail : ℕ) (fresh : List ℕ) (next last end : ℕ) (pages : List ℕ) (file_at file_tail : ℕ) (file_fresh : List ℕ)
        → CanTakeName l held d h name path e k other i j f → e ≢ d → f.kind ≡ File → 1 < (node_in l f).links → (node_in l f).links ≤ most_links
        → OwnsNew l held d (Some (grown h tail (name_entry at Remove i name time ∷ []) fresh))
        → OwnsNew l (with_inode held d (Some (grown h tail (name_entry at Remove i name time ∷ []) fresh))) e (Some (grown k end (taking_entries i j other time next last) pages))
        → OwnsNew l (with_inode (with_inode held d (Some (grown h tail (name_entry at Remove i name time ∷ []) fresh))) e
        (Some (grown k end (taking_entries i j other time next last) pages))) j (Some (grown f file_tail (links_entry file_at ((node_in l f).links - 1) time ∷ []) file_fresh))
        → IsFaultless l (with_inode
        (with_inode (with_inode held d (Some (grown h tail (name_entry at Remove i name time ∷ []) fresh))) e
        (Some (grown k end (taking_entries i j other time next last) pages))) j (Some (grown f file_tail (links_entry file_at ((node_in l f).links - 1) time ∷ []) file_fresh))) }
    // Within one directory.
    ensures gone_here { (l : Layout) (held : Store) (d : ℕ) (h : Held) (name : List ℕ) (path : List (List ℕ)) (other : List ℕ) (i j : ℕ) (f : Held) (at time tail : ℕ) (fresh : List ℕ) (next last : ℕ)
        → CanTakeName l held d h name path d h other i j f → CanGo l held j f
        → OwnsNew l held d (Some (grown h tail (name_entry at Remove i name time ∷ taking_entries i j other time next last) fresh))
        → IsFaultless l (with_inode (with_inode held d (Some (grown h tail (name_entry at Remove i name time ∷ taking_entries i j other time next last) fresh))) j None) }
    ensures less_here { (l : Layout) (held : Store) (d : ℕ) (h : Held) (name : List ℕ) (path : List (List ℕ)) (other : List ℕ)
        (i j : ℕ) (f : Held) (at time tail : ℕ) (fresh : List ℕ) (next last : ℕ) (file_at file_tail : ℕ) (file_fresh : List ℕ)
        → CanTakeName l held d h name path d h other i j f → f.kind ≡ File → 1 < (node_in l f).links → (node_in l f).links ≤ most_links
        → OwnsNew l held d (Some (grown h tail (name_entry at Remove i name time ∷ taking_entries i j other time next last) fresh))
        → OwnsNew l (with_inode held d (Some (grown h tail (name_entry at Remove i name time ∷ taking_entries i j other time next last) fresh))) j
        (Some (grown f file_tail (links_entry file_at ((node_in l f).links - 1) time ∷ []) file_fresh))
        → IsFaultless l (with_inode (with_inode held d (Some (grown h tail (name_entry at Remove i name time ∷ taking_entries i j other time next last) fresh))) j
        (Some (grown f file_tail (links_entry file_at ((node_in l f).links - 1) time ∷ []) file_fresh))) }
{}
