//! Laws of `replace`: where the new name is unused it is `rename`. Else the inode of that name goes, or loses a link, and all other
//! names stand for what they did.

ghost use Rattle.std.specs.Prelude.{◌≡◌, ℕ, ◌<◌, ◌≤◌, ◌-◌, true, false, List, ◌∷◌, Some, None};
ghost use Rattle.nv_tree.specs.Path.{last_name};
ghost use Rattle.nv_tree.specs.Tree.{Node, Tree, found};
ghost use Rattle.nv_tree.specs.Calls.{links_at, renamed, with_links};
ghost use Rattle.nv_tree.specs.Refusals.{Path, World, first_refusal, is_directory_at, rename_tests};
ghost use Rattle.nv_tree.specs.Replace.{Replaces, replaced, replace_tests};
ghost use Rattle.nv_tree.specs.Laws.{KeepsSameness, IsSeenAlike, HasNoNames, SetsName};

/// Where the new path leads to no inode in use, `replace` is `rename`, and is refused as it is. Where both paths lead to one inode,
/// it changes nothing.
pub fn replace_is_rename()
    ensures unused { (t : Tree) (old new : List (List ℕ)) (time : ℕ) → found t new ≡ None → replaced old new time t ≡ renamed old new time t }
    ensures refused { (w : World) (t : Tree) (cpu : ℕ) (p : Path) (new : List (List ℕ)) (needed : ℕ) → found t new ≡ None
        → first_refusal (replace_tests w t cpu p (Some new) needed) ≡ first_refusal (rename_tests w t cpu p (Some new) needed) }
    ensures one { (t : Tree) (old new : List (List ℕ)) (i time : ℕ) → found t old ≡ Some i → found t new ≡ Some i → replaced old new time t ≡ t }
{}

/// Of trees that nobody can tell apart it makes such trees, and it has the same tests there.
pub fn replace_keeps_sameness()
    ensures made { (old new : List (List ℕ)) (time : ℕ) → KeepsSameness (replaced old new time) }
    ensures refused { (w : World) (cpu : ℕ) (p q : Path) (needed : ℕ) → IsSeenAlike (λ t. replace_tests w t cpu p q needed) }
{}

/// Where the new name stands for another inode, a file or a directory without names, that name is removed, then the old one, and
/// then the new one is made. Every other name stands for what it did. Where what is moved has no names either, the new path leads
/// to it.
pub fn names_after_replace()
    ensures names { (t : Tree) (i j d e : ℕ) (first : List ℕ) (old : List (List ℕ)) (name : List ℕ) (new : List (List ℕ)) (time : ℕ) → Replaces t (first ∷ old) (name ∷ new) i j d e
        → (gone : Tree) × (without : Tree) × SetsName t e (last_name (name ∷ new)) None gone × SetsName gone d (last_name (first ∷ old)) None without
        × SetsName without e (last_name (name ∷ new)) (Some i) (replaced (first ∷ old) (name ∷ new) time t) }
    ensures found { (t : Tree) (i j d e : ℕ) (first : List ℕ) (old : List (List ℕ)) (name : List ℕ) (new : List (List ℕ)) (time : ℕ) → Replaces t (first ∷ old) (name ∷ new) i j d e
        → HasNoNames t i → found (replaced (first ∷ old) (name ∷ new) time t) (name ∷ new) ≡ Some i }
{}

/// The inode whose name was taken is gone where it is a directory or had one link. Else it has a link less.
pub fn inode_after_replace()
    ensures directory { (t : Tree) (i j d e : ℕ) (first : List ℕ) (old : List (List ℕ)) (name : List ℕ) (new : List (List ℕ)) (time : ℕ) → Replaces t (first ∷ old) (name ∷ new) i j d e
        → is_directory_at t j ≡ true → replaced (first ∷ old) (name ∷ new) time t j ≡ None }
    ensures last { (t : Tree) (i j d e : ℕ) (first : List ℕ) (old : List (List ℕ)) (name : List ℕ) (new : List (List ℕ)) (time : ℕ) → Replaces t (first ∷ old) (name ∷ new) i j d e
        → is_directory_at t j ≡ false → links_at t j ≤ 1 → replaced (first ∷ old) (name ∷ new) time t j ≡ None }
    ensures more { (t : Tree) (i j d e : ℕ) (first : List ℕ) (old : List (List ℕ)) (name : List ℕ) (new : List (List ℕ)) (time : ℕ) (node : Node) → Replaces t (first ∷ old) (name ∷ new) i j d e
        → is_directory_at t j ≡ false → t j ≡ Some node → 1 < node.links → replaced (first ∷ old) (name ∷ new) time t j ≡ Some (with_links (node.links - 1) time node) }
{}
