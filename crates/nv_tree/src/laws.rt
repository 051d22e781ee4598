//! Laws of the tree machine. Each text says one path, or that it is none. What nobody can tell apart stays so. What is
//! written is read back. A call that makes, moves or removes a name leaves all other names.

ghost use Rattle.std.specs.Prelude.{◌≡◌, ℕ, ◌+◌, ◌<◌, ◌≤◌, ◌⊎◌, ◌↔◌, All, List, ◌∷◌, length, Option, Some, None, Ok};
ghost use Rattle.nv_super.specs.declared.kind.Kind.{Kind};
ghost use Rattle.nv_tree.specs.declared.refusal.Refusal.{Refusal};
ghost use Rattle.nv_tree.specs.Path.{Says, last_name};
ghost use Rattle.nv_tree.specs.Tree.{Node, Tree, SameNode, SameTree, walk, found, passed};
ghost use Rattle.nv_tree.specs.Calls.{with_bytes, with_size, created, written, resized, attributed, linked, unlinked, removed, renamed, bytes_read};
ghost use Rattle.nv_tree.specs.Refusals.{Tests, first_refusal, World, Path, create_tests, write_tests, set_size_tests, set_attr_tests, link_tests, unlink_tests, rmdir_tests, rename_tests, read_tests};
ghost use Rattle.nv_tree.specs.Refusals.{list_tests, stat_tests};
ghost use Rattle.nv_tree.specs.Laws.{KeepsSameness, IsSeenAlike, Fails, IsFirstRefusal, HasNoNames, SetsName};

/// Each text says one path, or that it is none.
pub fn each_text_says_one()
    ensures some { (text : List ℕ) → (p : Path) × Says text p }
    ensures one { (text : List ℕ) (p q : Path) → Says text p → Says text q → p ≡ q }
{}

/// That nobody can tell two trees apart is an equivalence.
pub fn same_tree()
    ensures itself { (t : Tree) → SameTree t t }
    ensures symmetric { (t u : Tree) → SameTree t u → SameTree u t }
    ensures transitive { (t u v : Tree) → SameTree t u → SameTree u v → SameTree t v }
{}

/// A call makes trees that nobody can tell apart of such trees.
pub fn calls_keep_sameness()
    ensures created { (kind : Kind) (unused : Option ℕ) (names : List (List ℕ)) (mode time : ℕ) → KeepsSameness (created kind unused names mode time) }
    ensures written { (names : List (List ℕ)) (offset : ℕ) (bytes : List ℕ) (time : ℕ) → KeepsSameness (written names offset bytes time) }
    ensures resized { (names : List (List ℕ)) (size time : ℕ) → KeepsSameness (resized names size time) }
    ensures attributed { (names : List (List ℕ)) (mode owner group time : ℕ) → KeepsSameness (attributed names mode owner group time) }
    ensures linked { (old new : List (List ℕ)) (time : ℕ) → KeepsSameness (linked old new time) }
    ensures unlinked { (names : List (List ℕ)) (time : ℕ) → KeepsSameness (unlinked names time) }
    ensures removed { (names : List (List ℕ)) (time : ℕ) → KeepsSameness (removed names time) }
    ensures renamed { (old new : List (List ℕ)) (time : ℕ) → KeepsSameness (renamed old new time) }
{}

/// Paths lead to the same inodes in trees that nobody can tell apart, and the same bytes are read there.
pub fn paths_lead_alike()
    ensures walk { (d : ℕ) (names : List (List ℕ)) → IsSeenAlike (λ t. walk t d names) }
    ensures found { (names : List (List ℕ)) → IsSeenAlike (λ t. found t names) }
    ensures passed { (d : ℕ) (names : List (List ℕ)) → IsSeenAlike (λ t. passed t d names) }
    ensures bytes { (offset count : ℕ) (a b : Node) → SameNode a b → bytes_read offset count a ≡ bytes_read offset count b }
{}

/// The same tests of the calls that change hold in trees that nobody can tell apart, so a call has the same first refusal
/// there.
pub fn refusals_are_alike()
    ensures create { (w : World) (cpu : ℕ) (p : Path) (needed : ℕ) → IsSeenAlike (λ t. create_tests w t cpu p needed) }
    ensures write { (w : World) (cpu : ℕ) (p : Path) (end needed : ℕ) → IsSeenAlike (λ t. write_tests w t cpu p end needed) }
    ensures set_size { (w : World) (cpu : ℕ) (p : Path) (size needed : ℕ) → IsSeenAlike (λ t. set_size_tests w t cpu p size needed) }
    ensures set_attr { (w : World) (cpu : ℕ) (p : Path) (needed : ℕ) → IsSeenAlike (λ t. set_attr_tests w t cpu p needed) }
    ensures link { (w : World) (cpu : ℕ) (p q : Path) (needed : ℕ) → IsSeenAlike (λ t. link_tests w t cpu p q needed) }
    ensures unlink { (w : World) (cpu : ℕ) (p : Path) (needed : ℕ) → IsSeenAlike (λ t. unlink_tests w t cpu p needed) }
    ensures rmdir { (w : World) (cpu : ℕ) (p : Path) (needed : ℕ) → IsSeenAlike (λ t. rmdir_tests w t cpu p needed) }
    ensures rename { (w : World) (cpu : ℕ) (p q : Path) (needed : ℕ) → IsSeenAlike (λ t. rename_tests w t cpu p q needed) }
{}

/// The same tests of the calls that only look hold in trees that nobody can tell apart.
pub fn looks_are_refused_alike()
    ensures read { (p : Path) → IsSeenAlike (λ t. read_tests t p) }
    ensures list { (p : Path) → IsSeenAlike (λ t. list_tests t p) }
    ensures stat { (p : Path) → IsSeenAlike (λ t. stat_tests t p) }
{}

/// The first refusal is that of the first test that holds, and there is none where no test holds.
pub fn first_refusal_is_first()
    ensures some { (tests : Tests) (r : Refusal) → (first_refusal tests ≡ Some r) ↔ IsFirstRefusal tests r }
    ensures none { (tests : Tests) → (first_refusal tests ≡ None) ↔ All Fails tests }
{}

/// What was written is read, every other byte that the file had stays, and a gap reads as zeros. A new size leaves the bytes
/// below it and below the old one, and what was lengthened reads as zeros.
pub fn read_back()
    ensures new { (offset time : ℕ) (new : List ℕ) (node : Node) → bytes_read offset (length new) (with_bytes offset new time node) ≡ new }
    ensures others { (offset time : ℕ) (new : List ℕ) (node : Node) (x : ℕ) → x < node.size → (x < offset) ⊎ (offset + length new ≤ x) → (with_bytes offset new time node).bytes x ≡ node.bytes x }
    ensures gap { (offset time : ℕ) (new : List ℕ) (node : Node) (x : ℕ) → node.size ≤ x → x < offset → (with_bytes offset new time node).bytes x ≡ 0 }
    ensures resized { (size time : ℕ) (node : Node) (x : ℕ) → x < node.size → (with_size size time node).bytes x ≡ node.bytes x }
    ensures lengthened { (size time : ℕ) (node : Node) (x : ℕ) → node.size ≤ x → (with_size size time node).bytes x ≡ 0 }
{}

/// Where an unused number got a name that stood for no inode in use, the path leads there. Each path that led to an inode
/// leads there still, and every other name stands for what it did.
pub fn names_after_create()
    ensures found { (t : Tree) (kind : Kind) (i d : ℕ) (name : List ℕ) (names : List (List ℕ)) (mode time : ℕ) → t i ≡ None → walk t 1 (name ∷ names) ≡ Ok d → found t (name ∷ names) ≡ None
        → found (created kind (Some i) (name ∷ names) mode time t) (name ∷ names) ≡ Some i }
    ensures paths { (t : Tree) (kind : Kind) (i d : ℕ) (name : List ℕ) (names : List (List ℕ)) (mode time : ℕ) → t i ≡ None → walk t 1 (name ∷ names) ≡ Ok d → found t (name ∷ names) ≡ None
        → (path : List (List ℕ)) (j : ℕ) → found t path ≡ Some j → found (created kind (Some i) (name ∷ names) mode time t) path ≡ Some j }
    ensures names { (t : Tree) (kind : Kind) (i d : ℕ) (name : List ℕ) (names : List (List ℕ)) (mode time : ℕ) → t i ≡ None → walk t 1 (name ∷ names) ≡ Ok d
        → SetsName t d (last_name (name ∷ names)) (Some i) (created kind (Some i) (name ∷ names) mode time t) }
{}

/// Where an inode got one more name, which stood for no inode in use, the new path leads there. Each path that led to an
/// inode leads there still, and every other name stands for what it did.
pub fn names_after_link()
    ensures found { (t : Tree) (old : List (List ℕ)) (i d : ℕ) (name : List ℕ) (names : List (List ℕ)) (time : ℕ) → found t old ≡ Some i → walk t 1 (name ∷ names) ≡ Ok d
        → found t (name ∷ names) ≡ None
        → found (linked old (name ∷ names) time t) (name ∷ names) ≡ Some i }
    ensures paths { (t : Tree) (old : List (List ℕ)) (i d : ℕ) (name : List ℕ) (names : List (List ℕ)) (time : ℕ) → found t old ≡ Some i → walk t 1 (name ∷ names) ≡ Ok d
        → found t (name ∷ names) ≡ None
        → (path : List (List ℕ)) (j : ℕ) → found t path ≡ Some j → found (linked old (name ∷ names) time t) path ≡ Some j }
    ensures names { (t : Tree) (old : List (List ℕ)) (i d : ℕ) (name : List ℕ) (names : List (List ℕ)) (time : ℕ) → found t old ≡ Some i → walk t 1 (name ∷ names) ≡ Ok d
        → SetsName t d (last_name (name ∷ names)) (Some i) (linked old (name ∷ names) time t) }
{}

/// Where a name was removed with a file or an empty directory, it stands for nothing, and every other name for what it did.
pub fn names_after_removal()
    ensures unlinked { (t : Tree) (i d : ℕ) (names : List (List ℕ)) (time : ℕ) → found t names ≡ Some i → walk t 1 names ≡ Ok d → HasNoNames t i
        → SetsName t d (last_name names) None (unlinked names time t) }
    ensures removed { (t : Tree) (i d : ℕ) (names : List (List ℕ)) (time : ℕ) → found t names ≡ Some i → walk t 1 names ≡ Ok d → HasNoNames t i
        → SetsName t d (last_name names) None (removed names time t) }
{}

/// A rename is the removal of the old name and then the making of the new one, and every other name stands for what it did.
pub fn names_after_rename()
    ensures { (t : Tree) (old : List (List ℕ)) (i d e : ℕ) (name : List ℕ) (names : List (List ℕ)) (time : ℕ) → found t old ≡ Some i → walk t 1 old ≡ Ok d → walk t 1 (name ∷ names) ≡ Ok e
        → (without : Tree) × SetsName t d (last_name old) None without × SetsName without e (last_name (name ∷ names)) (Some i) (renamed old (name ∷ names) time t) }
{}
