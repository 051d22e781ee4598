//! Who owns what once one inode changed, which blocks are free then, and the free lists that tell it.

ghost use Rattle.std.specs.Prelude.{◌≡◌, ◌⊎◌, ◌↔◌, ◌++◌, ℕ, eqb, List, Option, Some};
ghost use Rattle.std.specs.List.{Contains, IsDistinct};
ghost use Rattle.nv_super.specs.declared.owners.Run.{Run};
ghost use Rattle.nv_super.specs.Layout.{Layout};
ghost use Rattle.nv_alloc.specs.FreeValue.{FreeLists};
ghost use Rattle.nv_alloc.specs.FreeLists.{IsSound, JoinAll, Leave};
ghost use Rattle.nv_alloc.specs.Taking.{HasBlock};
ghost use Rattle.nv_mounted.specs.Held.{Held, Store, with_inode};
ghost use Rattle.nv_mounted.specs.Blocks.{IsUnowned, KeepsFree, NoneDoubled, OwnsNew};
ghost use Rattle.nv_mounted.specs.Lists.{TakeAll, WasTaken};
ghost use Rattle.nv_mounted.specs.Grows.{AreFree, GrowsByData, LetsGo, Maps, SameFile};

/// Where an inode owns its own blocks or free ones, each once, no block is doubled.
pub fn still_undoubled()
    ensures { (l : Layout) (held : Store) (i : ℕ) (new : Option Held) → OwnsNew l held i new → NoneDoubled l held → NoneDoubled l (with_inode held i new) }
{}

/// A log that grew by free pages owns them beside its own, each once.
pub fn grown_log_owns()
    ensures { (l : Layout) (held : Store) (i : ℕ) (h new : Held) (fresh : List ℕ) → held i ≡ Some h → new.pages ≡ h.pages ++ fresh → AreFree l held fresh → SameFile l h new
        → NoneDoubled l held → IsDistinct eqb new.pages → OwnsNew l held i (Some new) }
{}

/// Once a log grew by free pages, the free blocks are those of before but for these.
pub fn free_blocks_but_these()
    ensures { (l : Layout) (held : Store) (i : ℕ) (h new : Held) (fresh : List ℕ) → held i ≡ Some h → new.pages ≡ h.pages ++ fresh → AreFree l held fresh → SameFile l h new → (b : ℕ)
        → IsUnowned l (with_inode held i (Some new)) b ↔ (IsUnowned l held b × (Contains fresh b → ⊥)) }
{}

/// Once a log grew by free pages and its file by free blocks, it owns them beside what it kept, each once. The free blocks are
/// those of before that it didn't take, and those that it let go.
pub fn grown_by_data()
    ensures owns { (l : Layout) (held : Store) (i : ℕ) (h new : Held) (fresh : List ℕ) → held i ≡ Some h → GrowsByData l held h new fresh → NoneDoubled l held → IsDistinct eqb new.pages
        → OwnsNew l held i (Some new) }
    ensures free { (l : Layout) (held : Store) (i : ℕ) (h new : Held) (fresh : List ℕ) → held i ≡ Some h → GrowsByData l held h new fresh → NoneDoubled l held
        → (b : ℕ) → IsUnowned l (with_inode held i (Some new)) b ↔ ((IsUnowned l held b × (Contains fresh b → ⊥) × (Maps l new b → ⊥)) ⊎ LetsGo l h new b) }
{}

/// The free lists are those of what is held once the blocks were taken that aren't free any more.
pub fn lists_follow()
    ensures { (l : Layout) (held after : Store) (old new : FreeLists) (n : ℕ) (runs : List Run) → KeepsFree l held old.pools → IsSound new → new.sup ≡ l.sup → Leave old n runs new
        → ((b : ℕ) → IsUnowned l after b ↔ (IsUnowned l held b × (HasBlock runs b → ⊥))) → KeepsFree l after new.pools }
{}

/// The free lists are those of what is held once the blocks were given back that are free now.
pub fn lists_grow()
    ensures { (l : Layout) (held after : Store) (old new : FreeLists) (runs : List Run) → KeepsFree l held old.pools → old.sup ≡ l.sup → JoinAll old runs new
        → ((b : ℕ) → IsUnowned l after b ↔ (IsUnowned l held b ⊎ HasBlock runs b)) → KeepsFree l after new.pools }
{}

/// The free lists are those of what is held once blocks were taken, by one call or several, and others given back.
pub fn lists_change()
    ensures { (l : Layout) (held after : Store) (old mid new : FreeLists) (takes : List (List Run)) (runs : List Run) → KeepsFree l held old.pools → old.sup ≡ l.sup → TakeAll old takes mid
        → JoinAll mid runs new → ((b : ℕ) → IsUnowned l after b ↔ ((IsUnowned l held b × (WasTaken takes b → ⊥)) ⊎ HasBlock runs b)) → KeepsFree l after new.pools }
{}
