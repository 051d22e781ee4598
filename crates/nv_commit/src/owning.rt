//! Who owns what, and which blocks are free, once an inode came or went. What a log that grew owns is told by nv_mounted.

ghost use Rattle.std.specs.Prelude.{◌≡◌, ◌≢◌, ◌⊎◌, ◌↔◌, ◌<◌, ◌≤◌, ℕ, List, [], ◌∷◌, Some, None};
ghost use Rattle.std.specs.List.{All, Contains};
ghost use Rattle.nv_super.specs.Layout.{Layout, system_blocks};
ghost use Rattle.nv_entry.specs.declared.entry.AttrEntry.{AttrEntry};
ghost use Rattle.nv_entry.specs.declared.entry.Entry.TheVariants.{Attr};
ghost use Rattle.nv_logpage.specs.declared.found.Placed.{Placed};
ghost use Rattle.nv_logpage.specs.Reads.{placed};
ghost use Rattle.nv_mounted.specs.Held.{Held, Store, with_inode};
ghost use Rattle.nv_mounted.specs.Blocks.{IsUnowned, NoneDoubled, OwnsNew};
ghost use Rattle.nv_mounted.specs.Grows.{Maps, SameFile, grown};
ghost use Rattle.nv_commit.specs.Pages.{MapsNothing, SaysNoPage};

/// Entries that say nothing of pages leave a file's blocks. An inode whose log is one attributes entry has none.
pub fn no_page_is_said()
    ensures stays { (l : Layout) (h : Held) (tail : ℕ) (more : List Placed) (fresh : List ℕ) → All SaysNoPage more → SameFile l h (grown h tail more fresh) }
    ensures attributes { (l : Layout) (new : Held) (at : ℕ) (e : AttrEntry) → new.entries ≡ placed at (Attr e) ∷ [] → MapsNothing l new }
{}

/// A new inode whose log is one free page owns that page and nothing else. The free blocks are those of before but for it.
pub fn begun_log_owns()
    ensures owns { (l : Layout) (held : Store) (i : ℕ) (new : Held) (page : ℕ) → held i ≡ None → new.pages ≡ page ∷ [] → IsUnowned l held page → MapsNothing l new → OwnsNew l held i (Some new) }
    ensures free { (l : Layout) (held : Store) (i : ℕ) (new : Held) (page : ℕ) → held i ≡ None → new.pages ≡ page ∷ [] → IsUnowned l held page → MapsNothing l new
        → (b : ℕ) → IsUnowned l (with_inode held i (Some new)) b ↔ (IsUnowned l held b × (b ≢ page)) }
{}

/// Once an inode is gone, the free blocks are those of before, the pages of its log, which are data blocks, and the blocks of
/// its file.
pub fn gone_blocks_are_free()
    ensures { (l : Layout) (held : Store) (i : ℕ) (f : Held) → held i ≡ Some f → NoneDoubled l held → ((b : ℕ) → Contains f.pages b → (system_blocks l.sup ≤ b) × (b < l.sup.blocks))
        → (b : ℕ) → IsUnowned l (with_inode held i None) b ↔ (IsUnowned l held b ⊎ (Contains f.pages b ⊎ Maps l f b)) }
{}
