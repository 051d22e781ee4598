//! What is held once a page was taken out of a log.

ghost use Rattle.std.specs.Prelude.{◌≡◌, ◌⊎◌, ◌↔◌, ◌+◌, ◌<◌, ℕ, length, get_or, Some};
ghost use Rattle.nv_region.specs.Region.{Region};
ghost use Rattle.nv_region.specs.Stored.{Stored};
ghost use Rattle.nv_super.specs.Layout.{Layout, slot_of};
ghost use Rattle.nv_logpage.specs.Unlinked.{page_behind, word_to};
ghost use Rattle.nv_alloc.specs.FreeValue.{FreeLists};
ghost use Rattle.nv_alloc.specs.FreeLists.{Joins};
ghost use Rattle.nv_mounted.specs.Held.{Held, Store, Shows, with_inode};
ghost use Rattle.nv_mounted.specs.Blocks.{IsUnowned, KeepsFree};
ghost use Rattle.nv_mounted.specs.Bytes.{byte_of};
ghost use Rattle.nv_mounted.specs.Front.{SameFront};
ghost use Rattle.nv_mounted.specs.Mounted.{ShowsSound};
ghost use Rattle.nv_mounted.specs.Cleaned.{IsDeadIn, cleaned};

/// Once the word that leads to a page of a log, which isn't its last, leads to the page behind it, the region shows the log
/// without that page and its entries. Nothing is wrong with it where the log can do without them.
pub fn page_is_unlinked()
    ensures shown { (R S : Region) (l : Layout) (held : Store) (i a : ℕ) (h : Held) (k : ℕ) → ShowsSound R l held → slot_of l i ≡ Some a → held i ≡ Some h
        → k + 1 < length h.pages → Stored R (word_to (a + 16) h.pages k) (page_behind h.pages k) S
        → SameFront l R S × Shows S l (with_inode held i (Some (cleaned h k))) }
    ensures sound { (R S : Region) (l : Layout) (held : Store) (i a : ℕ) (h : Held) (k : ℕ) → ShowsSound R l held → slot_of l i ≡ Some a → held i ≡ Some h
        → IsDeadIn l i h k → Stored R (word_to (a + 16) h.pages k) (page_behind h.pages k) S
        → ShowsSound S l (with_inode held i (Some (cleaned h k))) }
    // Each byte of each file is where it was.
    ensures bytes { (R S : Region) (l : Layout) (held : Store) (i a : ℕ) (h : Held) (k : ℕ) → ShowsSound R l held → slot_of l i ≡ Some a → held i ≡ Some h
        → k + 1 < length h.pages → Stored R (word_to (a + 16) h.pages k) (page_behind h.pages k) S
        → (j : ℕ) (g : Held) → held j ≡ Some g → (x : ℕ) → byte_of S l g x ≡ byte_of R l g x }
{}

/// The free blocks are those of before and the page. The free lists are theirs once it was given back.
pub fn unlinked_page_is_free()
    ensures free { (R S : Region) (l : Layout) (held : Store) (i a : ℕ) (h : Held) (k : ℕ) → ShowsSound R l held → slot_of l i ≡ Some a → held i ≡ Some h
        → IsDeadIn l i h k → Stored R (word_to (a + 16) h.pages k) (page_behind h.pages k) S
        → (q : ℕ) → IsUnowned l (with_inode held i (Some (cleaned h k))) q ↔ (IsUnowned l held q ⊎ (q ≡ get_or h.pages k 0)) }
    ensures lists { (R S : Region) (l : Layout) (held : Store) (i a : ℕ) (h : Held) (k : ℕ) (old new : FreeLists) → ShowsSound R l held → slot_of l i ≡ Some a
        → held i ≡ Some h → IsDeadIn l i h k → Stored R (word_to (a + 16) h.pages k) (page_behind h.pages k) S
        → KeepsFree l held old.pools → old.sup ≡ l.sup → Joins old (record { start = get_or h.pages k 0; count = 1 }) new
        → KeepsFree l (with_inode held i (Some (cleaned h k))) new.pools }
{}
