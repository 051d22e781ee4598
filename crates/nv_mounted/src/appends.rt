//! From entries written behind a tail to the log that has grown by them, once its tail has moved.

ghost use Rattle.std.specs.Prelude.{◌≡◌, ◌+◌, ◌%◌, ◌≤◌, ℕ, List, length, take, Some};
ghost use Rattle.nv_region.specs.Region.{Region};
ghost use Rattle.nv_region.specs.Stored.{Stored};
ghost use Rattle.nv_super.specs.Layout.{Layout, slot_of};
ghost use Rattle.nv_entry.specs.declared.entry.Entry.{Entry};
ghost use Rattle.nv_logpage.specs.declared.found.Placed.{Placed};
ghost use Rattle.nv_logpage.specs.Append.{AllDiffer, AppendWords, AreGiven, CanAppend, appended, needed};
ghost use Rattle.nv_mounted.specs.Held.{Held, Store, Shows, with_inode};
ghost use Rattle.nv_mounted.specs.Blocks.{NoneDoubled};
ghost use Rattle.nv_mounted.specs.Slots.{SlotsClear};
ghost use Rattle.nv_mounted.specs.Mounted.{IsFaultless, ShowsSound};
ghost use Rattle.nv_mounted.specs.Loose.{Loose};
ghost use Rattle.nv_mounted.specs.Grows.{AreFree, grown};
ghost use Rattle.nv_mounted.specs.Appended.{Appends, HasBehind};

/// Entries can be written behind the tail of an inode's log, over free blocks. The words that this may store are loose.
pub fn free_blocks_can_become_pages()
    ensures can { (R : Region) (l : Layout) (held : Store) (i : ℕ) (h : Held) (entries : List Entry) (fresh : List ℕ) → ShowsSound R l held → held i ≡ Some h
        → AreFree l held fresh → AllDiffer fresh → AreGiven entries → needed (h.tail % 4096) entries ≤ length fresh
        → CanAppend R h.tail entries fresh }
    ensures loose { (l : Layout) (held : Store) (i : ℕ) (h : Held) (fresh : List ℕ) → held i ≡ Some h → AreFree l held fresh → (k x : ℕ) → AppendWords h.tail fresh k x → Loose l held k x }
{}

/// Once they are written, the region shows what it showed, and they stand behind the tail. Once the tail has moved, the log has grown by them.
pub fn appended_log_grows()
    ensures behind { (l : Layout) (held : Store) (R S : Region) (i new : ℕ) (h : Held) (entries : List Entry) (fresh : List ℕ) → SlotsClear l held → NoneDoubled l held → Shows R l held
        → held i ≡ Some h → AreFree l held fresh → Appends R S h.tail new entries fresh
        → HasBehind S l held h new (appended fresh 0 h.tail entries) (take (needed (h.tail % 4096) entries) fresh) }
    ensures grown { (l : Layout) (held : Store) (S T : Region) (i a new : ℕ) (h : Held) (more : List Placed) (fresh : List ℕ) → SlotsClear l held → slot_of l i ≡ Some a → held i ≡ Some h
        → HasBehind S l held h new more fresh
        → Stored S (a + 24) new T → Shows T l (with_inode held i (Some (grown h new more fresh))) }
{}

/// The region is sound then, where nothing is wrong with what is held.
pub fn appended_log_is_sound()
    ensures { (S T : Region) (l : Layout) (held : Store) (i a new : ℕ) (h : Held) (more : List Placed) (fresh : List ℕ) → ShowsSound S l held → slot_of l i ≡ Some a
        → held i ≡ Some h → HasBehind S l held h new more fresh
        → IsFaultless l (with_inode held i (Some (grown h new more fresh))) → Stored S (a + 24) new T → ShowsSound T l (with_inode held i (Some (grown h new more fresh))) }
{}
