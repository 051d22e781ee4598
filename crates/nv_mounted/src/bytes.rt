//! What stores leave of the bytes of files, and which block each page has once a file was written.

ghost use Rattle.std.specs.Prelude.{◌≡◌, ◌⊎◌, ◌↔◌, ◌+◌, ◌-◌, ◌*◌, ◌<◌, ◌≤◌, ℕ, true, List, length, Some, None};
ghost use Rattle.std.specs.List.{Contains};
ghost use Rattle.nv_region.specs.Region.{Region};
ghost use Rattle.nv_region.specs.Stops.{IsMixed};
ghost use Rattle.nv_region.specs.Stored.{SameOutside};
ghost use Rattle.nv_super.specs.Layout.{Layout, slot_of};
ghost use Rattle.nv_alloc.specs.Taking.{HasBlock};
ghost use Rattle.nv_entry.specs.declared.entry.WriteEntry.{WriteEntry};
ghost use Rattle.nv_entry.specs.declared.entry.Entry.TheVariants.{Write};
ghost use Rattle.nv_logpage.specs.declared.found.Placed.{Placed};
ghost use Rattle.nv_radix.specs.Pages.{in_run};
ghost use Rattle.nv_scan.specs.State.{block_of};
ghost use Rattle.nv_mounted.specs.Held.{Held, Store, Shows, good_in, with_inode};
ghost use Rattle.nv_mounted.specs.Blocks.{IsUnowned, NoneDoubled};
ghost use Rattle.nv_mounted.specs.Slots.{SlotsClear};
ghost use Rattle.nv_mounted.specs.Loose.{Loose};
ghost use Rattle.nv_mounted.specs.Front.{SameBehind};
ghost use Rattle.nv_mounted.specs.Grows.{AreFree, GrowsByData, LetsGo, grown};
ghost use Rattle.nv_mounted.specs.Bytes.{byte_of};
ghost use Rattle.nv_mounted.specs.Writes.{IsReplaced, WritesData, written_blocks, written_pages};

/// Each byte of each file is the same in a region that differs in loose words alone.
pub fn loose_data()
    ensures { (l : Layout) (held : Store) (R left : Region) (i : ℕ) (h : Held) → SlotsClear l held → NoneDoubled l held → Shows R l held → IsMixed R (Loose l held) left → held i ≡ Some h
        → (x : ℕ) → byte_of left l h x ≡ byte_of R l h x }
{}

/// It is the same too where a slot alone has changed, and where the tables and the data blocks are the same.
pub fn data_beside()
    ensures slot { (l : Layout) (held : Store) (R S : Region) (j a i : ℕ) (h : Held) → SlotsClear l held → slot_of l j ≡ Some a → SameOutside R a 128 S → held i ≡ Some h → (x : ℕ)
        → byte_of S l h x ≡ byte_of R l h x }
    ensures behind { (l : Layout) (R S : Region) (h : Held) → SameBehind l.sup.cpus R S → (x : ℕ) → byte_of S l h x ≡ byte_of R l h x }
{}

/// Once entries were added that write blocks and set a file's size, a written page has the entry's block. Of the others
/// those below the size are as before, and those past it have none.
pub fn pages_after_writes()
    ensures written { (l : Layout) (held : Store) (h : Held) (tail : ℕ) (more : List Placed) (fresh : List ℕ) (size : ℕ) → WritesData l held h more fresh size
        → (x : Placed) (e : WriteEntry) (p : ℕ) → Contains more x → x.entry ≡ Write e → in_run e.offset e.count p ≡ true
        → block_of (good_in l (grown h tail more fresh)) p ≡ Some (e.block + (p - e.offset)) }
    ensures kept { (l : Layout) (held : Store) (h : Held) (tail : ℕ) (more : List Placed) (fresh : List ℕ) (size : ℕ) → WritesData l held h more fresh size
        → (p : ℕ) → (HasBlock (written_pages more) p → ⊥) → p * 4096 < size → block_of (good_in l (grown h tail more fresh)) p ≡ block_of (good_in l h) p }
    ensures cut { (l : Layout) (held : Store) (h : Held) (tail : ℕ) (more : List Placed) (fresh : List ℕ) (size : ℕ) → WritesData l held h more fresh size
        → (p : ℕ) → 0 < length more → (HasBlock (written_pages more) p → ⊥) → size ≤ p * 4096 → block_of (good_in l (grown h tail more fresh)) p ≡ None }
{}

/// By such entries a file grows by free blocks. The free blocks are those of before that weren't taken, and those that the
/// file let go: the blocks of pages that were written or cut.
pub fn blocks_after_writes()
    ensures grows { (l : Layout) (held : Store) (i : ℕ) (h : Held) (tail : ℕ) (more : List Placed) (fresh : List ℕ) (size : ℕ) → held i ≡ Some h → WritesData l held h more fresh size
        → AreFree l held fresh → GrowsByData l held h (grown h tail more fresh) fresh }
    ensures free { (l : Layout) (held : Store) (i : ℕ) (h : Held) (tail : ℕ) (more : List Placed) (fresh : List ℕ) (size : ℕ) → held i ≡ Some h → WritesData l held h more fresh size
        → AreFree l held fresh → NoneDoubled l held
        → (b : ℕ) → IsUnowned l (with_inode held i (Some (grown h tail more fresh))) b ↔ ((IsUnowned l held b × (Contains fresh b → ⊥) × (HasBlock (written_blocks more) b → ⊥))
        ⊎ LetsGo l h (grown h tail more fresh) b) }
    ensures gone { (l : Layout) (held : Store) (i : ℕ) (h : Held) (tail : ℕ) (more : List Placed) (fresh : List ℕ) (size : ℕ) → held i ≡ Some h → WritesData l held h more fresh size
        → AreFree l held fresh → NoneDoubled l held → 0 < length more
        → (b : ℕ) → LetsGo l h (grown h tail more fresh) b ↔ IsReplaced l h more size b }
{}
