//! Laws of what a region holds of an inode.

ghost use Rattle.std.specs.Prelude.{◌≡◌, ◌≢◌, ◌↔◌, ◌+◌, ◌*◌, ◌<◌, ◌≤◌, ℕ, List, Some, None, slice_get};
ghost use Rattle.std.specs.List.{Contains, range_with_len};
ghost use Rattle.nv_region.specs.Region.{Region, word};
ghost use Rattle.nv_super.specs.Layout.{Layout, slot_of, system_blocks};
ghost use Rattle.nv_super.specs.declared.owners.Owner.{Owner as OwnerValue};
ghost use Rattle.nv_logpage.specs.ToTail.{SameToTail};
ghost use Rattle.nv_super.specs.Order.{Lists};
ghost use Rattle.nv_names.specs.Names.{Names, ListsNames, name_at};
ghost use Rattle.nv_super.specs.declared.superblock.Super.{Super as SuperValue};
ghost use Rattle.nv_logpage.specs.declared.found.Placed.{Placed as PlacedValue};
ghost use Rattle.nv_logpage.specs.Good.{good_entries};
ghost use Rattle.nv_scan.specs.State.{block_of, named, size_of};
ghost use Rattle.nv_scan.specs.Inode.{Log, IsInode, IsInUse};
ghost use Rattle.nv_scan.specs.Owners.{Owns};
ghost use Rattle.nv_scan.specs.Scanned.{SameSlot};
ghost use Rattle.nv_scan.specs.Rows.{IsRow};
ghost use Rattle.nv_claimcore.specs.Claims.{times};
ghost use Rattle.nv_scan.specs.Tickets.{ticket_count, number_in, numbers_of};
ghost use Rattle.nv_scan.specs.Work.{numbers_in};
ghost use Rattle.nv_scan.specs.declared.piece.Row.{Row as RowValue};
ghost use Rattle.nv_super.specs.declared.kind.Kind.{Kind as KindValue};
ghost use Rattle.nv_inode.specs.Slot.{kind_at};
ghost use Rattle.nv_inode.specs.Chains.{IsLaid};
ghost use Rattle.nv_inode.specs.SlotBlocks.{slot_blocks};
ghost use Rattle.nv_inode.specs.declared.blocks.SlotBlock.{SlotBlock as SlotBlockValue};

use nv_super::Kind;

/// A region holds one log of each inode, at one address.
pub fn one_inode()
    ensures { (region : Region) (l : Layout) (i a b : ℕ) (x y : Log) → IsInode region l i a x → IsInode region l i b y → (a ≡ b) × (x ≡ y) }
{}

/// An inode is read from the words of its slot and from its log's pages alone, from that of its tail no further than where
/// an entry ends at most that begins before the tail. Its row rests on the creation time too.
pub fn inode_alone()
    ensures log { (region other : Region) (l : Layout) (i a : ℕ) (log : Log) → SameSlot region other a → ((b : ℕ) → Contains log.pages b → SameToTail (word region (a + 24)) region other b)
        → IsInode region l i a log → IsInode other l i a log }
    ensures row { (region other : Region) (l : Layout) (a : ℕ) (log : Log) (row : RowValue) → SameSlot region other a → word other (a + 32) ≡ word region (a + 32)
        → ((b : ℕ) → Contains log.pages b → SameToTail (word region (a + 24)) region other b) → IsRow region l a log row → IsRow other l a log row }
{}

/// An inode is in use exactly where its number has a slot, and the slot a kind; and then it has its log there.
pub fn in_use_by_the_slot()
    ensures slot { (region : Region) (l : Layout) (i : ℕ) → IsInUse region l i ↔ ((a : ℕ) × (kind : KindValue) × (slot_of l i ≡ Some a) × (kind_at region a ≡ Some kind)) }
    ensures log { (region : Region) (l : Layout) (i a : ℕ) (kind : KindValue) → slot_of l i ≡ Some a → kind_at region a ≡ Some kind → (log : Log) × (log.kind ≡ kind) × IsInode region l i a log }
{}

/// Each slot of a ticket's block of slots is that of the inode with the number in it, but for number 0. And each number
/// that has a slot stands once in the blocks of slots of all tickets.
pub fn tickets_are_blocks_of_slots()
    ensures slots { (l : Layout) (ticket slot : ℕ) (block : SlotBlockValue) → IsLaid l → slice_get (slot_blocks l) ticket ≡ Some block → slot < block.slots → number_in l block slot ≢ 0
        → slot_of l (number_in l block slot) ≡ Some (block.start + 128 * slot) }
    ensures numbers { (l : Layout) (ticket slot : ℕ) (block : SlotBlockValue) → slice_get (slot_blocks l) ticket ≡ Some block → slot < block.slots → number_in l block slot ≢ 0
        → Contains (numbers_of l ticket) (number_in l block slot) }
    ensures once { (l : Layout) (i a : ℕ) → IsLaid l → slot_of l i ≡ Some a → times i (numbers_in l (range_with_len 0 (ticket_count l))) ≡ 1 }
{}

/// Each owner has one block.
pub fn one_block()
    ensures { (region : Region) (l : Layout) (o : OwnerValue) (b c : ℕ) → Owns region l b o → Owns region l c o → b ≡ c }
{}

/// A listing of the names of an index rises by their bytes, and has each name once with its inode and place.
pub fn names_are_listed()
    ensures { (index : Names) (listed : List (List ℕ × ℕ × ℕ)) → ListsNames index listed → Lists (λ (x : List ℕ × ℕ × ℕ). x.0) (λ x. name_at index x.0 ≡ Some (x.1, x.2)) listed }
{}

/// Each owned block is a data block, by a layout that a region can have.
pub fn owned_blocks_are_data_blocks()
    ensures { (region : Region) (l : Layout) (b : ℕ) (o : OwnerValue) → IsLaid l → Owns region l b o → (system_blocks l.sup ≤ b) × (b < l.sup.blocks) }
{}

/// A file has no names, whatever its log says.
pub fn files_have_no_names()
    ensures { (s : SuperValue) (entries : List PlacedValue) (q : List ℕ) → named (good_entries s Kind.File entries) q ≡ None }
{}

/// A directory has no pages, whatever its log says.
pub fn directories_have_no_pages()
    ensures { (s : SuperValue) (entries : List PlacedValue) (p : ℕ) → block_of (good_entries s Kind.Directory entries) p ≡ None }
{}

/// Each page of a file that maps to a block begins below the file's size.
pub fn mapped_pages_begin_below_the_size()
    ensures { (s : SuperValue) (kind : KindValue) (entries : List PlacedValue) (p b : ℕ) → block_of (good_entries s kind entries) p ≡ Some b → p * 4096 < size_of (good_entries s kind entries) }
{}
