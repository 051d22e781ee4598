//! Laws of reading a log.

ghost use Rattle.std.specs.Prelude.{◌≡◌, List, ◌∷◌, ◌++◌, ℕ, ◌≤◌, ◌/◌, ◌%◌, eqb, Option, None, IsTrue};
ghost use Rattle.std.specs.List.{Contains, IsDistinct};
ghost use Rattle.nv_region.specs.Region.{Region};
ghost use Rattle.nv_region.specs.Stops.{IsMixed};
ghost use Rattle.nv_logpage.specs.Append.{AllDiffer, AppendWords, FreshFor};
ghost use Rattle.nv_logpage.specs.Grows.{GoesPast};
ghost use Rattle.nv_logpage.specs.ToTail.{SameToTail};
ghost use Rattle.nv_logpage.specs.DataBlocks.{AreDataBlocks};
ghost use Rattle.nv_logpage.specs.Reads.{Reads, ReadsOn, places_of};
ghost use Rattle.nv_inode.specs.Slot.{is_right_log};
ghost use Rattle.nv_super.specs.Layout.{is_page_start};
ghost use Rattle.nv_super.specs.declared.superblock.Super.{Super as SuperValue};
ghost use Rattle.nv_logpage.specs.declared.found.Placed.{Placed as PlacedValue};
ghost use Rattle.nv_logpage.specs.declared.found.LogEnd.{LogEnd as EndValue};

/// A log is read in one way.
pub fn reads_once()
    ensures { (region : Region) (s : SuperValue) (head tail : ℕ) (es fs : List PlacedValue) (pages others : List ℕ) (x y : Option EndValue)
        → Reads region s head tail es pages x → Reads region s head tail fs others y → (es ≡ fs) × (pages ≡ others) × (x ≡ y) }
{}

/// Regions with the same words in all pages of a log have the same log. Of the tail's page only the words in front of where
/// an entry ends at most that begins before the tail have to be the same.
pub fn reads_its_pages_alone()
    ensures { (region other : Region) (s : SuperValue) (head tail : ℕ) (es : List PlacedValue) (pages : List ℕ) (x : Option EndValue)
        → IsTrue (is_page_start s head) → ((b : ℕ) → Contains pages b → SameToTail tail region other b) → Reads region s head tail es pages x → Reads other s head tail es pages x }
{}

/// A log whose tail moved on is the log as it was, and then what follows from the old tail on.
pub fn reads_on_from_the_tail()
    ensures { (region other : Region) (s : SuperValue) (head tail new : ℕ) (es more : List PlacedValue) (pages all : List ℕ) (x : Option EndValue)
        → IsTrue (is_page_start s head) → tail % 4096 ≤ 4064 → GoesPast region other tail new pages
        → Reads region s head tail es pages None → ReadsOn other s new pages tail more all x → Reads other s head new (es ++ more) all x }
{}

/// What is stored behind the tail of a log in its page, and in pages that aren't the log's, isn't read. So a stop while
/// entries are appended leaves the log as it was.
pub fn words_behind_the_tail_are_unread()
    ensures { (region other : Region) (s : SuperValue) (head tail : ℕ) (fresh all : List ℕ) (es : List PlacedValue)
        → IsTrue (is_page_start s head) → tail % 4096 ≤ 4064 → AllDiffer (tail / 4096 ∷ fresh) → FreshFor s fresh all → IsMixed region (AppendWords tail fresh) other
        → Reads region s head tail es all None → Reads other s head tail es all None }
{}

/// The pages of a log are data blocks, each once.
pub fn log_pages_are_data_blocks()
    ensures { (region : Region) (s : SuperValue) (head tail : ℕ) (es : List PlacedValue) (pages : List ℕ) (x : Option EndValue)
        → IsTrue (is_page_start s head) → Reads region s head tail es pages x → AreDataBlocks s pages }
{}

/// The right head and tail of an inode in use meet what reading its log asks for.
pub fn right_logs_can_be_read()
    ensures { (s : SuperValue) (head tail : ℕ) → IsTrue (is_right_log s head tail) → IsTrue (is_page_start s head) × (tail % 8 ≡ 0) × (tail % 4096 ≤ 4064) }
{}

/// Each right log has a reading, whatever the region holds.
pub fn right_logs_have_a_reading()
    ensures { (region : Region) (s : SuperValue) (head tail : ℕ) → IsTrue (is_right_log s head tail)
        → (es : List PlacedValue) × (pages : List ℕ) × (x : Option EndValue) × Reads region s head tail es pages x }
{}

/// A log without a fault has its tail's page.
pub fn a_log_has_the_page_of_its_tail()
    ensures { (region : Region) (s : SuperValue) (head tail : ℕ) (es : List PlacedValue) (pages : List ℕ)
        → IsTrue (is_page_start s head) → Reads region s head tail es pages None → Contains pages (tail / 4096) }
{}

/// No two entries of a log stand at one place.
pub fn entries_stand_apart()
    ensures { (region : Region) (s : SuperValue) (head tail : ℕ) (es : List PlacedValue) (pages : List ℕ) (x : Option EndValue)
        → IsTrue (is_page_start s head) → Reads region s head tail es pages x → IsDistinct eqb (places_of es) }
{}
