//! Laws of the spellings.

ghost use Rattle.std.specs.Prelude.{◌≡◌, ◌⊎◌, List, ◌++◌, ℕ};
ghost use Rattle.nv_region.specs.Region.{Region};
ghost use Rattle.nv_entry.specs.Spelling.{Spells, Stands};
ghost use Rattle.nv_entry.specs.declared.entry.Entry.{Entry as EntryValue};

/// No spelling begins another, so bytes spell at most one entry, whatever follows.
pub fn no_spelling_begins_another()
    ensures { (a b x y : List ℕ) (e f : EntryValue) → Spells a e → Spells b f → a ++ x ≡ b ++ y → (a ≡ b) × (e ≡ f) }
{}

/// Each entry has one spelling.
pub fn one_spelling()
    ensures { (a b : List ℕ) (e : EntryValue) → Spells a e → Spells b e → a ≡ b }
{}

/// At most one entry stands at a place. So what is read where an entry was written is that entry.
pub fn one_entry_at_a_place()
    ensures { (R : Region) (at : ℕ) (e f : EntryValue) → Stands R at e → Stands R at f → e ≡ f }
{}

/// At each place an entry is spelled, or none is. The words there tell which, whatever they are.
pub fn an_entry_or_none_at_a_place()
    ensures { (R : Region) (at : ℕ) → ((e : EntryValue) × Stands R at e) ⊎ ((e : EntryValue) → Stands R at e → ⊥) }
{}
