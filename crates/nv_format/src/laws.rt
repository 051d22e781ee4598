//! A law of what format stores.

ghost use Rattle.std.specs.Prelude.{ℕ, ◌↔◌};
ghost use Rattle.nv_region.specs.Region.{Region};
ghost use Rattle.nv_entry.specs.Spelling.{Stands};
ghost use Rattle.nv_entry.specs.declared.entry.Entry.TheVariants.{Attr};
ghost use Rattle.nv_format.specs.Format.{IsRootEntry};
ghost use Rattle.nv_format.specs.Root.{root_attributes};

/// The words of the root's entry are those that spell the attributes of an empty directory, as in any log.
pub fn the_root_has_an_attributes_entry()
    ensures { (region : Region) (at time : ℕ) → IsRootEntry region at time ↔ Stands region at (Attr (root_attributes time)) }
{}
