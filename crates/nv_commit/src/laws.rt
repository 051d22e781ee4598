//! Laws of the definitions by which the commits are told.

ghost use Rattle.nv_region.specs.Region.{Region};
ghost use Rattle.nv_super.specs.Layout.{Layout};
ghost use Rattle.nv_mounted.specs.Held.{Store};
ghost use Rattle.nv_mounted.specs.Mounted.{IsFaultless, ShowsSound};
ghost use Rattle.nv_commit.specs.Extends.{ShowsMoved};

/// A region that shows a store, with the superblock, the journals and the links of chains of a sound region, is sound where
/// nothing is wrong with the store.
pub fn shown_is_sound()
    ensures { (R left : Region) (l : Layout) (held after : Store) → ShowsSound R l held → ShowsMoved R l after left → IsFaultless l after → ShowsSound left l after }
{}
