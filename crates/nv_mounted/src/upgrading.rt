//! A mounted region of version 1 that becomes one of version 2.

ghost use Rattle.std.specs.Prelude.{◌≡◌, List};
ghost use Rattle.nv_region.specs.Region.{Region};
ghost use Rattle.nv_region.specs.Stops.{IsMixed};
ghost use Rattle.nv_super.specs.declared.owners.Run.{Run};
ghost use Rattle.nv_super.specs.Layout.{Layout};
ghost use Rattle.nv_inode.specs.Upgraded.{IsUpgraded, NoLinks, upgraded_layout};
ghost use Rattle.nv_scan.specs.declared.piece.Row.{Row};
ghost use Rattle.nv_mounted.specs.Front.{SameBehind};
ghost use Rattle.nv_mounted.specs.Held.{Store};
ghost use Rattle.nv_mounted.specs.Mounted.{HasTables, IsMounted, ShowsSound};

/// An upgraded region has the tables of version 2, with the same chains, which are empty. It shows what it showed, with
/// nothing wrong, and is what the same rows and free lists say. No word behind the journals has changed.
pub fn upgraded_regions_show_the_same()
    ensures tables { (R Q : Region) (l : Layout) → l.sup.version ≡ 1 → IsUpgraded R l.sup.cpus Q → HasTables R l → HasTables Q (upgraded_layout l) }
    ensures sound { (R Q : Region) (l : Layout) (held : Store) → l.sup.version ≡ 1 → IsUpgraded R l.sup.cpus Q → ShowsSound R l held → ShowsSound Q (upgraded_layout l) held }
    ensures mounted { (R Q : Region) (l : Layout) (held : Store) (rows : List Row) (free : List (List Run)) → l.sup.version ≡ 1 → IsUpgraded R l.sup.cpus Q
        → IsMounted R l held rows free → IsMounted Q (upgraded_layout l) held rows free }
    ensures behind { (R Q : Region) (l : Layout) → IsUpgraded R l.sup.cpus Q → SameBehind l.sup.cpus R Q }
{}

/// In version 1 no link is read: while links alone are cleared, a region shows what it showed, with nothing wrong, and is
/// what the same rows and free lists say. No word behind the journals has changed.
pub fn cleared_links_are_not_shown()
    ensures tables { (R left : Region) (l : Layout) → l.sup.version ≡ 1 → IsMixed R (NoLinks l.sup.cpus) left → HasTables R l → HasTables left l }
    ensures sound { (R left : Region) (l : Layout) (held : Store) → l.sup.version ≡ 1 → IsMixed R (NoLinks l.sup.cpus) left → ShowsSound R l held → ShowsSound left l held }
    ensures mounted { (R left : Region) (l : Layout) (held : Store) (rows : List Row) (free : List (List Run)) → l.sup.version ≡ 1 → IsMixed R (NoLinks l.sup.cpus) left
        → IsMounted R l held rows free → IsMounted left l held rows free }
    ensures behind { (R left : Region) (l : Layout) → IsMixed R (NoLinks l.sup.cpus) left → SameBehind l.sup.cpus R left }
{}
