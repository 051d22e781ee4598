//! Laws of what is unpacked of an archive of a tree.

ghost use Rattle.std.specs.Prelude.{◌≡◌, ◌<◌, ◌*◌, ℕ, List, false, length, map, codes, Result};
ghost use Rattle.nv_region.specs.Region.{Region};
ghost use Rattle.nv_super.specs.Layout.{Layout, fixed_layout};
ghost use Rattle.nv_super.specs.declared.superblock.Super.{Super};
ghost use Rattle.nv_format.specs.Format.{IsFormatted};
ghost use Rattle.nv_scan.specs.declared.piece.Row.{Row};
ghost use Rattle.nv_scan.specs.Rows.{HasRows};
ghost use Rattle.nv_history.specs.Making.{most_slots};
ghost use Rattle.nv_graph.specs.Graph.{NoCrossFaults};
ghost use Rattle.nv_graph.specs.Read.{graph_of};
ghost use Rattle.nv_paths.specs.Seen.{tree_of};
ghost use Rattle.nv_tree.specs.Tree.{Tree};
ghost use Rattle.nv_tar.specs.Archive.{IsArchive};
ghost use Rattle.nv_untar.specs.declared.item.Item.{Item};
ghost use Rattle.nv_untar.specs.Items.{item_of};
ghost use Rattle.nv_untar.specs.Reading.{Holds};
ghost use Rattle.nv_roundtrip.specs.Archives.{HasRoomFor, items_of};
ghost use Rattle.nv_unpack.specs.declared.maker.Maker.{Maker};
ghost use Rattle.nv_unpack.specs.Steps.{steps_of};
ghost use Rattle.nv_unpack.specs.Making.{AreSteps};
ghost use Rattle.nv_restored.specs.Same.{IsSameByPaths};
ghost use Rattle.nv_restored.specs.Links.{LinksAreNames, IsWithinReach, HasSameLinks};
ghost use Rattle.nv_restored.specs.Orderly.{IsOrderly, IsEmpty};
ghost use Rattle.nv_restored.specs.Restored.{IsRestored};
ghost use Rattle.nv_restored.specs.Numbers.{HasNumbersFor};

/// Of an empty tree the steps for the members of an archive make the tree that the archive is of, but for the numbers of
/// inodes.
pub fn unpacked_is_same()
    ensures { (t empty u : Tree) (s : Super) (maker : Maker) (lost bytes : List ℕ) (archive : IsArchive t 1 (codes ".") lost false bytes) (items : List Item) → IsOrderly t → IsEmpty empty
        → HasNumbersFor s maker (length archive.members) → map item_of items ≡ items_of t archive.paths archive.members → AreSteps s (codes "/") maker (steps_of items) empty u → IsRestored t u }
{}

/// The same of the items that the bytes of the archive hold.
pub fn round_trip()
    ensures { (t empty u : Tree) (s : Super) (maker : Maker) (lost bytes : List ℕ) (archive : IsArchive t 1 (codes ".") lost false bytes) (items : List Item) → IsOrderly t
        → HasRoomFor t (codes ".") lost → IsEmpty empty → HasNumbersFor s maker (length archive.members)
        → Holds bytes (Result.Ok (map item_of items)) → AreSteps s (codes "/") maker (steps_of items) empty u → IsRestored t u }
{}

/// In trees that are the same but for numbers files have as many links, where link counts are numbers of names and each name
/// stands at the end of a path that a text says.
pub fn links_are_same()
    ensures { (t u : Tree) → IsSameByPaths t u → LinksAreNames t → LinksAreNames u → IsWithinReach t → IsWithinReach u → HasSameLinks t u }
{}

/// An archive gives back each tree that a file system without faults between its inodes shows: that of the rows that are read
/// of a region.
pub fn shown_trees_are_orderly()
    ensures { (shown read : Region) (l : Layout) (rows : List Row) → HasRows read l rows → NoCrossFaults (graph_of rows) → IsOrderly (tree_of shown rows) }
{}

/// In such a tree the link count of each file is the number of its names.
pub fn shown_link_counts_are_names()
    ensures { (shown : Region) (rows : List Row) → NoCrossFaults (graph_of rows) → LinksAreNames (tree_of shown rows) }
{}

/// A formatted region that has no faults between inodes shows an empty tree.
pub fn formatted_trees_are_empty()
    ensures { (old read shown : Region) (s : Super) (time : ℕ) (rows : List Row) → IsFormatted old read s time → HasRows read (fixed_layout s) rows → NoCrossFaults (graph_of rows)
        → IsEmpty (tree_of shown rows) }
{}

/// A CPU whose table can have more numbers than so many inodes has one for each of them, where it is named. In version 2 its table
/// needn't be so large, since it grows.
pub fn tables_have_numbers()
    ensures { (s : Super) (cpu count : ℕ) → 0 < s.cpus → count < most_slots s → HasNumbersFor s (Maker.Named cpu) count }
{}

/// Where no CPU is named, the tables of all together have a number for each of so many inodes, if they can have more numbers than
/// that.
pub fn all_tables_have_numbers()
    ensures { (s : Super) (count : ℕ) → 0 < s.cpus → count < s.cpus * most_slots s → HasNumbersFor s Maker.Free count }
{}
