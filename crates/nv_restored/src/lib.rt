//! Laws of the round trip: what is unpacked of an archive of a tree, in a file system that has nothing else, is the same tree
//! but for the numbers of its inodes.
//!
//! Nothing here is run. Each function's contract is a law about definitions of the writer of archives, of their reader, and of
//! what the steps for their members make of a tree.
#![tactic(auto)]

mod laws;

pub use laws::{
    all_tables_have_numbers, formatted_trees_are_empty, links_are_same, round_trip,
    shown_link_counts_are_names, shown_trees_are_orderly, tables_have_numbers, unpacked_is_same,
};
