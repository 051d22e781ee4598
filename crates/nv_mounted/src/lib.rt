//! The model of a mounted region, and the laws by which file calls keep it.
//!
//! There is no code here but the names of laws. What a mounted region shows is one function from inode numbers to what is
//! held of each; rows, free lists and faults are told of that function alone. The laws lead from an outcome without faults
//! to such a function and back, and say what a store changes of it.
#![tactic(auto)]

mod appends;
mod bytes;
mod entries;
mod names;
mod outcomes;
mod owners;
mod rows;
mod shorter;
mod stores;
mod tables;
mod upgrading;

pub use appends::{appended_log_grows, appended_log_is_sound, free_blocks_can_become_pages};
pub use bytes::{blocks_after_writes, data_beside, loose_data, pages_after_writes};
pub use entries::{clean_more, still_clean, still_faultless};
pub use names::{
    graph_came, graph_less, graph_linked, graph_more, graph_moved, graph_touched, graph_went,
};
pub use nv_graph::{Recovered, Rows};
pub use outcomes::{closing, opening, outcome_is_held};
pub use owners::{
    free_blocks_but_these, grown_by_data, grown_log_owns, lists_change, lists_follow, lists_grow,
    still_undoubled,
};
pub use rows::{rows_follow, rows_less, rows_more};
pub use shorter::{page_is_unlinked, unlinked_page_is_free};
pub use stores::{
    inode_comes, inode_goes, loose_words_are_not_shown, loose_words_leave_it_sound,
    one_slot_changes, shown_behind, slots_are_clear, slots_lie_behind, sound_moves, tail_moves,
};
pub use tables::{chain_grows, mounted_tables_grow, tables_stay, version_1_has_no_chains};
pub use upgrading::{cleared_links_are_not_shown, upgraded_regions_show_the_same};
