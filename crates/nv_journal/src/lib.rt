//! The journals of a region: the calls that a stop cut short are rolled back, and what is wrong with a journal is told.
//! A call that changes more than one word records them first, so that a stop leaves all as they were or all changed.
//!
//! Each CPU has a journal of one block, the blocks from 1 on. At byte 0 of it stands the number of the oldest pending
//! record (dequeue), at byte 8 that of the place behind the newest (enqueue). At byte 64 + 16 k stands record k, of
//! 252: a byte address, and the value that stood there before the call. After 251 comes 0.
#![tactic(auto)]

mod committing;
mod faults;
mod laws;
mod pending;
mod rollback;
mod three_words;
mod undoing;

pub use committing::{begin, change_two, commit};
pub use laws::{
    commits_keep_the_links, one_region_is_undone, quiet_journals_stay, the_superblock_stays,
    undo_again_changes_nothing, undo_keeps_the_chains, undone_regions_are_quiet,
    version_1_is_undone_by_fixed_tables,
};
pub use three_words::change_three;
pub use undoing::{UndoError, undo, undo_by};
