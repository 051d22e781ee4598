//! The commits of file calls: what leads from what is held to what is held next, each with what a stop may leave of it.
//!
//! Entries are written behind a log's tail, over free blocks, where nothing is read from. One store of the tail's word
//! then makes them part of the log. So a stop leaves the log as it was or with all of them. Where a second word has to
//! change with the tail, the journal of a CPU holds both old values meanwhile.
#![tactic(auto)]

mod extending;
mod faultless;
mod laws;
mod making;
mod owning;
mod removing;
mod replacing;
mod stopped;
mod taking;
mod three_logs;
mod together;

pub use extending::extend_log;
pub use faultless::{
    created_is_faultless, linked_is_faultless, removed_is_faultless, renamed_is_faultless,
    unlinked_is_faultless,
};
pub use laws::shown_is_sound;
pub use making::{NewInode, make_inode};
pub use owning::{begun_log_owns, gone_blocks_are_free, no_page_is_said};
pub use removing::remove_inode;
pub use replacing::replace_inode;
pub use stopped::{
    later_recoveries_find_the_same, loose_words_are_not_recovered, one_thing_is_shown,
    stopped_outcome,
};
pub use taking::taken_name_is_faultless;
pub use three_logs::extend_three;
pub use together::{Extension, extend_two};
