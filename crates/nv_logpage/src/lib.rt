//! The log pages of an inode: reading a log from its head to its tail, or to the first fault on the way, and writing
//! behind its tail.
//!
//! A log is a chain of pages. Its entries stand in the first 4064 bytes of each page, one after the other, and the word
//! behind these leads to the next page. What lies past the tail is no part of the log: the tail alone commits
//! what was appended. A damaged region may hold anything in its pages, so a reading ends at the tail or
//! at a named fault, and it always ends.
#![tactic(auto)]

mod appending;
mod found;
mod laws;
mod light;
mod looking;
mod reader;
mod unlinking;
mod walking;

pub use appending::{append, pages_needed};
pub use found::{Finding, LogEnd, LogFault, Placed, Walk};
pub use laws::{
    a_log_has_the_page_of_its_tail, entries_stand_apart, log_pages_are_data_blocks,
    reads_its_pages_alone, reads_on_from_the_tail, reads_once, right_logs_can_be_read,
    right_logs_have_a_reading, words_behind_the_tail_are_unread,
};
pub use light::{LightFinding, LightPlaced};
pub use reader::LogReader;
pub use unlinking::unlink_page;
pub use walking::walk;
