//! The pages that the log of an inode can do without: without their entries it says the same of the inode.
//!
//! A page is tried by reading the log without it. Which pages are needed is told first by one or two readings, so that a long log
//! isn't read once for each of its pages: of a file by the page of the log that was the last to say something of each page of
//! the file, of a directory by the names whose entries don't go in pairs within a page.
#![tactic(auto)]

mod changes;
mod dead;
mod in_turn;
mod marks;
mod needed;
mod pairs;
mod stamps;

pub use dead::first_dead_page;
pub use in_turn::{DeadPages, dead_pages};
