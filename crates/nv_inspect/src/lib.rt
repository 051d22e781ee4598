//! What a region holds, shown place by place: a log entry by entry.
//!
//! `logs` has the text of a log, `links` those between its pages, `entries` the line of an entry with what became of it, and `fields` what
//! it says. `fates` tells what became of each entry, by `held`, what holds each subject of the inode as the log is read: a number
//! (`word`), a page (`pages`) or a name (`names`). `laws` has a law.
#![tactic(auto)]

mod entries;
mod fate;
mod fates;
mod fields;
mod held;
mod laws;
mod links;
mod logs;
mod names;
mod pages;
mod pieces;
mod word;

pub use fate::Fate;
pub use laws::one_log_text;
pub use logs::push_log;
