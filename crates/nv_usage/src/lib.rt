//! How many blocks are taken by all that an inode holds: its own, and those of all inodes that it leads to by names, each once.
//!
//! `named` gives rows as inodes with names, and `usage` counts and tells.
#![tactic(auto)]

mod named;
mod usage;

pub use named::{NamedRows, named_rows};
pub use usage::{blocks_below, push_usage};
