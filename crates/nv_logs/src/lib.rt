//! Looks into an image by the rows of its inodes: logs, long listings, counts of blocks, and what blocks are, as they are written for a user.
//!
//! `inode` says which inode. `asking` finds its row. `looking` recovers a region and makes the text, of all its bytes or of its
//! metadata alone, and `writing` writes that: the text to an output, and a refusal to the errors. `all` does so with the logs of
//! all inodes in use, `block` tells what a block is, `listing` lists names with the numbers of their inodes, `folders` those of all
//! directories below, and `usage` counts blocks; these three are written by `telling`.
#![tactic(auto)]

mod all;
mod asking;
mod block;
mod folders;
mod inode;
mod listing;
mod looking;
mod telling;
mod usage;
mod writing;

pub use all::{logs_gathered, logs_image};
pub use block::block_image;
pub use folders::{folders_gathered, folders_image};
pub use inode::Inode;
pub use listing::{list_long_gathered, list_long_image};
pub use usage::{usage_gathered, usage_image};
pub use writing::{log_gathered, log_image};
