//! The tree that callers of a mounted file system see: its inodes with their names and bytes, why a call is refused, and
//! what each call makes of it.
//!
//! The tree is a function from inode numbers to what an inode shows, and each call is a function from tree to tree. There
//! is no block, log or slot in it.
#![tactic(auto)]

mod laws;
mod path;
mod refusal;
mod replacing;
mod stat;

pub use laws::{
    calls_keep_sameness, each_text_says_one, first_refusal_is_first, looks_are_refused_alike,
    names_after_create, names_after_link, names_after_removal, names_after_rename,
    paths_lead_alike, read_back, refusals_are_alike, same_tree,
};
pub use path::{is_path, is_path_name, split_name};
pub use refusal::Refusal;
pub use replacing::{
    inode_after_replace, names_after_replace, replace_is_rename, replace_keeps_sameness,
};
pub use stat::Stat;
