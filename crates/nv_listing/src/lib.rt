//! The names of directories as text: each behind the numbers of its inode, and those of several directories, each with its path.
#![tactic(auto)]

mod folders;
mod long;
mod short;

pub use folders::push_folders;
pub use long::push_long_list;
