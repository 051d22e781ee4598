//! The directories that one leads to by names, each with its path, in the order in which a list of all of them shows them.
//!
//! `folder` has what stands for a directory, `below` those that one directory names, and `walk` the way through all.
#![tactic(auto)]

mod below;
mod folder;
mod walk;

pub use folder::Folder;
pub use walk::folders_of;
